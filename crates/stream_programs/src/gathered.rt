//! The programs of a stream so far, with tables that look them up.

ghost use Rattle.std.specs.Prelude.{◌≡◌, ◌==◌, ◌&&◌, ◌++◌, ◌∷◌, [], if◌then◌else◌, true, OnOk, is_some};
ghost use Rattle.std.specs.List.{list_any};
ghost use Rattle.stream_programs.specs.Programs as spec;
ghost use Rattle.stream_programs.specs.Streams as held;

use crate::number_pairs::{NumberPairs, add_pair, has_pair, reserve_pair};
use crate::omission::TableOmission;
use crate::programs::{FoundProgram, FoundPrograms};
use crate::streams::{FoundStream, has_alike, holder, is_reserved, share};
use indexmap::IndexMap;
use std::alloc::{AllocError, Allocator};
use std::marker::Model;

/// The PCR_PID of a program without clock references (ISO/IEC 13818-1, 2.4.4.9).
const NO_CLOCK_REFERENCES: u16 = 0x1fff;

/// The programs of a stream so far, with pairs of numbers that say who shares, has and clocks what, in the time of one
/// look-up.
#[derive(Drop)]
pub(crate) struct Gathered<A: Allocator> {
    programs: Vec<FoundProgram<A>, A>,
    streams: Vec<FoundStream<A>, A>,
    tables: Vec<FoundStream<A>, A>,
    left_out: Vec<TableOmission, A>,
    // the PID of a stream with each program that shares it
    sharers: NumberPairs<A>,
    // 0 with each program that has a stream, its own or a shared one
    owners: NumberPairs<A>,
    // PCR_PID with each program
    clocks: NumberPairs<A>,
}

// A contract sees the programs, streams and tables gathered so far as lists.
impl<A: Allocator> Model for Gathered<A> {
    ghost use Rattle.stream_programs.specs.NumberPairs.{ArePairs};
    ghost use Rattle.stream_programs.specs.Programs.{FoundProgramsView};

    ghost Value = { FoundProgramsView };

    ghost view = { λ g. record {
      programs = g.programs.items;
      streams = g.streams.items;
      tables = g.tables.items;
      left_out = g.left_out.items;
    } };

    ghost invariant = { λ g. ArePairs g.sharers.entries g.owners.entries g.clocks.entries
        g.streams.items g.programs.items };
}

impl<A: Allocator> Gathered<A> {
    // Returns whether there is a program of this number with its clock references on a PID.
    fn has_program(&self, number: u16, pcr_pid: u16) -> bool
        ensures { result ≡ list_any (λ p. p.number == number && p.pcr_pid == pcr_pid) self.now.programs }
    {
        has_pair(&self.clocks, pcr_pid, number)
    }

    // Returns whether a program of this number has its clock references on a PID.
    #[tactic(auto, unfolding(crate::specs::Programs::has_clock))]
    fn has_clock(&self, number: u16, pcr_pid: u16) -> bool
        ensures { result ≡ spec.has_clock self.now.programs number pcr_pid }
    {
        pcr_pid != NO_CLOCK_REFERENCES && self.has_program(number, pcr_pid)
    }

    // Returns whether a program shares the stream of a PID already.
    fn shares(&self, number: u16, pid: u16) -> bool
        ensures { result ≡ spec.shares self.now.streams number pid }
    {
        has_pair(&self.sharers, pid, number)
    }

    /// Returns whether a program has a stream, its own or a shared one.
    pub(crate) fn has_stream(&self, number: u16) -> bool
        ensures { result ≡ list_any (held.is_stream_of number) self.now.streams }
    {
        has_pair(&self.owners, 0, number)
    }

    /// Returns whether any stream gathered has the same entry as `stream`, from another program's map.
    pub(crate) fn has_alike_to(&self, stream: &FoundStream<A>) -> bool
        ensures { result ≡ list_any (held.is_alike stream.now) self.now.streams }
    {
        has_alike(&self.streams, stream)
    }

    /// Returns whether a program can share the stream of the program `other`: it is no stream of sections, both
    /// programs have one clock, and the program does not share it already.
    #[tactic(auto, unfolding(crate::specs::Programs::can_share))]
    pub(crate) fn can_share(&self, other: u16, pcr_pid: u16, stream: &FoundStream<A>) -> bool
        ensures { result ≡ spec.can_share self.now other pcr_pid stream.now }
    {
        holder(stream.pid, &self.streams).is_some()
            && self.has_clock(other, pcr_pid)
            && !self.shares(stream.program, stream.pid)
    }

    /// Returns the program whose stream, or otherwise whose sections, have a PID.
    #[tactic(auto, unfolding(crate::specs::Programs::holder_in))]
    pub(crate) fn holder_of(&self, pid: u16) -> Option<u16>
        ensures { result ≡ spec.holder_in self.now pid }
    {
        match holder(pid, &self.streams) {
            Some(program) => Some(program),
            None => holder(pid, &self.tables),
        }
    }

    /// Returns whether sections can be kept on a PID: it is not reserved for tables, and no stream or table has it.
    #[tactic(auto, unfolding(crate::specs::Programs::can_place))]
    pub(crate) fn can_place(&self, pid: u16) -> bool
        ensures { result ≡ spec.can_place self.now pid }
    {
        !is_reserved(pid) && self.holder_of(pid).is_none()
    }
}

impl<A: Allocator + Copy> Gathered<A> {
    /// Returns nothing yet.
    pub(crate) fn new(alloc: A) -> Gathered<A>
        ensures { result ≡ spec.nothing }
    {
        Gathered {
            programs: Vec::new(alloc),
            streams: Vec::new(alloc),
            tables: Vec::new(alloc),
            left_out: Vec::new(alloc),
            sharers: IndexMap::new(alloc),
            owners: IndexMap::new(alloc),
            clocks: IndexMap::new(alloc),
        }
    }

    /// Returns the programs, streams and tables gathered.
    pub(crate) fn into_found(self) -> FoundPrograms<A>
        ensures { result ≡ self }
    {
        FoundPrograms {
            programs: self.programs,
            streams: self.streams,
            tables: self.tables,
            left_out: self.left_out,
        }
    }

    /// Notes an omission.
    pub(crate) fn leave_out(&mut self, why: TableOmission) -> Result<(), AllocError>
        ensures { OnOk result (self.new ≡ spec.with_left_out self.old why) }
    {
        self.left_out.push(why)?;
        Ok(())
    }

    /// Keeps a stream of a program, which no program shares yet.
    pub(crate) fn keep(&mut self, number: u16, stream: FoundStream<A>) -> Result<(), AllocError>
        requires own { stream.program ≡ number }
        requires unshared { stream.shared_with ≡ [] }
        ensures { OnOk result (self.new ≡ spec.with_kept self.old stream) }
    {
        reserve_pair(&mut self.owners)?;
        self.streams.push(stream)?;
        add_pair(&mut self.owners, 0, number);
        Ok(())
    }

    /// Keeps the sections of a stream if its PID is free.
    pub(crate) fn place(&mut self, stream: FoundStream<A>) -> Result<(), AllocError>
        ensures { OnOk result (self.new ≡ record self.old {
          tables =
              if spec.can_place self.old stream.pid then self.old.tables ++ stream ∷ [] else self.old.tables;
        }) }
    {
        if !self.can_place(stream.pid) {
            return Ok(());
        }
        self.tables.push(stream)?;
        Ok(())
    }

    /// Adds a program to the programs that share the stream of a PID.
    pub(crate) fn add_sharer(&mut self, program: u16, pid: u16) -> Result<(), AllocError>
        requires { is_some (held.holder pid self.old.streams) ≡ true }
        ensures { OnOk result (self.new ≡ record self.old { streams = held.shared_by program pid self.old.streams }) }
    {
        reserve_pair(&mut self.sharers)?;
        reserve_pair(&mut self.owners)?;
        share(program, pid, &mut self.streams)?;
        add_pair(&mut self.sharers, pid, program);
        add_pair(&mut self.owners, 0, program);
        Ok(())
    }

    /// Keeps a program of this number and PCR_PID.
    pub(crate) fn keep_program(
        &mut self,
        number: u16,
        pcr_pid: u16,
        program: FoundProgram<A>,
    ) -> Result<(), AllocError>
        requires number { program.number ≡ number }
        requires clock { program.pcr_pid ≡ pcr_pid }
        ensures { OnOk result (self.new ≡ record self.old { programs = self.old.programs ++ program ∷ [] }) }
    {
        reserve_pair(&mut self.clocks)?;
        self.programs.push(program)?;
        add_pair(&mut self.clocks, pcr_pid, number);
        Ok(())
    }
}
