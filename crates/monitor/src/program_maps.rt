//! The PIDs on which program map sections have to recur: the PIDs that a program association section names.
ghost use Rattle.std.specs.Prelude.{◌≡◌, ◌++◌, [], OnOk, flat_map};
ghost use Rattle.monitor.specs.Reports.{ended_map};
ghost use Rattle.psi_tables.specs.ProgramAssociation.{pat_at, programs_of};
ghost use Rattle.psi_tables.specs.Reading.{section_at};
ghost use Rattle.psi_tables.specs.Views.{section_view};
ghost use Rattle.monitor.specs.ProgramMaps.{named, named_all, named_by, map_begins, no_maps, programs_by};
ghost use Rattle.monitor.specs.ProgramMaps.{programs_in_section};

use crate::fault::{Rule, StreamFault};
use crate::recurrence::{LatePacket, is_long};
use indexmap::IndexMap;
use psi_tables::{Pat, Programs, Section};
use std::alloc::{AllocError, Allocator};
use std::hash::{BuildHasherDefault, FoldHasher};
use std::marker::Model;

/// A PID that a PAT names: the packet where it was first named, and the packet where a section last began.
#[derive(Clone, Copy)]
pub(crate) struct NamedMap {
    pub since: u64,
    pub last: u64,
}

/// The PIDs that were named, and the packets at which a section came too late.
#[derive(Drop)]
pub(crate) struct ProgramMapWatch<A: Allocator> {
    limit_times_rate: u64,
    named: IndexMap<u16, NamedMap, BuildHasherDefault<FoldHasher>, A>,
    late: Vec<LatePacket, A>,
}

impl<A: Allocator> Model for ProgramMapWatch<A> {
    ghost use Rattle.monitor.specs.ProgramMaps.{ProgramMapState};

    ghost Value = { ProgramMapState };

    ghost view = { λ m. record {
      limit_times_rate = m.limit_times_rate;
      named = m.named.entries;
      late = m.late.items;
    } };
}

#[tactic(auto, unfolding(psi_tables::specs::ProgramAssociation::programs_in))]
fn no_programs<'a>() -> Programs<'a>
    ensures { programs_of result ≡ [] }
{
    Programs::over(&[])
}

// Returns the entries of a section, if it is a program association section that is in force now.
#[tactic(auto, unfolding(crate::specs::ProgramMaps::programs_by))]
fn programs_of_pat<'a>(section: &Section<'a>) -> Programs<'a>
    ensures { programs_of result ≡ programs_by (pat_at (section_view section.now)) }
{
    match Pat::read(section) {
        Err(_) => no_programs(),
        Ok(pat) => {
            if pat.header.current_next {
                pat.programs
            } else {
                no_programs()
            }
        }
    }
}

#[tactic(auto, unfolding(crate::specs::ProgramMaps::programs_in_section))]
fn programs_in_section<'a>(section: &'a [u8]) -> Programs<'a>
    ensures { programs_of result ≡ programs_in_section (section_at section.now) }
{
    match Section::read(section) {
        Err(_) => no_programs(),
        Ok((section, _)) => programs_of_pat(&section),
    }
}

impl<A: Allocator + Copy> ProgramMapWatch<A> {
    /// Returns a watch that names no PID.
    pub fn new(alloc: A, limit_times_rate: u64) -> ProgramMapWatch<A>
        ensures { result ≡ no_maps limit_times_rate }
    {
        ProgramMapWatch {
            limit_times_rate,
            named: IndexMap::new(alloc),
            late: Vec::new(alloc),
        }
    }

    /// Names a PID at a packet.
    #[tactic(auto, unfolding(crate::specs::ProgramMaps::named_from))]
    fn name(&mut self, pid: u16, packet: u64) -> Result<(), AllocError>
        ensures { OnOk result (self.new ≡ named self.old pid packet) }
    {
        if self.named.get(&pid).is_none() {
            self.named.insert(
                pid,
                NamedMap {
                    since: packet,
                    last: packet,
                },
            )?;
        }
        Ok(())
    }

    /// Names the entries of a section at a packet, except entries of program 0, which name the network PID.
    #[tactic(auto, unfolding(crate::specs::ProgramMaps::named_all))]
    fn name_programs(&mut self, programs: Programs<'_>, packet: u64) -> Result<(), AllocError>
        ensures { OnOk result (self.new ≡ named_all self.old (programs_of programs.entry) packet) }
    {
        for program in programs {
            if program.program_number != 0 {
                self.name(program.pid, packet)?;
            }
        }
        Ok(())
    }

    /// Takes a section that ended on PID 0 with a packet.
    #[tactic(auto, unfolding(crate::specs::ProgramMaps::named_by))]
    pub fn read(&mut self, section: &[u8], packet: u64) -> Result<(), AllocError>
        ensures { OnOk result (self.new ≡ named_by self.old section.now packet) }
    {
        self.name_programs(programs_in_section(section), packet)
    }

    /// Takes the beginning of a program map section on a PID, which was found at a packet.
    #[tactic(auto, unfolding(crate::specs::ProgramMaps::map_begins_at, crate::specs::ProgramMaps::late_map))]
    pub fn begin(&mut self, pid: u16, found: u64, packet: u64) -> Result<(), AllocError>
        ensures { OnOk result (self.new ≡ map_begins self.old pid found packet) }
    {
        let Some(named) = self.named.get(&pid).copied() else {
            return Ok(());
        };
        if found <= named.since || packet <= named.since {
            return Ok(());
        }
        if is_long(self.limit_times_rate, packet.saturating_sub(named.last)) {
            self.late.push(LatePacket { pid, packet })?;
        }
        let since = named.since;
        self.named.insert(
            pid,
            NamedMap {
                since,
                last: packet,
            },
        )?;
        Ok(())
    }

    /// Returns the packets at which a section began too late.
    pub fn late(&self) -> &[LatePacket]
        ensures { result.now ≡ self.now.late }
    {
        self.late.as_slice()
    }

    /// Appends the faults of the PIDs on which none began for too long before the end of a stream of `packets` packets.
    #[tactic(auto, unfolding(crate::specs::Reports::ended_map))]
    pub fn append_ended(
        &self,
        packets: u64,
        faults: &mut Vec<StreamFault, A>,
    ) -> Result<(), AllocError>
        ensures { OnOk result (faults.new.items ≡ faults.old.items ++ flat_map
            (ended_map self.now.limit_times_rate packets) self.now.named) }
    {
        for (pid, named) in &self.named {
            if is_long(self.limit_times_rate, packets.saturating_sub(named.last)) {
                faults.push(StreamFault {
                    packet: packets,
                    rule: Rule::Pmt,
                    pid: Some(*pid),
                })?;
            }
        }
        Ok(())
    }
}
