//! The programs of a stream, and the buffers of their tables.
ghost use Rattle.std.specs.Prelude.{◌≡◌, ◌++◌, IfOk, None, OnOk, flat_map, map};
ghost use Rattle.system_tables.specs.Programs as spec;

use crate::program_buffers::ProgramTables;
use crate::table_excess::TableExcess;
use arrival::Arrival;
use std::alloc::{AllocError, Global};
use std::marker::Model;
use stream_programs::FoundProgram;
use ts_tables::NamedStreams;

/// The programs of a stream's first tables, once these are known, and the buffers of their tables from then on.
#[derive(Drop)]
pub struct SystemTables {
    alloc: Global,
    programs: Option<Vec<ProgramTables>>,
}

impl Model for SystemTables {
    ghost use Rattle.std.specs.Prelude.{List, Option, option_map};
    ghost use Rattle.system_tables.specs.Programs.{ProgramState};

    ghost Value = { Option (List ProgramState) };

    ghost view = { λ t. option_map (λ programs. programs.items) t.programs };
}

// Returns the programs before their first packets.
fn programs_of(
    alloc: Global,
    arrival: &Arrival,
    found: &[FoundProgram],
) -> Result<Vec<ProgramTables>, AllocError>
    ensures { IfOk result (λ programs. programs.items ≡ map (spec.program_of arrival.now) found.now) }
{
    found
        .iter()
        .map(|program| ProgramTables::new(arrival, program))
        .collect(alloc)
}

// Gives a packet to each program, and appends the excesses that end with it.
fn take_each(
    alloc: Global,
    programs: &mut [ProgramTables],
    arrival: &Arrival,
    index: u64,
    pid: u16,
    excesses: &mut Vec<TableExcess>,
) -> Result<(), AllocError>
    ensures programs { OnOk result (programs.new ≡ map (spec.entered arrival.now index pid) programs.old) }
    ensures excesses { OnOk result (excesses.new.items
        ≡ excesses.old.items ++ flat_map (spec.excesses_in arrival.now index pid) programs.old) }
{
    for at in 0..programs.len() {
        programs[at].take(alloc, arrival, index, pid, excesses)?;
    }
    Ok(())
}

impl SystemTables {
    /// Returns the state before the first packet.
    pub fn new(alloc: Global) -> SystemTables
        ensures { result ≡ None }
    {
        SystemTables {
            alloc,
            programs: None,
        }
    }

    // Begins the buffers, once the programs are known.
    #[tactic(auto, unfolding(crate::specs::Programs::begun))]
    fn begin(&mut self, arrival: &Arrival, named: &NamedStreams) -> Result<(), AllocError>
        ensures { OnOk result (self.new ≡ spec.begun arrival.now named.now self.old) }
    {
        if self.programs.is_some() {
            return Ok(());
        }
        if let Some(found) = named.found() {
            self.programs = Some(programs_of(self.alloc, arrival, &found.programs)?);
        }
        Ok(())
    }

    /// Takes the packet of a PID at an index, and appends the excesses that end with it.
    #[tactic(auto, unfolding(crate::specs::Programs::known))]
    pub fn take(
        &mut self,
        arrival: &Arrival,
        index: u64,
        named: &NamedStreams,
        pid: u16,
        excesses: &mut Vec<TableExcess>,
    ) -> Result<(), AllocError>
        ensures programs { OnOk result (self.new ≡ spec.taken arrival.now index named.now pid self.old) }
        ensures excesses { OnOk result (excesses.new.items
            ≡ excesses.old.items ++ spec.excesses_at arrival.now index named.now pid self.old) }
    {
        self.begin(arrival, named)?;
        if let Some(programs) = &mut self.programs {
            take_each(self.alloc, programs, arrival, index, pid, excesses)?;
        }
        Ok(())
    }

    /// Returns the programs, none before they are known.
    #[tactic(auto, unfolding(crate::specs::Programs::known))]
    pub fn programs(&self) -> &[ProgramTables]
        ensures { result.now ≡ spec.known self.now }
    {
        match &self.programs {
            None => &[],
            Some(programs) => programs,
        }
    }
}
