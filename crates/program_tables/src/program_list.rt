//! The programs of a table in their order, with a table of their numbers.

ghost use Rattle.std.specs.Prelude.{◌≡◌, ◌==◌, ◌||◌, [], OnOk};
ghost use Rattle.program_tables.specs.Association.{is_named, with_program};

use psi_tables::Program;
use std::alloc::{AllocError, Allocator};
use std::marker::Model;

/// How many program_numbers there are.
pub const PROGRAM_NUMBERS: usize = 65_536;

/// Programs in order, each program_number once and not 0.
#[derive(Drop)]
pub struct ProgramList<A: Allocator> {
    programs: Vec<Program, A>,
    // by program_number: whether it is named
    numbers: [bool; PROGRAM_NUMBERS],
}

// A contract sees the programs.
impl<A: Allocator> Model for ProgramList<A> {
    ghost use Rattle.std.specs.Prelude.{List};
    ghost use Rattle.psi_tables.specs.declared.pat.programs.Program.{Program};
    ghost use Rattle.program_tables.specs.ProgramLists.{MarksNamed};

    ghost Value = { List Program };

    ghost view = { λ l. l.programs.items };

    ghost invariant = { λ l. MarksNamed l.numbers l.programs.items };
}

impl<A: Allocator> ProgramList<A> {
    /// Returns no programs.
    pub fn new(alloc: A) -> ProgramList<A>
        ensures { result ≡ [] }
    {
        ProgramList {
            programs: Vec::new(alloc),
            numbers: [false; PROGRAM_NUMBERS],
        }
    }

    // Returns whether entries of a number are passed over: 0 names the network PID, and of a number the first entry
    // counts.
    fn passes_over(&self, number: u16) -> bool
        ensures { result ≡ ((number == 0) || is_named number self.now) }
    {
        number == 0 || self.numbers[number as usize]
    }

    /// Adds the next entry of a table.
    #[tactic(auto, unfolding(crate::specs::Association::with_program))]
    pub fn add(&mut self, program: Program) -> Result<(), AllocError>
        ensures { OnOk result (self.new ≡ with_program self.old program) }
    {
        if self.passes_over(program.program_number) {
            return Ok(());
        }
        self.programs.push(program)?;
        self.numbers[program.program_number as usize] = true;
        Ok(())
    }

    /// Returns the programs.
    pub fn programs(&self) -> &[Program]
        ensures { result.now ≡ self.now }
    {
        self.programs.as_slice()
    }

    /// Returns the programs alone.
    pub fn into_programs(self) -> Vec<Program, A>
        ensures { result.items ≡ self }
    {
        self.programs
    }
}
