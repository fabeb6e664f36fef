//! Which slots carry the clock references of a program (ISO/IEC 13818-1, 2.4.4.9).

ghost use Rattle.std.specs.Prelude.{◌≡◌};
ghost use Rattle.description_parts.specs.Tables as spec;

use crate::contents::Contents;
use crate::program::ProgramDescription;

// Returns the place of the first program without clock references of its own.
fn clock_holder(programs: &[ProgramDescription]) -> Option<usize>
    ensures { result ≡ spec.clock_holder programs.now }
{
    programs.iter().position(|program| !program.has_clock())
}

impl Contents {
    /// Returns the number of the program whose slots carry the clock references of a program: its own, or, if programs
    /// share a clock, the first of these.
    pub fn clock_of(&self, program: usize) -> usize
        ensures { result ≡ spec.clock_of self.now program }
    {
        match self.programs().get(program) {
            None => program,
            Some(one) if one.has_clock() => program,
            Some(_) => clock_holder(self.programs()).unwrap_or(program),
        }
    }

    /// Returns whether the slots of a program carry clock references.
    pub fn has_references(&self, program: usize) -> bool
        ensures { result ≡ spec.has_references self.now program }
    {
        self.clock_of(program) == program
    }
}
