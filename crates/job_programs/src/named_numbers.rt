//! The programs that a transport stream names, for a refusal.

ghost use Rattle.std.specs.Prelude.{◌≡◌};
ghost use Rattle.job_programs.specs.JobPrograms as spec;

use crate::refusal::NamedNumbers;
use psi_tables::Program;

// Returns the number of the program at a place.
fn number_at(programs: &[Program], place: usize) -> Option<u16>
    ensures { result ≡ spec.number_at programs.now place }
{
    match programs.get(place) {
        Some(program) => Some(program.program_number),
        None => None,
    }
}

/// Returns the numbers of the first four of these programs, and how many there are.
#[tactic(auto, unfolding(crate::specs::JobPrograms::numbers_named))]
pub fn numbers_named(programs: &[Program]) -> NamedNumbers
    ensures { result ≡ spec.numbers_named programs.now }
{
    NamedNumbers {
        first: number_at(programs, 0),
        second: number_at(programs, 1),
        third: number_at(programs, 2),
        fourth: number_at(programs, 3),
        count: programs.len(),
    }
}
