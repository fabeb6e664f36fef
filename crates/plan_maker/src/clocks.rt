//! The limits of clocks that programs share.

ghost use Rattle.std.specs.Prelude.{◌≡◌};
ghost use Rattle.plan_maker.specs.Clocks.{clock_limit, with_sharer};

use slot_plan::{Description, ProgramDescription};

/// Returns the lesser of a limit and a program's own, if the program shares a clock.
fn with_sharer(limit: u8, program: &ProgramDescription) -> u8
    ensures { result ≡ with_sharer limit program.now }
{
    if program.has_clock() {
        limit
    } else {
        limit.min(program.pcr_limit())
    }
}

/// Returns the least limit of the programs on a program's clock, in ms.
pub fn clock_limit(description: &Description, program: &ProgramDescription) -> u8
    ensures { result ≡ clock_limit description.now program.now }
{
    let own = program.pcr_limit();
    if program.has_clock() {
        return own;
    }
    description
        .programs()
        .iter()
        .fold(own, |limit, sharer| with_sharer(limit, sharer))
}
