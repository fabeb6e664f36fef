//! The limit of a program's clock references, if it is too small.

ghost use Rattle.std.specs.Prelude.{◌≡◌, ◌++◌, OnOk, option_map, string_bytes};
ghost use Rattle.plan_diagnosis.specs.ReasonLines as spec;

use crate::item_names::write_name_of_program;
use crate::least_values::write_less;
use description_parts::ProgramDescription;
use std::alloc::AllocError;

/// The greatest value of `pcr_limit`, in ms.
const GREATEST_PCR_LIMIT: u128 = 100;

/// Appends the line of a limit that is too small, with the least limit that would do and what asks for it.
pub fn write_pcr_limit(
    place: usize,
    program: &ProgramDescription,
    least: u128,
    cause: &str,
    text: &mut String,
) -> Result<(), AllocError>
    ensures { OnOk result (string_bytes text.new
        ≡ string_bytes text.old ++ spec.pcr_words place program.now least cause.now) }
{
    let limit = u128::from(program.pcr_limit());
    write_name_of_program(place, Some(program), text)?;
    write_less("pcr_limit", limit, least, GREATEST_PCR_LIMIT, cause, text)
}
