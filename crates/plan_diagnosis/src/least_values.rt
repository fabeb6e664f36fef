//! A value that is less than the least that would do.

ghost use Rattle.std.specs.Prelude.{◌≡◌, ◌++◌, OnOk, string_bytes};
ghost use Rattle.plan_diagnosis.specs.ReasonLines as spec;

use std::alloc::AllocError;
use std::fmt::Write;

/// Appends a key and its value.
pub fn write_key(key: &str, value: u128, text: &mut String) -> Result<(), AllocError>
    ensures { OnOk result (string_bytes text.new ≡ string_bytes text.old ++ spec.key_words key.now value) }
{
    write!(text, " {key} {value}")
}

/// Appends the least sufficient value; if it exceeds the greatest value of the key, none is sufficient.
pub fn write_least(least: u128, greatest: u128, text: &mut String) -> Result<(), AllocError>
    ensures { OnOk result (string_bytes text.new ≡ string_bytes text.old ++ spec.least_words least greatest) }
{
    if least > greatest {
        text.push_str(": none is enough")
    } else {
        write!(text, " is less than {least}")
    }
}

/// Appends a value that is less than the least sufficient value, and what asks for that value.
pub fn write_less(
    key: &str,
    value: u128,
    least: u128,
    greatest: u128,
    cause: &str,
    text: &mut String,
) -> Result<(), AllocError>
    ensures { OnOk result (string_bytes text.new
        ≡ string_bytes text.old ++ spec.less_words key.now value least greatest cause.now) }
{
    write_key(key, value, text)?;
    write_least(least, greatest, text)?;
    text.push_str(cause)
}
