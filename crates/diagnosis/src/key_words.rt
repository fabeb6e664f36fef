//! The values that a key of a description may have, in words.

ghost use Rattle.std.specs.Prelude.{◌≡◌, ◌++◌, OnOk, string_bytes};
ghost use Rattle.description_keys.specs.KeyRows.{view};
ghost use Rattle.diagnosis.specs.KeyWords as spec;

use description_keys::{KeyKind, KeyRow};
use std::alloc::AllocError;
use std::fmt::Write;

// Returns the words for values of a kind without numbers of its own; empty for any other.
#[tactic(auto, unfolding(crate::specs::KeyWords::kind_words))]
fn kind_words(kind: KeyKind) -> &'static str
    ensures { result.now ≡ spec.kind_words kind }
{
    match kind {
        KeyKind::Pid => "a PID, 32 to 8190",
        KeyKind::Moment => {
            "a time in quotation marks, YYYY-MM-DDThh:mm:ss, 1970-01-01T00:00:00 to 2037-12-31T23:59:59"
        }
        KeyKind::Flag(_) => "true or false",
        KeyKind::LanguageIfAny => "three ASCII letters",
        KeyKind::Sections => {
            "1 to 8 strings of hex, each a whole section of up to 4096 bytes with its check word"
        }
        KeyKind::Owner => "the number of a [[program]] of this description",
        KeyKind::OneTable => "a table",
        _ => "",
    }
}

// Appends the range of a number, and its unit.
fn write_range(least: u64, most: u64, unit: &str, text: &mut String) -> Result<(), AllocError>
    ensures { OnOk result (string_bytes text.new ≡ string_bytes text.old ++ spec.range_words least most unit.now) }
{
    write!(text, "{least} to {most}{unit}")
}

// Appends how long a text may be.
fn write_length(most: u8, text: &mut String) -> Result<(), AllocError>
    ensures { OnOk result (string_bytes text.new ≡ string_bytes text.old ++ spec.length_words most) }
{
    write!(text, "a text of up to {most} bytes")
}

// Appends how long a loop of descriptors may be.
fn write_loop(most: usize, text: &mut String) -> Result<(), AllocError>
    ensures { OnOk result (string_bytes text.new ≡ string_bytes text.old ++ spec.loop_words most) }
{
    write!(text, "hex of whole descriptors, up to {most} bytes")
}

/// Appends the values that the key of a row may have.
#[tactic(auto, unfolding(crate::specs::KeyWords::values_of, crate::specs::KeyWords::values_text))]
pub(crate) fn write_values(row: &KeyRow, text: &mut String) -> Result<(), AllocError>
    ensures { OnOk result (string_bytes text.new ≡ string_bytes text.old ++ spec.values_text (view row.now)) }
{
    match row.3 {
        KeyKind::Number(least, most) => write_range(least, most, row.4, text),
        KeyKind::NumberOr(_, least, most) => write_range(least, most, row.4, text),
        KeyKind::NumberIfAny(least, most) => write_range(least, most, row.4, text),
        KeyKind::TextOrEmpty(most) => write_length(most, text),
        KeyKind::Descriptors(most) => write_loop(most, text),
        KeyKind::Joint(_) => text.push_str(row.4),
        kind => text.push_str(kind_words(kind)),
    }
}
