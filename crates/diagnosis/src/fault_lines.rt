//! The line for why a description is refused.

ghost use Rattle.std.specs.Prelude.{◌≡◌, ◌++◌, OnOk, map, string_bytes};
ghost use Rattle.description_keys.specs.KeyRows.{row_of as key_of, view};
ghost use Rattle.diagnosis.specs.FaultLines as spec;

use crate::equal_keys::{EqualKeys, write_equal};
use crate::key_places::write_row;
use crate::key_tables::{row_of, write_table};
use crate::key_words::write_values;
use description_keys::{DescFault, KeyKind, KeyPart, KeyRow, keys};
use std::alloc::AllocError;
use std::fmt::Write;

// Appends the name of a key, words, and the values that the key may have.
#[tactic(auto, unfolding(crate::specs::FaultLines::said_words))]
fn write_said(front: &str, row: &KeyRow, text: &mut String) -> Result<(), AllocError>
    ensures { OnOk result (string_bytes text.new ≡ string_bytes text.old ++ spec.said_words front.now (view row.now)) }
{
    text.push_str(row.2)?;
    text.push_str(front)?;
    write_values(row, text)?;
    text.push_str("\n")
}

// Appends a key and what it has to be.
#[tactic(auto, unfolding(crate::specs::FaultLines::rule_words))]
fn write_rule(row: &KeyRow, text: &mut String) -> Result<(), AllocError>
    ensures { OnOk result (string_bytes text.new ≡ string_bytes text.old ++ spec.rule_words (view row.now)) }
{
    write_said(" has to be ", row, text)
}

// Appends what a key has to be, if it is on no line of the text, or the description has no text.
#[tactic(auto, unfolding(crate::specs::FaultLines::missing_words))]
fn write_absent(textless: bool, row: &KeyRow, text: &mut String) -> Result<(), AllocError>
    ensures { OnOk result (string_bytes text.new ≡ string_bytes text.old ++ spec.absent_words textless (view row.now)) }
{
    if textless {
        write_rule(row, text)
    } else {
        write_said(
            " is missing, or not on a line of its own: it has to be ",
            row,
            text,
        )
    }
}

// Appends the line of a key of a part, of the one with a number in its array.
#[tactic(auto, unfolding(crate::specs::FaultLines::key_line, crate::specs::FaultLines::row_line))]
fn write_key(lines: &[&str], row: &KeyRow, item: usize, text: &mut String) -> Result<(), AllocError>
    ensures { OnOk result (string_bytes text.new ≡ string_bytes text.old
        ++ spec.key_line (map (λ s. s.now) lines.now) (view row.now) item) }
{
    match row_of(row.0, item, row.2, lines) {
        Some(place) => {
            write_row(Some(place), text)?;
            write_table(row.0, item, text)?;
            write_rule(row, text)
        }
        None => {
            write_table(row.0, item, text)?;
            write_absent(lines.is_empty(), row, text)
        }
    }
}

// Appends how many tables an array may have.
fn write_most(least: usize, most: usize, text: &mut String) -> Result<(), AllocError>
    ensures { OnOk result (string_bytes text.new ≡ string_bytes text.old ++ spec.most_words least most) }
{
    if least == 0 {
        write!(text, "expected at most {most}")
    } else {
        write!(text, "expected {least} to {most}")
    }
}

// Returns the name of the table that has an array, with a dot; the document has no name.
#[tactic(auto, unfolding(crate::specs::FaultLines::parent_words))]
fn parent_of(part: KeyPart) -> &'static str
    ensures { result.now ≡ spec.parent_words part }
{
    match part {
        KeyPart::Network => "network.",
        _ => "",
    }
}

// Appends the head of an array.
fn write_array(parent: &str, name: &str, text: &mut String) -> Result<(), AllocError>
    ensures { OnOk result (string_bytes text.new ≡ string_bytes text.old ++ spec.array_words parent.now name.now) }
{
    write!(text, " [[{parent}{name}]] tables")
}

// Appends the end of the line: how many tables a transponder may have, if they are more.
fn write_more(most: usize, more: usize, text: &mut String) -> Result<(), AllocError>
    ensures { OnOk result (string_bytes text.new ≡ string_bytes text.old ++ spec.more_words most more) }
{
    if most == more {
        text.push_str("\n")
    } else {
        write!(text, ", with transponder = true up to {more}\n")
    }
}

// Appends how many tables of an array are expected.
fn write_tables(
    least: usize,
    most: usize,
    more: usize,
    row: &KeyRow,
    text: &mut String,
) -> Result<(), AllocError>
    ensures { OnOk result (string_bytes text.new ≡ string_bytes text.old
        ++ spec.tables_words least most more (view row.now)) }
{
    write_most(least, most, text)?;
    write_array(parent_of(row.0), row.2, text)?;
    write_more(most, more, text)
}

// Appends the line of a key's row, of the table with a number in its array.
#[tactic(auto, unfolding(crate::specs::FaultLines::kind_line, crate::specs::FaultLines::kind_line_by))]
fn write_kind(
    lines: &[&str],
    row: &KeyRow,
    item: usize,
    text: &mut String,
) -> Result<(), AllocError>
    ensures { OnOk result (string_bytes text.new ≡ string_bytes text.old
        ++ spec.kind_line (map (λ s. s.now) lines.now) (view row.now) item) }
{
    match row.3 {
        KeyKind::OneTable => write_rule(row, text),
        KeyKind::Tables(least, most, more) => write_tables(least, most, more, row, text),
        _ => write_key(lines, row, item, text),
    }
}

// Appends the line of the key whose refusal has this number.
#[tactic(auto, unfolding(crate::specs::FaultLines::code_line))]
fn write_code(lines: &[&str], code: u8, item: usize, text: &mut String) -> Result<(), AllocError>
    ensures { OnOk result (string_bytes text.new ≡ string_bytes text.old
        ++ spec.code_line (map (λ s. s.now) lines.now) (key_of code) item) }
{
    match keys::row_of(code) {
        None => Ok(()),
        Some(row) => write_kind(lines, row, item, text),
    }
}

/// Appends the line of a refusal.
#[tactic(auto, unfolding(crate::specs::FaultLines::fault_line))]
pub fn write_fault(lines: &[&str], fault: DescFault, text: &mut String) -> Result<(), AllocError>
    ensures { OnOk result (string_bytes text.new
        ≡ string_bytes text.old ++ spec.fault_line (map (λ s. s.now) lines.now) fault) }
{
    match fault {
        DescFault::Text => text.push_str("the description is not valid TOML\n"),
        DescFault::UnknownKey => text.push_str("unknown key\n"),
        DescFault::Key(code, item) => write_code(lines, code, item, text),
        DescFault::EqualPids => write_equal(lines, EqualKeys::Pids, text),
        DescFault::EqualNumbers => write_equal(lines, EqualKeys::Numbers, text),
        DescFault::EventOrder(item) => write!(
            text,
            "[[event]] {item} begins before an earlier one of its program ends\n"
        ),
        DescFault::TooLong(item) => write!(
            text,
            "table {item} would have a section_length over 1021\n"
        ),
    }
}
