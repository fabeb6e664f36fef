//! The tables of a description that hold keys.

ghost use Rattle.std.specs.Prelude.{◌≡◌, ◌++◌, OnOk, map, option_map, string_bytes};
ghost use Rattle.diagnosis.specs.KeyTables as spec;

use crate::key_places::{table_row, top_row};
use description_keys::KeyPart;
use std::alloc::AllocError;
use std::fmt::Write;

// Returns the head before the keys of a part.
#[tactic(auto, unfolding(crate::specs::KeyTables::head_of))]
fn head_of(part: KeyPart) -> &'static str
    ensures { result.now ≡ spec.head_of part }
{
    match part {
        KeyPart::Document => "",
        KeyPart::Network => "[network]",
        KeyPart::Program => "[[program]]",
        KeyPart::Stream => "[[stream]]",
        KeyPart::Event => "[[event]]",
        KeyPart::Table => "[[table]]",
        KeyPart::NetworkStream => "[[network.stream]]",
    }
}

/// Returns the line of a key of a part, of the one with a number in its array.
#[tactic(auto, unfolding(crate::specs::KeyTables::row_of))]
pub fn row_of<'a>(
    part: KeyPart,
    item: usize,
    key: &str,
    lines: &[&'a str],
) -> Option<(usize, &'a str)>
    ensures { option_map (λ row. (row.0, row.1.now)) result
        ≡ spec.row_of part item key.now (map (λ s. s.now) lines.now) }
{
    match part {
        KeyPart::Document => top_row(key, lines),
        _ => table_row(head_of(part), item, key, lines),
    }
}

// Appends the head of the network's table.
fn write_head(head: &str, text: &mut String) -> Result<(), AllocError>
    ensures { OnOk result (string_bytes text.new ≡ string_bytes text.old ++ spec.head_words head.now) }
{
    write!(text, "{head} ")
}

// Appends the head of a table of an array, and its number.
fn write_item(head: &str, item: usize, text: &mut String) -> Result<(), AllocError>
    ensures { OnOk result (string_bytes text.new ≡ string_bytes text.old ++ spec.item_words head.now item) }
{
    write!(text, "{head} {item} ")
}

/// Appends the name of a part, of the one with a number in its array.
#[tactic(auto, unfolding(crate::specs::KeyTables::table_words))]
pub fn write_table(part: KeyPart, item: usize, text: &mut String) -> Result<(), AllocError>
    ensures { OnOk result (string_bytes text.new ≡ string_bytes text.old ++ spec.table_words part item) }
{
    let head = head_of(part);
    match part {
        KeyPart::Document => Ok(()),
        KeyPart::Network => write_head(head, text),
        _ => write_item(head, item, text),
    }
}
