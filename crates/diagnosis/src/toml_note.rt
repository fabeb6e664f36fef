//! The TOML reader's message on a text that is not valid TOML, and its place.

ghost use Rattle.std.specs.Prelude.{◌≡◌, ◌+◌, ◌++◌, IfOk, OnOk, drop, map, option_map, string_bytes};
ghost use Rattle.diagnosis.specs.TomlNotes as spec;

use crate::key_places::write_place;
use std::alloc::{AllocError, Global};
use std::fmt::Write;
use std::marker::Model;

/// The reader's message on a text, and the number of bytes before the fault.
#[derive(Drop)]
pub(crate) struct TomlNote {
    pub place: usize,
    pub message: String,
}

// A contract sees its message as bytes.
impl Model for TomlNote {
    ghost use Rattle.std.specs.Prelude.{string_bytes};
    ghost use Rattle.diagnosis.specs.TomlNotes.{TomlNoteView};

    ghost Value = { TomlNoteView };

    ghost view = { λ note. record { place = note.place; message = string_bytes note.message } };
}

/// Returns the reader's note on a text; nothing for valid TOML.
pub(crate) fn note_of(alloc: Global, bytes: &[u8]) -> Result<TomlNote, AllocError> {
    let mut message = String::new(alloc);
    match toml::table_from_slice(alloc, bytes) {
        Ok(_) => Ok(TomlNote { place: 0, message }),
        Err(error) if error.is_memory() => Err(AllocError),
        Err(error) => {
            message.push_str(error.message())?;
            let place = match error.span() {
                Some(span) => span.start,
                None => 0,
            };
            Ok(TomlNote { place, message })
        }
    }
}

// Returns the number of the line with the byte at a place, the place in the line, and the line.
#[tactic(auto, unfolding(crate::specs::TomlNotes::row_at))]
fn row_at<'a>(place: usize, lines: &[&'a str]) -> Option<(usize, usize, &'a str)>
    ensures { option_map (λ row. (row.0, (row.1, row.2.now))) result
        ≡ spec.row_at place 1 (map (λ s. s.now) lines.now) }
{
    let mut left = place;
    for i in 0..lines.len() {
        let line = lines[i];
        if left <= line.len() {
            return Some((i + 1, left, line));
        }
        left = left.saturating_sub(line.len()).saturating_sub(1);
    }
    None
}

// Appends the place of the fault, and its line.
#[tactic(auto, unfolding(crate::specs::TomlNotes::fault_place))]
fn write_row(row: Option<(usize, usize, &str)>, text: &mut String) -> Result<(), AllocError>
    ensures { OnOk result (string_bytes text.new ≡ string_bytes text.old
        ++ spec.fault_place (option_map (λ row. (row.0, (row.1, row.2.now))) row.entry)) }
{
    match row {
        None => text.push_str("the description: "),
        Some((number, before, line)) => write_place(number, before as u128 + 1, line, text),
    }
}

// Appends the reader's message.
fn write_message(message: &str, text: &mut String) -> Result<(), AllocError>
    ensures { OnOk result (string_bytes text.new ≡ string_bytes text.old ++ spec.message_words message.now) }
{
    write!(text, "not valid TOML: {message}\n")
}

/// Appends the line for a text that is not valid TOML.
pub(crate) fn write_note(
    lines: &[&str],
    note: &TomlNote,
    text: &mut String,
) -> Result<(), AllocError>
    ensures { OnOk result (string_bytes text.new
        ≡ string_bytes text.old ++ spec.note_line (map (λ s. s.now) lines.now) note.now) }
{
    write_row(row_at(note.place, lines), text)?;
    write_message(note.message.as_str(), text)
}
