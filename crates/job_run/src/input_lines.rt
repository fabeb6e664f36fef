//! The lines about an input, if there are several.

ghost use Rattle.std.specs.Prelude.{◌≡◌, ◌++◌, OnOk, map, string_bytes};
ghost use Rattle.job_run.specs.InputLines as spec;

use job_inputs::{InputNote, NoteCause};
use std::alloc::AllocError;
use std::fmt::Write;

// Appends the number of an input.
#[tactic(auto, unfolding(crate::specs::InputLines::input_head))]
fn write_head(number: usize, name: &str, text: &mut String) -> Result<(), AllocError>
    ensures { OnOk result (string_bytes text.new ≡ string_bytes text.old ++ spec.input_head number name.now) }
{
    let shown = number.saturating_add(1);
    write!(text, "input {shown} {name}:")
}

/// Appends the line above the lines of an input; inputs are numbered from 0 on.
#[tactic(auto, unfolding(crate::specs::InputLines::input_line))]
pub(crate) fn write_input(number: usize, name: &str, text: &mut String) -> Result<(), AllocError>
    ensures { OnOk result (string_bytes text.new ≡ string_bytes text.old ++ spec.input_line number name.now) }
{
    write_head(number, name, text)?;
    text.push_str("\n")
}

// Appends the change to an input.
#[tactic(auto, unfolding(crate::specs::InputLines::cause_text))]
fn write_cause(cause: NoteCause, text: &mut String) -> Result<(), AllocError>
    ensures { OnOk result (string_bytes text.new ≡ string_bytes text.old ++ spec.cause_text cause) }
{
    match cause {
        NoteCause::Program(number) => {
            let (from, to) = (number.from, number.to);
            write!(text, " program {from} is {to}\n")
        }
        NoteCause::Pid(number) => {
            let (from, to) = (number.from, number.to);
            write!(text, " pid {from} is {to}\n")
        }
        NoteCause::Network => text.push_str(" NIT left out\n"),
        NoteCause::Time => text.push_str(" TDT left out\n"),
        NoteCause::Events(count) => write!(text, " {count} events left out\n"),
    }
}

// Returns the name of an input.
fn name_of<'a>(names: &[&'a str], number: usize) -> &'a str
    ensures { result.now ≡ spec.name_of (map (λ s. s.now) names.now) number }
{
    match names.get(number) {
        Some(name) => *name,
        None => "",
    }
}

// Appends the line of a note.
#[tactic(auto, unfolding(crate::specs::InputLines::note_line))]
fn write_note(names: &[&str], note: InputNote, text: &mut String) -> Result<(), AllocError>
    ensures { OnOk result (string_bytes text.new ≡ string_bytes text.old
        ++ spec.note_line (map (λ s. s.now) names.now) note) }
{
    write_head(note.input, name_of(names, note.input), text)?;
    write_cause(note.cause, text)
}

/// Appends a line for each note; the inputs have these names.
pub(crate) fn write_notes(
    names: &[&str],
    notes: &[InputNote],
    text: &mut String,
) -> Result<(), AllocError>
    ensures { OnOk result (string_bytes text.new ≡ string_bytes text.old
        ++ spec.note_lines (map (λ s. s.now) names.now) notes.now) }
{
    for note in notes {
        write_note(names, *note, text)?;
    }
    Ok(())
}

// Returns whether the note reports a loss.
#[tactic(auto, unfolding(crate::specs::InputLines::is_cause_loss))]
fn is_cause_loss(cause: NoteCause) -> bool
    ensures { result ≡ spec.is_cause_loss cause }
{
    match cause {
        NoteCause::Network | NoteCause::Events(_) => true,
        NoteCause::Program(_) | NoteCause::Pid(_) | NoteCause::Time => false,
    }
}

/// Returns whether any of the notes reports a loss.
pub(crate) fn are_lost(notes: &[InputNote]) -> bool
    ensures { result ≡ spec.are_lost notes.now }
{
    notes.iter().any(|note| is_cause_loss(note.cause))
}
