//! How the items of a description are named.

ghost use Rattle.std.specs.Prelude.{◌≡◌, ◌++◌, OnOk, option_map, string_bytes};
ghost use Rattle.plan_diagnosis.specs.ItemNames as spec;

use description::Description;
use description_parts::{ProgramDescription, StreamDescription, TableKind};
use std::alloc::AllocError;
use std::fmt::Write;

/// Appends the name of a stream; a number that names no stream is written as a number.
#[tactic(auto, unfolding(crate::specs::ItemNames::name_of_stream))]
pub fn write_name_of_stream(
    number: usize,
    stream: Option<&StreamDescription>,
    text: &mut String,
) -> Result<(), AllocError>
    ensures { OnOk result (string_bytes text.new
        ≡ string_bytes text.old ++ spec.name_of_stream number (option_map (λ s. s.now) stream.entry)) }
{
    match stream {
        Some(stream) => {
            let pid = stream.pid;
            write!(text, "pid {pid}")
        }
        None => write!(text, "stream {number}"),
    }
}

/// Appends the name of a program; a place that names no program is written as a number.
#[tactic(auto, unfolding(crate::specs::ItemNames::name_of_program))]
pub fn write_name_of_program(
    place: usize,
    program: Option<&ProgramDescription>,
    text: &mut String,
) -> Result<(), AllocError>
    ensures { OnOk result (string_bytes text.new
        ≡ string_bytes text.old ++ spec.name_of_program place (option_map (λ p. p.now) program.entry)) }
{
    match program {
        Some(program) => {
            let number = program.number();
            write!(text, "program {number}")
        }
        None => write!(text, "program number {place}"),
    }
}

/// Appends the name of the stream of a number.
pub fn write_stream_name(
    description: &Description,
    number: usize,
    text: &mut String,
) -> Result<(), AllocError>
    ensures { OnOk result (string_bytes text.new
        ≡ string_bytes text.old ++ spec.stream_name description.now number) }
{
    write_name_of_stream(number, description.streams().get(number), text)
}

/// Appends the name of the program at a place.
pub fn write_program_name(
    description: &Description,
    place: usize,
    text: &mut String,
) -> Result<(), AllocError>
    ensures { OnOk result (string_bytes text.new
        ≡ string_bytes text.old ++ spec.program_name description.now place) }
{
    write_name_of_program(place, description.programs().get(place), text)
}

// Appends the name of a table of this kind.
#[tactic(auto, unfolding(crate::specs::ItemNames::name_of_table))]
fn write_name_of_table(
    description: &Description,
    number: usize,
    kind: Option<TableKind>,
    text: &mut String,
) -> Result<(), AllocError>
    ensures { OnOk result (string_bytes text.new
        ≡ string_bytes text.old ++ spec.name_of_table description.now number kind) }
{
    match kind {
        Some(TableKind::Pat) => text.push_str("PAT"),
        Some(TableKind::Pmt(place)) => {
            text.push_str("PMT of ")?;
            write_program_name(description, place, text)
        }
        Some(TableKind::Nit) => text.push_str("NIT"),
        Some(TableKind::Sdt) => text.push_str("SDT"),
        Some(TableKind::Eit) => text.push_str("EIT"),
        Some(TableKind::Tdt) => text.push_str("TDT"),
        Some(TableKind::Private(place)) => write!(text, "private table {place}"),
        None => write!(text, "table {number}"),
    }
}

/// Appends the name of the table of a number.
pub fn write_table_name(
    description: &Description,
    number: usize,
    text: &mut String,
) -> Result<(), AllocError>
    ensures { OnOk result (string_bytes text.new
        ≡ string_bytes text.old ++ spec.table_name description.now number) }
{
    write_name_of_table(description, number, description.kind(number), text)
}
