//! The lines for fields of packets and of PES headers that are not written again.

ghost use Rattle.std.specs.Prelude.{◌≡◌, ◌++◌, IfOk, OnOk, string_bytes};
ghost use Rattle.std.specs.List.{list_any};
ghost use Rattle.packet_sync.specs.Fields.{is_loss};
ghost use Rattle.job_run.specs.FieldLines as spec;

use job_inputs::JobInput;
use packet_sync::{Field, FieldLeftOut};
use std::alloc::{AllocError, Global};
use std::fmt::Write;

// Returns the words about a field, after its PID.
#[tactic(auto, unfolding(crate::specs::FieldLines::field_text))]
fn field_text(field: Field) -> &'static str
    ensures { result.now ≡ spec.field_text field }
{
    match field {
        Field::TransportPriority => " transport priority left out\n",
        Field::Discontinuity => " discontinuity indicators left out\n",
        Field::RandomAccess => " random access indicators left out\n",
        Field::StreamPriority => " elementary stream priority indicators left out\n",
        Field::OriginalClock => " original program clock references left out\n",
        Field::SpliceCountdown => " splice countdown left out\n",
        Field::AdaptationPrivateData => " private data of adaptation fields left out\n",
        Field::AdaptationExtension => " extension of adaptation fields left out\n",
        Field::Alignment => " data alignment indicators left out\n",
        Field::Flags => " priority, copyright or original flags of PES headers left out\n",
        Field::Scrambling => " scrambled in PES packets: taken as it is\n",
        Field::LongHeader => " PES headers of 45 bytes: written without stuffing\n",
        Field::PrivateData => " private data of PES headers left out\n",
        Field::OtherHeaderData => " other data of PES headers left out\n",
        Field::UnreadHeader => " PES header continues in another packet: not read\n",
    }
}

// Appends the line of a field on a PID.
#[tactic(auto, unfolding(crate::specs::FieldLines::field_line))]
fn write_field(left_out: &FieldLeftOut, text: &mut String) -> Result<(), AllocError>
    ensures { OnOk result (string_bytes text.new ≡ string_bytes text.old ++ spec.field_line left_out.now) }
{
    let FieldLeftOut { pid, field } = *left_out;
    write!(text, "pid {pid}")?;
    text.push_str(field_text(field))
}

/// Appends a line for each field on a PID.
pub(crate) fn write_fields(fields: &[FieldLeftOut], text: &mut String) -> Result<(), AllocError>
    ensures { OnOk result (string_bytes text.new ≡ string_bytes text.old ++ spec.field_lines fields.now) }
{
    for field in fields {
        write_field(field, text)?;
    }
    Ok(())
}

// Returns whether a field is of a stream that is carried, or in packets also of a table or a clock.
fn is_carried(input: &JobInput, left_out: &FieldLeftOut) -> bool
    ensures { result ≡ spec.is_carried input.now left_out.now }
{
    let FieldLeftOut { pid, field } = *left_out;
    input.has_stream(pid)
        || (field.is_of_packet() && (input.carries_table(pid) || input.has_clock(pid)))
}

// Returns whether a field of a carried PID is reported: every field if `all`, otherwise only a loss to a viewer.
fn is_reported(all: bool, input: &JobInput, left_out: &FieldLeftOut) -> bool
    ensures { result ≡ spec.is_reported all input.now left_out.now }
{
    is_carried(input, left_out) && (all || left_out.field.is_loss())
}

/// Returns the fields to report: on PIDs of carried streams, and for fields of packets also of carried tables and
/// clocks; every such field if `all`, otherwise only a loss to a viewer.
pub(crate) fn reported_fields(
    alloc: Global,
    all: bool,
    input: &JobInput,
    fields: &[FieldLeftOut],
) -> Result<Vec<FieldLeftOut>, AllocError>
    ensures { IfOk result (λ reported. reported.items ≡ spec.reported_fields all input.now fields.now) }
{
    fields
        .iter()
        .filter(|field| is_reported(all, input, field))
        .copied()
        .collect(alloc)
}

/// Returns whether any of the fields is a loss to a viewer.
pub(crate) fn are_needed(fields: &[FieldLeftOut]) -> bool
    ensures { result ≡ list_any (λ f. is_loss f.field) fields.now }
{
    fields.iter().any(|left_out| left_out.field.is_loss())
}
