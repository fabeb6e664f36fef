//! The lines for buffers that overflow or are not empty at least once a second, and for units that are late.

ghost use Rattle.std.specs.Prelude.{◌≡◌, ◌++◌, ◌^◌, ◌<◌, OnOk, option_map, string_bytes};
ghost use Rattle.plan_checker.specs.Refusals.{entry_of};
ghost use Rattle.plan_diagnosis.specs.ConditionLines as spec;

use crate::item_names::{write_name_of_stream, write_program_name, write_stream_name};
use crate::least_values::{write_key, write_least};
use crate::slot_conditions::write_claim;
use crate::stream_numbers::{GREATEST_LEAD, StreamNumber, key_of};
use clock27::{Rate, SLOT_SECONDS_AT_1BPS};
use description::Description;
use description_parts::StreamDescription;
use plan_checker::Refusal;
use std::alloc::AllocError;
use std::fmt::Write;

// Appends the room of a buffer, and the room that its slots need.
fn write_sizes(buffer: &str, room: u128, wanted: u128, text: &mut String) -> Result<(), AllocError>
    ensures { OnOk result (string_bytes text.new
        ≡ string_bytes text.old ++ spec.size_words buffer.now room wanted) }
{
    write!(text, "{buffer}{room} is less than {wanted} for its slots\n")
}

// Appends that a packet finds no room in a buffer.
fn write_room(
    buffer: &str,
    rate: Rate,
    refusal: Refusal,
    text: &mut String,
) -> Result<(), AllocError>
    ensures { OnOk result (string_bytes text.new
        ≡ string_bytes text.old ++ spec.room_words buffer.now rate (entry_of refusal)) }
{
    let rate = u128::from(rate.bits_per_second());
    write_sizes(
        buffer,
        refusal.right / rate,
        refusal.left.div_ceil(rate),
        text,
    )
}

// Appends that a buffer is never empty.
#[tactic(auto, unfolding(crate::specs::ConditionLines::never_empty_words))]
fn write_never_empty(buffer: &str, text: &mut String) -> Result<(), AllocError>
    ensures { OnOk result (string_bytes text.new ≡ string_bytes text.old ++ spec.never_empty_words buffer.now) }
{
    write!(text, "{buffer}is never empty\n")
}

// Appends in how many slots a buffer is empty once, and how many a second has.
fn write_seldom(
    buffer: &str,
    slots: u128,
    second: u128,
    text: &mut String,
) -> Result<(), AllocError>
    ensures { OnOk result (string_bytes text.new
        ≡ string_bytes text.old ++ spec.seldom_words buffer.now slots second) }
{
    write!(
        text,
        "{buffer}is empty only once in {slots} slots, and a second has {second}\n"
    )
}

// Appends that a buffer is empty less often than once a second.
fn write_seldom_empty(buffer: &str, refusal: Refusal, text: &mut String) -> Result<(), AllocError>
    ensures { OnOk result (string_bytes text.new
        ≡ string_bytes text.old ++ spec.seldom_empty_words buffer.now (entry_of refusal)) }
{
    let slot = u128::from(SLOT_SECONDS_AT_1BPS);
    write_seldom(buffer, refusal.left / slot, refusal.right / slot, text)
}

// Appends that a packet finds no room, that the claim of a peak or of a start is too little, or that a buffer is not
// empty at least once a second.
#[tactic(auto, unfolding(crate::specs::ConditionLines::buffer_words))]
fn write_buffer(
    buffer: &str,
    peak: &str,
    start: &str,
    rate: Rate,
    refusal: Refusal,
    text: &mut String,
) -> Result<(), AllocError>
    ensures { OnOk result (string_bytes text.new ≡ string_bytes text.old
        ++ spec.buffer_words buffer.now peak.now start.now rate (entry_of refusal)) }
{
    match refusal.part {
        1 => write_room(buffer, rate, refusal, text),
        2 => write_claim(peak, refusal.right, refusal.left, text),
        3 => write_claim(start, refusal.right, refusal.left, text),
        4 => write_never_empty(buffer, text),
        _ => write_seldom_empty(buffer, refusal, text),
    }
}

/// Appends the line of a transport buffer: streams and programs have one row of numbers.
pub fn write_transport(
    description: &Description,
    refusal: Refusal,
    text: &mut String,
) -> Result<(), AllocError>
    ensures { OnOk result (string_bytes text.new
        ≡ string_bytes text.old ++ spec.transport_line description.now (entry_of refusal)) }
{
    let (rate, item) = (description.rate(), refusal.item as usize);
    let (buffer, streams) = (" transport buffer ", description.streams().len());
    if item < streams {
        write_stream_name(description, item, text)?;
        write_buffer(buffer, "peak", "start", rate, refusal, text)
    } else {
        write_program_name(description, item - streams, text)?;
        write_buffer(buffer, "tpeak", "tstart", rate, refusal, text)
    }
}

/// Appends the line of a program's system buffer.
pub fn write_system(
    description: &Description,
    refusal: Refusal,
    text: &mut String,
) -> Result<(), AllocError>
    ensures { OnOk result (string_bytes text.new
        ≡ string_bytes text.old ++ spec.system_line description.now (entry_of refusal)) }
{
    write_program_name(description, refusal.item as usize, text)?;
    write_buffer(
        " system buffer ",
        "bpeak",
        "bstart",
        description.rate(),
        refusal,
        text,
    )
}

/// Appends the line of a stream's multiplexing buffer.
pub fn write_multiplexing(
    description: &Description,
    refusal: Refusal,
    text: &mut String,
) -> Result<(), AllocError>
    ensures { OnOk result (string_bytes text.new
        ≡ string_bytes text.old ++ spec.multiplexing_line description.now (entry_of refusal)) }
{
    write_stream_name(description, refusal.item as usize, text)?;
    write_buffer(
        " multiplexing buffer ",
        "mpeak",
        "mstart",
        description.rate(),
        refusal,
        text,
    )
}

// Returns the time from the first to the last of the units in a row, in units of 90 kHz.
fn time_of_row(refusal: Refusal, stream: &StreamDescription) -> u128
    ensures time { result ≡ spec.time_of_row (entry_of refusal) stream.now }
    ensures bound { result < 2 ^ 64 }
{
    u128::from(refusal.part.max(1) - 1) * u128::from(stream.interval)
}

// Returns the least lead that keeps the condition, in units of 90 kHz.
fn lead_for(refusal: Refusal, stream: &StreamDescription) -> u128
    ensures { result ≡ spec.lead_for (entry_of refusal) stream.now }
{
    let time = time_of_row(refusal, stream);
    let share = (refusal.right / (u128::from(stream.lead) + time).max(1)).max(1);
    refusal.left.div_ceil(share).saturating_sub(time)
}

// Appends how many units in a row are late.
#[tactic(auto, unfolding(crate::specs::ConditionLines::row_words))]
fn write_row(units: u8, text: &mut String) -> Result<(), AllocError>
    ensures { OnOk result (string_bytes text.new ≡ string_bytes text.old ++ spec.row_words units) }
{
    write!(text, " for {units} in a row\n")
}

// Appends a lead and the least that would do.
#[tactic(auto, unfolding(crate::specs::ConditionLines::least_lead_words))]
fn write_least_lead(lead: u128, least: u128, text: &mut String) -> Result<(), AllocError>
    ensures { OnOk result (string_bytes text.new ≡ string_bytes text.old ++ spec.least_lead_words lead least) }
{
    write_key(key_of(StreamNumber::Lead), lead, text)?;
    write_least(least, GREATEST_LEAD, text)
}

// Returns the units in a row of a condition.
fn units_in_row(refusal: Refusal) -> u8
    ensures { result ≡ spec.units_in_row (entry_of refusal) }
{
    refusal.part.max(1)
}

// Appends the lead of a stream and the least lead that keeps a condition.
fn write_lead_words(
    refusal: Refusal,
    stream: &StreamDescription,
    text: &mut String,
) -> Result<(), AllocError>
    ensures { OnOk result (string_bytes text.new
        ≡ string_bytes text.old ++ spec.lead_words (entry_of refusal) stream.now) }
{
    write_least_lead(u128::from(stream.lead), lead_for(refusal, stream), text)?;
    write_row(units_in_row(refusal), text)
}

/// Appends the line of a stream whose units are late.
#[tactic(auto, unfolding(crate::specs::ConditionLines::stream_lead_line))]
pub fn write_lead(
    refusal: Refusal,
    stream: Option<&StreamDescription>,
    text: &mut String,
) -> Result<(), AllocError>
    ensures { OnOk result (string_bytes text.new ≡ string_bytes text.old
        ++ spec.stream_lead_line (entry_of refusal) (option_map (λ s. s.now) stream.entry)) }
{
    let Some(stream) = stream else {
        return Ok(());
    };
    write_name_of_stream(refusal.item as usize, Some(stream), text)?;
    write_lead_words(refusal, stream, text)
}
