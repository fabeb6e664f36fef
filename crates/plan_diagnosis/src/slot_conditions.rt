//! The lines for slots that are too far apart or too few.

ghost use Rattle.std.specs.Prelude.{◌≡◌, ◌<◌, ◌++◌, OnOk, option_map, string_bytes};
ghost use Rattle.plan_checker.specs.Refusals.{entry_of};
ghost use Rattle.plan_diagnosis.specs.ConditionLines as spec;

use crate::item_names::{write_name_of_stream, write_table_name};
use crate::program_limits::write_pcr_limit;
use crate::stream_numbers::steady_cause;
use clock27::{Rate, SLOT_MS_AT_1BPS};
use description::Description;
use description_parts::{ProgramDescription, StreamDescription};
use plan_checker::{Refusal, steady_time};
use std::alloc::AllocError;
use std::fmt::Write;

/// Appends a claim that is less than the counted number.
pub fn write_claim(
    key: &str,
    claimed: u128,
    counted: u128,
    text: &mut String,
) -> Result<(), AllocError>
    ensures { OnOk result (string_bytes text.new
        ≡ string_bytes text.old ++ spec.claim_words key.now claimed counted) }
{
    write!(
        text,
        " {key} {claimed} is less than {counted} for its slots\n"
    )
}

// Returns the words for the gaps of its slots as the cause.
#[tactic(auto, unfolding(crate::specs::ConditionLines::gap_cause))]
fn gap_cause() -> &'static str
    ensures { result.now ≡ spec.gap_cause }
{
    " for the gaps of its slots\n"
}

/// Appends the line of clock references that are too far apart.
#[tactic(auto, unfolding(crate::specs::ConditionLines::pcr_gap_line))]
pub fn write_pcr_gap(
    rate: Rate,
    refusal: Refusal,
    program: Option<&ProgramDescription>,
    text: &mut String,
) -> Result<(), AllocError>
    ensures { OnOk result (string_bytes text.new ≡ string_bytes text.old
        ++ spec.pcr_gap_line rate (entry_of refusal) (option_map (λ p. p.now) program.entry)) }
{
    let Some(program) = program else {
        return Ok(());
    };
    let least = refusal.left.div_ceil(u128::from(rate.bits_per_second()));
    write_pcr_limit(refusal.item as usize, program, least, gap_cause(), text)
}

/// Appends the line of a table whose rounds take too long.
pub fn write_table_gap(
    description: &Description,
    refusal: Refusal,
    text: &mut String,
) -> Result<(), AllocError>
    ensures { OnOk result (string_bytes text.new
        ≡ string_bytes text.old ++ spec.table_gap_line description.now (entry_of refusal)) }
{
    let rate = u128::from(description.rate().bits_per_second());
    write_table_name(description, refusal.item as usize, text)?;
    write_claim(
        "limit",
        refusal.right / rate,
        refusal.left.div_ceil(rate),
        text,
    )
}

// Returns how long after the end of a section the next one of its sub-table begins, in ms, rounded down.
fn distance_of(rate: Rate, refusal: Refusal) -> u128
    ensures { result ≡ spec.distance_of rate (entry_of refusal) }
{
    refusal.right.saturating_sub(SLOT_MS_AT_1BPS) / u128::from(rate.bits_per_second())
}

// Appends how far apart sections are.
#[tactic(auto, unfolding(crate::specs::ConditionLines::distance_words))]
fn write_distance(distance: u128, text: &mut String) -> Result<(), AllocError>
    ensures { OnOk result (string_bytes text.new ≡ string_bytes text.old ++ spec.distance_words distance) }
{
    write!(text, " sections {distance} ms apart, at least 25\n")
}

/// Appends the line of a table whose sections are too near to each other.
pub fn write_section_distance(
    description: &Description,
    refusal: Refusal,
    text: &mut String,
) -> Result<(), AllocError>
    ensures { OnOk result (string_bytes text.new
        ≡ string_bytes text.old ++ spec.section_distance_line description.now (entry_of refusal)) }
{
    write_table_name(description, refusal.item as usize, text)?;
    write_distance(distance_of(description.rate(), refusal), text)
}

// Returns the share that one slot of a period gives a stream.
fn slot_share(rate: Rate, stream: &StreamDescription) -> u128
    ensures share { result ≡ spec.slot_share rate stream.now }
    ensures some { 0 < result }
{
    (u128::from(steady_time(stream)) * u128::from(rate.bits_per_second())).max(1)
}

// Appends how many slots there are, and how many are needed.
fn write_count(given: u128, wanted: u128, text: &mut String) -> Result<(), AllocError>
    ensures { OnOk result (string_bytes text.new ≡ string_bytes text.old ++ spec.count_words given wanted) }
{
    write!(text, " slots {given} is less than {wanted}")
}

// Appends the slots of a condition: how many there are, and how many it needs.
fn write_slots(refusal: Refusal, share: u128, text: &mut String) -> Result<(), AllocError>
    requires { 0 < share }
    ensures { OnOk result (string_bytes text.new
        ≡ string_bytes text.old ++ spec.slots_words (entry_of refusal) share) }
{
    write_count(refusal.right / share, refusal.left.div_ceil(share), text)
}

/// Appends the line of a stream with too few slots.
#[tactic(auto, unfolding(crate::specs::ConditionLines::stream_rate_line))]
pub fn write_stream_rate(
    rate: Rate,
    refusal: Refusal,
    stream: Option<&StreamDescription>,
    text: &mut String,
) -> Result<(), AllocError>
    ensures { OnOk result (string_bytes text.new ≡ string_bytes text.old
        ++ spec.stream_rate_line rate (entry_of refusal) (option_map (λ s. s.now) stream.entry)) }
{
    let Some(stream) = stream else {
        return Ok(());
    };
    write_name_of_stream(refusal.item as usize, Some(stream), text)?;
    write_slots(refusal, slot_share(rate, stream), text)?;
    text.push_str(steady_cause(stream.allowance))
}
