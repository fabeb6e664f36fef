//! The lines for the reasons why no plan serves a description.

ghost use Rattle.std.specs.Prelude.{◌≡◌, ◌++◌, OnOk, option_map, string_bytes};
ghost use Rattle.std.specs.List.{flat_map};
ghost use Rattle.plan_diagnosis.specs.ReasonLines as spec;

use crate::item_names::write_table_name;
use crate::program_limits::write_pcr_limit;
use crate::stream_numbers::{StreamNumber, write_stream};
use description::Description;
use description_parts::ProgramDescription;
use plan_maker::{Reason, reasons};
use std::alloc::{AllocError, Global};
use std::fmt::Write;

// Returns the words for a slot as the cause.
#[tactic(auto, unfolding(crate::specs::ReasonLines::slot_cause))]
fn slot_cause() -> &'static str
    ensures { result.now ≡ spec.slot_cause }
{
    " for a slot\n"
}

// Appends the line of a limit of clock references.
#[tactic(auto, unfolding(crate::specs::ReasonLines::pcr_line))]
fn write_pcrs(
    place: usize,
    least: u64,
    program: Option<&ProgramDescription>,
    text: &mut String,
) -> Result<(), AllocError>
    ensures { OnOk result (string_bytes text.new
        ≡ string_bytes text.old ++ spec.pcr_line place least (option_map (λ p. p.now) program.entry)) }
{
    let Some(program) = program else {
        return Ok(());
    };
    write_pcr_limit(place, program, u128::from(least), slot_cause(), text)
}

// Appends the line of a table's limit.
fn write_table_limit(
    description: &Description,
    table: usize,
    least: u64,
    text: &mut String,
) -> Result<(), AllocError>
    ensures { OnOk result (string_bytes text.new
        ≡ string_bytes text.old ++ spec.table_line description.now table least) }
{
    write_table_name(description, table, text)?;
    write!(
        text,
        " limit is less than {least} for the slots of a round\n"
    )
}

// Appends the line of a rate.
#[tactic(auto, unfolding(crate::specs::ReasonLines::rate_line))]
fn write_rate(rate: u64, least: Option<u64>, text: &mut String) -> Result<(), AllocError>
    ensures { OnOk result (string_bytes text.new ≡ string_bytes text.old ++ spec.rate_line rate least) }
{
    match least {
        Some(least) => write!(text, "rate {rate} is less than {least} by reckoning\n"),
        None => write!(text, "rate {rate}: none is enough by reckoning\n"),
    }
}

// Appends the line of a reason.
#[tactic(auto, unfolding(crate::specs::ReasonLines::reason_line))]
fn write_reason(
    description: &Description,
    reason: Reason,
    text: &mut String,
) -> Result<(), AllocError>
    ensures { OnOk result (string_bytes text.new
        ≡ string_bytes text.old ++ spec.reason_line description.now reason) }
{
    let (programs, streams) = (description.programs(), description.streams());
    match reason {
        Reason::PcrLimit(i, least) => {
            let i = usize::from(i);
            write_pcrs(i, least, programs.get(i), text)
        }
        Reason::TableLimit(t, least) => write_table_limit(description, usize::from(t), least, text),
        Reason::SlowDrain(i, least) => {
            let i = usize::from(i);
            write_stream(StreamNumber::Rx, i, u128::from(least), streams.get(i), text)
        }
        Reason::SlowLeak(i, least) => {
            let i = usize::from(i);
            write_stream(
                StreamNumber::Rbx,
                i,
                u128::from(least),
                streams.get(i),
                text,
            )
        }
        Reason::ShortLead(i, least) => {
            let i = usize::from(i);
            write_stream(
                StreamNumber::Lead,
                i,
                u128::from(least),
                streams.get(i),
                text,
            )
        }
        Reason::SmallMain(i, least) => {
            let i = usize::from(i);
            write_stream(
                StreamNumber::Main,
                i,
                u128::from(least),
                streams.get(i),
                text,
            )
        }
        Reason::Overload(least) => write_rate(description.rate().bits_per_second(), least, text),
    }
}

// Appends a line for each reason.
fn write_each(
    description: &Description,
    reasons: &[Reason],
    text: &mut String,
) -> Result<(), AllocError>
    ensures { OnOk result (string_bytes text.new
        ≡ string_bytes text.old ++ flat_map (spec.reason_line description.now) reasons.now) }
{
    for reason in reasons {
        write_reason(description, *reason, text)?;
    }
    Ok(())
}

/// Appends a line for each reason why no plan serves a description.
pub fn write_reasons(
    alloc: Global,
    description: &Description,
    text: &mut String,
) -> Result<(), AllocError>
    ensures { OnOk result (string_bytes text.new ≡ string_bytes text.old ++ spec.reason_lines description.now) }
{
    let found = reasons(alloc, description)?;
    write_each(description, &found, text)
}
