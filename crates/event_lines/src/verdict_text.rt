//! The sentences of the verdict.
ghost use Rattle.std.specs.Prelude.{◌≡◌, ◌++◌, OnOk, string_bytes};
ghost use Rattle.event_lines.specs.VerdictTexts as spec;

use crate::lines::write_seconds;
use events::{
    BufferVerdict, CheckTotals, CheckVerdict, FaultVerdict, NoVerdict, UnitVerdict, Verdict,
    WorstBuffer,
};
use std::alloc::AllocError;
use std::fmt::Write;

#[tactic(auto, unfolding(crate::specs::VerdictTexts::time_text))]
fn write_time(text: &mut String, from: Option<u128>, to: Option<u128>) -> Result<(), AllocError>
    ensures { OnOk result (string_bytes text.new ≡ string_bytes text.old ++ spec.time_text from to) }
{
    let (Some(from), Some(to)) = (from, to) else {
        return Ok(());
    };
    text.push_str(", from ")?;
    write_seconds(text, from)?;
    text.push_str(" s to ")?;
    write_seconds(text, to)?;
    text.push_str(" s")
}

fn whose_size(over: u64) -> &'static str
    ensures { result.now ≡ spec.whose_size over }
{
    if over == 1 { "its" } else { "their" }
}

fn write_worst(text: &mut String, worst: &WorstBuffer) -> Result<(), AllocError>
    ensures { OnOk result (string_bytes text.new ≡ string_bytes text.old ++ spec.worst_text worst.now) }
{
    let (owner, buffer) = (worst.buffer.owner_word(), worst.buffer.word());
    let (number, most, size) = (worst.number, worst.most, worst.size);
    write!(text, ": {owner} {number} {buffer}")?;
    write!(text, ", {most} of {size} bytes")?;
    write_time(text, worst.from, worst.to)
}

#[tactic(auto, unfolding(crate::specs::VerdictTexts::buffers_by))]
fn write_buffers(text: &mut String, e: &BufferVerdict) -> Result<(), AllocError>
    ensures { OnOk result (string_bytes text.new ≡ string_bytes text.old ++ spec.buffers_text e.now) }
{
    let (buffers, over) = (e.buffers, e.over);
    match &e.worst {
        None => write!(text, "buffers: {buffers} of {buffers} within their size"),
        Some(worst) => {
            let whose = whose_size(over);
            write!(text, "buffers: {over} of {buffers} over {whose} size")?;
            write_worst(text, worst)
        }
    }
}

fn write_units(text: &mut String, e: &UnitVerdict) -> Result<(), AllocError>
    ensures { OnOk result (string_bytes text.new ≡ string_bytes text.old ++ spec.units_text e.now) }
{
    let (units, late) = (e.units, e.late);
    write!(text, "units: {late} of {units} late")
}

// Appends the first failed check.
#[tactic(auto, unfolding(crate::specs::VerdictTexts::checks_by))]
fn write_first_failed(text: &mut String, first: &Option<CheckTotals>) -> Result<(), AllocError>
    ensures { OnOk result (string_bytes text.new ≡ string_bytes text.old ++ spec.checks_by first.now) }
{
    match first {
        None => Ok(()),
        Some(first) => {
            let (number, name, faults) = (
                first.check.number(),
                first.check.name(),
                first.count.faults,
            );
            write!(text, ": {number} {name}, faults {faults}")?;
            write_time(text, first.count.from, first.count.to)
        }
    }
}

#[tactic(auto, unfolding(crate::specs::VerdictTexts::unmade_text))]
fn unmade_text(unmade: Option<NoVerdict>) -> &'static str
    ensures { result.now ≡ spec.unmade_text unmade }
{
    match unmade {
        None => "",
        Some(NoVerdict::NoClock) => {
            "; not made (no_clock): 1.3.a, 1.5.a, 2.3.a, 2.4, 2.5, 3.1 to 3.3, 3.5 to 3.10"
        }
        Some(NoVerdict::VariableRate) => "; not made (variable_rate): 2.4",
    }
}

fn write_checks(text: &mut String, e: &CheckVerdict) -> Result<(), AllocError>
    ensures { OnOk result (string_bytes text.new ≡ string_bytes text.old ++ spec.checks_text e.now) }
{
    let (checks, failed) = (e.checks, e.failed);
    write!(text, "checks: {failed} of {checks} failed")?;
    write_first_failed(text, &e.first)?;
    text.push_str(unmade_text(e.unmade))
}

fn write_faults(text: &mut String, e: &FaultVerdict) -> Result<(), AllocError>
    ensures { OnOk result (string_bytes text.new ≡ string_bytes text.old ++ spec.faults_text e.now) }
{
    let (faults, rows) = (e.faults, e.rows);
    write!(text, "faults: {faults} ({rows} by kind and stream)")
}

/// Appends a sentence of the verdict.
#[tactic(auto, unfolding(crate::specs::VerdictTexts::sentence))]
pub fn write_verdict_text(text: &mut String, verdict: &Verdict) -> Result<(), AllocError>
    ensures { OnOk result (string_bytes text.new ≡ string_bytes text.old ++ spec.sentence verdict.now) }
{
    match verdict {
        Verdict::NoFault => text.push_str("no fault"),
        Verdict::Faults(e) => write_faults(text, e),
        Verdict::Buffers(e) => write_buffers(text, e),
        Verdict::Units(e) => write_units(text, e),
        Verdict::Checks(e) => write_checks(text, e),
    }
}
