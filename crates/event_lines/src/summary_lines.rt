//! The lines of faults by kind and stream, of the checks of ETSI TR 101 290, and of the verdict.
ghost use Rattle.std.specs.Prelude.{◌≡◌, ◌++◌, OnOk, codes, flat_map, string_bytes, true};
ghost use Rattle.event_lines.specs.ReportLines.{field_text};
ghost use Rattle.event_lines.specs.SummaryLines as spec;

use crate::lines::{number, seconds, word, write_field, write_fields, write_first};
use crate::verdict_text::write_verdict_text;
use events::{
    BufferVerdict, CheckTotals, Fault, FaultCount, FaultSource, FaultTotals, Measured, NoVerdict,
    SummaryEvent, Verdict, WorstBuffer,
};
use std::alloc::AllocError;

// Appends a moment in seconds, if it is known.
#[tactic(auto, unfolding(crate::specs::SummaryLines::moment_text))]
fn write_moment(
    text: &mut String,
    json: bool,
    name: &'static str,
    moment: Option<u128>,
) -> Result<(), AllocError>
    ensures { OnOk result (string_bytes text.new ≡ string_bytes text.old ++ spec.moment_text json name.now moment) }
{
    match moment {
        None => Ok(()),
        Some(ticks) => write_field(text, json, &seconds(name, ticks)),
    }
}

fn write_times(
    text: &mut String,
    json: bool,
    from: Option<u128>,
    to: Option<u128>,
) -> Result<(), AllocError>
    ensures { OnOk result (string_bytes text.new ≡ string_bytes text.old ++ spec.times_text json from to) }
{
    write_moment(text, json, "from", from)?;
    write_moment(text, json, "to", to)
}

#[tactic(auto, unfolding(crate::specs::SummaryLines::span_text))]
fn write_span(
    text: &mut String,
    json: bool,
    from: Option<u128>,
    to: Option<u128>,
) -> Result<(), AllocError>
    ensures { OnOk result (string_bytes text.new ≡ string_bytes text.old ++ spec.span_text json from to) }
{
    match (from, to) {
        (Some(from), Some(to)) => {
            if from == to {
                write_moment(text, json, "at", Some(from))
            } else {
                write_times(text, json, Some(from), Some(to))
            }
        }
        _ => Ok(()),
    }
}

/// Appends when a fault is: a moment, or from when to when, in seconds.
#[tactic(auto, unfolding(crate::specs::SummaryLines::fault_time))]
pub(crate) fn write_fault_time(
    text: &mut String,
    json: bool,
    fault: &Option<Fault>,
) -> Result<(), AllocError>
    ensures { OnOk result (string_bytes text.new ≡ string_bytes text.old ++ spec.fault_time json fault.now) }
{
    match fault {
        None => Ok(()),
        Some(fault) => write_span(text, json, fault.from, fault.to),
    }
}

fn write_table(text: &mut String, json: bool, pid: u16, table: u8) -> Result<(), AllocError>
    ensures { OnOk result (string_bytes text.new
        ≡ string_bytes text.old ++ flat_map (field_text json) (spec.table_fields pid table)) }
{
    let fields = [
        number("pid", u128::from(pid)),
        number("table", u128::from(table)),
    ];
    write_fields(text, json, &fields)
}

#[tactic(auto, unfolding(crate::specs::SummaryLines::source_text))]
fn write_source(text: &mut String, json: bool, source: FaultSource) -> Result<(), AllocError>
    ensures { OnOk result (string_bytes text.new ≡ string_bytes text.old ++ spec.source_text json source) }
{
    match source {
        FaultSource::Whole => Ok(()),
        FaultSource::Stream(pid) => write_field(text, json, &number("pid", u128::from(pid))),
        FaultSource::Program(program) => {
            write_field(text, json, &number("program", u128::from(program)))
        }
        FaultSource::Table(pid, table) => write_table(text, json, pid, table),
    }
}

fn write_count(
    text: &mut String,
    json: bool,
    name: &'static str,
    count: &FaultCount,
) -> Result<(), AllocError>
    ensures { OnOk result (string_bytes text.new
        ≡ string_bytes text.old ++ flat_map (field_text json) (spec.count_fields name.now count.now)) }
{
    let fields = [
        number(name, u128::from(count.faults)),
        number("first", u128::from(count.first)),
        number("last", u128::from(count.last)),
    ];
    write_fields(text, json, &fields)
}

fn write_limit(text: &mut String, json: bool, worst: &Measured) -> Result<(), AllocError>
    ensures { OnOk result (string_bytes text.new
        ≡ string_bytes text.old ++ flat_map (field_text json) (spec.limit_fields worst.now)) }
{
    let fields = [
        number("worst", worst.value),
        number("limit", u128::from(worst.limit)),
    ];
    write_fields(text, json, &fields)
}

#[tactic(auto, unfolding(crate::specs::SummaryLines::worst_text))]
fn write_worst(text: &mut String, json: bool, worst: &Option<Measured>) -> Result<(), AllocError>
    ensures { OnOk result (string_bytes text.new ≡ string_bytes text.old ++ spec.worst_text json worst.now) }
{
    match worst {
        None => Ok(()),
        Some(worst) => write_limit(text, json, worst),
    }
}

// Appends `faults`.
fn write_faults(text: &mut String, json: bool, e: &FaultTotals) -> Result<(), AllocError>
    ensures { OnOk result (string_bytes text.new ≡ string_bytes text.old ++ spec.faults_line json e.now) }
{
    write_first(text, json, "faults")?;
    write_field(text, json, &word("kind", e.kind.word()))?;
    write_source(text, json, e.source)?;
    write_count(text, json, "count", &e.count)?;
    write_worst(text, json, &e.worst)?;
    write_times(text, json, e.count.from, e.count.to)
}

#[tactic(auto, unfolding(crate::specs::SummaryLines::no_verdict_word))]
fn no_verdict_word(reason: NoVerdict) -> &'static str
    ensures { result.now ≡ spec.no_verdict_word reason }
{
    match reason {
        NoVerdict::NoClock => "no_clock",
        NoVerdict::VariableRate => "variable_rate",
    }
}

fn write_check_name(text: &mut String, json: bool, e: &CheckTotals) -> Result<(), AllocError>
    ensures { OnOk result (string_bytes text.new
        ≡ string_bytes text.old ++ flat_map (field_text json) (spec.check_fields e.now)) }
{
    let fields = [
        word("number", e.check.number()),
        word("name", e.check.name()),
    ];
    write_fields(text, json, &fields)
}

fn write_counted(text: &mut String, json: bool, count: &FaultCount) -> Result<(), AllocError>
    ensures { OnOk result (string_bytes text.new ≡ string_bytes text.old ++ spec.counted_text json count.now) }
{
    write_count(text, json, "faults", count)?;
    write_times(text, json, count.from, count.to)
}

#[tactic(auto, unfolding(crate::specs::SummaryLines::result_text))]
fn write_result(text: &mut String, json: bool, e: &CheckTotals) -> Result<(), AllocError>
    ensures { OnOk result (string_bytes text.new
        ≡ string_bytes text.old ++ spec.result_text json e.now.count e.now.no_verdict) }
{
    match e.no_verdict {
        None => write_counted(text, json, &e.count),
        Some(reason) => write_field(text, json, &word("untold", no_verdict_word(reason))),
    }
}

/// Appends `check`.
pub(crate) fn write_check(text: &mut String, json: bool, e: &CheckTotals) -> Result<(), AllocError>
    ensures { OnOk result (string_bytes text.new ≡ string_bytes text.old ++ spec.check_line json e.now) }
{
    write_first(text, json, "check")?;
    write_check_name(text, json, e)?;
    write_result(text, json, e)
}

// Appends two numbers of an object.
fn write_numbers(
    text: &mut String,
    one: &'static str,
    n: u64,
    other: &'static str,
    m: u64,
) -> Result<(), AllocError>
    ensures { OnOk result (string_bytes text.new ≡ string_bytes text.old ++ spec.two_numbers one.now n other.now m) }
{
    let fields = [number(one, u128::from(n)), number(other, u128::from(m))];
    write_fields(text, true, &fields)
}

fn write_worst_fields(text: &mut String, w: &WorstBuffer) -> Result<(), AllocError>
    ensures { OnOk result (string_bytes text.new
        ≡ string_bytes text.old ++ flat_map (field_text true) (spec.worst_fields w.now)) }
{
    let fields = [
        number(w.buffer.owner_word(), u128::from(w.number)),
        word("buffer", w.buffer.word()),
        number("most", w.most),
        number("size", u128::from(w.size)),
    ];
    write_fields(text, true, &fields)
}

#[tactic(auto, unfolding(crate::specs::SummaryLines::worst_numbers))]
fn write_worst_numbers(text: &mut String, worst: &Option<WorstBuffer>) -> Result<(), AllocError>
    ensures { OnOk result (string_bytes text.new ≡ string_bytes text.old ++ spec.worst_numbers worst.now) }
{
    match worst {
        None => Ok(()),
        Some(worst) => {
            write_worst_fields(text, worst)?;
            write_times(text, true, worst.from, worst.to)
        }
    }
}

fn write_buffer_numbers(text: &mut String, e: &BufferVerdict) -> Result<(), AllocError>
    ensures { OnOk result (string_bytes text.new
        ≡ string_bytes text.old ++ (spec.two_numbers (codes "buffers") e.now.buffers (codes "over") e.now.over
        ++ spec.worst_numbers e.now.worst)) }
{
    write_numbers(text, "buffers", e.buffers, "over", e.over)?;
    write_worst_numbers(text, &e.worst)
}

// Appends the numbers of the verdict, which an object has beside the sentence.
#[tactic(auto, unfolding(crate::specs::SummaryLines::verdict_numbers))]
fn write_verdict_numbers(text: &mut String, e: &Verdict) -> Result<(), AllocError>
    ensures { OnOk result (string_bytes text.new ≡ string_bytes text.old ++ spec.verdict_numbers e.now) }
{
    match e {
        Verdict::NoFault => write_numbers(text, "faults", 0, "rows", 0),
        Verdict::Faults(e) => write_numbers(text, "faults", e.faults, "rows", e.rows),
        Verdict::Buffers(e) => write_buffer_numbers(text, e),
        Verdict::Units(e) => write_numbers(text, "units", e.units, "late", e.late),
        Verdict::Checks(e) => write_numbers(text, "checks", e.checks, "failed", e.failed),
    }
}

// Appends how the line of a verdict ends.
fn write_verdict_end(text: &mut String, json: bool, e: &Verdict) -> Result<(), AllocError>
    ensures { OnOk result (string_bytes text.new ≡ string_bytes text.old ++ spec.text_end json e.now) }
{
    if !json {
        return Ok(());
    }
    text.push_str("\"")?;
    write_verdict_numbers(text, e)
}

// Appends `verdict`.
fn write_verdict(text: &mut String, json: bool, e: &Verdict) -> Result<(), AllocError>
    ensures { OnOk result (string_bytes text.new ≡ string_bytes text.old ++ spec.verdict_line json e.now) }
{
    write_first(text, json, "verdict")?;
    text.push_str(if json { ",\"text\":\"" } else { " " })?;
    write_verdict_text(text, e)?;
    write_verdict_end(text, json, e)
}

/// Appends the line of faults by kind and stream, or of the verdict.
#[tactic(auto, unfolding(crate::specs::SummaryLines::summary_line))]
pub(crate) fn write_summary(
    text: &mut String,
    json: bool,
    event: &SummaryEvent,
) -> Result<(), AllocError>
    ensures { OnOk result (string_bytes text.new ≡ string_bytes text.old ++ spec.summary_line json event.now) }
{
    match event {
        SummaryEvent::Faults(e) => write_faults(text, json, e),
        SummaryEvent::Verdict(e) => write_verdict(text, json, e),
    }
}
