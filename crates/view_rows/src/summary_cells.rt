//! The cells of faults by kind and stream, of a fault of a rule, and the sentences of the verdict.
ghost use Rattle.std.specs.Prelude.{◌≡◌, ◌++◌, OnOk, string_bytes};
ghost use Rattle.view_rows.specs.SummaryCells as spec;

use crate::cells::{Cell, CellUnit, CellWord, short};
use event_lines::write_verdict_text;
use events::{CheckTotals, Fault, FaultKind, FaultTotals, Measured, Verdict};
use std::alloc::AllocError;
use std::fmt::Write;

const KINDS: &str =
    "</table></div><h2 id=kinds>Faults by kind and stream</h2><div class=\"wide\"><table aria-labelledby=kinds><tr><th class=word scope=col>what<th scope=col>where<th scope=col>faults<th scope=col>first packet<th scope=col>last packet<th scope=col>from, ms<th scope=col>to, ms<th scope=col>worst<th scope=col>limit<th class=word scope=col>unit\n";

/// The unit of a value, and of its number in a cell.
#[derive(Clone, Copy)]
pub(crate) struct ValueUnit {
    pub scale: CellUnit,
    pub unit: CellWord,
}

/// Returns the head of the table of faults by kind and stream.
#[tactic(auto, unfolding(crate::specs::SummaryCells::kinds_text))]
pub fn kinds_text() -> &'static str
    ensures { result.now ≡ spec.kinds_text }
{
    KINDS
}

// Returns the unit of the value of a kind of fault: bytes, a time, nanoseconds, or none.
#[tactic(auto, unfolding(crate::specs::SummaryCells::unit_of))]
fn unit_of(kind: FaultKind) -> ValueUnit
    ensures { result ≡ spec.unit_of kind }
{
    match kind {
        FaultKind::Excess
        | FaultKind::MainExcess
        | FaultKind::MultiplexingExcess
        | FaultKind::ElementaryExcess
        | FaultKind::SystemExcess
        | FaultKind::SystemMainExcess => ValueUnit {
            scale: CellUnit::Same,
            unit: CellWord::Bytes,
        },
        FaultKind::Late
        | FaultKind::ElementaryLate
        | FaultKind::Ahead
        | FaultKind::PcrRepetition
        | FaultKind::PcrDiscontinuity
        | FaultKind::PtsRepetition
        | FaultKind::TableRepetition
        | FaultKind::SectionDistance
        | FaultKind::NotEmpty
        | FaultKind::Delayed
        | FaultKind::StampJump
        | FaultKind::PidRepetition => ValueUnit {
            scale: CellUnit::Ticks,
            unit: CellWord::Millis,
        },
        FaultKind::PcrAccuracy => ValueUnit {
            scale: CellUnit::Same,
            unit: CellWord::Nanos,
        },
        _ => ValueUnit {
            scale: CellUnit::Same,
            unit: CellWord::Nothing,
        },
    }
}

// Returns the cell of a moment, if it is known.
#[tactic(auto, unfolding(crate::specs::SummaryCells::moment_cell))]
fn moment_cell(at: Option<u128>) -> Cell
    ensures { result ≡ spec.moment_cell at }
{
    match at {
        None => Cell::Word(CellWord::Nothing),
        Some(at) => Cell::Number(short(at), CellUnit::Ticks),
    }
}

/// Returns the cells of when a fault is: from when to when, as far as that is known.
#[tactic(auto, unfolding(crate::specs::SummaryCells::time_cells))]
pub(crate) fn time_cells(fault: &Option<Fault>) -> [Cell; 2]
    ensures { result ≡ spec.time_cells fault.now }
{
    match fault {
        None => [Cell::Word(CellWord::Nothing), Cell::Word(CellWord::Nothing)],
        Some(fault) => [moment_cell(fault.from), moment_cell(fault.to)],
    }
}

// Returns the cell of a measured value, if there is one.
#[tactic(auto, unfolding(crate::specs::SummaryCells::value_cell))]
fn value_cell(measured: Option<Measured>, scale: CellUnit) -> Cell
    ensures { result ≡ spec.value_cell measured scale }
{
    match measured {
        None => Cell::Word(CellWord::Nothing),
        Some(measured) => Cell::Number(short(measured.value), scale),
    }
}

// Returns the cell of the limit of a measured value.
#[tactic(auto, unfolding(crate::specs::SummaryCells::limit_cell))]
fn limit_cell(measured: Option<Measured>, scale: CellUnit) -> Cell
    ensures { result ≡ spec.limit_cell measured scale }
{
    match measured {
        None => Cell::Word(CellWord::Nothing),
        Some(measured) => Cell::Number(measured.limit, scale),
    }
}

/// Returns the cells of all faults of a kind at one place.
pub(crate) fn totals_cells(e: &FaultTotals) -> [Cell; 10]
    ensures { result ≡ spec.totals_cells e.now }
{
    let value = unit_of(e.kind);
    [
        Cell::Word(CellWord::Fault(e.kind)),
        Cell::Source(e.source),
        Cell::Number(e.count.faults, CellUnit::Same),
        Cell::Number(e.count.first, CellUnit::Same),
        Cell::Number(e.count.last, CellUnit::Same),
        moment_cell(e.count.from),
        moment_cell(e.count.to),
        value_cell(e.worst, value.scale),
        limit_cell(e.worst, value.scale),
        Cell::Word(value.unit),
    ]
}

/// Returns the cells of a fault.
pub(crate) fn fault_cells(e: &Fault) -> [Cell; 6]
    ensures { result ≡ spec.fault_cells e.now }
{
    let value = unit_of(e.kind);
    [
        Cell::Word(CellWord::Fault(e.kind)),
        Cell::Source(e.source),
        Cell::Number(e.packet, CellUnit::Same),
        value_cell(e.measured, value.scale),
        limit_cell(e.measured, value.scale),
        Cell::Word(value.unit),
    ]
}

// Returns the begin of a sentence.
#[tactic(auto, unfolding(crate::specs::SummaryCells::sentence_head))]
fn sentence_head(verdict: &Verdict) -> &'static str
    ensures { result.now ≡ spec.sentence_head verdict.now }
{
    match verdict {
        Verdict::Faults(_) => "<p class=\"bad\">&#9650; ",
        _ => "<p>",
    }
}

/// Appends a sentence of the verdict.
pub(crate) fn write_sentence(text: &mut String, verdict: &Verdict) -> Result<(), AllocError>
    ensures { OnOk result (string_bytes text.new ≡ string_bytes text.old ++ spec.sentence_text verdict.now) }
{
    text.push_str(sentence_head(verdict))?;
    write_verdict_text(text, verdict)?;
    text.push_str(".</p>\n")
}

// Returns whether a check was made and has failed.
fn has_failed(e: &CheckTotals) -> bool
    ensures { result ≡ spec.has_failed e.now }
{
    e.no_verdict.is_none() && e.count.faults != 0
}

fn write_failure(text: &mut String, number: &str, name: &str, faults: u64) -> Result<(), AllocError>
    ensures { OnOk result (string_bytes text.new
        ≡ string_bytes text.old ++ spec.failure_text number.now name.now faults) }
{
    write!(
        text,
        "<p class=\"bad\">&#9650; check {number} {name}: faults {faults}.</p>\n"
    )
}

/// Appends a sentence on a check, if it has failed.
pub(crate) fn write_failure_if(text: &mut String, e: &CheckTotals) -> Result<(), AllocError>
    ensures { OnOk result (string_bytes text.new ≡ string_bytes text.old ++ spec.failure_if e.now) }
{
    if has_failed(e) {
        write_failure(text, e.check.number(), e.check.name(), e.count.faults)
    } else {
        Ok(())
    }
}
