//! The verdict on a stream.
ghost use Rattle.std.specs.Prelude.{◌≡◌, ◌++◌, OnOk};
ghost use Rattle.fault_summary.specs.Verdicts as spec;

use crate::buffer_figures::BufferFigures;
use crate::fault_rows::FaultRows;
use events::{CheckTotals, CheckVerdict, Event, FaultVerdict, NoVerdict, SummaryEvent, Verdict};
use std::alloc::AllocError;

fn no_check() -> CheckVerdict
    ensures { result ≡ spec.no_check }
{
    CheckVerdict {
        checks: 0,
        failed: 0,
        first: None,
        unmade: None,
    }
}

// Returns whether a check was made and has failed.
fn has_failed(totals: &CheckTotals) -> bool
    ensures { result ≡ spec.has_failed totals.now }
{
    totals.no_verdict.is_none() && totals.count.faults != 0
}

#[tactic(auto, unfolding(crate::specs::Verdicts::first_failed))]
fn first_failed(before: Option<CheckTotals>, totals: &CheckTotals) -> Option<CheckTotals>
    ensures { result ≡ spec.first_failed before totals.now }
{
    match before {
        Some(first) => Some(first),
        None => {
            if has_failed(totals) {
                Some(*totals)
            } else {
                None
            }
        }
    }
}

// Returns why checks are not made: the reason of the last one.
#[tactic(auto, unfolding(crate::specs::Verdicts::last_reason))]
fn last_reason(before: Option<NoVerdict>, next: Option<NoVerdict>) -> Option<NoVerdict>
    ensures { result ≡ spec.last_reason before next }
{
    match next {
        None => before,
        Some(reason) => Some(reason),
    }
}

fn with_check(verdict: CheckVerdict, totals: &CheckTotals) -> CheckVerdict
    ensures { result ≡ spec.with_check verdict totals.now }
{
    CheckVerdict {
        checks: verdict
            .checks
            .saturating_add(u64::from(totals.no_verdict.is_none())),
        failed: verdict.failed.saturating_add(u64::from(has_failed(totals))),
        first: first_failed(verdict.first, totals),
        unmade: last_reason(verdict.unmade, totals.no_verdict),
    }
}

#[tactic(auto, unfolding(crate::specs::Verdicts::with_event))]
fn with_event(verdict: CheckVerdict, event: &Event) -> CheckVerdict
    ensures { result ≡ spec.with_event verdict event.now }
{
    match event {
        Event::Check(totals) => with_check(verdict, totals),
        _ => verdict,
    }
}

/// Returns the sentence about checks, by their rows.
#[tactic(auto, unfolding(crate::specs::Verdicts::with_events))]
pub(crate) fn checks_of(rows: &[Event]) -> CheckVerdict
    ensures { result ≡ spec.check_verdict rows.now }
{
    let mut verdict = no_check();
    for row in rows {
        verdict = with_event(verdict, row);
    }
    verdict
}

fn push_sentence(events: &mut Vec<Event>, verdict: Verdict) -> Result<(), AllocError>
    ensures { OnOk result (events.new.items ≡ events.old.items ++ spec.sentence_events verdict) }
{
    events.push(Event::Summary(SummaryEvent::Verdict(verdict)))?;
    Ok(())
}

// Appends how many faults there are, or that there is none.
fn push_faults(
    events: &mut Vec<Event>,
    good: bool,
    faults: u64,
    rows: &FaultRows,
) -> Result<(), AllocError>
    ensures { OnOk result (events.new.items ≡ events.old.items ++ spec.fault_sentence good faults rows.now) }
{
    if good {
        return push_sentence(events, Verdict::NoFault);
    }
    let rows = rows.count() as u64;
    push_sentence(events, Verdict::Faults(FaultVerdict { faults, rows }))
}

// Appends the verdict on the buffers and on the units, if a buffer held bytes.
fn push_buffers(
    events: &mut Vec<Event>,
    figures: &BufferFigures,
    rows: &FaultRows,
) -> Result<(), AllocError>
    ensures { OnOk result (events.new.items ≡ events.old.items ++ spec.buffer_sentences figures.now rows.now) }
{
    if figures.buffers == 0 {
        return Ok(());
    }
    push_sentence(events, Verdict::Buffers(figures.buffers(rows)))?;
    push_sentence(events, Verdict::Units(figures.units()))
}

/// Appends the sentences of the verdict; `checks`: the rows of the checks.
pub(crate) fn push_verdict(
    events: &mut Vec<Event>,
    good: bool,
    faults: u64,
    figures: &BufferFigures,
    rows: &FaultRows,
    checks: CheckVerdict,
) -> Result<(), AllocError>
    ensures { OnOk result (events.new.items
        ≡ events.old.items ++ spec.verdict_events good faults figures.now rows.now checks) }
{
    push_faults(events, good, faults, rows)?;
    push_buffers(events, figures, rows)?;
    push_sentence(events, Verdict::Checks(checks))
}
