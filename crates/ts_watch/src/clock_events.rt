//! Events of clock references.
ghost use Rattle.std.specs.Prelude.{◌≡◌, ◌++◌, OnOk};
ghost use Rattle.ts_watch.specs.ClockEvents as spec;

use events::{ClockFault, ClockTotals, Event, FaultKind, RuleEvent, VariableRate};
use std::alloc::{AllocError, Global};
use tr101290::{PcrError, PcrReport, PcrWatch, PcrWatches, PidError, RateJudge};

// Returns the event of a reference in error, by the kind of the error.
fn error_event(kind: FaultKind, pid: u16, error: PcrError) -> Event
    ensures { result ≡ spec.error_event kind pid error }
{
    Event::ClockFault(
        kind,
        ClockFault {
            pid,
            packet: error.byte / 188,
            value: error.value,
            limit: error.limit,
        },
    )
}

#[tactic(auto, unfolding(crate::specs::ClockEvents::error_events))]
fn push_error_if(
    events: &mut Vec<Event>,
    kind: FaultKind,
    pid: u16,
    error: Option<PcrError>,
) -> Result<(), AllocError>
    ensures { OnOk result (events.new.items ≡ events.old.items ++ spec.error_events kind pid error) }
{
    if let Some(error) = error {
        events.push(error_event(kind, pid, error))?;
    }
    Ok(())
}

fn push_errors(events: &mut Vec<Event>, pid: u16, report: &PcrReport) -> Result<(), AllocError>
    ensures { OnOk result (events.new.items ≡ events.old.items ++ spec.report_events pid report.now) }
{
    push_error_if(
        events,
        FaultKind::PcrRepetition,
        pid,
        report.repetition_error(),
    )?;
    push_error_if(
        events,
        FaultKind::PcrDiscontinuity,
        pid,
        report.discontinuity_error(),
    )
}

/// Appends the errors of a reference, if there is one, except for its accuracy.
#[tactic(auto, unfolding(crate::specs::ClockEvents::report_events_if))]
pub fn push_report(
    events: &mut Vec<Event>,
    pid: u16,
    report: &Option<PcrReport>,
) -> Result<(), AllocError>
    ensures { OnOk result (events.new.items ≡ events.old.items ++ spec.report_events_if pid report.now) }
{
    match report {
        None => Ok(()),
        Some(report) => push_errors(events, pid, report),
    }
}

/// Returns the number of errors of a reference, except for its accuracy.
#[tactic(auto, unfolding(crate::specs::ClockEvents::errors_in))]
pub fn errors_in(report: &Option<PcrReport>) -> u64
    ensures { result ≡ spec.errors_in report.now }
{
    match report {
        None => 0,
        Some(report) => {
            u64::from(report.repetition_error().is_some())
                + u64::from(report.discontinuity_error().is_some())
        }
    }
}

/// Appends accuracy errors.
pub(crate) fn push_inaccuracies(
    events: &mut Vec<Event>,
    errors: &[PidError],
) -> Result<(), AllocError>
    ensures { OnOk result (events.new.items ≡ events.old.items ++ spec.inaccuracy_events errors.now) }
{
    for error in errors {
        events.push(error_event(FaultKind::PcrAccuracy, error.pid, error.error))?;
    }
    Ok(())
}

/// Appends that the rate varies, as is decided at a packet, if it does.
pub(crate) fn push_variable_if(
    events: &mut Vec<Event>,
    varies: bool,
    packet: u64,
    judge: &RateJudge,
) -> Result<(), AllocError>
    ensures { OnOk result (events.new.items ≡ events.old.items ++ spec.variable_events varies packet judge.now) }
{
    if varies {
        events.push(Event::Rule(RuleEvent::VariableRate(VariableRate {
            packet,
            pairs: judge.pairs(),
            apart: judge.apart(),
        })))?;
    }
    Ok(())
}

fn clock_event(pid: u16, watch: &PcrWatch) -> Event
    ensures { result ≡ spec.clock_event (pid, watch.now) }
{
    let counts = watch.counts();
    Event::Clock(ClockTotals {
        pid,
        references: counts.references,
        announced: counts.announced,
        rate: counts.rate().unwrap_or(0),
        interval: counts.interval,
        inaccuracy: counts.inaccuracy,
    })
}

/// Appends what the references of each PID came to.
pub fn push_clocks(events: &mut Vec<Event>, watches: &PcrWatches<Global>) -> Result<(), AllocError>
    ensures { OnOk result (events.new.items ≡ events.old.items ++ spec.clock_events watches.now) }
{
    for (pid, watch) in watches.watches() {
        events.push(clock_event(*pid, watch))?;
    }
    Ok(())
}
