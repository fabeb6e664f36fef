//! Events of counters that do not follow.
ghost use Rattle.std.specs.Prelude.{◌≡◌, ◌++◌, OnOk, Some};
ghost use Rattle.ts_report.specs.Seen as spec;

use events::{CounterFault, Event};
use std::alloc::AllocError;
use tr101290::ContinuityError;

// Appends a counter that does not follow. A call of its own: few packets have one.
#[inline(never)]
#[tactic(auto, unfolding(crate::specs::Seen::counter_events_by))]
fn push_counter(events: &mut Vec<Event>, error: &ContinuityError) -> Result<(), AllocError>
    ensures { OnOk result (events.new.items ≡ events.old.items ++ spec.counter_events_by (Some error.now)) }
{
    events.push(Event::Continuity(CounterFault {
        pid: error.pid,
        packet: error.packet,
        expected: error.expected,
        found: error.found,
    }))?;
    Ok(())
}

/// Appends a counter that does not follow, if any.
#[tactic(auto, unfolding(crate::specs::Seen::counter_events_by))]
pub(crate) fn push_counter_if(
    events: &mut Vec<Event>,
    error: &Option<ContinuityError>,
) -> Result<(), AllocError>
    ensures { OnOk result (events.new.items ≡ events.old.items ++ spec.counter_events_by error.now) }
{
    match error {
        None => Ok(()),
        Some(error) => push_counter(events, error),
    }
}
