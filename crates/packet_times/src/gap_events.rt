//! Events of times without a packet of a PID.
ghost use Rattle.std.specs.Prelude.{◌≡◌, ◌++◌, OnOk};
ghost use Rattle.packet_times.specs.GapEvents as spec;

use crate::watched::is_watched;
use events::{ClockFault, Event, FaultKind};
use std::alloc::AllocError;
use ts_tables::NamedStreams;

// Appends the event of a time that is too long. A call of its own: few packets have one.
#[inline(never)]
fn push_gap(
    events: &mut Vec<Event>,
    named: &NamedStreams,
    gap: ClockFault,
) -> Result<(), AllocError>
    ensures { OnOk result (events.new.items ≡ events.old.items ++ spec.watched_event named.now gap) }
{
    if is_watched(named, gap.pid) {
        events.push(Event::ClockFault(FaultKind::PidRepetition, gap))?;
    }
    Ok(())
}

/// Appends the event of a time that is too long, if there is one and the first tables name its PID as video or audio.
#[tactic(auto, unfolding(crate::specs::GapEvents::gap_event_if))]
pub fn push_gap_if(
    events: &mut Vec<Event>,
    named: &NamedStreams,
    gap: Option<ClockFault>,
) -> Result<(), AllocError>
    ensures { OnOk result (events.new.items ≡ events.old.items ++ spec.gap_event_if named.now gap) }
{
    match gap {
        None => Ok(()),
        Some(gap) => push_gap(events, named, gap),
    }
}

/// Appends the events of times that are too long, of PIDs that the first tables name as video or audio.
pub fn push_gaps(
    events: &mut Vec<Event>,
    named: &NamedStreams,
    gaps: &[ClockFault],
) -> Result<(), AllocError>
    ensures { OnOk result (events.new.items ≡ events.old.items ++ spec.gap_events named.now gaps.now) }
{
    for gap in gaps {
        push_gap(events, named, *gap)?;
    }
    Ok(())
}
