//! Events of MB and EB, the two buffers of video.
ghost use Rattle.std.specs.Prelude.{◌≡◌, ◌++◌, ◌∷◌, [], OnOk};
ghost use Rattle.tstd_rows.specs.HeldVideo.{video_view};
ghost use Rattle.es_events.specs.VideoEvents as spec;
ghost use Rattle.es_events.specs.EntryEvents.{with_size};

use crate::entry_events::{Place, moment_of, push_excess_if, span_of, with_one};
use crate::video_figures::{VideoFigures, closed_video};
use crate::video_tally::{VideoLimits, VideoTally};
use crate::view_options::ViewOptions;
use events::{BufferKind, BufferTotals, ElementaryLate, Event};
use std::alloc::AllocError;
use tstd_rows::{LateCause, VideoEntered, VideoUnit};

// Returns the same place with another size.
pub(crate) fn with_size(place: &Place, size: u64) -> Place
    ensures { result ≡ with_size place.now size }
{
    Place { size, ..*place }
}

#[tactic(auto, unfolding(crate::specs::VideoEvents::reported_cause))]
fn reported_cause(cause: LateCause) -> events::LateCause
    ensures { result ≡ spec.reported_cause cause }
{
    match cause {
        LateCause::Multiplex => events::LateCause::Multiplex,
        LateCause::FullBuffer => events::LateCause::FullBuffer,
    }
}

fn elementary_late_event(
    options: &ViewOptions,
    place: &Place,
    unit: &VideoUnit,
    cause: LateCause,
) -> Event
    ensures { result ≡ spec.elementary_late_event options.now place.now unit.now cause }
{
    Event::ElementaryLate(ElementaryLate {
        pid: place.pid,
        packet: place.packet,
        due: moment_of(options, place.rx, unit.seen.due.until),
        left: moment_of(options, place.rx, unit.entered),
        by: span_of(options, place.rx, unit.lateness()),
        bytes: unit.seen.bytes,
        cause: reported_cause(cause),
    })
}

// Appends a unit that was late in the elementary stream buffer. It stays a call of its own: few units are late.
#[inline(never)]
fn push_elementary_late(
    events: &mut Vec<Event>,
    options: &ViewOptions,
    place: &Place,
    unit: &VideoUnit,
    cause: LateCause,
) -> Result<(), AllocError>
    ensures { OnOk result (events.new.items
        ≡ events.old.items ++ spec.elementary_late_event options.now place.now unit.now cause ∷ []) }
{
    events.push(elementary_late_event(options, place, unit, cause))?;
    Ok(())
}

// Appends a unit that ended, if it was late in the elementary stream buffer.
#[tactic(auto, unfolding(crate::specs::VideoEvents::elementary_late_events, crate::specs::VideoEvents::late_events_by))]
fn push_elementary_late_if(
    events: &mut Vec<Event>,
    options: &ViewOptions,
    place: &Place,
    unit: &Option<VideoUnit>,
) -> Result<(), AllocError>
    ensures { OnOk result (events.new.items
        ≡ events.old.items ++ spec.elementary_late_events options.now place.now unit.now) }
{
    match unit {
        Some(unit) => match unit.cause() {
            Some(cause) => push_elementary_late(events, options, place, unit, cause),
            None => Ok(()),
        },
        None => Ok(()),
    }
}

// Appends the excesses and the unit that have ended with a packet. It stays a call of its own: few packets end one.
#[inline(never)]
fn push_ended_of_both(
    events: &mut Vec<Event>,
    options: &ViewOptions,
    place: &Place,
    limits: &VideoLimits,
    entered: &VideoEntered,
) -> Result<(), AllocError>
    ensures { OnOk result (events.new.items
        ≡ events.old.items ++ spec.ended_of_both options.now place.now limits.now
        (video_view entered.now) entered.now.unit) }
{
    let multiplexing = with_size(place, limits.multiplexing);
    let elementary = with_size(place, limits.elementary);
    let kind = BufferKind::Multiplexing;
    push_excess_if(events, options, &multiplexing, kind, &entered.waiting)?;
    push_excess_if(events, options, &multiplexing, kind, &entered.free)?;
    let kind = BufferKind::Elementary;
    push_excess_if(events, options, &elementary, kind, &entered.elementary)?;
    push_elementary_late_if(events, options, place, &entered.unit)
}

// Appends what has ended with a packet, if anything has: most packets end nothing.
#[inline(always)]
fn push_ended_if(
    events: &mut Vec<Event>,
    options: &ViewOptions,
    place: &Place,
    limits: &VideoLimits,
    entered: &VideoEntered,
) -> Result<(), AllocError>
    ensures { OnOk result (events.new.items
        ≡ events.old.items ++ spec.ended_of_both options.now place.now limits.now
        (video_view entered.now) entered.now.unit) }
{
    if entered.waiting.is_none()
        && entered.free.is_none()
        && entered.elementary.is_none()
        && entered.unit.is_none()
    {
        return Ok(());
    }
    push_ended_of_both(events, options, place, limits, entered)
}

/// Appends what has ended with a packet in the buffers of video, if they are viewed.
#[inline(always)]
#[tactic(auto, unfolding(crate::specs::VideoEvents::video_ended_events))]
pub fn push_video_ended(
    events: &mut Vec<Event>,
    options: &ViewOptions,
    place: &Place,
    limits: &Option<VideoLimits>,
    entered: &VideoEntered,
) -> Result<(), AllocError>
    ensures { OnOk result (events.new.items
        ≡ events.old.items ++ spec.video_ended_events options.now place.now limits.now
        (video_view entered.now) entered.now.unit) }
{
    match limits {
        None => Ok(()),
        Some(limits) => push_ended_if(events, options, place, limits, entered),
    }
}

fn multiplexing_event(place: &Place, figures: &VideoFigures, tally: &VideoTally) -> Event
    ensures { result ≡ spec.multiplexing_event place.now figures.now tally.now }
{
    Event::Buffer(BufferTotals {
        pid: place.pid,
        buffer: BufferKind::Multiplexing,
        most: figures.multiplexing_most,
        size: figures.limits.multiplexing,
        excesses: with_one(tally.multiplexing, &figures.multiplexing),
        units: None,
        late: None,
        unread: None,
    })
}

fn elementary_event(place: &Place, figures: &VideoFigures, units: u64, tally: &VideoTally) -> Event
    ensures { result ≡ spec.elementary_event place.now figures.now units tally.now }
{
    let closed = closed_video(figures, tally);
    Event::Buffer(BufferTotals {
        pid: place.pid,
        buffer: BufferKind::Elementary,
        most: u128::from(figures.elementary_most),
        size: figures.limits.elementary,
        excesses: with_one(tally.elementary, &figures.elementary),
        units: Some(units),
        late: Some(closed.late),
        unread: None,
    })
}

// Appends the excesses and the unit that have not ended.
fn push_video_under_way(
    events: &mut Vec<Event>,
    options: &ViewOptions,
    place: &Place,
    figures: &VideoFigures,
) -> Result<(), AllocError>
    ensures { OnOk result (events.new.items
        ≡ events.old.items ++ spec.video_under_way options.now place.now figures.now) }
{
    let multiplexing = with_size(place, figures.limits.multiplexing);
    let elementary = with_size(place, figures.limits.elementary);
    let kind = BufferKind::Multiplexing;
    push_excess_if(events, options, &multiplexing, kind, &figures.multiplexing)?;
    let kind = BufferKind::Elementary;
    push_excess_if(events, options, &elementary, kind, &figures.elementary)?;
    push_elementary_late_if(events, options, place, &figures.unit)
}

// Appends the totals of both buffers.
fn push_closing_of_both(
    events: &mut Vec<Event>,
    options: &ViewOptions,
    place: &Place,
    figures: &VideoFigures,
    units: u64,
    tally: &VideoTally,
) -> Result<(), AllocError>
    ensures { OnOk result (events.new.items
        ≡ events.old.items ++ spec.closing_of_both options.now place.now figures.now units tally.now) }
{
    push_video_under_way(events, options, place, figures)?;
    events.push(multiplexing_event(place, figures, tally))?;
    events.push(elementary_event(place, figures, units, tally))?;
    Ok(())
}

/// Appends the totals of both buffers at the end, if they are viewed; the stream has `units` units.
#[tactic(auto, unfolding(crate::specs::VideoEvents::video_closing_events))]
pub fn push_video_closing(
    events: &mut Vec<Event>,
    options: &ViewOptions,
    place: &Place,
    figures: &Option<VideoFigures>,
    units: u64,
    tally: &VideoTally,
) -> Result<(), AllocError>
    ensures { OnOk result (events.new.items
        ≡ events.old.items ++ spec.video_closing_events options.now place.now figures.now units tally.now) }
{
    match figures {
        None => Ok(()),
        Some(figures) => push_closing_of_both(events, options, place, figures, units, tally),
    }
}
