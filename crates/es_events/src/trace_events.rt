//! Events of what the buffers of a stream held near the greatest excess of each.
ghost use Rattle.std.specs.Prelude.{◌≡◌, ◌++◌, OnOk, flat_map};
ghost use Rattle.std.specs.Option.{option_to_list};
ghost use Rattle.events.specs.declared.rule_event.BufferKind.TheVariants.{Elementary, Multiplexing};
ghost use Rattle.es_events.specs.EntryEvents.{with_size};
ghost use Rattle.es_events.specs.TraceEvents as spec;

use crate::entry_events::{Place, moment_of};
use crate::video_events::with_size;
use crate::video_tally::VideoLimits;
use crate::view_options::ViewOptions;
use crate::{Ring, Trace, TraceRow, Traces};
use events::{BufferKind, Event, RuleEvent, TracePoint};
use std::alloc::AllocError;
use tstd_rows::TRANSPORT_BYTES;

// Returns what a row found in a transport buffer.
fn transport_point(options: &ViewOptions, place: &Place, peak: u128, row: &TraceRow) -> Event
    ensures { result ≡ spec.transport_point options.now place.now peak row.now }
{
    Event::Rule(RuleEvent::FaultTrace(TracePoint {
        pid: place.pid,
        buffer: BufferKind::Transport,
        packet: row.packet,
        left: moment_of(options, place.rx, row.left),
        least: None,
        most: row.transport,
        size: TRANSPORT_BYTES,
        peak,
        begins: row.begins,
    }))
}

// Returns what a row found in a main buffer, `least` bytes at least.
fn main_point(options: &ViewOptions, place: &Place, peak: u128, row: &TraceRow, least: u64) -> Event
    ensures { result ≡ spec.main_point options.now place.now peak row.now least }
{
    Event::Rule(RuleEvent::FaultTrace(TracePoint {
        pid: place.pid,
        buffer: BufferKind::Main,
        packet: row.packet,
        left: moment_of(options, place.rx, row.left),
        least: Some(least),
        most: u128::from(row.main),
        size: place.size,
        peak,
        begins: row.begins,
    }))
}

// Returns what a row found in a main buffer, if bytes of the row entered it.
#[tactic(auto, unfolding(crate::specs::TraceEvents::main_point_if))]
fn main_point_if(options: &ViewOptions, place: &Place, peak: u128, row: &TraceRow) -> Option<Event>
    ensures { result ≡ spec.main_point_if options.now place.now peak row.now row.now.least }
{
    let least = row.least?;
    Some(main_point(options, place, peak, row, least))
}

// Returns what a row found in a buffer of video, `most` bytes at most, if bytes of the row entered it.
fn video_point_if(
    options: &ViewOptions,
    place: &Place,
    buffer: BufferKind,
    peak: u128,
    row: &TraceRow,
    most: u128,
) -> Option<Event>
    ensures { result ≡ spec.video_point_if options.now place.now buffer peak row.now most }
{
    if most == 0 {
        return None;
    }
    Some(Event::Rule(RuleEvent::FaultTrace(TracePoint {
        pid: place.pid,
        buffer,
        packet: row.packet,
        left: moment_of(options, place.rx, row.left),
        least: None,
        most,
        size: place.size,
        peak,
        begins: row.begins,
    })))
}

// Returns what a row found in a buffer of a stream.
#[tactic(auto, unfolding(crate::specs::TraceEvents::point_of))]
fn point_of(
    options: &ViewOptions,
    place: &Place,
    buffer: BufferKind,
    peak: u128,
    row: &TraceRow,
) -> Option<Event>
    ensures { result ≡ spec.point_of options.now place.now buffer peak row.now }
{
    match buffer {
        BufferKind::Transport => Some(transport_point(options, place, peak, row)),
        BufferKind::Multiplexing => {
            video_point_if(options, place, buffer, peak, row, row.transport)
        }
        BufferKind::Elementary => {
            video_point_if(options, place, buffer, peak, row, u128::from(row.main))
        }
        BufferKind::Main => main_point_if(options, place, peak, row),
        BufferKind::TableTransport => None,
        BufferKind::System => None,
    }
}

// Appends a point, if there is one.
fn push_point_if(events: &mut Vec<Event>, point: Option<Event>) -> Result<(), AllocError>
    ensures { OnOk result (events.new.items ≡ events.old.items ++ option_to_list point) }
{
    if let Some(point) = point {
        events.push(point)?;
    }
    Ok(())
}

// Appends what rows found in a buffer.
fn push_rows(
    events: &mut Vec<Event>,
    options: &ViewOptions,
    place: &Place,
    buffer: BufferKind,
    peak: u128,
    rows: &[TraceRow],
) -> Result<(), AllocError>
    ensures { OnOk result (events.new.items
        ≡ events.old.items ++ flat_map (spec.points_of options.now place.now buffer peak) rows.now) }
{
    for row in rows {
        push_point_if(events, point_of(options, place, buffer, peak, row))?;
    }
    Ok(())
}

// Appends what the rows of a ring found in a buffer.
fn push_ring(
    events: &mut Vec<Event>,
    options: &ViewOptions,
    place: &Place,
    buffer: BufferKind,
    peak: u128,
    ring: &Ring,
) -> Result<(), AllocError>
    ensures { OnOk result (events.new.items
        ≡ events.old.items ++ spec.ring_points options.now place.now buffer peak ring.now) }
{
    let (older, newer) = ring.parts();
    push_rows(events, options, place, buffer, peak, older)?;
    push_rows(events, options, place, buffer, peak, newer)
}

// Appends what a buffer held near its greatest excess, if it had one; the ring has the last rows of the stream.
fn push_trace(
    events: &mut Vec<Event>,
    options: &ViewOptions,
    place: &Place,
    buffer: BufferKind,
    trace: &Trace,
    ring: &Ring,
) -> Result<(), AllocError>
    ensures { OnOk result (events.new.items
        ≡ events.old.items ++ spec.trace_points options.now place.now buffer trace.now ring.now) }
{
    if trace.greatest == 0 {
        return Ok(());
    }
    push_ring(
        events,
        options,
        place,
        buffer,
        trace.greatest,
        trace.rows(ring),
    )
}

/// Appends what the transport buffer and the main buffer held near the greatest excess of each.
pub fn push_traces(
    events: &mut Vec<Event>,
    options: &ViewOptions,
    place: &Place,
    traces: &Traces,
) -> Result<(), AllocError>
    ensures { OnOk result (events.new.items ≡ events.old.items ++ spec.trace_events options.now place.now traces.now) }
{
    let ring = &traces.ring;
    let buffer = BufferKind::Transport;
    push_trace(events, options, place, buffer, &traces.transport, ring)?;
    push_trace(events, options, place, BufferKind::Main, &traces.main, ring)
}

/// Appends what both buffers of video held near the greatest excess of each, if they are viewed.
#[tactic(auto, unfolding(crate::specs::TraceEvents::video_trace_events))]
pub fn push_video_traces(
    events: &mut Vec<Event>,
    options: &ViewOptions,
    place: &Place,
    limits: &Option<VideoLimits>,
    traces: &Traces,
) -> Result<(), AllocError>
    ensures { OnOk result (events.new.items
        ≡ events.old.items ++ spec.video_trace_events options.now place.now limits.now traces.now) }
{
    match limits {
        None => Ok(()),
        Some(limits) => push_traces_of_both(events, options, place, limits, traces),
    }
}

// Appends what both buffers of video held near the greatest excess of each.
fn push_traces_of_both(
    events: &mut Vec<Event>,
    options: &ViewOptions,
    place: &Place,
    limits: &VideoLimits,
    traces: &Traces,
) -> Result<(), AllocError>
    ensures { OnOk result (events.new.items ≡ events.old.items
        ++ (spec.trace_points options.now (with_size place.now limits.now.multiplexing) Multiplexing
        traces.now.transport traces.now.ring
        ++ spec.trace_points options.now (with_size place.now limits.now.elementary) Elementary
        traces.now.main traces.now.ring)) }
{
    let ring = &traces.ring;
    let first = with_size(place, limits.multiplexing);
    let buffer = BufferKind::Multiplexing;
    push_trace(events, options, &first, buffer, &traces.transport, ring)?;
    let second = with_size(place, limits.elementary);
    let buffer = BufferKind::Elementary;
    push_trace(events, options, &second, buffer, &traces.main, ring)
}
