//! Events of a stream that the tables name.
ghost use Rattle.std.specs.Prelude.{◌≡◌, ◌++◌, ◌∷◌, [], Some, ◌<◌, OnOk};
ghost use Rattle.std.specs.Option.{option_to_list};
ghost use Rattle.tstd_rows.specs.Entering.{entered_view};
ghost use Rattle.tstd_rows.specs.Held.{Held, IsHeld};
ghost use Rattle.es_events.specs.EntryEvents as spec;

use crate::clocks::LONGEST_STAY;
use crate::tally::Tally;
use crate::view_options::ViewOptions;
use clock27::units::BYTE_TICKS_AT_1BPS;
use es_buffers::Buffers;
use events::{
    BufferExcess, BufferKind, BufferTotals, Event, FarAhead, LateUnit, PidName, StreamBegin,
};
use std::alloc::AllocError;
use stream_coding::Coding;
use stream_programs::FoundStream;
use tstd_rows::{Entered, Excess, StreamBuffers, TRANSPORT_BYTES, UnitSeen};

/// Where an event is found: the stream, the packet, the rate out of the transport buffer in bits a second, and the size
/// of the buffer in bytes.
#[derive(Clone, Copy)]
pub struct Place {
    pub pid: u16,
    pub packet: u64,
    pub rx: u32,
    pub size: u64,
}

/// What a main buffer held.
#[derive(Clone, Copy)]
pub struct MainFigures {
    pub most: u64,
    pub excesses: u128,
}

/// Returns the event that a stream's buffers begin with a packet.
pub fn stream_event(index: u64, stream: &FoundStream, coding: Coding, buffers: Buffers) -> Event
    ensures { result ≡ spec.stream_event index stream.now coding buffers }
{
    Event::Stream(StreamBegin {
        pid: stream.pid,
        program: stream.program,
        stream_type: stream.stream_type,
        coding: PidName::of_coding(coding),
        rx: buffers.rx,
        main: buffers.main,
        packet: index,
    })
}

fn ticks_of(rate: u64, rx: u32, time: u128) -> u128
    requires { rate < 4294967296 }
    ensures { result ≡ spec.ticks_of rate rx time }
{
    time.saturating_mul(BYTE_TICKS_AT_1BPS) / u128::from((rate * u64::from(rx)).max(1))
}

/// Returns how long a time of a buffer is in ticks.
pub fn span_of(options: &ViewOptions, rx: u32, time: u128) -> u128
    ensures { result ≡ spec.span_of options.now rx time }
{
    ticks_of(options.arrival.step(), rx, time)
}

/// Returns a time of a buffer in ticks from the first byte of the stream on.
pub fn moment_of(options: &ViewOptions, rx: u32, time: u128) -> u128
    ensures { result ≡ spec.moment_of options.now rx time }
{
    span_of(options, rx, time).saturating_sub(u128::from(options.origin))
}

// Returns the event of an excess of a buffer.
fn excess_event(buffer: BufferKind, options: &ViewOptions, place: &Place, excess: &Excess) -> Event
    ensures { result ≡ spec.excess_event buffer options.now place.now excess.now }
{
    Event::Excess(BufferExcess {
        number: place.pid,
        buffer,
        packet: place.packet,
        begin: moment_of(options, place.rx, excess.begin),
        end: moment_of(options, place.rx, excess.end),
        peak: excess.peak,
        size: place.size,
    })
}

// Appends an excess of a buffer. It stays a call of its own: few packets end one.
#[inline(never)]
fn push_excess(
    events: &mut Vec<Event>,
    options: &ViewOptions,
    place: &Place,
    buffer: BufferKind,
    excess: &Excess,
) -> Result<(), AllocError>
    ensures { OnOk result (events.new.items
        ≡ events.old.items ++ spec.excess_events buffer options.now place.now (excess.now ∷ [])) }
{
    events.push(excess_event(buffer, options, place, excess))?;
    Ok(())
}

/// Appends an excess of a buffer, if there is one.
#[inline(always)]
pub(crate) fn push_excess_if(
    events: &mut Vec<Event>,
    options: &ViewOptions,
    place: &Place,
    buffer: BufferKind,
    excess: &Option<Excess>,
) -> Result<(), AllocError>
    ensures { OnOk result (events.new.items
        ≡ events.old.items ++ spec.excess_events buffer options.now place.now (option_to_list excess.now)) }
{
    match excess {
        None => Ok(()),
        Some(excess) => push_excess(events, options, place, buffer, excess),
    }
}

fn late_event(options: &ViewOptions, place: &Place, unit: &UnitSeen) -> Event
    ensures { result ≡ spec.late_event options.now place.now unit.now }
{
    Event::Late(LateUnit {
        pid: place.pid,
        packet: place.packet,
        due: moment_of(options, place.rx, unit.due.until),
        left: moment_of(options, place.rx, unit.left),
        by: span_of(options, place.rx, unit.lateness()),
        bytes: unit.bytes,
    })
}

// Appends a unit that was late. It stays a call of its own: few units are late.
#[inline(never)]
fn push_late(
    events: &mut Vec<Event>,
    options: &ViewOptions,
    place: &Place,
    unit: &UnitSeen,
) -> Result<(), AllocError>
    ensures { OnOk result (events.new.items
        ≡ events.old.items ++ spec.late_event options.now place.now unit.now ∷ []) }
{
    events.push(late_event(options, place, unit))?;
    Ok(())
}

// Appends a unit that ended, if it was late.
#[inline(always)]
#[tactic(auto, unfolding(crate::specs::EntryEvents::late_events))]
fn push_late_if(
    events: &mut Vec<Event>,
    options: &ViewOptions,
    place: &Place,
    unit: &Option<UnitSeen>,
) -> Result<(), AllocError>
    ensures { OnOk result (events.new.items ≡ events.old.items ++ spec.late_events options.now place.now unit.now) }
{
    match unit {
        Some(unit) => {
            if unit.lateness() == 0 {
                return Ok(());
            }
            push_late(events, options, place, unit)
        }
        None => Ok(()),
    }
}

fn ahead_event(place: &Place, ahead: u64) -> Event
    ensures { result ≡ spec.ahead_event place.now ahead }
{
    Event::Ahead(FarAhead {
        pid: place.pid,
        packet: place.packet,
        by: ahead,
        limit: LONGEST_STAY,
    })
}

// Appends a unit that would stay longer than a unit may. It stays a call of its own: few units would stay as long.
#[inline(never)]
#[tactic(auto, unfolding(crate::specs::EntryEvents::ahead_events))]
fn push_ahead(events: &mut Vec<Event>, place: &Place, ahead: u64) -> Result<(), AllocError>
    ensures { OnOk result (events.new.items ≡ events.old.items ++ spec.ahead_events place.now (Some ahead)) }
{
    events.push(ahead_event(place, ahead))?;
    Ok(())
}

/// Appends a unit that would stay longer than any may, if one begins.
#[tactic(auto, unfolding(crate::specs::EntryEvents::ahead_events))]
pub fn push_ahead_if(
    events: &mut Vec<Event>,
    place: &Place,
    ahead: Option<u64>,
) -> Result<(), AllocError>
    ensures { OnOk result (events.new.items ≡ events.old.items ++ spec.ahead_events place.now ahead) }
{
    match ahead {
        None => Ok(()),
        Some(ahead) => push_ahead(events, place, ahead),
    }
}

// Appends the excesses and the unit that have ended with a packet. It stays a call of its own: few packets end one.
#[inline(never)]
fn push_all_ended(
    events: &mut Vec<Event>,
    options: &ViewOptions,
    place: &Place,
    entered: &Entered,
) -> Result<(), AllocError>
    ensures { OnOk result (events.new.items
        ≡ events.old.items ++ spec.ended_events options.now place.now (entered_view entered.now)) }
{
    let transport = Place {
        size: TRANSPORT_BYTES,
        ..*place
    };
    let kind = BufferKind::Transport;
    push_excess_if(events, options, &transport, kind, &entered.lead)?;
    push_excess_if(events, options, &transport, kind, &entered.header)?;
    push_excess_if(events, options, &transport, kind, &entered.payload)?;
    push_excess_if(events, options, place, BufferKind::Main, &entered.main)?;
    push_late_if(events, options, place, &entered.unit)
}

/// Appends the events of what has ended with a packet, of a stream with a main buffer of the size at its place.
#[inline(always)]
pub fn push_ended(
    events: &mut Vec<Event>,
    options: &ViewOptions,
    place: &Place,
    entered: &Entered,
) -> Result<(), AllocError>
    ensures { OnOk result (events.new.items
        ≡ events.old.items ++ spec.ended_events options.now place.now (entered_view entered.now)) }
{
    if entered.lead.is_none()
        && entered.header.is_none()
        && entered.payload.is_none()
        && entered.main.is_none()
        && entered.unit.is_none()
    {
        return Ok(());
    }
    push_all_ended(events, options, place, entered)
}

/// Returns the number of excesses, the current excess included.
pub fn with_one(ended: u64, under_way: &Option<Excess>) -> u128
    ensures { result ≡ spec.with_one ended under_way.now }
{
    u128::from(ended) + u128::from(u8::from(under_way.is_some()))
}

fn transport_event(pid: u16, most: u128, excesses: u128) -> Event
    ensures { result ≡ spec.transport_event pid most excesses }
{
    Event::Buffer(BufferTotals {
        pid,
        buffer: BufferKind::Transport,
        most,
        size: TRANSPORT_BYTES,
        excesses,
        units: None,
        late: None,
        unread: None,
    })
}

fn main_event(place: &Place, figures: &MainFigures, tally: &Tally) -> Event
    ensures { result ≡ spec.main_event place.now figures.now tally.now }
{
    Event::Buffer(BufferTotals {
        pid: place.pid,
        buffer: BufferKind::Main,
        most: u128::from(figures.most),
        size: place.size,
        excesses: figures.excesses,
        units: Some(tally.units),
        late: Some(tally.late),
        unread: Some(tally.unread),
    })
}

// Appends the excesses and the unit that have not ended.
fn push_under_way(
    events: &mut Vec<Event>,
    options: &ViewOptions,
    place: &Place,
    buffers: &StreamBuffers,
) -> Result<(), AllocError>
    ensures { (h : Held) → IsHeld buffers.now h → OnOk result (events.new.items
        ≡ events.old.items ++ spec.under_way_events options.now place.now h) }
{
    let transport = Place {
        size: TRANSPORT_BYTES,
        ..*place
    };
    let kind = BufferKind::Transport;
    let excess = buffers.transport_excess();
    push_excess_if(events, options, &transport, kind, &excess)?;
    let excess = buffers.main_excess();
    push_excess_if(events, options, place, BufferKind::Main, &excess)?;
    push_late_if(events, options, place, &buffers.unit())
}

// Returns the totals of the main buffer.
fn main_total(place: &Place, buffers: &StreamBuffers, tally: &Tally) -> Event
    ensures { (h : Held) → IsHeld buffers.now h →
        result ≡ spec.main_event place.now (spec.main_figures h tally.now) tally.now }
{
    let figures = MainFigures {
        most: buffers.main_most(),
        excesses: with_one(tally.main_excesses, &buffers.main_excess()),
    };
    main_event(place, &figures, tally)
}

// Returns the totals of the transport buffer.
fn transport_total(place: &Place, buffers: &StreamBuffers, tally: &Tally) -> Event
    ensures { (h : Held) → IsHeld buffers.now h →
        result ≡ spec.transport_total place.now h tally.now }
{
    let excesses = with_one(tally.excesses, &buffers.transport_excess());
    transport_event(place.pid, buffers.transport_most(), excesses)
}

/// Appends the totals of both buffers at the end of the stream.
pub fn push_closing(
    events: &mut Vec<Event>,
    options: &ViewOptions,
    place: &Place,
    buffers: &StreamBuffers,
    tally: &Tally,
) -> Result<(), AllocError>
    ensures { (h : Held) → IsHeld buffers.now h → OnOk result (events.new.items
        ≡ events.old.items ++ spec.closing_events options.now place.now h tally.now) }
{
    push_under_way(events, options, place, buffers)?;
    events.push(transport_total(place, buffers, tally))?;
    events.push(main_total(place, buffers, tally))?;
    Ok(())
}
