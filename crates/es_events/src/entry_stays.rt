//! How long the bytes of a stream stay in its buffers, and how long the buffers are not empty.
ghost use Rattle.std.specs.Prelude.{◌≡◌, ◌++◌, ◌∷◌, [], Some, OnOk};
ghost use Rattle.es_events.specs.EntryStays as spec;

use crate::clocks::first_byte;
use crate::entry_events::{Place, moment_of};
use crate::view_options::ViewOptions;
use arrival::Arrival;
use clock27::units::BYTE_TICKS_AT_1BPS;
use events::{BufferKind, BufferStay, Event, RuleEvent};
use std::alloc::AllocError;
use tstd_rows::{BusyWatch, Stay};

// A second in ticks.
const SECOND: u64 = 27_000_000;

/// Returns the first payload byte of the packet at an index, of `size` bytes of payload.
pub fn payload_byte(index: u64, size: u64) -> u64
    ensures { result ≡ spec.payload_byte index size }
{
    first_byte(index).saturating_add(188u64.saturating_sub(size))
}

#[tactic(auto, unfolding(crate::specs::EntryStays::place_at))]
fn place_at(arrival: &Arrival, byte: u64) -> Option<u64>
    ensures { result ≡ spec.place_at arrival.now byte }
{
    match arrival {
        Arrival::Unknown => None,
        Arrival::AtRate(_) => Some(byte),
        Arrival::OnLines(lines) => Some(lines.moment(byte)),
    }
}

// Returns when a byte comes, in ticks from the stream's first byte, if it is known.
fn ticks_at(arrival: &Arrival, byte: u64) -> Option<u128>
    ensures { result ≡ spec.ticks_at arrival.now byte }
{
    match place_at(arrival, byte) {
        None => None,
        Some(place) => Some(
            u128::from(place) * BYTE_TICKS_AT_1BPS / u128::from(arrival.step().max(1)),
        ),
    }
}

/// Returns how long a byte stays that is decoded at `end`, in ticks from the stream's first byte, if it is longer than
/// `limit`.
#[tactic(auto, unfolding(crate::specs::EntryStays::overstay))]
pub fn overstay_of(options: &ViewOptions, limit: u64, byte: u64, end: u128) -> Option<Stay>
    ensures { result ≡ spec.overstay_of options.now limit byte end }
{
    match ticks_at(&options.arrival, byte) {
        None => None,
        Some(begin) => if end.saturating_sub(begin) > u128::from(limit) {
            Some(Stay { begin, end })
        } else {
            None
        },
    }
}

/// Returns how long the first byte of a unit stays, if a unit begins and the byte stays longer than `limit`.
#[tactic(auto, unfolding(crate::specs::EntryStays::overstay_if))]
pub fn overstay_if(options: &ViewOptions, limit: u64, byte: u64, due: Option<u128>) -> Option<Stay>
    ensures { result ≡ spec.overstay_if options.now limit byte due }
{
    match due {
        None => None,
        Some(end) => overstay_of(options, limit, byte, end),
    }
}

// Appends that the bytes of a unit stay too long. It stays a call of its own: few units have such bytes.
#[inline(never)]
#[tactic(auto, unfolding(crate::specs::EntryStays::delayed_events))]
fn push_delayed(
    events: &mut Vec<Event>,
    options: &ViewOptions,
    place: &Place,
    buffer: BufferKind,
    limit: u64,
    stay: &Stay,
) -> Result<(), AllocError>
    ensures { OnOk result (events.new.items
        ≡ events.old.items ++ spec.delayed_events options.now place.now buffer limit (Some stay.now)) }
{
    events.push(Event::Rule(RuleEvent::Delayed(BufferStay {
        number: place.pid,
        buffer,
        packet: place.packet,
        begin: stay.begin.saturating_sub(u128::from(options.origin)),
        end: stay.end.saturating_sub(u128::from(options.origin)),
        limit,
    })))?;
    Ok(())
}

/// Appends that the bytes of a unit stay too long, if they do.
#[tactic(auto, unfolding(crate::specs::EntryStays::delayed_events))]
pub fn push_delayed_if(
    events: &mut Vec<Event>,
    options: &ViewOptions,
    place: &Place,
    buffer: BufferKind,
    limit: u64,
    stay: &Option<Stay>,
) -> Result<(), AllocError>
    ensures { OnOk result (events.new.items
        ≡ events.old.items ++ spec.delayed_events options.now place.now buffer limit stay.now) }
{
    match stay {
        None => Ok(()),
        Some(stay) => push_delayed(events, options, place, buffer, limit, stay),
    }
}

fn busy_event(options: &ViewOptions, place: &Place, buffer: BufferKind, stay: &Stay) -> Event
    ensures { result ≡ spec.busy_event options.now place.now buffer stay.now }
{
    Event::Rule(RuleEvent::NotEmpty(BufferStay {
        number: place.pid,
        buffer,
        packet: place.packet,
        begin: moment_of(options, place.rx, stay.begin),
        end: moment_of(options, place.rx, stay.end),
        limit: SECOND,
    }))
}

// Appends that a buffer was not empty for more than a second. It stays a call of its own: few packets end such a time.
#[inline(never)]
fn push_busy(
    events: &mut Vec<Event>,
    options: &ViewOptions,
    place: &Place,
    buffer: BufferKind,
    stay: &Stay,
) -> Result<(), AllocError>
    ensures { OnOk result (events.new.items
        ≡ events.old.items ++ spec.busy_event options.now place.now buffer stay.now ∷ []) }
{
    events.push(busy_event(options, place, buffer, stay))?;
    Ok(())
}

/// Appends that a buffer was not empty for more than a second, if such a time has ended with a packet: `count` such
/// times had ended before it.
pub fn push_busy_if(
    events: &mut Vec<Event>,
    options: &ViewOptions,
    place: &Place,
    buffer: BufferKind,
    count: u64,
    after: &BusyWatch,
) -> Result<(), AllocError>
    ensures { OnOk result (events.new.items
        ≡ events.old.items ++ spec.busy_since options.now place.now buffer count after.now) }
{
    if count < after.count {
        return push_busy(events, options, place, buffer, &after.last);
    }
    Ok(())
}

/// Appends that a buffer has not been empty for more than a second at the end, if so.
#[tactic(auto, unfolding(crate::specs::EntryStays::busy_closing))]
pub fn push_busy_closing(
    events: &mut Vec<Event>,
    options: &ViewOptions,
    place: &Place,
    buffer: BufferKind,
    stay: &Option<Stay>,
) -> Result<(), AllocError>
    ensures { OnOk result (events.new.items
        ≡ events.old.items ++ spec.busy_closing options.now place.now buffer stay.now) }
{
    if let Some(stay) = stay {
        events.push(busy_event(options, place, buffer, stay))?;
    }
    Ok(())
}

/// Returns whether there was no time of more than a second in which the buffer was not empty.
pub fn is_idle(watch: &BusyWatch, under_way: &Option<Stay>) -> bool
    ensures { result ≡ spec.is_idle watch.now under_way.now }
{
    watch.count == 0 && under_way.is_none()
}
