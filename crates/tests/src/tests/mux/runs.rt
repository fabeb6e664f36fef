//! Units fed before and between slots of the small service, what the slots carry, and each refusal.

mod scripts;

use super::services::{PATIENT, SMALL, Service, WIDE, unit};
use linked_list_allocator::LocalHeap;
use mux_core::laws::{Event, drive};
use mux_core::{FeedError, Mux, NewError};
use plan_checker::CheckedPlan;
use scripts::{PAIRS, SCRIPTS, Script, Step};
use std::alloc::{Allocator, Global};
use switch_checker::CheckedSwitch;

fn single<A: Allocator>(
    made: Result<Mux<A>, (NewError, CheckedPlan<A>)>,
) -> Result<Mux<A>, NewError> {
    match made {
        Ok(mux) => Ok(mux),
        Err((error, plan)) => {
            drop(plan);
            Err(error)
        }
    }
}

fn double<A: Allocator>(
    made: Result<Mux<A>, (NewError, CheckedSwitch<A>)>,
) -> Result<Mux<A>, NewError> {
    match made {
        Ok(mux) => Ok(mux),
        Err((error, switch)) => {
            drop(switch);
            Err(error)
        }
    }
}

/// Returns a multiplexer over the plan of the service; with a number of periods, over these and then over its
/// second plan. The plans are in the memory `given`.
fn made<A: Allocator + Copy>(
    global: Global,
    given: A,
    alloc: A,
    service: &Service,
    periods: Option<u64>,
    capacity: usize,
) -> Option<Result<Mux<A>, NewError>> {
    match periods {
        None => {
            let plan = service.checked(global, given)?;
            Some(single(Mux::new(alloc, plan, capacity)))
        }
        Some(periods) => {
            let switch = service.switched(global, given)?;
            Some(double(Mux::with_switch(alloc, switch, periods, capacity)))
        }
    }
}

/// Periods and capacities, and why no multiplexer is made.
static CAPACITIES: [(Option<u64>, usize, Option<NewError>); 8] = [
    (None, 0, Some(NewError::Capacity)),
    (None, 1, None),
    (None, 1_048_576, None),
    (None, 1_048_577, Some(NewError::Capacity)),
    (Some(0), 0, Some(NewError::Capacity)),
    (Some(1), 1_048_577, Some(NewError::Capacity)),
    (Some(0), 1, Some(NewError::Periods)),
    (Some(9_162_596_899), 1, Some(NewError::Periods)),
];

fn is_made(alloc: Global, row: &(Option<u64>, usize, Option<NewError>)) -> Option<bool> {
    let (periods, capacity, error) = *row;
    let made = made(alloc, alloc, alloc, &PATIENT, periods, capacity)?;
    Some(made.err() == error)
}

#[test]
fn capacities(rt: HostRuntime) {
    for row in &CAPACITIES {
        assert!(rt; is_made(rt.alloc(), row) == Some(true));
    }
}

/// Returns whether the unit is answered so.
fn is_fed(
    mux: &mut Mux,
    alloc: Global,
    unit_of: (u8, usize, u64, u64),
    wanted: Option<FeedError>,
) -> Option<bool> {
    let (stream, size, dts, pts) = unit_of;
    let unit = unit(alloc, size, dts, pts, 0xa5)?;
    match mux.feed(stream, unit) {
        Ok(()) => Some(wanted == None),
        Err((cause, back)) => {
            let is_handed_back = back.bytes.len() == size;
            drop(back);
            Some(Some(cause) == wanted && is_handed_back)
        }
    }
}

/// Appends the packets up to this slot.
fn push_packets(mux: &mut Mux, slot: u64, out: &mut Vec<u8>) -> bool {
    for _ in mux.now()..slot {
        let Ok(packet) = mux.next_packet() else {
            return false;
        };
        if out.extend_from_slice(&packet).is_err() {
            return false;
        }
    }
    true
}

/// Returns whether the last packet has these bytes from one on.
fn ends(out: &[u8], from: usize, bytes: &[u8]) -> bool {
    match out.chunks(188).last() {
        Some(packet) => packet.get(from..).unwrap_or(&[]).starts_with(bytes),
        None => false,
    }
}

fn is_done(mux: &mut Mux, alloc: Global, step: &Step, out: &mut Vec<u8>) -> bool {
    match step {
        Step::Feed(stream, size, dts, pts, wanted) => {
            is_fed(mux, alloc, (*stream, *size, *dts, *pts), *wanted) == Some(true)
        }
        Step::Until(slot) => push_packets(mux, *slot, out),
        Step::Carries(from, bytes) => ends(out, *from, bytes),
        Step::Waiting(stream, units) => mux.waiting(*stream) == *units,
    }
}

fn are_done(mux: &mut Mux, alloc: Global, steps: &[Step], out: &mut Vec<u8>) -> bool {
    for step in steps {
        if !is_done(mux, alloc, step, out) {
            return false;
        }
    }
    true
}

/// Returns the packets of the script, if each step is answered as it says.
fn packets(alloc: Global, script: &Script) -> Option<Vec<u8>> {
    let (service, periods, capacity, steps) = script;
    let mut mux = made(alloc, alloc, alloc, service, *periods, *capacity)?.ok()?;
    let mut out = Vec::new(alloc);
    let done = are_done(&mut mux, alloc, steps, &mut out);
    drop(mux);
    if done { Some(out) } else { None }
}

/// Returns the units and slots of the script.
fn push_events(alloc: Global, steps: &[Step], events: &mut Vec<Event>) -> bool {
    let mut slots = 0;
    for step in steps {
        match step {
            Step::Feed(stream, size, dts, pts, _) => {
                let Some(unit) = unit(alloc, *size, *dts, *pts, 0xa5) else {
                    return false;
                };
                if events.push(Event::Feed(*stream, unit)).is_err() {
                    return false;
                }
            }
            Step::Until(slot) => {
                if !push_slots(events, slot.saturating_sub(slots)) {
                    return false;
                }
                slots = *slot;
            }
            _ => {}
        }
    }
    true
}

fn push_slots<A: Allocator>(events: &mut Vec<Event<A>, A>, slots: u64) -> bool {
    for _ in 0..slots {
        if events.push(Event::Slot).is_err() {
            return false;
        }
    }
    true
}

/// Returns what the multiplexer gives for the steps as a list of events.
fn driven(mux: &mut Mux, alloc: Global, steps: &[Step]) -> Option<Vec<u8>> {
    let mut events = Vec::new(alloc);
    if !push_events(alloc, steps, &mut events) {
        return None;
    }
    let mut out = Vec::new(alloc);
    match drive(mux, events, &mut out) {
        Ok(()) => Some(out),
        Err(events) => {
            drop(events);
            drop(out);
            None
        }
    }
}

/// Returns whether the script as a list of events gives the same packets.
fn is_driven(alloc: Global, script: &Script, packets: &[u8]) -> Option<bool> {
    let (service, periods, capacity, steps) = script;
    let mut mux = made(alloc, alloc, alloc, service, *periods, *capacity)?.ok()?;
    let driven = driven(&mut mux, alloc, steps);
    drop(mux);
    Some(driven?.as_slice() == packets)
}

fn is_run(alloc: Global, script: &Script) -> Option<bool> {
    let packets = packets(alloc, script)?;
    is_driven(alloc, script, &packets)
}

#[test]
fn scripts_are_done(rt: HostRuntime) {
    for script in &SCRIPTS {
        assert!(rt; is_run(rt.alloc(), script) == Some(true));
    }
}

/// Returns whether two scripts give the same packets.
fn are_alike(alloc: Global, one: &Script, other: &Script) -> Option<bool> {
    let packets_of_one = packets(alloc, one)?;
    let packets_of_other = packets(alloc, other)?;
    Some(packets_of_one.as_slice() == packets_of_other.as_slice())
}

// The packets of a unit do not depend on when it is fed; a switch begins with the first plan alone.
#[test]
fn alike(rt: HostRuntime) {
    for (one, other, same) in &PAIRS {
        assert!(rt; are_alike(rt.alloc(), one, other) == Some(*same));
    }
}

/// Returns whether a multiplexer for 64 units is made in a heap of this size beside its plans.
pub fn is_begun_in(global: Global, periods: Option<u64>, room: usize) -> Option<bool> {
    let given = LocalHeap::new(global, 16_384).ok()?;
    let heap = LocalHeap::new(global, room).ok()?;
    match made(global, &given, &heap, &WIDE, periods, 64)? {
        Ok(mux) => {
            drop(mux);
            Some(true)
        }
        Err(error) => if error == NewError::Memory {
            Some(false)
        } else {
            None
        },
    }
}

/// Returns whether 42 slots are done; if not, no slot is, and all events are returned.
fn are_driven<A: Allocator + Copy>(mux: &mut Mux<A>, given: A, alloc: A) -> Option<bool> {
    let mut events = Vec::new(given);
    if !push_slots(&mut events, 42) {
        return None;
    }
    let mut out = Vec::new(alloc);
    let back = match drive(mux, events, &mut out) {
        Ok(()) => 0,
        Err(events) => events.len(),
    };
    match (back, mux.now(), out.len()) {
        (0, 42, 7_896) => Some(true),
        (42, 0, 0) => Some(false),
        _ => None,
    }
}

/// Returns the same with a heap of this size for their bytes.
pub fn are_driven_in(global: Global, room: usize) -> Option<bool> {
    let given = LocalHeap::new(global, 131_072).ok()?;
    let heap = LocalHeap::new(global, room).ok()?;
    let mut mux = made(global, &given, &given, &SMALL, None, 1)?.ok()?;
    let driven = are_driven(&mut mux, &given, &heap);
    drop(mux);
    driven
}
