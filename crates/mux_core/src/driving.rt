//! Units fed and slots written in any order.

ghost use Rattle.std.specs.Prelude.{◌≡◌, ◌≤◌, ◌+◌, IfErr, OnOk, map};
ghost use Rattle.std.specs.Vec.{vec_len, vec_capacity};
ghost use Rattle.mux_core.specs.Histories.{History, bytes_of};
ghost use Rattle.mux_core.specs.MuxStates.{Represents};
ghost use Rattle.mux_core.specs.Headline.{HeadlineOver};
ghost use Rattle.mux_core.specs.Events.{shown, FeedStep, SlotStep, step_history, history_after, Adds, StillRepresents};

use crate::multiplexer::Mux;
use pes_packet::Unit;
use std::alloc::{Allocator, Global};
use std::collections::VecDeque;

/// The next event: a unit for a stream, or a slot.
#[derive(Drop)]
pub enum Event<A: Allocator = Global> {
    Feed(u8, Unit<A>),
    Slot,
}

/// Applies the events in order. A refused unit is dropped; a slot appends its 188 bytes, and nothing after 2^40 slots.
/// If memory for the output runs out, the events are returned and nothing changes.
pub fn drive<A: Allocator>(
    mux: &mut Mux<A>,
    events: Vec<Event<A>, A>,
    out: &mut Vec<u8, A>,
) -> Result<(), Vec<Event<A>, A>>
    ensures represents { (h : History) → Represents h mux.old →
        OnOk result
        (StillRepresents (history_after mux.old.schedule mux.old.capacity h (map shown events.items)) mux.old mux.new) }
    ensures written { (h : History) → Represents h mux.old →
        OnOk result
        (Adds mux.old.schedule h (history_after mux.old.schedule mux.old.capacity h (map shown events.items))
        out.old.items out.new.items) }
    ensures headline { (h : History) → Represents h mux.old →
        OnOk result (HeadlineOver mux.old.schedule
        (history_after mux.old.schedule mux.old.capacity h (map shown events.items)).changes
        (history_after mux.old.schedule mux.old.capacity h (map shown events.items)).units
        (history_after mux.old.schedule mux.old.capacity h (map shown events.items)).slots
        (bytes_of mux.old.schedule (history_after mux.old.schedule mux.old.capacity h (map shown events.items)))) }
    ensures handed_back { IfErr result (λ e. (e.items ≡ events.items) × (mux.new ≡ mux.old)
        × (out.new.items ≡ out.old.items)) }
{
    let Some(room) = events.len().checked_mul(188) else {
        return Err(events);
    };
    if out.reserve(room).is_err() {
        return Err(events);
    }
    mux.keeps_promises();
    let mut left = VecDeque::from(events);
    'events: while let Some(event) = left.pop_front() {
        match event {
            Event::Feed(stream, unit) => take_unit(mux, stream, unit),
            Event::Slot => write_slot(mux, out),
        }
    }
    Ok(())
}

// Feeds a unit; drops it if it is refused.
fn take_unit<A: Allocator>(mux: &mut Mux<A>, stream: u8, unit: Unit<A>)
    ensures { (h : History) → Represents h mux.old →
        StillRepresents (step_history mux.old.schedule mux.old.capacity h (FeedStep stream unit)) mux.old mux.new
        × (bytes_of mux.old.schedule (step_history mux.old.schedule mux.old.capacity h (FeedStep stream unit))
        ≡ bytes_of mux.old.schedule h) }
{
    let _ = mux.feed(stream, unit);
}

// Appends the packet of the next slot; there has to be room for it.
fn write_slot<A: Allocator>(mux: &mut Mux<A>, out: &mut Vec<u8, A>)
    requires room { vec_len out.old + 188 ≤ vec_capacity out.old }
    ensures represents { (h : History) → Represents h mux.old →
        StillRepresents (step_history mux.old.schedule mux.old.capacity h SlotStep) mux.old mux.new }
    ensures written { (h : History) → Represents h mux.old →
        Adds mux.old.schedule h (step_history mux.old.schedule mux.old.capacity h SlotStep)
        out.old.items out.new.items }
    ensures len { vec_len out.new ≤ vec_len out.old + 188 }
    ensures capacity { vec_capacity out.old ≤ vec_capacity out.new }
{
    if let Ok(packet) = mux.next_packet() {
        let _ = out.extend_from_slice(&packet);
    }
}
