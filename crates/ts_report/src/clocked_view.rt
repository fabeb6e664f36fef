//! A stream, packet by packet, whose packets wait until it is known when they arrive.
ghost use Rattle.std.specs.Prelude.{◌≡◌, ◌++◌, [], IfOk, IfSome, OnOk, false};
ghost use Rattle.arrival.specs.Clock.{IsInRange};
ghost use Rattle.packet_times.specs.Waiting.{last_arrival, released, released_with, stepped, stepped_with, with_held};
ghost use Rattle.ts_report.specs.ClockedViews as spec;
ghost use Rattle.ts_report.specs.ClockedViews.{ClockedState, IsClocked};
ghost use Rattle.ts_report.specs.Crowding.{is_crowded};
ghost use Rattle.ts_report.specs.Views.{IsView, ViewState};

use crate::moments::{has_moments, moment_at};
use crate::view::View;
use arrival::{Arrival, PcrSample};
use events::Event;
use packet_times::{ClockPid, PacketQueue};
use std::alloc::{AllocError, Global};
use ts_watch::view_request::ViewRequest;

/// A stream so far: at a constant rate it keeps no packet, otherwise the packets since the last clock reference.
///
/// After an `AllocError` it describes no stream: drop it.
#[derive(Drop)]
pub struct ClockedView {
    pub view: View,
    pub queue: Option<PacketQueue>,
}

// Returns the programs whose clock references may give the arrival times: these programs, or all.
#[tactic(auto, unfolding(crate::specs::ClockedViews::clock_for))]
fn clock_for(programs: &[u16]) -> ClockPid
    ensures { result ≡ spec.clock_for programs.now }
{
    match programs.first() {
        None => ClockPid::OfFirst,
        Some(number) => ClockPid::OfProgram(*number),
    }
}

#[tactic(auto, unfolding(crate::specs::ClockedViews::queue_of))]
fn queue_of(alloc: Global, arrival: &Arrival, programs: &[u16]) -> Option<PacketQueue>
    ensures { result ≡ spec.queue_of arrival.now programs.now }
{
    match arrival {
        Arrival::Unknown => Some(PacketQueue::new(alloc, clock_for(programs))),
        Arrival::AtRate(_) | Arrival::OnLines(_) => None,
    }
}

// Views the packets that wait, as they arrive.
fn view_waiting(
    view: &mut View,
    queue: &mut PacketQueue,
    arrival: Arrival,
    events: &mut Vec<Event>,
) -> Result<(), AllocError>
    ensures view { (v : ViewState) → IsView view.old v →
        OnOk result (IsView view.new (spec.view_with v queue.old arrival)) }
    ensures found { (v : ViewState) → IsView view.old v → OnOk result (events.new.items
        ≡ events.old.items ++ spec.events_with v queue.old arrival) }
    ensures queue { OnOk result (queue.new ≡ with_held queue.old []) }
{
    view.arrive(arrival, queue.held().len(), events)?;
    view.take_all(queue.held(), events)?;
    queue.clear();
    Ok(())
}

// Views the packets that wait, if their arrival is known now.
#[tactic(auto, unfolding(crate::specs::ClockedViews::view_after, crate::specs::ClockedViews::events_after, crate::specs::ClockedViews::held_after))]
fn view_if(
    view: &mut View,
    queue: &mut PacketQueue,
    arrival: Option<Arrival>,
    events: &mut Vec<Event>,
) -> Result<(), AllocError>
    ensures view { (v : ViewState) → IsView view.old v →
        OnOk result (IsView view.new (spec.view_after v queue.old arrival)) }
    ensures found { (v : ViewState) → IsView view.old v → OnOk result (events.new.items
        ≡ events.old.items ++ spec.events_after v queue.old arrival) }
    ensures queue { OnOk result (queue.new ≡ with_held queue.old (spec.held_after queue.old arrival)) }
{
    match arrival {
        None => Ok(()),
        Some(arrival) => view_waiting(view, queue, arrival, events),
    }
}

// Keeps a packet until its arrival is known.
fn take_waiting(
    view: &mut View,
    queue: &mut PacketQueue,
    bytes: &[u8; 188],
    events: &mut Vec<Event>,
) -> Result<(), AllocError>
    ensures view { (v : ViewState) → IsView view.old v → OnOk result
        (IsView view.new (spec.view_after v (stepped queue.old bytes.now) (released queue.old bytes.now))) }
    ensures found { (v : ViewState) → IsView view.old v → OnOk result (events.new.items
        ≡ events.old.items ++ spec.events_after v (stepped queue.old bytes.now) (released queue.old bytes.now)) }
    ensures queue { OnOk result (queue.new ≡ spec.queue_after queue.old bytes.now) }
{
    let arrival = queue.take(bytes)?;
    view_if(view, queue, arrival, events)?;
    queue.push(bytes)
}

// Keeps a packet, with a sample of the arrival clock if it has one, until its arrival time is known.
fn take_sampled_waiting(
    view: &mut View,
    queue: &mut PacketQueue,
    sample: Option<PcrSample>,
    bytes: &[u8; 188],
    events: &mut Vec<Event>,
) -> Result<(), AllocError>
    requires { IfSome sample IsInRange }
    ensures view { (v : ViewState) → IsView view.old v → OnOk result
        (IsView view.new (spec.view_after v (stepped_with queue.old sample) (released_with queue.old sample))) }
    ensures found { (v : ViewState) → IsView view.old v → OnOk result (events.new.items
        ≡ events.old.items ++ spec.events_after v (stepped_with queue.old sample) (released_with queue.old sample)) }
    ensures queue { OnOk result (queue.new ≡ spec.queue_with queue.old sample bytes.now) }
{
    let arrival = queue.take_sample(sample);
    view_if(view, queue, arrival, events)?;
    queue.push(bytes)
}

impl ClockedView {
    /// Returns the state before the first packet.
    pub fn new(alloc: Global, request: ViewRequest) -> ClockedView
        ensures view { IsClocked result (spec.start request) }
        ensures calm { is_crowded result ≡ false }
    {
        let queue = queue_of(alloc, &request.options.arrival, &request.choice.programs);
        ClockedView {
            view: View::new(alloc, request),
            queue,
        }
    }

    /// Takes the next packet, and appends the events that it settles.
    ///
    /// After an `AllocError` drop the view and `events`: nothing is promised of their contents.
    #[tactic(auto, unfolding(crate::specs::ClockedViews::after_in, crate::specs::ClockedViews::events_in))]
    pub fn take(&mut self, bytes: &[u8; 188], events: &mut Vec<Event>) -> Result<(), AllocError>
        ensures view { (s : ClockedState) → IsClocked self.old s →
            OnOk result (IsClocked self.new (spec.after_packet s bytes.now)) }
        ensures found { (s : ClockedState) → IsClocked self.old s →
            OnOk result (events.new.items ≡ events.old.items ++ spec.events_at s bytes.now) }
    {
        match &mut self.queue {
            None => self.view.take(bytes, events),
            Some(queue) => take_waiting(&mut self.view, queue, bytes, events),
        }
    }

    /// Takes the next packet, with a sample of an arrival clock in place of clock references if it has one, and appends
    /// the events that the packet settles.
    ///
    /// After an `AllocError` drop the view and `events`: nothing is promised of their contents.
    #[tactic(auto, unfolding(crate::specs::ClockedViews::sampled_in, crate::specs::ClockedViews::sampled_events_in))]
    pub fn take_sampled(
        &mut self,
        sample: Option<PcrSample>,
        bytes: &[u8; 188],
        events: &mut Vec<Event>,
    ) -> Result<(), AllocError>
        requires { IfSome sample IsInRange }
        ensures view { (s : ClockedState) → IsClocked self.old s →
            OnOk result (IsClocked self.new (spec.after_sampled s sample bytes.now)) }
        ensures found { (s : ClockedState) → IsClocked self.old s →
            OnOk result (events.new.items ≡ events.old.items ++ spec.sampled_events s sample bytes.now) }
    {
        match &mut self.queue {
            None => self.view.take(bytes, events),
            Some(queue) => { take_sampled_waiting(&mut self.view, queue, sample, bytes, events) }
        }
    }

    /// Takes the next packets.
    ///
    /// After an `AllocError` drop the view and `events`: nothing is promised of their contents.
    #[tactic(auto, unfolding(crate::specs::ClockedViews::after_all, crate::specs::ClockedViews::events_all))]
    pub fn take_all(
        &mut self,
        packets: &[[u8; 188]],
        events: &mut Vec<Event>,
    ) -> Result<(), AllocError>
        ensures view { (s : ClockedState) → IsClocked self.old s →
            OnOk result (IsClocked self.new (spec.after_all s packets.now)) }
        ensures found { (s : ClockedState) → IsClocked self.old s →
            OnOk result (events.new.items ≡ events.old.items ++ spec.events_all s packets.now) }
    {
        for packet in packets {
            self.take(packet, events)?;
        }
        Ok(())
    }

    // Views the packets that wait at the end.
    #[tactic(auto, unfolding(crate::specs::ClockedViews::last_view, crate::specs::ClockedViews::last_events, crate::specs::ClockedViews::queue_ended))]
    fn view_last(&mut self, events: &mut Vec<Event>) -> Result<(), AllocError>
        ensures clocked { (s : ClockedState) → IsClocked self.old s → OnOk result (IsClocked self.new (spec.ended s)) }
        ensures found { (s : ClockedState) → IsClocked self.old s →
            OnOk result (events.new.items ≡ events.old.items ++ spec.last_events s.view s.queue) }
    {
        match &mut self.queue {
            None => Ok(()),
            Some(queue) => {
                let arrival = queue.last_arrival();
                view_waiting(&mut self.view, queue, arrival, events)
            }
        }
    }

    /// Returns the moment of the first byte of the packet at an index, in ticks from the stream's first byte on, as
    /// packets arrive now.
    pub fn moment(&self, index: u64) -> Option<u128>
        ensures { (s : ClockedState) → IsClocked self.now s → result ≡ spec.moment_in s index }
    {
        moment_at(&self.view.seen.options, index)
    }

    /// Returns whether a packet has a moment.
    pub fn is_clocked(&self) -> bool
        ensures { (s : ClockedState) → IsClocked self.now s → result ≡ spec.is_clocked s }
    {
        has_moments(&self.view.seen.options)
    }

    /// Returns whether a stream has enough waiting units to stop the view: the memory of a view has no other bound.
    pub fn is_crowded(&self) -> bool
        ensures { result ≡ is_crowded self.now }
    {
        self.view.is_crowded()
    }

    /// Ends the stream, `left` bytes after its last whole packet, and appends the last events. Returns whether nothing
    /// is wrong in it.
    ///
    /// After an `AllocError` drop the view and `events`: nothing is promised of their contents.
    pub fn end(&mut self, left: usize, events: &mut Vec<Event>) -> Result<bool, AllocError>
        ensures clocked { (s : ClockedState) → IsClocked self.old s → OnOk result (IsClocked self.new (spec.ended s)) }
        ensures found { (s : ClockedState) → IsClocked self.old s →
            OnOk result (events.new.items ≡ events.old.items ++ spec.end_events s left) }
        ensures good { (s : ClockedState) → IsClocked self.old s → IfOk result (λ good. good ≡ spec.is_good s left) }
    {
        self.view_last(events)?;
        self.view.end(left, events)?;
        Ok(self.view.is_good(left))
    }
}
