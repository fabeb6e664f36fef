//! The queue of a stream.

ghost use Rattle.std.specs.Prelude.{◌≡◌, ◌≤◌, ◌<◌, ◌+◌, ◌-◌, ◌^◌, [], ◌∷◌, ◌++◌, nat_le, true, false, ℕ};
ghost use Rattle.std.specs.Prelude.{List, Some, None, length, suc, IfOk, IfErr, OnOk};
ghost use Rattle.clock27.specs.Release.{release};
ghost use Rattle.pes_packet.specs.AccessUnits.{AccessUnit};
ghost use Rattle.slot_contents.specs.Contents.{packet_of};
ghost use Rattle.unit_queue.specs.OwnedStreams.{OwnedStream};
ghost use Rattle.unit_queue.specs.Places.{stream_content};
ghost use Rattle.unit_queue.specs.Causes.{refusal, unit_cause, or_cause, own_cause, time_cause, packets_cause, room_cause};
ghost use Rattle.unit_queue.specs.Causes.{error_of};
ghost use Rattle.unit_queue.specs.Queues.{ParametersInRange, QueueHolds};
ghost use Rattle.unit_queue.specs.QueueSteps.{queue_content, sent_in, stepped, late_at, state_cause, accepted, joined};
ghost use Rattle.unit_queue.specs.QueueSteps.{is_over_for, last_dts, empty_queue};

use crate::causes::{own_cause, packets_cause, room_cause, time_cause};
use crate::parameters::StreamParameters;
use crate::queued::QueuedUnit;
use crate::refusal::FeedError;
use crate::tally::PacketTally;
use circular_buffer::HeapCircularBuffer;
use clock27::release_slot;
use pes_packet::{Unit, field_size};
use std::alloc::{AllocError, Allocator, Global};
use std::marker::Model;
use ts_packet::{MAX_PAYLOAD, write_null_packet_into};

/// The units of one stream that are not sent whole, and how much of the first of them is sent. All memory is taken by
/// `new`.
#[derive(Drop)]
pub struct UnitQueue<A: Allocator = Global> {
    parameters: StreamParameters,
    waiting: HeapCircularBuffer<QueuedUnit<A>, A>,
    // The bytes sent of the first unit's PES packet and of the field in front of it.
    sent: usize,
    // The number of packets sent, modulo 256.
    counter: u8,
    // The minimum DTS of the next unit.
    min_next_dts: u64,
    // The tally of the packets of the accepted units.
    tally: PacketTally<A>,
}

impl<A: Allocator> Model for UnitQueue<A> {
    ghost use Rattle.unit_queue.specs.Queues.{Queue, ParametersInRange};

    ghost Value = { Queue };

    ghost view = { λ q. record {
      parameters = q.parameters;
      units = q.waiting.items;
      capacity = q.waiting.capacity;
      sent = q.sent;
      counter = q.counter;
      min_next_dts = q.min_next_dts;
      tally = q.tally;
    } };

    ghost invariant = { λ q. ParametersInRange q.parameters };
}

impl<A: Allocator + Clone> UnitQueue<A> {
    /// Returns a queue for `capacity` units, with no unit in it.
    pub fn new(
        alloc: A,
        parameters: StreamParameters,
        capacity: usize,
    ) -> Result<UnitQueue<A>, AllocError>
        requires { ParametersInRange parameters }
        ensures state { IfOk result (λ q. q ≡ empty_queue parameters capacity) }
    {
        let waiting = HeapCircularBuffer::with_capacity(alloc.clone()?, capacity)?;
        let tally = PacketTally::new(alloc, parameters.allowance)?;
        Ok(UnitQueue {
            parameters,
            waiting,
            sent: 0,
            counter: 0,
            min_next_dts: 0,
            tally,
        })
    }
}

impl<A: Allocator> UnitQueue<A> {
    /// Takes a unit, when `slots` slots are written, or returns it with the first cause of the refusal.
    pub fn feed(&mut self, slots: u64, unit: Unit<A>) -> Result<(), (FeedError, Unit<A>)>
        // For any stream and units that the queue represents: the cause of a refusal, or one more unit.
        ensures refused { (l : OwnedStream) (capacity : ℕ) (us : List AccessUnit) →
            QueueHolds l slots capacity us self.old →
            refusal result ≡ unit_cause l slots capacity us unit }
        ensures represents { (l : OwnedStream) (capacity : ℕ) (us : List AccessUnit) →
            QueueHolds l slots capacity us self.old →
            OnOk result (QueueHolds l slots capacity (us ++ unit ∷ []) self.new) }
        ensures handed_back { IfErr result (λ e. (e.1 ≡ unit) × (self.new ≡ self.old)) }
        // The same, step by step.
        ensures cause { refusal result ≡ state_cause slots self.old unit }
        ensures state { OnOk result (self.new ≡ accepted self.old unit) }
    {
        let slot = match self.release(slots, &unit) {
            Ok(slot) => slot,
            Err(cause) => return Err((cause, unit)),
        };
        let dts = unit.dts;
        let header = self.parameters.header(&unit);
        let size = header.len() + unit.bytes.len();
        let front = field_size(unit.marks.random_access);
        match self.room(dts, size, front) {
            Some(cause) => Err((cause, unit)),
            None => {
                self.push(dts, size, front, QueuedUnit::new(slot, header, unit));
                Ok(())
            }
        }
    }

    // Returns the slot of a unit's release, or the first cause in the unit or in its time.
    #[tactic(auto, unfolding(crate::specs::Causes::or_cause, crate::specs::Causes::time_cause))]
    fn release(&self, slots: u64, unit: &Unit<A>) -> Result<u64, FeedError>
        ensures cause { error_of result
            ≡ or_cause (own_cause self.now.parameters.size self.now.parameters.pts_limit self.now.min_next_dts unit.now)
            (time_cause (late_at self.now.parameters slots unit.now.dts) unit.now.dts) }
        ensures slot { IfOk result (λ slot. slot
            ≡ release self.now.parameters.rate self.now.parameters.lead unit.now.dts) }
    {
        if let Some(cause) = own_cause(
            self.parameters.size as usize,
            self.parameters.pts_limit,
            self.min_next_dts,
            unit,
        ) {
            return Err(cause);
        }
        match release_slot(
            self.parameters.rate,
            unit.dts,
            u64::from(self.parameters.lead),
        ) {
            Some(slot) if slots <= slot => match time_cause(false, unit.dts) {
                None => Ok(slot),
                Some(cause) => Err(cause),
            },
            _ => Err(FeedError::Late),
        }
    }

    // Returns the first cause in the room for a unit or in its packets; the unit has this DTS and size in bytes, and
    // `front` bytes in front of it.
    fn room(&self, dts: u64, size: usize, front: usize) -> Option<FeedError>
        requires { front + size < 2 ^ 63 }
        ensures { result ≡ room_cause (nat_le self.now.capacity (length self.now.units))
            (packets_cause self.now.parameters.allowance
            (is_over_for self.now (record { dts = dts; size = size; front = front }))) }
    {
        let full = self.waiting.capacity() <= self.waiting.len();
        let allowance = self.parameters.allowance;
        let over = self
            .tally
            .exceeds(allowance, self.last_dts(), dts, size, front);
        room_cause(full, packets_cause(allowance, over))
    }

    // Adds a unit; there has to be room for it.
    fn push(&mut self, dts: u64, size: usize, front: usize, unit: QueuedUnit<A>)
        requires dts { dts ≤ 2 ^ 52 }
        requires size { front + size < 2 ^ 63 }
        requires room { length self.old.units < self.old.capacity }
        requires within { is_over_for self.old (record { dts = dts; size = size; front = front }) ≡ false }
        ensures { self.new ≡ joined self.old (record { dts = dts; size = size; front = front }) unit }
    {
        let last = self.last_dts();
        self.tally
            .add(self.parameters.allowance, last, dts, size, front);
        self.min_next_dts = dts + u64::from(self.parameters.interval);
        let _ = self.waiting.try_push_back(unit);
    }

    // Returns when the unit before is due, 0 if there is none.
    fn last_dts(&self) -> u64
        ensures { result ≡ last_dts self.now }
    {
        self.min_next_dts
            .saturating_sub(u64::from(self.parameters.interval))
    }

    /// Returns the packet of an own slot: the next piece of the current unit; or the first piece of the next unit, if
    /// the slot of its release is `slot` or before; or the null packet.
    pub fn next(&mut self, slot: u64) -> [u8; 188]
        // For any stream and units that the queue represents: their packet in this slot, and one more slot.
        ensures represents { (l : OwnedStream) (capacity : ℕ) (us : List AccessUnit) → l.own slot ≡ true →
            QueueHolds l slot capacity us self.old →
            (result ≡ packet_of (stream_content l us slot)) × QueueHolds l (suc slot) capacity us self.new }
        // The same, step by step.
        ensures packet { result ≡ packet_of (queue_content slot self.old) }
        ensures state { self.new ≡ sent_in slot self.old }
    {
        let mut packet = [0; 188];
        self.write_next(slot, &mut packet);
        packet
    }

    /// Writes the same over the bytes of `packet`: no byte of it is copied again.
    #[tactic(auto, unfolding(crate::specs::QueueSteps::front_content, crate::specs::QueueSteps::front_sent, slot_contents::specs::Contents::packet_of))]
    pub fn write_next(&mut self, slot: u64, packet: &mut [u8; 188])
        ensures packet { packet.new ≡ packet_of (queue_content slot self.old) }
        ensures state { self.new ≡ sent_in slot self.old }
    {
        match self.waiting.front() {
            Some(unit) if unit.release <= slot => {
                let more = unit.write_piece(packet, self.parameters.pid, self.counter, self.sent);
                self.step(more);
            }
            _ => write_null_packet_into(packet),
        }
    }

    // Notes that a piece of the first unit is sent, with more pieces to follow or not.
    fn step(&mut self, more: bool)
        requires { more ≡ true → self.old.sent + 184 < 2 ^ 64 }
        ensures { self.new ≡ stepped more self.old }
    {
        self.counter = self.counter.wrapping_add(1);
        if more {
            self.sent += MAX_PAYLOAD;
        } else {
            self.sent = 0;
            let _ = self.waiting.pop_front();
        }
    }

    /// Returns the number of units that are not sent whole.
    pub fn waiting(&self) -> usize
        ensures state { result ≡ length self.now.units }
    {
        self.waiting.len()
    }
}
