//! Counts of the packets of accepted units, which judge the packets of the next unit.

ghost use Rattle.std.specs.Prelude.{◌≡◌, ◌<◌, ◌+◌, ◌^◌, nat_lt, false, sum, IfOk};
ghost use Rattle.unit_timing.specs.Allowances.{allowance_rows};
ghost use Rattle.unit_timing.specs.Levels.{next_level};
ghost use Rattle.unit_queue.specs.Tallies.{empty_tally, exceeds, level_with, counted};

use crate::pieces::packet_count;
use circular_buffer::HeapCircularBuffer;
use clock27::SLOT_UNITS_AT_1BPS;
use std::alloc::{AllocError, Allocator};
use std::marker::Model;
use unit_timing::allowance::Allowance;

/// The packets of earlier units that count towards the allowance of the next unit; `new` takes the memory.
#[derive(Drop)]
pub(crate) struct PacketTally<A: Allocator> {
    // By groups, the number of packets of each unit in the same group as the next; by pace nothing.
    recent: HeapCircularBuffer<u64, A>,
    // By pace, the packets so far minus the packets that the pace took off, in units of 1 / 135,360,000 packet; by
    // groups 0.
    level: u64,
}

impl<A: Allocator> Model for PacketTally<A> {
    ghost use Rattle.unit_queue.specs.Tallies.{Tally};

    ghost Value = { Tally };

    ghost view = { λ tally. record { recent = tally.recent.items; span = tally.recent.capacity; level = tally.level } };
}

impl<A: Allocator> PacketTally<A> {
    /// Returns the tally of a stream with no unit.
    pub fn new(alloc: A, allowance: Allowance) -> Result<PacketTally<A>, AllocError>
        requires { 0 < allowance_rows allowance }
        ensures { IfOk result (λ tally. tally ≡ empty_tally allowance) }
    {
        let recent = HeapCircularBuffer::with_capacity(alloc, allowance.rows() as usize - 1)?;
        Ok(PacketTally { recent, level: 0 })
    }

    /// Returns whether a unit of this DTS and size in bytes, with `front` bytes in front of it, has more packets than
    /// are allowed, if the unit before is due at `last`.
    pub fn exceeds(
        &self,
        allowance: Allowance,
        last: u64,
        dts: u64,
        size: usize,
        front: usize,
    ) -> bool
        requires { front + size < 2 ^ 63 }
        ensures { result ≡ exceeds allowance self.now last (record { dts = dts; size = size; front = front }) }
    {
        match allowance {
            Allowance::Groups { packets, .. } => self.exceeds_group(
                packets,
                packet_count(front + size),
            ),
            Allowance::Pace { burst, pace } => {
                self.next_level(pace, last, dts, size, front)
                    > u128::from(burst) * SLOT_UNITS_AT_1BPS
            }
        }
    }

    /// Counts a unit that is within the allowance.
    pub fn add(&mut self, allowance: Allowance, last: u64, dts: u64, size: usize, front: usize)
        requires size { front + size < 2 ^ 63 }
        requires within { exceeds allowance self.old last (record { dts = dts; size = size; front = front }) ≡ false }
        ensures { self.new ≡ counted allowance self.old last (record { dts = dts; size = size; front = front }) }
    {
        self.level = self.level_with(allowance, last, dts, size, front);
        let _ = self.recent.push_back(packet_count(front + size));
    }

    // Returns whether a unit of this number of packets is too large for its group.
    fn exceeds_group(&self, most: u32, packets: u64) -> bool
        ensures { result ≡ nat_lt most (sum self.now.recent + packets) }
    {
        let Some(mut left) = u64::from(most).checked_sub(packets) else {
            return true;
        };
        for before in self.recent.iter() {
            let Some(rest) = left.checked_sub(*before) else {
                return true;
            };
            left = rest;
        }
        false
    }

    // Returns the level with a unit that is within the allowance; 0 by groups.
    fn level_with(
        &self,
        allowance: Allowance,
        last: u64,
        dts: u64,
        size: usize,
        front: usize,
    ) -> u64
        requires size { front + size < 2 ^ 63 }
        requires within { exceeds allowance self.now last (record { dts = dts; size = size; front = front }) ≡ false }
        ensures { result ≡ level_with allowance self.now last (record { dts = dts; size = size; front = front }) }
    {
        match allowance {
            Allowance::Groups { .. } => 0,
            Allowance::Pace { pace, .. } => self.next_level(pace, last, dts, size, front) as u64,
        }
    }

    // Returns the level with one more unit: the level minus what the pace takes off until its DTS (at least 0), plus
    // its packets.
    fn next_level(&self, pace: u32, last: u64, dts: u64, size: usize, front: usize) -> u128
        requires { front + size < 2 ^ 63 }
        ensures { result ≡ next_level pace self.now.level last (record { dts = dts; size = size; front = front }) }
    {
        let taken_off = u128::from(pace) * u128::from(dts.saturating_sub(last));
        let added = u128::from(packet_count(front + size)) * SLOT_UNITS_AT_1BPS;
        u128::from(self.level).saturating_sub(taken_off) + added
    }
}
