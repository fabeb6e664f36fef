//! The clock of the arrival time stamps before packets.
ghost use Rattle.std.specs.Prelude.{◌≡◌, ◌<◌, ◌^◌, IfSome};
ghost use Rattle.arrival.specs.Clock.{IsInRange, pcr_period};
ghost use Rattle.arrival.specs.StampClocks as spec;

use crate::clock::{LONGEST_INTERVAL, PCR_PERIOD, PcrSample};
use std::marker::Model;

/// The ticks after which an arrival time stamp wraps.
pub const STAMP_PERIOD: u32 = 1 << 30;

// The last packet whose first byte is among the first 2^40 of a stream.
const LAST_PACKET: u64 = (1 << 40) / 188;

/// An arrival time stamp, and the ticks of the same clock, extended to wrap when clock references do.
#[derive(Clone, Copy)]
pub struct StampValue {
    pub stamp: u32,
    pub ticks: u64,
}

/// What the four bytes before a packet give.
#[derive(Clone, Copy)]
pub struct StampStep {
    /// The number of packets before it.
    pub packet: u64,
    /// The sample that its stamp gives of the clock, if the stamp differs from the stamp before.
    pub sample: Option<PcrSample>,
    /// The ticks from the stamp before, if they are more than a second or the stamp falls.
    pub jump: Option<u64>,
}

/// The clock of arrival time stamps: the last stamp, and the number of packets.
#[derive(Clone, Copy)]
pub struct StampClock {
    last: Option<StampValue>,
    packets: u64,
}

impl Model for StampClock {
    ghost use Rattle.std.specs.Prelude.{IfSome, ◌<◌, ◌^◌};
    ghost use Rattle.arrival.specs.Clock.{pcr_period};
    ghost use Rattle.arrival.specs.StampClocks.{StampState};

    ghost Value = { StampState };

    ghost view = { λ c. record { last = c.last; packets = c.packets } };

    ghost invariant = { λ c. IfSome c.last (λ last. (last.stamp < 2 ^ 30) × (last.ticks < pcr_period)) };

    ghost inverse = { λ c. record { last = c.last; packets = c.packets } };
}

// Returns the ticks from one stamp to the next.
fn ticks_between(before: u32, stamp: u32) -> u64
    requires before { before < 2 ^ 30 }
    requires stamp { stamp < 2 ^ 30 }
    ensures value { result ≡ spec.ticks_between before stamp }
    ensures bound { result < 2 ^ 30 }
{
    u64::from((stamp + STAMP_PERIOD - before) % STAMP_PERIOD)
}

#[tactic(auto, unfolding(crate::specs::StampClocks::ticks_since))]
fn ticks_since(last: &Option<StampValue>, stamp: u32) -> Option<u64>
    requires last { IfSome last.now (λ last. (last.stamp < 2 ^ 30) × (last.ticks < pcr_period)) }
    requires stamp { stamp < 2 ^ 30 }
    ensures { result ≡ spec.ticks_since last.now stamp }
{
    match last {
        None => None,
        Some(before) => Some(ticks_between(before.stamp, stamp)),
    }
}

#[tactic(auto, unfolding(crate::specs::StampClocks::value_after))]
fn value_after(last: &Option<StampValue>, stamp: u32) -> StampValue
    requires last { IfSome last.now (λ last. (last.stamp < 2 ^ 30) × (last.ticks < pcr_period)) }
    requires stamp { stamp < 2 ^ 30 }
    ensures value { result ≡ spec.value_after last.now stamp }
    ensures stamp { result.stamp < 2 ^ 30 }
    ensures ticks { result.ticks < pcr_period }
{
    match last {
        None => StampValue {
            stamp,
            ticks: u64::from(stamp),
        },
        Some(before) => StampValue {
            stamp,
            ticks: (before.ticks + ticks_between(before.stamp, stamp)) % PCR_PERIOD,
        },
    }
}

// Returns whether a stamp equals the stamp before.
#[tactic(auto, unfolding(crate::specs::StampClocks::is_same))]
fn is_same(ticks: Option<u64>) -> bool
    ensures { result ≡ spec.is_same ticks }
{
    match ticks {
        None => false,
        Some(ticks) => ticks == 0,
    }
}

// Returns the ticks from the stamp before, if the stamp jumps.
#[tactic(auto, unfolding(crate::specs::StampClocks::jump_by))]
fn jump_by(ticks: Option<u64>) -> Option<u64>
    ensures { result ≡ spec.jump_by ticks }
{
    match ticks {
        None => None,
        Some(ticks) => {
            if ticks > LONGEST_INTERVAL {
                Some(ticks)
            } else {
                None
            }
        }
    }
}

// Returns the sample of the packet at an index.
fn sample_of(index: u64, value: &StampValue) -> Option<PcrSample>
    requires { value.now.ticks < pcr_period }
    ensures value { result ≡ spec.near_sample index value.now }
    ensures range { IfSome result IsInRange }
{
    if index > LAST_PACKET {
        return None;
    }
    Some(PcrSample {
        byte: 188 * index,
        ticks: value.ticks,
        discontinuity: false,
    })
}

// Returns the sample of a packet, if its stamp differs from the stamp before.
fn sample_if(same: bool, index: u64, value: &StampValue) -> Option<PcrSample>
    requires { value.now.ticks < pcr_period }
    ensures value { result ≡ spec.sample_if same index value.now }
    ensures range { IfSome result IsInRange }
{
    if same {
        return None;
    }
    sample_of(index, value)
}

impl StampClock {
    /// Returns the state before the first packet.
    pub fn new() -> StampClock
        ensures { result ≡ spec.no_stamp }
    {
        StampClock {
            last: None,
            packets: 0,
        }
    }

    /// Returns whether no packet has arrived.
    pub fn is_new(&self) -> bool
        ensures { result ≡ spec.is_new self.now }
    {
        self.last.is_none()
    }

    /// Takes the four bytes before the next packet, as a number.
    pub fn take(&mut self, head: u32) -> StampStep
        ensures step { result ≡ spec.step_at self.old head }
        ensures range { IfSome result.sample IsInRange }
        ensures clock { self.new ≡ spec.after self.old head }
    {
        let stamp = head % STAMP_PERIOD;
        let ticks = ticks_since(&self.last, stamp);
        let value = value_after(&self.last, stamp);
        let packet = self.packets;
        self.last = Some(value);
        self.packets = packet.saturating_add(1);
        StampStep {
            packet,
            sample: sample_if(is_same(ticks), packet, &value),
            jump: jump_by(ticks),
        }
    }
}
