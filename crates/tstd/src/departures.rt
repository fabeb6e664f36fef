//! When the payload bytes of a PID leave their transport buffer.
ghost use Rattle.std.specs.Prelude.{◌≡◌, ◌+◌, ◌*◌, ◌<◌, ◌≤◌, ◌^◌, [], length, IfSome, IfNone};
ghost use Rattle.std.specs.Bool.{OnTrue, OnFalse};

use crate::pid_packets::size_on;
use crate::queue::{Queue, arrive_row};

/// A walk over the packets of a PID, payload byte by payload byte.
#[derive(Drop)]
pub struct Departures<'a> {
    pub pid: u16,
    /// The rate at which the buffer is drained, in bits a second.
    pub rx: u64,
    pub queue: Queue,
    /// The packets ahead, and the index of the first of them.
    pub packets: &'a [[u8; 188]],
    pub index: u64,
    /// The next payload byte of the current packet, by its number in the output, and the number of bytes left.
    pub byte: u64,
    pub left: u64,
    pub ghost slow: { rx ≤ 40000000000000000 },
    pub ghost positive: { 0 < queue.step },
    pub ghost step: { queue.step ≤ 20000000000000000 },
    pub ghost inner: { queue.longest_residence ≤ queue.last },
    pub ghost inside: { byte + left ≤ 188 * index },
    pub ghost bounded: { index + length packets.now < 2 ^ 56 },
    pub ghost paced: { queue.last ≤ byte * 2 ^ 57 },
}

impl<'a> Departures<'a> {
    ghost use Rattle.clock27.specs.Arrival.{arrivals};
    ghost use Rattle.unit_timing.specs.Transport.{slots_of, pes_left};
    ghost use Rattle.tstd.specs.PidPackets.{packets_from};
    ghost use Rattle.tstd.specs.Queues.{greatest_residence};
    ghost use Rattle.tstd.specs.DepartureWalk.{left_ahead, walk_residence, given};

    /// Begins a walk at the first packet of the output.
    #[tactic(auto, unfolding(crate::specs::DepartureWalk::left_ahead, crate::specs::DepartureWalk::walk_residence, clock27::specs::Arrival::bytes_from, clock27::specs::Departure::departures, clock27::specs::Departure::last_left))]
    pub fn new(pid: u16, rx: u64, rate: u64, packets: &'a [[u8; 188]]) -> Departures<'a>
        requires rx { rx ≤ 40000000000000000 }
        requires positive { 0 < rate }
        requires rate { rate ≤ 20000000000000000 }
        requires count { 188 * length packets.now < 2 ^ 63 }
        ensures ahead { left_ahead result ≡ pes_left rate rx 0 (packets_from pid 0 packets.entry.now) }
        ensures longest_residence { walk_residence result
            ≡ greatest_residence rate 0 (arrivals rx (slots_of (packets_from pid 0 packets.entry.now))) }
        ensures rx { result.rx ≡ rx }
        ensures step { result.queue.step ≡ rate }
    {
        Departures {
            pid,
            rx,
            queue: Queue::new(rate),
            packets,
            index: 0,
            byte: 0,
            left: 0,
        }
    }

    // Moves to the next packet, whether it is on the PID or not; returns false at the end.
    fn enter_packet(&mut self) -> bool
        requires { self.old.left ≡ 0 }
        ensures ahead { left_ahead self.new ≡ left_ahead self.old }
        ensures longest_residence { walk_residence self.new ≡ walk_residence self.old }
        ensures fewer { OnTrue result (length self.new.packets.now + 1 ≡ length self.old.packets.now) }
        ensures none { OnFalse result (length self.new.packets.now ≡ 0) }
        ensures ended { OnFalse result (self.new.left ≡ 0) }
        ensures rx { self.new.rx ≡ self.old.rx }
        ensures step { self.new.queue.step ≡ self.old.queue.step }
        ensures onward { self.old.byte ≤ self.new.byte }
    {
        let Some((packet, packets)) = self.packets.split_first() else {
            return false;
        };
        let from = 188 * self.index;
        self.packets = packets;
        self.index += 1;
        if let Some(size) = size_on(self.pid, packet) {
            arrive_row(&mut self.queue, self.rx, from, 188 - size);
            self.byte = from + (188 - size);
            self.left = size;
        }
        true
    }

    /// Returns when the next payload byte leaves, if there is one.
    pub fn next(&mut self) -> Option<u128>
        ensures ahead { left_ahead self.old ≡ given result (left_ahead self.new) }
        ensures longest_residence { walk_residence self.new ≡ walk_residence self.old }
        ensures last { IfSome result (λ time. self.new.queue.last ≡ time) }
        ensures ended { IfNone result (walk_residence self.new ≡ self.new.queue.longest_residence) }
        ensures rx { self.new.rx ≡ self.old.rx }
        ensures step { self.new.queue.step ≡ self.old.queue.step }
        ensures onward { self.old.byte ≤ self.new.byte }
        ensures beyond { IfSome result (λ time. self.old.byte + 1 ≤ self.new.byte) }
        ensures none { IfNone result (left_ahead self.new ≡ []) }
    {
        while self.left == 0 {
            if !self.enter_packet() {
                return None;
            }
        }
        let time = self
            .queue
            .arrive(u128::from(self.byte) * u128::from(self.rx));
        self.byte += 1;
        self.left -= 1;
        Some(time)
    }
}
