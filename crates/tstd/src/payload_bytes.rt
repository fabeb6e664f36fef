//! When the payload bytes of a PID enter the buffer where their units wait for their removal.
ghost use Rattle.std.specs.Prelude.{◌≡◌, ℕ, ◌+◌, ◌*◌, ◌<◌, ◌≤◌, ◌^◌, List, [], ◌∷◌, length, IfSome, IfNone};
ghost use Rattle.tstd.specs.MultiplexingQueue.{IsWithin, last_in, passed, residence_in};

use crate::departures::Departures;
use crate::queue::Queue;

/// A walk over the payload bytes of a PID, byte by byte, as they enter the main buffer of their stream, or the
/// elementary stream buffer after a multiplexing buffer.
#[derive(Drop)]
pub struct PayloadBytes<'a> {
    /// As they leave the transport buffer.
    pub transport: Departures<'a>,
    /// The multiplexing buffer after it, if there is one.
    pub multiplexing: Option<Queue>,
    /// The rate of the output, in bits a second.
    pub rate: u64,
    /// The rates at which the transport buffer and the multiplexing buffer are drained, in bits a second; the second is
    /// 1 if there is no multiplexing buffer. Times are in units of 8 / (rate * rx * rbx) seconds.
    pub rx: u64,
    pub rbx: u64,
    pub ghost positive: { 0 < rate },
    pub ghost slow: { rate ≤ 100000000 },
    pub ghost drain: { rx ≤ 200000000 },
    pub ghost leak: { 0 < rbx },
    pub ghost slow_leak: { rbx ≤ 200000000 },
    pub ghost within: { IsWithin multiplexing (transport.byte * 2 ^ 58) },
}

// Passes a byte through the multiplexing buffer, if any; returns when it leaves.
#[tactic(auto, unfolding(crate::specs::MultiplexingQueue::passed, crate::specs::MultiplexingQueue::residence_in, crate::specs::MultiplexingQueue::last_in), using(crate::proofs::PassedBytes::byte_resides))]
fn pass(multiplexing: &mut Option<Queue>, entered: u128) -> u128
    requires entered { entered < 2 ^ 123 }
    requires within { IsWithin multiplexing.old (2 ^ 123) }
    ensures passed { (times : List ℕ) →
        passed multiplexing.old (entered ∷ times) ≡ result ∷ passed multiplexing.new times }
    ensures residence { (times : List ℕ) →
        residence_in multiplexing.new times ≡ residence_in multiplexing.old (entered ∷ times) }
    ensures last { last_in multiplexing.new entered ≡ result }
    ensures within { (m n : ℕ) → IsWithin multiplexing.old m → m + 2 ^ 57 ≤ n → entered + 2 ^ 57 ≤ n →
        IsWithin multiplexing.new n }
{
    match multiplexing {
        None => entered,
        Some(queue) => queue.arrive(entered),
    }
}

impl<'a> PayloadBytes<'a> {
    ghost use Rattle.clock27.specs.Arrival.{arrivals};
    ghost use Rattle.unit_timing.specs.Transport.{slots_of, pes_left};
    ghost use Rattle.unit_timing.specs.VideoBuffers.{multiplexing_entered, multiplexing_left};
    ghost use Rattle.tstd.specs.PidPackets.{packets_from};
    ghost use Rattle.tstd.specs.Queues.{greatest_residence};
    ghost use Rattle.tstd.specs.DepartureWalk.{given};
    ghost use Rattle.tstd.specs.MultiplexingQueue.{peak_in};
    ghost use Rattle.tstd.specs.PayloadBytes.{bytes_ahead, residences, last_of};

    /// Begins a walk at the first packet of the output, into a main buffer.
    #[tactic(auto, unfolding(crate::specs::MultiplexingQueue::last_in, crate::specs::MultiplexingQueue::passed, crate::specs::MultiplexingQueue::residence_in, crate::specs::PayloadBytes::bytes_ahead, crate::specs::PayloadBytes::residences, crate::specs::DepartureWalk::walk_residence))]
    pub fn new(pid: u16, rx: u64, rate: u64, packets: &'a [[u8; 188]]) -> PayloadBytes<'a>
        requires rx { rx ≤ 200000000 }
        requires positive { 0 < rate }
        requires rate { rate ≤ 100000000 }
        requires count { 188 * length packets.now < 2 ^ 63 }
        ensures ahead { bytes_ahead result ≡ pes_left rate rx 0 (packets_from pid 0 packets.entry.now) }
        ensures residences { residences result
            ≡ (greatest_residence rate 0 (arrivals rx (slots_of (packets_from pid 0 packets.entry.now))), (0, 0)) }
        ensures rate { result.rate ≡ rate }
        ensures rx { result.rx ≡ rx }
        ensures rbx { result.rbx ≡ 1 }
        ensures step { result.transport.queue.step ≡ rate }
    {
        PayloadBytes {
            transport: Departures::new(pid, rx, rate, packets),
            multiplexing: None,
            rate,
            rx,
            rbx: 1,
        }
    }

    /// Begins a walk at the first packet of the output, through a multiplexing buffer that leaks `rbx` bits a second.
    #[tactic(auto, unfolding(crate::specs::MultiplexingQueue::last_in, crate::specs::MultiplexingQueue::passed, crate::specs::MultiplexingQueue::residence_in, crate::specs::PayloadBytes::bytes_ahead, crate::specs::PayloadBytes::residences, crate::specs::DepartureWalk::walk_residence))]
    pub fn leaking(
        pid: u16,
        rx: u64,
        rbx: u64,
        rate: u64,
        packets: &'a [[u8; 188]],
    ) -> PayloadBytes<'a>
        requires some_drain { 0 < rx }
        requires rx { rx ≤ 200000000 }
        requires leak { 0 < rbx }
        requires rbx { rbx ≤ 200000000 }
        requires positive { 0 < rate }
        requires rate { rate ≤ 100000000 }
        requires count { 188 * length packets.now < 2 ^ 63 }
        ensures ahead { bytes_ahead result ≡ multiplexing_left rate rx rbx (packets_from pid 0 packets.entry.now) }
        ensures residences { residences result
            ≡ (
              greatest_residence (rbx * rate) 0 (arrivals (rx * rbx) (slots_of (packets_from pid 0 packets.entry.now))),
              (rx * rate, greatest_residence (rx * rate) 0 (multiplexing_entered rate rx rbx (packets_from pid 0 packets.entry.now))),
            ) }
        ensures rate { result.rate ≡ rate }
        ensures rx { result.rx ≡ rx }
        ensures rbx { result.rbx ≡ rbx }
        ensures step { result.transport.queue.step ≡ rbx * rate }
    {
        PayloadBytes {
            transport: Departures::new(pid, rx * rbx, rbx * rate, packets),
            multiplexing: Some(Queue::new(rx * rate)),
            rate,
            rx,
            rbx,
        }
    }

    /// Returns when the next payload byte enters, if there is one.
    pub fn next(&mut self) -> Option<u128>
        ensures ahead { bytes_ahead self.old ≡ given result (bytes_ahead self.new) }
        ensures residences { residences self.new ≡ residences self.old }
        ensures last { IfSome result (λ time. last_of self.new ≡ time) }
        ensures ended { IfNone result (residences self.new
            ≡ (self.new.transport.queue.longest_residence, residence_in self.new.multiplexing [])) }
        ensures rate { self.new.rate ≡ self.old.rate }
        ensures rx { self.new.rx ≡ self.old.rx }
        ensures rbx { self.new.rbx ≡ self.old.rbx }
        ensures step { self.new.transport.queue.step ≡ self.old.transport.queue.step }
        ensures onward { self.old.transport.byte ≤ self.new.transport.byte }
        ensures beyond { IfSome result (λ time. self.old.transport.byte + 1 ≤ self.new.transport.byte) }
        ensures none { IfNone result (bytes_ahead self.new ≡ []) }
    {
        let Some(entered) = self.transport.next() else {
            return None;
        };
        let time = pass(&mut self.multiplexing, entered);
        Some(time)
    }

    /// Returns when the last byte was given, 0 before the first.
    #[tactic(auto, unfolding(crate::specs::MultiplexingQueue::last_in))]
    pub fn last(&self) -> u128
        ensures { result ≡ last_of self.now }
    {
        match &self.multiplexing {
            None => self.transport.queue.last,
            Some(queue) => queue.last,
        }
    }

    /// Returns the most bytes that were in the multiplexing buffer together, 0 if there is none.
    #[tactic(auto, unfolding(crate::specs::MultiplexingQueue::peak_in))]
    pub fn peak(&self) -> u128
        ensures { result ≡ peak_in self.now.multiplexing }
    {
        match &self.multiplexing {
            None => 0,
            Some(queue) => queue.peak(),
        }
    }
}
