//! A buffer that bytes pass one after another.
ghost use Rattle.std.specs.Prelude.{◌≡◌, ◌+◌, ◌*◌, ◌<◌, ◌≤◌, ◌^◌, max};
ghost use Rattle.clock27.specs.Arrival.{bytes_from};
ghost use Rattle.tstd.specs.Queues.{arrived, all_arrived, bytes_within};

/// A buffer that a byte takes `step` to leave, on any scale of times.
#[derive(Clone, Copy)]
pub struct Queue {
    pub step: u64,
    /// When the last byte left, 0 if no byte has arrived.
    pub last: u128,
    /// The longest time from a byte's arrival to its departure, 0 if no byte has arrived.
    pub longest_residence: u128,
}

impl Queue {
    /// Returns an empty queue.
    pub fn new(step: u64) -> Queue
        ensures { result ≡ record { step = step; last = 0; longest_residence = 0 } }
    {
        Queue {
            step,
            last: 0,
            longest_residence: 0,
        }
    }

    /// Takes a byte that arrives, and returns when it leaves.
    pub fn arrive(&mut self, time: u128) -> u128
        requires time { time < 2 ^ 124 }
        requires last { self.old.last < 2 ^ 124 }
        ensures left { result ≡ max time self.old.last + self.old.step }
        ensures state { self.new ≡ arrived self.old time }
    {
        let left = time.max(self.last) + u128::from(self.step);
        self.longest_residence = self.longest_residence.max(left - time);
        self.last = left;
        left
    }

    /// Returns the most bytes that were in the buffer together.
    pub fn peak(&self) -> u128
        requires step { 0 < self.now.step }
        requires longest_residence { self.now.longest_residence < 2 ^ 124 }
        ensures { result ≡ bytes_within self.now.step self.now.longest_residence }
    {
        (self.longest_residence + (u128::from(self.step) - 1)) / u128::from(self.step)
    }
}

/// Takes `count` bytes, from byte `from` of the output on, each `drain` after the byte before.
pub fn arrive_row(queue: &mut Queue, drain: u64, from: u64, count: u64)
    requires drain { drain ≤ 2 ^ 56 }
    requires step { queue.old.step ≤ 2 ^ 56 }
    requires last { queue.old.last ≤ from * 2 ^ 57 }
    requires longest_residence { queue.old.longest_residence ≤ queue.old.last }
    requires end { from + count < 2 ^ 64 }
    ensures state { queue.new ≡ all_arrived queue.old (bytes_from drain from count) }
    ensures last { queue.new.last ≤ (from + count) * 2 ^ 57 }
    ensures longest_residence { queue.new.longest_residence ≤ queue.new.last }
{
    for byte in from..from + count {
        queue.arrive(u128::from(byte) * u128::from(drain));
    }
}
