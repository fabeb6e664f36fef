//! A buffer that bytes pass one after another, with its excesses.
ghost use Rattle.std.specs.Prelude.{◌≡◌, ◌+◌, ◌<◌, ◌^◌, max, [], ◌∷◌, ◌++◌, IfOk, OnOk};
ghost use Rattle.tstd_rows.specs.WatchedQueues.{all_entered, empty_queue, ended_by};

use crate::excess::{Excess, ExcessWatch};
use std::alloc::AllocError;
use tstd::Queue;

/// A buffer that bytes pass in turn, its size, and its current excess.
#[derive(Clone, Copy)]
pub struct WatchedQueue {
    pub queue: Queue,
    pub watch: ExcessWatch,
}

impl WatchedQueue {
    /// Returns an empty buffer of that size in bytes, which a byte takes `step` to leave.
    pub fn new(step: u64, size: u64) -> WatchedQueue
        ensures { result ≡ empty_queue step size }
    {
        WatchedQueue {
            queue: Queue::new(step),
            watch: ExcessWatch::new(size),
        }
    }

    /// Takes a byte that arrives, returns when it leaves, and appends the excess that has ended before it.
    #[tactic(auto, unfolding(crate::specs::Excesses::excess_after))]
    pub fn arrive(&mut self, time: u128, ended: &mut Vec<Excess>) -> Result<u128, AllocError>
        requires some { 0 < self.old.queue.step }
        requires time { time < 2 ^ 100 }
        requires last { self.old.queue.last < 2 ^ 100 }
        ensures left { IfOk result (λ left. left ≡ max time self.old.queue.last + self.old.queue.step) }
        ensures buffer { self.new ≡ all_entered self.old (time ∷ []) }
        ensures ended { OnOk result (ended.new.items ≡ ended.old.items ++ ended_by self.old (time ∷ [])) }
    {
        let excess = self
            .watch
            .enter_byte(self.queue.step, self.queue.last, time);
        let left = self.queue.arrive(time);
        if let Some(excess) = excess {
            ended.push(excess)?;
        }
        Ok(left)
    }
}
