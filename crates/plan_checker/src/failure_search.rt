//! The search for the conditions that fail.

ghost use Rattle.std.specs.Prelude.{◌≤◌};

use crate::refusal::Refusal;
use arrayvec::ArrayVec;

/// The most failing conditions that one search keeps.
pub const WINDOW: usize = 1024;

/// A search for the failing conditions from a number on, which counts from 0.
#[derive(Drop)]
pub struct FailureSearch {
    /// How many have still to fail before the first that is kept.
    pub left: usize,
    /// How many are kept at most.
    pub most: usize,
    pub found: ArrayVec<Refusal, 1024>,
    ghost fits: { most ≤ 1024 },
}

impl FailureSearch {
    ghost use Rattle.std.specs.Prelude.{◌≡◌, option_map, slice_get};
    ghost use Rattle.plan_checker.specs.Failing.{after_failure, is_full, search_of, start};
    ghost use Rattle.plan_checker.specs.Refusals.{entry_of};

    /// Returns the search for the failing conditions from that number on, which keeps at most `most` of them.
    pub fn new(number: usize, most: usize) -> FailureSearch
        requires { most ≤ 1024 }
        ensures { search_of result ≡ start number most }
    {
        FailureSearch {
            left: number,
            most,
            found: ArrayVec::new(),
        }
    }

    /// Returns whether it keeps as many as it may.
    pub fn is_done(&self) -> bool
        ensures { result ≡ is_full (search_of self.now) }
    {
        self.most <= self.found.len()
    }

    /// Returns the first that it keeps.
    pub fn first(&self) -> Option<Refusal>
        ensures { option_map entry_of result ≡ slice_get (search_of self.now).found 0 }
    {
        self.found.as_slice().first().copied()
    }

    /// Passes one more failing condition.
    #[tactic(auto, unfolding(crate::specs::Failing::after_failure))]
    pub fn pass(&mut self, refusal: Refusal)
        ensures { search_of self.new ≡ after_failure (search_of self.old) (entry_of refusal) }
    {
        if self.is_done() {
            return;
        }
        if self.left == 0 {
            self.found.push(refusal);
        } else {
            self.left -= 1;
        }
    }
}
