//! The programs that share a stream with its own.

ghost use Rattle.std.specs.Prelude.{◌≡◌, ◌≤◌, ◌==◌, List, ℕ, length};
ghost use Rattle.std.specs.List.{list_any};

use arrayvec::ArrayVec;
use std::marker::Model;

/// Numbers of programs, at most 63. A contract sees the list.
#[derive(Drop)]
pub struct ProgramNumbers {
    pub(crate) numbers: ArrayVec<u16, 63>,
}

impl Model for ProgramNumbers {
    ghost Value = { List ℕ };

    ghost view = { λ p. p.numbers.items };
}

impl ProgramNumbers {
    /// Returns the numbers in their order.
    pub fn as_slice(&self) -> &[u16]
        ensures value { result.now ≡ self.now }
        ensures fits { length self.now ≤ 63 }
    {
        self.numbers.as_slice()
    }

    /// Returns whether the list has a number.
    pub fn contains(&self, number: u16) -> bool
        ensures { result ≡ list_any (λ n. n == number) self.now }
    {
        self.numbers.as_slice().contains(&number)
    }
}
