//! The clock of a program between two of its references.
ghost use Rattle.std.specs.Prelude.{◌≡◌, ◌+◌, ◌*◌, ◌<◌, ◌≤◌, ◌^◌};
ghost use Rattle.arrival.specs.Clock.{IsClockLine};
ghost use Rattle.arrival.specs.Lines.{arrivals_on};
ghost use Rattle.arrival.specs.Rows.{IsTimed, IsEarly, times_of};

use crate::row::Row;

/// A line: byte `byte` of the stream arrives at `moment`, and each `bytes` bytes take `ticks`.
#[derive(Clone, Copy)]
pub struct Line {
    pub byte: u64,
    pub moment: u64,
    pub bytes: u64,
    pub ticks: u64,
}

impl Line {
    /// Returns the arrivals of `count` bytes of the stream from byte `byte` on, at a buffer that is drained at `drain`
    /// bits a second.
    #[tactic(auto, using(crate::proofs::Lines::row_on, crate::proofs::Lines::reaches))]
    pub fn row(&self, drain: u64, byte: u64, count: u64) -> Row
        requires line { IsClockLine self.now }
        requires drain { drain ≤ 200000000 }
        requires near { self.now.byte ≤ byte + 2 ^ 24 }
        requires end { byte + count ≤ 2 ^ 40 }
        ensures times { times_of result ≡ arrivals_on drain self.now byte count }
        ensures timed { IsTimed result }
        ensures early { IsEarly result }
        ensures bytes { result.bytes ≡ count }
    {
        let forward = u128::from(self.moment) * u128::from(self.bytes)
            + u128::from(byte) * u128::from(self.ticks);
        let back = u128::from(self.byte) * u128::from(self.ticks);
        Row {
            from: u128::from(drain) * (forward - back),
            pace: drain * self.ticks,
            parts: self.bytes,
            bytes: count,
        }
    }
}
