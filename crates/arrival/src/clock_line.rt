//! A line of a clock.
ghost use Rattle.std.specs.Prelude.{◌≡◌, ◌+◌, ◌-◌, ◌/◌, ◌≤◌, ◌^◌, max, min};
ghost use Rattle.arrival.specs.ArrivalClocks.{tick_after};
ghost use Rattle.arrival.specs.Clock.{IsClockLine};
ghost use Rattle.arrival.specs.Lines.{parts_at};

use crate::line::Line;
use std::marker::Model;

/// A line between two references of a clock: whole packets, in no longer than a second.
#[derive(Clone, Copy)]
pub struct ClockLine {
    line: Line,
}

impl Model for ClockLine {
    ghost use Rattle.arrival.specs.Clock.{IsClockLine};
    ghost use Rattle.arrival.specs.declared.line.Line.{Line};

    ghost Value = { Line };

    ghost view = { λ l. l.line };

    ghost invariant = { λ l. IsClockLine l.line };

    ghost inverse = { λ line. record { line = line } };
}

impl ClockLine {
    /// Returns the clock line of a line.
    pub fn new(line: Line) -> ClockLine
        requires { IsClockLine line }
        ensures { result ≡ line }
    {
        ClockLine { line }
    }

    /// Returns the line.
    #[inline(always)]
    pub fn line(&self) -> Line
        ensures line { result ≡ self.now }
        ensures clock { IsClockLine result }
    {
        self.line
    }

    // Returns the moment of a byte, multiplied by the line's number of bytes.
    fn parts(&self, byte: u64) -> u128
        ensures { result ≡ parts_at self.now byte }
    {
        let forward = u128::from(self.line.moment) * u128::from(self.line.bytes)
            + u128::from(byte) * u128::from(self.line.ticks);
        forward.saturating_sub(u128::from(self.line.byte) * u128::from(self.line.ticks))
    }

    /// Returns the moment of a byte in ticks, rounded down.
    pub fn moment(&self, byte: u64) -> u64
        ensures { result ≡ min (parts_at self.now byte / max 1 self.now.bytes) (2 ^ 64 - 1) }
    {
        (self.parts(byte) / u128::from(self.line.bytes.max(1))).min(u128::from(u64::MAX)) as u64
    }

    /// Returns the first whole tick that is not before a byte.
    pub fn tick_after(&self, byte: u64) -> u128
        ensures { result ≡ tick_after self.now byte }
    {
        (self.parts(byte) + u128::from(self.line.bytes - 1)) / u128::from(self.line.bytes.max(1))
    }
}
