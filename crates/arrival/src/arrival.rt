//! How the bytes of a stream arrive.
ghost use Rattle.std.specs.Prelude.{◌≡◌, ◌+◌, ◌<◌, ◌≤◌, ◌^◌, true};
ghost use Rattle.arrival.specs.Arrivals as spec;
ghost use Rattle.arrival.specs.Rows.{IsTimed, IsEarly, times_of};

use crate::clock_line::ClockLine;
use crate::row::Row;
use clock27::Rate;
use clock27::units::BYTE_TICKS_AT_1BPS;

/// Two lines of a clock in a row: bytes before the second line's first byte lie on the first line.
#[derive(Clone, Copy)]
pub struct ClockLines {
    pub before: ClockLine,
    pub line: ClockLine,
}

/// How bytes arrive.
#[derive(Clone, Copy)]
pub enum Arrival {
    /// By a clock whose first line is not known yet.
    Unknown,
    /// At a constant rate, from the first byte on.
    AtRate(Rate),
    /// On the lines of a clock.
    OnLines(ClockLines),
}

impl ClockLines {
    /// Returns the line of a byte.
    #[inline]
    pub fn line_at(&self, byte: u64) -> ClockLine
        ensures { result ≡ spec.line_at self.now byte }
    {
        if byte <= self.line.line().byte {
            self.before
        } else {
            self.line
        }
    }

    /// Returns the moment of a byte in ticks, rounded down.
    pub fn moment(&self, byte: u64) -> u64
        ensures { result ≡ spec.moment_on self.now byte }
    {
        self.line_at(byte).moment(byte)
    }
}

impl Arrival {
    /// Returns how long a byte takes to leave a buffer at its rate: a buffer that is drained at `r` bits a second
    /// counts time in units of `1 / (r * step)` of 8 seconds.
    #[inline(always)]
    #[tactic(auto, unfolding(crate::specs::Arrivals::step_of))]
    pub fn step(&self) -> u64
        ensures step { result ≡ spec.step_of self.now }
        ensures some { 0 < result }
        ensures slow { result ≤ 2 ^ 28 }
    {
        match self {
            Arrival::AtRate(rate) => rate.bits_per_second(),
            Arrival::Unknown | Arrival::OnLines(_) => BYTE_TICKS_AT_1BPS as u64,
        }
    }

    /// Returns whether `count` bytes from byte `byte` on have times.
    #[inline(always)]
    #[tactic(auto, unfolding(crate::specs::Arrivals::has_times))]
    pub fn has_times(&self, byte: u64, count: u64) -> bool
        requires byte { byte ≤ 2 ^ 41 }
        requires count { count ≤ 2 ^ 41 }
        ensures { result ≡ spec.has_times self.now byte count }
    {
        match self {
            Arrival::Unknown => false,
            Arrival::AtRate(_) => byte + count <= 1 << 40,
            Arrival::OnLines(lines) => {
                byte + count <= 1 << 40
                    && lines.before.line().byte <= byte + (1 << 24)
                    && lines.line.line().byte <= byte + (1 << 24)
            }
        }
    }

    /// Returns how many bytes of the packet from byte `byte` on lie on the first of two lines, if the second line
    /// begins within the packet.
    #[inline(always)]
    #[tactic(auto, unfolding(crate::specs::Arrivals::lead_of))]
    pub fn lead(&self, byte: u64) -> u64
        requires { byte ≤ 2 ^ 41 }
        ensures value { result ≡ spec.lead_of self.now byte }
        ensures bound { result ≤ 188 }
    {
        let Arrival::OnLines(lines) = self else {
            return 0;
        };
        let begin = lines.line.line().byte;
        if byte <= begin && begin < byte + 188 {
            begin + 1 - byte
        } else {
            0
        }
    }

    /// Returns the arrivals of `count` bytes from byte `byte` on, all on the line of the first of them, at a buffer
    /// that is drained at `drain` bits a second.
    #[inline(always)]
    #[tactic(auto, unfolding(crate::specs::Arrivals::has_times, crate::specs::Arrivals::times_at))]
    pub fn row(&self, drain: u64, byte: u64, count: u64) -> Row
        requires drain { drain ≤ 200000000 }
        requires times { spec.has_times self.now byte count ≡ true }
        ensures times { times_of result ≡ spec.times_at self.now drain byte count }
        ensures timed { IsTimed result }
        ensures early { IsEarly result }
        ensures bytes { result.bytes ≡ count }
    {
        match self {
            Arrival::Unknown => unreachable!(),
            Arrival::AtRate(_) => Row::at_constant_rate(drain, byte, count),
            Arrival::OnLines(lines) => lines.line_at(byte).line().row(drain, byte, count),
        }
    }
}
