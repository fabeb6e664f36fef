//! The clock of a stream's arrival.
ghost use Rattle.std.specs.Prelude.{◌≡◌, ◌+◌, ◌≤◌, ◌^◌, IfSome};
ghost use Rattle.arrival.specs.Clock.{IfGoesOn, IsClockLine, IsInRange, IsMoment};
ghost use Rattle.arrival.specs.ArrivalClocks as spec;

use crate::clock::{ClockStep, PCR_PERIOD, PcrSample, ProgramClock};
use crate::clock_line::ClockLine;
use crate::line::Line;
use std::marker::Model;

/// The clock of a stream's arrival: the program's clock, the moment of its last reference, and the last line, which
/// continues where the clock restarts.
#[derive(Clone, Copy)]
pub struct ArrivalClock {
    clock: ProgramClock,
    moment: u64,
    line: Option<ClockLine>,
}

impl Model for ArrivalClock {
    ghost use Rattle.std.specs.Prelude.{IfSome};
    ghost use Rattle.arrival.specs.Clock.{IsMoment};
    ghost use Rattle.arrival.specs.ArrivalClocks.{ArrivalClockState};

    ghost Value = { ArrivalClockState };

    ghost view = { λ c. record { clock = c.clock; moment = c.moment; line = c.line } };

    ghost invariant = { λ c. IfSome c.clock.last (λ last. IsMoment last.sample.byte c.moment) };

    ghost inverse = { λ c. record { clock = c.clock; moment = c.moment; line = c.line } };
}

// Returns the moment of a reference at which the clock begins again.
#[tactic(auto, unfolding(crate::specs::ArrivalClocks::moment_anew))]
fn moment_anew(line: &Option<ClockLine>, byte: u64) -> u64
    requires { byte ≤ 2 ^ 40 }
    ensures moment { result ≡ spec.moment_anew line.now byte }
    ensures within { IsMoment byte result }
{
    match line {
        None => PCR_PERIOD,
        Some(line) => {
            let latest = (1 << 44) + 143_618 * byte;
            (line.tick_after(byte).min(u128::from(latest)) as u64).max(PCR_PERIOD)
        }
    }
}

#[tactic(auto, unfolding(crate::specs::ArrivalClocks::moment_by, crate::specs::Clock::IfGoesOn))]
fn moment_by(moment: u64, step: &ClockStep, line: &Option<ClockLine>, byte: u64) -> u64
    requires byte { byte ≤ 2 ^ 40 }
    requires moment { IfGoesOn step.now (λ line. IsMoment byte (moment + line.ticks)) }
    ensures moment { result ≡ spec.moment_by moment step.now line.now byte }
    ensures within { IsMoment byte result }
{
    match step {
        ClockStep::GoesOn(line) => moment + line.ticks,
        ClockStep::First | ClockStep::Announced | ClockStep::Jump(_) => moment_anew(line, byte),
    }
}

// Returns the line on which the clock continues from a reference of that moment.
#[tactic(auto, unfolding(crate::specs::ArrivalClocks::line_from, crate::specs::Clock::IfGoesOn))]
fn line_from(moment: u64, step: &ClockStep) -> Option<ClockLine>
    requires clock { IfGoesOn step.now IsClockLine }
    requires moment { IfGoesOn step.now (λ line. IsMoment line.byte moment) }
    ensures { result ≡ spec.line_from moment step.now }
{
    match step {
        ClockStep::GoesOn(line) => Some(ClockLine::new(Line { moment, ..*line })),
        ClockStep::First | ClockStep::Announced | ClockStep::Jump(_) => None,
    }
}

impl ArrivalClock {
    /// Returns the state before the first reference.
    pub fn new() -> ArrivalClock
        ensures { result ≡ spec.no_reference }
    {
        ArrivalClock {
            clock: ProgramClock::new(),
            moment: PCR_PERIOD,
            line: None,
        }
    }

    /// Returns the last line.
    pub fn line(&self) -> Option<ClockLine>
        ensures { result ≡ self.now.line }
    {
        self.line
    }

    /// Takes the next reference, and returns the line of the bytes between the reference before and this reference.
    pub fn take(&mut self, sample: PcrSample) -> Option<ClockLine>
        requires { IsInRange sample }
        ensures line { result ≡ spec.line_to self.old sample }
        ensures clock { self.new ≡ spec.after self.old sample }
    {
        let step = self.clock.take(sample).step;
        let moment = moment_by(self.moment, &step, &self.line, sample.byte);
        self.line = line_from(self.moment, &step).or(self.line);
        self.moment = moment;
        self.line
    }

    /// Restarts the clock with the next reference, after too long a time without one.
    pub fn begin_anew(&mut self)
        ensures { self.new ≡ spec.without_last self.old }
    {
        self.clock = ProgramClock::new();
    }
}
