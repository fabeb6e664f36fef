//! The references of a PID, one after another.
ghost use Rattle.std.specs.Prelude.{◌≡◌, IfSome};
ghost use Rattle.std.specs.Option.{option_map};
ghost use Rattle.arrival.specs.Clock.{IsInRange, IsClockLine};
ghost use Rattle.tr101290.specs.Measures.{rate_on, report_after};
ghost use Rattle.tr101290.specs.Watches.{no_reference, taken};

use crate::counts::PcrCounts;
use crate::measures::{inaccuracy_by, interval_after, rate_on};
use crate::report::PcrReport;
use arrival::{Line, PcrSample, ProgramClock};
use clock27::Rate;
use std::marker::Model;

/// By what references are measured.
#[derive(Clone, Copy)]
pub enum PcrTiming {
    /// The stream's constant rate.
    ConstantRate(Rate),
    /// The references around.
    References,
    /// The references around; their places say nothing, because packets arrive by stamps.
    Stamps,
}

/// The references of a PID so far: the last two references, and counts.
#[derive(Clone, Copy)]
pub struct PcrWatch {
    timing: PcrTiming,
    clock: ProgramClock,
    counts: PcrCounts,
}

impl Model for PcrWatch {
    ghost use Rattle.tr101290.specs.Watches.{PcrState};

    ghost Value = { PcrState };

    ghost view = { λ w. record { timing = w.timing; clock = w.clock; counts = w.counts } };

    ghost inverse = { λ w. record { timing = w.timing; clock = w.clock; counts = w.counts } };
}

fn rate_if(line: &Option<Line>) -> Option<u128>
    requires { IfSome line.now IsClockLine }
    ensures { result ≡ option_map rate_on line.now }
{
    match line {
        None => None,
        Some(line) => Some(rate_on(line)),
    }
}

impl PcrWatch {
    /// Returns the state before the first reference.
    pub fn new(timing: PcrTiming) -> PcrWatch
        ensures { result ≡ no_reference timing }
    {
        PcrWatch {
            timing,
            clock: ProgramClock::new(),
            counts: PcrCounts::new(),
        }
    }

    /// Returns the counts of the reports so far.
    pub fn counts(&self) -> PcrCounts
        ensures { result ≡ self.now.counts }
    {
        self.counts
    }

    /// Returns the next reference.
    pub fn take(&mut self, sample: PcrSample) -> PcrReport
        requires { IsInRange sample }
        ensures report { result ≡ report_after self.old.timing self.old.clock sample }
        ensures watch { self.new ≡ taken self.old sample }
    {
        let (last, before) = (self.clock.last(), self.clock.line());
        let passed = self.clock.take(sample);
        let line = self.clock.line();
        let report = PcrReport {
            byte: sample.byte,
            step: passed.step,
            rate: rate_if(&line),
            interval: interval_after(self.timing, &last, &sample, &line),
            inaccuracy: inaccuracy_by(self.timing, &before, &line),
        };
        self.counts = self.counts.with(&report);
        report
    }
}
