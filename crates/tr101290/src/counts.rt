//! Reports, counted.
ghost use Rattle.std.specs.Prelude.{◌≡◌};
ghost use Rattle.tr101290.specs.Counts as spec;

use crate::report::{Inaccuracy, PcrReport};
use arrival::{ClockStep, Line};
use clock27::units::BYTE_TICKS_AT_1BPS;

/// What the references of a PID came to. Numbers stop at 2^64 - 1.
#[derive(Clone, Copy)]
pub struct PcrCounts {
    /// The references.
    pub references: u64,
    /// How many of them restart the clock, as their discontinuity_indicator says.
    pub announced: u64,
    /// The errors of each kind.
    pub repetition_errors: u64,
    pub discontinuity_errors: u64,
    pub accuracy_errors: u64,
    /// The greatest time between references, in ticks, and the greatest inaccuracy, in nanoseconds.
    pub interval: u128,
    pub inaccuracy: u128,
    /// The bytes and ticks of all lines on which the clock continues.
    pub bytes: u64,
    pub ticks: u64,
}

fn more_if(more: bool, count: u64) -> u64
    ensures { result ≡ spec.more_if more count }
{
    if more { count.saturating_add(1) } else { count }
}

#[tactic(auto, unfolding(crate::specs::Counts::is_announced))]
fn is_announced(step: &ClockStep) -> bool
    ensures { result ≡ spec.is_announced step.now }
{
    match step {
        ClockStep::Announced => true,
        ClockStep::First | ClockStep::GoesOn(_) | ClockStep::Jump(_) => false,
    }
}

#[tactic(auto, unfolding(crate::specs::Counts::nanoseconds_in))]
fn nanoseconds_in(inaccuracy: &Option<Inaccuracy>) -> u128
    ensures { result ≡ spec.nanoseconds_in inaccuracy.now }
{
    match inaccuracy {
        None => 0,
        Some(off) => off.nanoseconds,
    }
}

// Returns the bytes and ticks of a step on which the clock continues; 0 for any other step.
#[tactic(auto, unfolding(crate::specs::Counts::line_bytes, crate::specs::Counts::line_ticks))]
fn line_size(step: &ClockStep) -> (u64, u64)
    ensures bytes { result.0 ≡ spec.line_bytes step.now }
    ensures ticks { result.1 ≡ spec.line_ticks step.now }
{
    match step {
        ClockStep::GoesOn(Line { bytes, ticks, .. }) => (*bytes, *ticks),
        ClockStep::First | ClockStep::Announced | ClockStep::Jump(_) => (0, 0),
    }
}

impl PcrCounts {
    /// Returns the counts of no reference.
    pub fn new() -> PcrCounts
        ensures { result ≡ spec.none_counted }
    {
        PcrCounts {
            references: 0,
            announced: 0,
            repetition_errors: 0,
            discontinuity_errors: 0,
            accuracy_errors: 0,
            interval: 0,
            inaccuracy: 0,
            bytes: 0,
            ticks: 0,
        }
    }

    /// Returns the counts with the report on one reference more.
    pub fn with(self, report: &PcrReport) -> PcrCounts
        ensures { result ≡ spec.counted self report.now }
    {
        let (bytes, ticks) = line_size(&report.step);
        PcrCounts {
            references: more_if(true, self.references),
            announced: more_if(is_announced(&report.step), self.announced),
            repetition_errors: more_if(report.repetition_error().is_some(), self.repetition_errors),
            discontinuity_errors: more_if(
                report.discontinuity_error().is_some(),
                self.discontinuity_errors,
            ),
            accuracy_errors: more_if(report.accuracy_error().is_some(), self.accuracy_errors),
            interval: self.interval.max(report.interval.unwrap_or(0)),
            inaccuracy: self.inaccuracy.max(nanoseconds_in(&report.inaccuracy)),
            bytes: self.bytes.saturating_add(bytes),
            ticks: self.ticks.saturating_add(ticks),
        }
    }

    /// Returns the rate that all references give, in bits a second, rounded down: the rate of the lines on which the
    /// clock continues.
    pub fn rate(self) -> Option<u128>
        ensures { result ≡ spec.rate_of self }
    {
        if self.ticks == 0 {
            return None;
        }
        Some(u128::from(self.bytes) * BYTE_TICKS_AT_1BPS / u128::from(self.ticks))
    }
}
