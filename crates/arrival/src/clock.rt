//! The program clock references of a program, as they arrive.
ghost use Rattle.std.specs.Prelude.{◌≡◌, ◌+◌, ◌<◌, ◌^◌, None, IfSome};
ghost use Rattle.std.specs.Option.{option_or};
ghost use Rattle.arrival.specs.Clock.{IsInRange, IsMoment, IsClockLine, IfGoesOn};
ghost use Rattle.arrival.specs.Clock.{elapsed, goes_on, step_from, step_after, moment_by, line_in, pcr_period, state_after};

use crate::line::Line;
use std::marker::Model;

/// The ticks after which a clock reference wraps: 300 times 2^33.
pub const PCR_PERIOD: u64 = 300 << 33;

/// The ticks between two references of a program beyond which they lie on no line: one second, ten times the interval
/// that ISO/IEC 13818-1, 2.7.2, allows.
pub const LONGEST_INTERVAL: u64 = 27_000_000;

/// A program clock reference: the byte of the stream that ends its base (byte 10 of its packet), its value in ticks,
/// and the discontinuity_indicator of its packet.
#[derive(Clone, Copy)]
pub struct PcrSample {
    pub byte: u64,
    pub ticks: u64,
    pub discontinuity: bool,
}

/// How the clock moves from one reference to the next.
#[derive(Clone, Copy)]
pub enum ClockStep {
    /// There is no reference before it.
    First,
    /// The clock continues: the bytes between both lie on this line.
    GoesOn(Line),
    /// The clock begins again, as the discontinuity_indicator says.
    Announced,
    /// The clock begins again without an indicator; by its values it would have continued by this many ticks.
    Jump(u64),
}

/// A reference and its moment.
#[derive(Clone, Copy)]
pub struct TimedSample {
    pub sample: PcrSample,
    pub moment: u64,
}

/// How the clock moves from the reference before, and the line of the bytes between both: the line on which the clock
/// continues, or the line before, continued; `None` if there is neither.
#[derive(Clone, Copy)]
pub struct Passed {
    pub step: ClockStep,
    pub line: Option<Line>,
}

/// The clock of a program: its last reference, and the line that ends there.
#[derive(Clone, Copy)]
pub struct ProgramClock {
    last: Option<TimedSample>,
    line: Option<Line>,
}

impl Model for ProgramClock {
    ghost use Rattle.std.specs.Prelude.{IfSome};
    ghost use Rattle.arrival.specs.Clock.{IsInRange, IsMoment, IsClockLine, ClockState};

    ghost Value = { ClockState };

    ghost view = { λ c. record { last = c.last; line = c.line } };

    ghost invariant = { λ c. IfSome c.last (λ last. IsInRange last.sample × IsMoment last.sample.byte last.moment)
        × IfSome c.line IsClockLine };

    ghost inverse = { λ c. record { last = c.last; line = c.line } };
}

// Returns the ticks from one value of the clock to the next.
fn elapsed(before: u64, value: u64) -> u64
    requires before { before < 2 ^ 42 }
    requires value { value < 2 ^ 42 }
    ensures value { result ≡ elapsed before value }
    ensures bound { result < pcr_period }
{
    (value + 2 * PCR_PERIOD - before) % PCR_PERIOD
}

// Returns whether the clock continues from one reference to the next.
fn goes_on(before: &PcrSample, sample: &PcrSample) -> bool
    requires before { IsInRange before.now }
    requires sample { IsInRange sample.now }
    ensures { result ≡ goes_on before.now sample.now }
{
    let ticks = elapsed(before.ticks, sample.ticks);
    !sample.discontinuity
        && before.byte + 188 <= sample.byte
        && 0 < ticks
        && ticks <= LONGEST_INTERVAL
}

// Returns how the clock moves from the reference `before` to the reference `sample`.
#[tactic(auto, unfolding(crate::specs::Clock::step_from, crate::specs::Clock::IfGoesOn))]
fn step_from(before: &TimedSample, sample: &PcrSample) -> ClockStep
    requires before { IsInRange before.now.sample }
    requires moment { IsMoment before.now.sample.byte before.now.moment }
    requires sample { IsInRange sample.now }
    ensures step { result ≡ step_from before.now sample.now }
    ensures line { IfGoesOn result IsClockLine }
    ensures moment { IfGoesOn result (λ line. IsMoment sample.now.byte (line.moment + line.ticks)) }
{
    if goes_on(&before.sample, sample) {
        return ClockStep::GoesOn(Line {
            byte: before.sample.byte,
            moment: before.moment,
            bytes: sample.byte - before.sample.byte,
            ticks: elapsed(before.sample.ticks, sample.ticks),
        });
    }
    if sample.discontinuity {
        return ClockStep::Announced;
    }
    ClockStep::Jump(elapsed(before.sample.ticks, sample.ticks))
}

// Returns how the clock moves from the last reference before, if any, to this reference.
#[tactic(auto, unfolding(crate::specs::Clock::step_after, crate::specs::Clock::IfGoesOn))]
fn step_after(last: &Option<TimedSample>, sample: &PcrSample) -> ClockStep
    requires last { IfSome last.now (λ last. IsInRange last.sample × IsMoment last.sample.byte last.moment) }
    requires sample { IsInRange sample.now }
    ensures step { result ≡ step_after last.now sample.now }
    ensures line { IfGoesOn result IsClockLine }
    ensures moment { IfGoesOn result (λ line. IsMoment sample.now.byte (line.moment + line.ticks)) }
{
    match last {
        None => ClockStep::First,
        Some(before) => step_from(before, sample),
    }
}

// Returns the moment of a reference.
#[tactic(auto, unfolding(crate::specs::Clock::moment_by, crate::specs::Clock::IfGoesOn))]
fn moment_by(step: &ClockStep, sample: &PcrSample) -> u64
    requires sample { IsInRange sample.now }
    requires moment { IfGoesOn step.now (λ line. IsMoment sample.now.byte (line.moment + line.ticks)) }
    ensures moment { result ≡ moment_by step.now sample.now }
    ensures within { IsMoment sample.now.byte result }
{
    match step {
        ClockStep::GoesOn(line) => line.moment + line.ticks,
        ClockStep::First | ClockStep::Announced | ClockStep::Jump(_) => PCR_PERIOD + sample.ticks,
    }
}

// Returns the line on which the clock continues.
#[tactic(auto, unfolding(crate::specs::Clock::line_in, crate::specs::Clock::IfGoesOn))]
fn line_in(step: &ClockStep) -> Option<Line>
    requires line { IfGoesOn step.now IsClockLine }
    ensures line { result ≡ line_in step.now }
    ensures clock { IfSome result IsClockLine }
{
    match step {
        ClockStep::GoesOn(line) => Some(*line),
        ClockStep::First | ClockStep::Announced | ClockStep::Jump(_) => None,
    }
}

impl ProgramClock {
    /// Returns the state before the first reference.
    pub fn new() -> ProgramClock
        ensures { result ≡ record { last = None; line = None } }
    {
        ProgramClock {
            last: None,
            line: None,
        }
    }

    /// Returns the last reference.
    pub fn last(&self) -> Option<TimedSample>
        ensures { result ≡ self.now.last }
    {
        self.last
    }

    /// Returns the line that ends at the last reference, if the clock continued to it.
    pub fn line(&self) -> Option<Line>
        ensures line { result ≡ self.now.line }
        ensures clock { IfSome result IsClockLine }
    {
        self.line
    }

    /// Takes the next reference.
    pub fn take(&mut self, sample: PcrSample) -> Passed
        requires { IsInRange sample }
        ensures step { result.step ≡ step_after self.old.last sample }
        ensures line { result.line ≡ option_or (line_in result.step) self.old.line }
        ensures clock { IfSome result.line IsClockLine }
        ensures state { self.new ≡ state_after self.old sample }
    {
        let step = step_after(&self.last, &sample);
        let moment = moment_by(&step, &sample);
        let line = line_in(&step);
        let passed = Passed {
            step,
            line: line.or(self.line),
        };
        self.last = Some(TimedSample { sample, moment });
        self.line = line;
        passed
    }
}
