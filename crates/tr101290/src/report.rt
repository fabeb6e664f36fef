//! The report on a clock reference, and its errors (ETSI TR 101 290, 5.2.1 and 5.2.2).
ghost use Rattle.std.specs.Prelude.{◌≡◌};
ghost use Rattle.tr101290.specs.Errors as spec;

use arrival::ClockStep;

/// The greatest time between references, in ticks of 27 MHz: 100 ms (ISO/IEC 13818-1, 2.7.2).
pub const GREATEST_INTERVAL: u64 = 2_700_000;

/// The greatest inaccuracy of a reference, in nanoseconds (ISO/IEC 13818-1, 2.4.2.2).
pub const GREATEST_INACCURACY: u64 = 500;

/// How far the reference at a byte lies from its place on an even clock, in nanoseconds, rounded up.
#[derive(Clone, Copy)]
pub struct Inaccuracy {
    pub byte: u64,
    pub nanoseconds: u128,
}

/// A measured value that is beyond its limit, of the reference at a byte.
#[derive(Clone, Copy)]
pub struct PcrError {
    pub byte: u64,
    pub value: u128,
    pub limit: u64,
}

/// What a reference says beside the references before it.
#[derive(Clone, Copy)]
pub struct PcrReport {
    /// Its byte.
    pub byte: u64,
    /// Whether the clock continues to it, or restarts.
    pub step: ClockStep,
    /// The rate that it gives with the reference before it, in bits a second, if the clock continues.
    pub rate: Option<u128>,
    /// The time since the one before it, in ticks.
    pub interval: Option<u128>,
    /// The inaccuracy that it makes known: at a constant rate its own, otherwise the inaccuracy of the reference before
    /// it.
    pub inaccuracy: Option<Inaccuracy>,
}

// Returns the error of a value that is beyond a limit.
fn beyond(limit: u64, byte: u64, value: u128) -> Option<PcrError>
    ensures { result ≡ spec.beyond limit byte value }
{
    if value > u128::from(limit) {
        Some(PcrError { byte, value, limit })
    } else {
        None
    }
}

#[tactic(auto, unfolding(crate::specs::Errors::beyond_if))]
fn beyond_if(limit: u64, byte: u64, value: Option<u128>) -> Option<PcrError>
    ensures { result ≡ spec.beyond_if limit byte value }
{
    match value {
        None => None,
        Some(value) => beyond(limit, byte, value),
    }
}

// Returns the ticks from the value before to a reference's own, unless the reference is the first or is announced by a
// discontinuity_indicator.
#[tactic(auto, unfolding(crate::specs::Errors::difference_in))]
fn difference_in(step: &ClockStep) -> Option<u128>
    ensures { result ≡ spec.difference_in step.now }
{
    match step {
        ClockStep::First | ClockStep::Announced => None,
        ClockStep::GoesOn(line) => Some(u128::from(line.ticks)),
        ClockStep::Jump(ticks) => Some(u128::from(*ticks)),
    }
}

impl PcrReport {
    /// Returns PCR_repetition_error (2.3a): the time since the reference before it, beyond 100 ms.
    pub fn repetition_error(&self) -> Option<PcrError>
        ensures { result ≡ spec.repetition_error self.now }
    {
        beyond_if(GREATEST_INTERVAL, self.byte, self.interval)
    }

    /// Returns PCR_discontinuity_indicator_error (2.3b): the ticks since the value before it, beyond 100 ms, though its
    /// packet has no discontinuity_indicator.
    pub fn discontinuity_error(&self) -> Option<PcrError>
        ensures { result ≡ spec.discontinuity_error self.now }
    {
        beyond_if(GREATEST_INTERVAL, self.byte, difference_in(&self.step))
    }

    /// Returns PCR_accuracy_error (2.4): the inaccuracy of a reference, beyond 500 ns.
    #[tactic(auto, unfolding(crate::specs::Errors::off_beyond))]
    pub fn accuracy_error(&self) -> Option<PcrError>
        ensures { result ≡ spec.accuracy_error self.now }
    {
        match self.inaccuracy {
            None => None,
            Some(off) => beyond(GREATEST_INACCURACY, off.byte, off.nanoseconds),
        }
    }
}
