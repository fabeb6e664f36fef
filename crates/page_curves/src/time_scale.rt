//! A scale of times in round steps.
ghost use Rattle.std.specs.Prelude.{◌≡◌, ◌<◌, ◌≤◌};
ghost use Rattle.page_curves.specs.TimeScale as spec;

/// The unit of the moments of a scale.
#[derive(Clone, Copy)]
pub enum TimeUnit {
    Millis,
    Seconds,
    Minutes,
    Hours,
}

/// The greatest step in ms: a day.
pub(crate) const LONGEST_STEP: u64 = 86_400_000;

// What a step may be, in ms: a whole number of each in a unit.
static STEPS: [u64; 24] = [
    10,
    20,
    50,
    100,
    200,
    500,
    1_000,
    2_000,
    5_000,
    10_000,
    20_000,
    30_000,
    60_000,
    120_000,
    300_000,
    600_000,
    1_200_000,
    1_800_000,
    3_600_000,
    7_200_000,
    14_400_000,
    21_600_000,
    43_200_000,
    LONGEST_STEP,
];

impl TimeUnit {
    /// Returns the unit of the multiples of a step: the greatest unit that is not greater than the step.
    pub fn of_step(step: u64) -> TimeUnit
        ensures { result ≡ spec.unit_of step }
    {
        if step < 1_000 {
            TimeUnit::Millis
        } else if step < 60_000 {
            TimeUnit::Seconds
        } else if step < 3_600_000 {
            TimeUnit::Minutes
        } else {
            TimeUnit::Hours
        }
    }

    /// Returns the length of the unit in ms.
    #[tactic(auto, unfolding(crate::specs::TimeScale::unit_millis))]
    pub fn millis(self) -> u64
        ensures same { result ≡ spec.unit_millis self }
        ensures some { 0 < result }
    {
        match self {
            TimeUnit::Millis => 1,
            TimeUnit::Seconds => 1_000,
            TimeUnit::Minutes => 60_000,
            TimeUnit::Hours => 3_600_000,
        }
    }

    /// Returns the name of the unit.
    #[tactic(auto, unfolding(crate::specs::TimeScale::unit_name))]
    pub fn name(self) -> &'static str
        ensures { result.now ≡ spec.unit_name self }
    {
        match self {
            TimeUnit::Millis => "ms",
            TimeUnit::Seconds => "s",
            TimeUnit::Minutes => "min",
            TimeUnit::Hours => "h",
        }
    }
}

// Returns whether six steps reach `length`.
fn reaches(step: u64, length: u64) -> bool
    ensures { result ≡ spec.reaches step length }
{
    step <= LONGEST_STEP && step * 6 >= length
}

// Returns the first step of a list whose sixth multiple reaches `length`; otherwise the longest step.
fn step_among(steps: &[u64], length: u64) -> u64
    ensures same { result ≡ spec.step_among steps.now length }
    ensures bound { result ≤ 86400000 }
{
    for step in steps {
        if reaches(*step, length) {
            return (*step).min(LONGEST_STEP);
        }
    }
    LONGEST_STEP
}

/// Returns the step of a scale of `length` ms: the least of 10 ms, 20 ms, .. that reaches its end in six steps;
/// otherwise a day.
pub fn step_for(length: u64) -> u64
    ensures same { result ≡ spec.step_for length }
    ensures bound { result ≤ 86400000 }
{
    step_among(&STEPS, length)
}
