//! What the system clock shows as a run begins.

ghost use Rattle.std.specs.Prelude.{◌≡◌};
ghost use Rattle.job_programs.specs.ClockBases as spec;

use clock27::STAMP_MODULUS;
use given_values::ClockBase;

/// 12 hours in units of 90 kHz.
const TWELVE_HOURS: u64 = 3_888_000_000;

// Returns whether a clock that shows this does not pass the end of its 33 bits within 12 hours.
#[tactic(auto, unfolding(crate::specs::ClockBases::lasts))]
fn lasts(base: u64) -> bool
    ensures { result ≡ spec.lasts base }
{
    base <= STAMP_MODULUS - TWELVE_HOURS
}

/// Returns the system clock at the start of a run, as the options choose it; `own` is the clock of the first program.
#[tactic(auto, unfolding(crate::specs::ClockBases::base0_of))]
pub fn base0_of(base: ClockBase, own: u64) -> u64
    ensures { result ≡ spec.base0_of base own }
{
    match base {
        ClockBase::Lasting => { if lasts(own) { own } else { 0 } }
        ClockBase::Input => own,
        ClockBase::At(base) => base,
    }
}
