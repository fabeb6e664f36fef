//! The most packets of units in a row, as a function of the time between their stamps.
ghost use Rattle.unit_timing.specs.Allowances.{AllowanceLaw};
ghost use Rattle.unit_timing.specs.Levels.{BurstLaw};

/// States that units within a declaration keep its function of time, which never falls.
pub fn curves()
    ensures { AllowanceLaw }
{}

/// States that units keep a pace exactly if its burst covers the greatest level of a bucket that they fill and the
/// pace empties.
pub fn bursts()
    ensures { BurstLaw }
{}
