//! Laws of the measured values. Each is a function that does nothing: its contract is the law, over the definitions of
//! `specs/` alone, and a caller may cite it.
ghost use Rattle.tr101290.specs.PcrLaws.{RoundedUpLaw, IntervalLaw, InaccuracyLaw, PlaceLaw, WholeTicksLaw, ClockLaw, JudgeLaw};

/// States that a value is beyond its limit exactly where the exact one is.
pub fn rounding()
    ensures values { RoundedUpLaw }
    ensures intervals { IntervalLaw }
    ensures inaccuracies { InaccuracyLaw }
{}

/// States that an inaccuracy is a distance from an arrival on a line, and that a clock rounded down to whole ticks is
/// accurate.
pub fn places()
    ensures place { PlaceLaw }
    ensures accurate { WholeTicksLaw }
{}

/// States that the watches keep the references.
pub fn references()
    ensures { ClockLaw }
{}

/// States that all accuracy errors of a whole stream are given if its rate is not judged to vary, and none if it is.
pub fn judged()
    ensures { JudgeLaw }
{}
