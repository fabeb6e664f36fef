//! Laws of clock references by window. Each is a function that does nothing: its contract is the law, over the
//! definitions of `specs/` alone, and a caller may cite it.
ghost use Rattle.packet_times.specs.Laws.{ClockCountLaw, DriftLaw, GreatestInaccuracyLaw, GreatestIntervalLaw, TotalDriftLaw};

/// States that the counts of a PID are the counts of all its references in the window of the last reference, with their
/// greatest interval and inaccuracy, if references are in the order of their windows.
pub fn clocks_by_window()
    ensures counts { ClockCountLaw }
    ensures intervals { GreatestIntervalLaw }
    ensures inaccuracies { GreatestInaccuracyLaw }
{}

/// States that the drift of a PID is the drift of its own references, of whatever window, and that from a reference
/// with which the clock begins it is by the ticks of all lines after that and by the moments of the first and of the
/// last reference.
pub fn drift_by_references()
    ensures own { DriftLaw }
    ensures total { TotalDriftLaw }
{}
