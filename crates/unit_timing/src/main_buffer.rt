//! The main buffer.
ghost use Rattle.unit_timing.specs.MainBuffer.{BySlots, ByCurve, MainPeakLaw};
ghost use Rattle.unit_timing.specs.LongestStay.{LongestStayLaw};

/// States bounds of the fullness of the main buffer at any moment, whenever bytes leave the transport buffer after the
/// begin of their slot: by slots, and by the allowed units, their bytes or their packets. Late units count too.
pub fn fullness()
    ensures by_slots { BySlots }
    ensures by_curve { ByCurve }
{}

/// States that the greatest fullness of the main buffer over all moments is that at some byte's entry.
pub fn peak()
    ensures { MainPeakLaw }
{}

/// States that no byte waits longer than the lead for its unit's stamp, from its arrival on.
pub fn longest_stay()
    ensures { LongestStayLaw }
{}
