//! Laws of the times at which bytes arrive. Each is a function that does nothing: its contract is the law, over the
//! definitions of `specs/` alone, and a caller may cite it.
ghost use Rattle.laws_view.specs.Between.{BetweenLaw};
ghost use Rattle.laws_view.specs.Leads.{LeadLaw};
ghost use Rattle.laws_view.specs.StampedPackets.{StampedLeadLaw, StampedOnceLaw, StampedRiseLaw};
ghost use Rattle.laws_view.specs.TimedPackets.{EachOnceLaw};
ghost use Rattle.laws_view.specs.Times.{RisesLaw};

/// States for a stream that arrives by clock references that each packet arrives once, in order, no byte of it arrives
/// before an earlier one, and where a line begins within a packet, its payload lies on that line.
pub fn arrivals_rise()
    ensures once { EachOnceLaw }
    ensures rises { RisesLaw }
    ensures leads { LeadLaw }
{}

/// States the same for a stream that arrives by the stamps before packets of 192 bytes.
pub fn stamps_rise()
    ensures once { StampedOnceLaw }
    ensures rises { StampedRiseLaw }
    ensures leads { StampedLeadLaw }
{}

/// States that all bytes between two clock references, if the clock continues, lie on the line through both.
pub fn references()
    ensures { BetweenLaw }
{}
