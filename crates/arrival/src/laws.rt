//! Laws of arrivals. Each is a function that does nothing: its contract is the law, over the definitions of `specs/`
//! alone, and a caller may cite it.
ghost use Rattle.arrival.specs.Laws.{ConstantMoments, ConstantRow, ConstantScale};
ghost use Rattle.arrival.specs.Laws.{LineBegins, LineEnds, LinesMeet, LineRises, Rounded, ReachLaw};
ghost use Rattle.arrival.specs.Laws.{MomentLaw, HeldLaw, StateLaw, StampLaw, StampJumpLaw};

/// States for a stream of constant rate that its line gives the moments of `clock27`, and its rows the arrivals.
pub fn constant_rate()
    ensures moments { ConstantMoments }
    ensures rows { ConstantRow }
    ensures scale { ConstantScale }
{}

/// States that a line goes through both its references, so that the next line begins where it ends; that no byte
/// arrives before an earlier byte; and that an arrival is less than a unit early.
pub fn lines()
    ensures begins { LineBegins }
    ensures ends { LineEnds }
    ensures meet { LinesMeet }
    ensures rises { LineRises }
    ensures rounded { Rounded }
    ensures reaches { ReachLaw }
{}

/// States that a clock's moments are its references, where it continues and where it restarts.
pub fn moments()
    ensures { MomentLaw }
{}

/// States that the line of a byte is known after the next reference has arrived.
pub fn held()
    ensures line { HeldLaw }
    ensures state { StateLaw }
{}

/// States that the ticks from one stamp's sample to the next equal the ticks between both stamps, so that the clock
/// continues from one packet to the next unless the stamp jumps.
pub fn stamps()
    ensures ticks { StampLaw }
    ensures goes { StampJumpLaw }
{}
