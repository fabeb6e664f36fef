//! Laws of intervals. Each is a function that does nothing: its contract is the law, over the definitions of `specs/`
//! alone, and a caller may cite it.
ghost use Rattle.tr101290.specs.Continuity.{ContinuityLaw};
ghost use Rattle.tr101290.specs.IntervalLaws.{EntryLaw, GreatestLaw, PartLaw, TimeLaw};

/// States that an entry describes all sections of its PID and table_id, or all sections of its part, with the greatest
/// time from one to the next; and that a time is beyond its limit exactly where the exact time is.
pub fn intervals()
    ensures entries { EntryLaw }
    ensures parts { PartLaw }
    ensures greatest { GreatestLaw }
    ensures times { TimeLaw }
{}

/// States that the continuity errors of a PID are the breaks that the demultiplexer marks in the row of its packets,
/// whatever packets of other PIDs lie between them.
pub fn continuity()
    ensures { ContinuityLaw }
{}
