//! The promises over any number of line-ups. Each function does nothing: its contract is the law.

ghost use Rattle.turns.specs.LineUpRuns.{LineUpsLaw, JoinedLaw, GoneLaw, GoneStreamLaw, GoesOnLaw};
ghost use Rattle.turns.specs.TakenOver.{FollowsLaw};

/// States that over any number of line-ups, at every moment, the finished bytes keep for all that is on air what they
/// keep over one: each stream all of it, over every change; each table its sections, by the texts in force in the slot
/// in which they begin; each program its clock and its system buffers, from the slot on in which it comes.
pub fn line_ups()
    ensures { LineUpsLaw }
{}

/// States that a new line-up leaves all bytes before it as they are.
pub fn joined()
    ensures { JoinedLaw }
{}

/// States that a PID of a line-up before carries nothing any more, if the line-up in force does not have it; and that
/// its stream keeps all that it was promised, if no unit of it was left then.
pub fn gone()
    ensures pid { GoneLaw }
    ensures stream { GoneStreamLaw }
{}

/// States that line-ups which follow one another still do so after one more unit, slot or change of texts.
pub fn goes_on()
    ensures { GoesOnLaw }
{}

/// States that a line-up which takes the place of the one in force follows it, if no line-up before had a PID that
/// comes.
pub fn follows()
    ensures { FollowsLaw }
{}
