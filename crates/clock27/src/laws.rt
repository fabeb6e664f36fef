//! Laws of the times of bytes. Each is a function that does nothing: its contract is the law, over
//! the definitions of `specs/` alone, and a caller may cite it.
ghost use Rattle.clock27.specs.Peak.{PeakLaw, ArrivalsClimb, DeparturesClimb};
ghost use Rattle.clock27.specs.Laws.{DeparturesLaw, LastLaw, LengthLaw, PacketLaw, RisingLaw, EarliestLaw, RowLaw};
ghost use Rattle.clock27.specs.Laws.{FullnessLaw, FullnessBound, FullnessBefore, FullnessAfter, RoomLaw};
ghost use Rattle.clock27.specs.Laws.{TandemLaw, SecondLaw, ScaleLaw, ArrivalsScaleLaw, FullnessScaleLaw};
ghost use Rattle.clock27.specs.Laws.{LimitLaw, ReleaseLaw};

/// States when bytes leave that arrive in two parts.
pub fn departures()
    ensures appended { DeparturesLaw }
    ensures last { LastLaw }
    ensures len { LengthLaw }
    ensures rising { RisingLaw }
    ensures earliest { EarliestLaw }
{}

/// States the last departure of bytes that arrive in a row.
pub fn packet()
    ensures last { PacketLaw }
    ensures row { RowLaw }
{}

/// States the fullness of a buffer: the number of bytes in it.
pub fn fullness()
    ensures appended { FullnessLaw }
    ensures bound { FullnessBound }
    ensures before { FullnessBefore }
    ensures after { FullnessAfter }
    ensures room { RoomLaw }
{}

/// States the greatest fullness of a buffer over all moments: one pass over the arrivals.
pub fn peak()
    ensures fullness { PeakLaw }
    ensures arrivals { ArrivalsClimb }
    ensures departures { DeparturesClimb }
{}

/// States two queues, the second after the first and no faster.
pub fn tandem()
    ensures departures { TandemLaw }
    ensures fullness { SecondLaw }
{}

/// States times in smaller units.
pub fn scale()
    ensures departures { ScaleLaw }
    ensures arrivals { ArrivalsScaleLaw }
    ensures fullness { FullnessScaleLaw }
{}

/// States recurrence within a limit.
pub fn recurrence()
    ensures { LimitLaw }
{}

/// States the slot of a release.
pub fn release()
    ensures { ReleaseLaw }
{}
