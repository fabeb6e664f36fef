//! Laws of a transport buffer. Each is a function that does nothing: its contract is the law, over the definitions of
//! `specs/` alone, and a caller may cite it.
ghost use Rattle.tstd_rows.specs.TransportLaws.{EnteredLaw, LevelLaw, MostLaw, RowRises, RisesAppended, OverLaw, FullLaw};

/// States that bytes that enter row by row enter in turn, and what the state says of them.
pub fn fullness()
    ensures appended { EnteredLaw }
    ensures level { LevelLaw }
    ensures most { MostLaw }
{}

/// States that times rise: the times of a row, and the times of parts in turn.
pub fn rising()
    ensures row { RowRises }
    ensures appended { RisesAppended }
{}

/// States the begin and end of an excess.
pub fn excesses()
    ensures over { OverLaw }
    ensures full { FullLaw }
{}
