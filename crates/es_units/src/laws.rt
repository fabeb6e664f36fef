//! Laws of the definitions. Each function does nothing: its contract is the law.

ghost use Rattle.es_moments.specs.ApartUnits.{ApartKeep, ApartStay, RowRises, SoundStay};
ghost use Rattle.es_moments.specs.RisingDts.{SoundKeep};
ghost use Rattle.es_units.specs.Laws.{FindingsOfThePid, MovedInTurn};
ghost use Rattle.es_units.specs.Laws.{NothingIsLost, TakenOneByOne, UnitsAreKept};
ghost use Rattle.es_units.specs.UnitSteps.{GivenAreCarried, GivenInTurn, UncutAreCarried};
ghost use Rattle.es_moments.specs.Stamps.{ConstantIsLeast, MovedByOneConstant};

/// States that the units of a PID are a function of that PID's findings.
pub fn findings_of_the_pid()
    ensures { FindingsOfThePid }
{}

/// States that the units that a PID's findings make whole one by one, with the last unit, are the units of the PID;
/// later findings change no unit given before; and if nothing is lost after a unit, the same units are given whether a
/// unit may have several PES packets or not.
pub fn given_as_carried()
    ensures in_turn { GivenInTurn }
    ensures carried { GivenAreCarried }
    ensures uncut { UncutAreCarried }
{}

/// States that the bytes of a PID's PES packets, joined, are the bytes of its units, joined, if no warning leaves
/// anything out.
pub fn nothing_is_lost()
    ensures { NothingIsLost }
{}

/// States that units of a data stream that are due at one moment are decoded one after another, up to 63 units of 90
/// kHz earlier: all but their DTS is kept, and nothing changes if no two units in a row have one DTS, as in streams
/// whose stamps can be moments.
pub fn apart_by_one()
    ensures keep { ApartKeep }
    ensures stay { ApartStay }
    ensures sound { SoundStay }
    ensures apart { RowRises }
{}

/// States that no DTS are made of units whose stamps can be moments.
pub fn sound_dts_are_kept()
    ensures { SoundKeep }
{}

/// States that the moments of a stream's units are their stamps less one constant: plus that, modulo 2^33, they are the
/// stamps.
pub fn moved_by_one_constant()
    ensures { MovedByOneConstant }
{}

/// States that units that are moved as they come have the moments that they have in the whole stream.
pub fn moved_in_turn()
    ensures { MovedInTurn }
{}

/// States that, with the constant of a clock, the least first DTS of its streams is at the moment that was asked for,
/// and each other one is as long after it as on the wire.
pub fn constant_is_least()
    ensures { ConstantIsLeast }
{}

/// States that units whose stamps can be moments keep their declaration.
pub fn units_are_kept()
    ensures { UnitsAreKept }
{}

/// States that a queue refuses none of them, in their order, before its first slot.
pub fn taken_one_by_one()
    ensures { TakenOneByOne }
{}
