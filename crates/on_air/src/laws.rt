//! Laws of the definitions. Each function does nothing: its contract is the law.

ghost use Rattle.on_air.specs.EndlessRuns.{EndlessInput, EndlessRecords};
ghost use Rattle.on_air.specs.Laws.{TakenInTime, AiredInOrder, AiredAsMultiplexed, LeapFollowed, LeapMovesOn};
ghost use Rattle.on_air.specs.Laws.{LineUpsKept, NearIsJudgedAlone};

/// States that a unit that a stream accepts before the first slot is also accepted later, if no slot from its release
/// on is written.
pub fn taken_in_time()
    ensures { TakenInTime }
{}

/// States that all units of a multiplexed job, in order, are accepted on air, whatever ticks are among them that are
/// in order with each later unit: no unit is late, and each finds room.
pub fn aired_in_order()
    ensures { AiredInOrder }
{}

/// States that the aired bytes are the multiplexed bytes of the whole job, if no unit is refused, in order or not.
pub fn aired_as_multiplexed()
    ensures { AiredAsMultiplexed }
{}

/// States that among nine records in a row whose stamps are near one another, not all are too far ahead, whatever came
/// before: a feed whose stamps agree is never refused for ever for being ahead.
pub fn leap_followed()
    ensures { LeapFollowed }
{}

/// States that a run continues from the DTS of a record that it follows, after the slots that this DTS settles.
pub fn leap_moves_on()
    ensures { LeapMovesOn }
{}

/// States that, after any input, a record that is near the greatest DTS so far is refused for nothing but itself and
/// the units of its stream: neither for its time nor for the room.
pub fn near_is_judged_alone()
    ensures { NearIsJudgedAlone }
{}

/// States that in a run without end, after any records, exactly the slots that the greatest DTS settles are written,
/// and their bytes keep every promise; what was written, accepted and refused stays, whatever records come later.
pub fn endless()
    ensures records { EndlessRecords }
    ensures input { EndlessInput }
{}

/// States that all bytes written so far, under whatever line-ups, keep the promises.
pub fn line_ups_kept()
    ensures { LineUpsKept }
{}
