//! Laws of the definitions. Each function does nothing: its contract is the law.

ghost use Rattle.es_feed.specs.DamagedReferences.{DamageMovesNothing};
ghost use Rattle.es_feed.specs.EachStream.{EachRises, FedByOneConstant, ReleasesRise};
ghost use Rattle.es_feed.specs.Laws.{FedAsCarried, FedWithoutClock};
ghost use Rattle.es_feed.specs.MovedApart.{FedApart};
ghost use Rattle.es_feed.specs.StreamFeeding.{FedIsBeginning};
ghost use Rattle.fed_streams.specs.Ticks.{TicksArePast};
ghost use Rattle.fed_streams.specs.Feeding.{FedInTurn};

/// States that what later findings feed comes after what was fed before, and changes none of it.
pub fn fed_in_turn()
    ensures { FedInTurn }
{}

/// States that the units that one stream feeds from findings that end are the units that its PID carries, moved by the
/// constant that the first unit fixes, if each can have a moment. Beside them it reports only packets that are not
/// read.
pub fn fed_as_carried()
    ensures { FedAsCarried }
{}

/// States for all streams of a description at once, if the whole stream has no report: a stream whose units are one PES
/// packet each feeds the units that its PID carries, each with a DTS of its own if several data units in a row have
/// one, moved by one constant for all streams, whether the clock is known or not; with it the first unit of all is due
/// at `earliest`.
pub fn fed_by_one_constant()
    ensures { FedByOneConstant }
{}

/// States that the fed units of all streams of a description, if there is no report, are the units of their PIDs as any
/// constant moves them, with one time added to all stamps of all streams: as plain numbers, if the streams begin no
/// further apart than the first unit of all is due after moment 0, and each unit is one PES packet.
pub fn fed_apart()
    ensures { FedApart }
{}

/// States that the DTS of the units fed of one stream rise, whatever comes, and so none is released before the one
/// before it.
pub fn fed_in_order()
    ensures rise { EachRises }
    ensures release { ReleasesRise }
{}

/// States that packets feed what all their findings feed, if the clock's program is not known.
pub fn fed_without_clock()
    ensures { FedWithoutClock }
{}

/// States that a part of a stream feeds a beginning of what the whole stream feeds, however it continues.
pub fn fed_so_far()
    ensures { FedIsBeginning }
{}

/// States that each fed unit is due before a fed tick, and each current unit after it, even if the unit is set apart.
pub fn ticks_are_past()
    ensures { TicksArePast }
{}

/// States that after any clock reference without a discontinuity_indicator, wherever it points, and a next reference
/// that continues the clock, the constants and the clock are as without it. If it is far from the clock, all is as
/// without it, and units near the clock have the constant that they have without it; otherwise no constant changes, and
/// it moves time at most to the reference that it continues.
pub fn damage_moves_nothing()
    ensures { DamageMovesNothing }
{}
