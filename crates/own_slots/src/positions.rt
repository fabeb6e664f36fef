//! The slot of each own slot number.

ghost use Rattle.own_slots.specs.Slots.{ListLaw};
ghost use Rattle.own_slots.specs.Period.{PositionsLaw, BackLaw};

/// States that own slot number i (from 0, over all time) of a repeated period is slot `position marks i`, and the
/// slot has i own slots before it. At least one slot of the period is the item's own.
pub fn own_slot_numbers()
    ensures { PositionsLaw }
{}

/// States that the list of the own slots among the next n slots from slot s on rises, has own slots alone, and
/// none before s.
pub fn own_slot_list()
    ensures { ListLaw }
{}

/// States that an own slot that is the x-th from the end of y periods, counted back, is `back marks x` slots
/// before that end, whichever y is taken: so positions go on below slot 0.
pub fn own_slots_before_the_begin()
    ensures { BackLaw }
{}
