//! A part of an item's own slots.

ghost use Rattle.own_slots.specs.Parts.{PartLaw};

/// States that the slots of a part rise through the item's own slots, if each of them is the item's own.
pub fn part_rises()
    ensures { PartLaw }
{}
