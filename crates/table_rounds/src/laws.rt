//! Laws of the definitions. Each function does nothing: its contract is the law.
ghost use Rattle.table_rounds.specs.Payloads.{TableCarriedLaw, BeginsLaw, PartFitsLaw};
ghost use Rattle.table_rounds.specs.Laws.{FirstCarouselLaw, SilentCarouselLaw, TableSlotLaw, OtherTableSlotLaw, PlaceLaw, PlaceFoundLaw};

/// States that a new state represents its table before slot 0.
pub fn first_carousel()
    ensures { FirstCarouselLaw }
{}

/// States that the state of a table that comes on air, at the place where it would be, represents the table.
pub fn silent_carousel()
    ensures { SilentCarouselLaw }
{}

/// States that the state gives, at an own slot, what the table carries there, and represents the table in the next
/// slot.
pub fn own_slot()
    ensures { TableSlotLaw }
{}

/// States that in a slot that is not the table's the state stays as it is.
pub fn other_slot()
    ensures { OtherTableSlotLaw }
{}

/// States that part q of a section is in place q after the places of the sections before it.
pub fn places()
    ensures { PlaceLaw }
{}

/// States that each place of a round has one part of one section.
pub fn place_found()
    ensures { PlaceFoundLaw }
{}

/// States that the packets of a table carry, in the bytes of an output, the parts of its sections in their places, with
/// counters that count on.
pub fn table_carried()
    ensures { TableCarriedLaw }
{}

/// States that what an own slot carries can be a packet.
pub fn part_fits()
    ensures { PartFitsLaw }
{}

/// States that in the bytes of an output a section begins in each slot that is its first place.
pub fn begins()
    ensures { BeginsLaw }
{}
