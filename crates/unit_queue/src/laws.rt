//! Laws of the definitions. Each function does nothing: its contract is the law.

ghost use Rattle.unit_queue.specs.Laws.{FirstLaw, StreamSlotLaw, OtherStreamSlotLaw, CauseLaw, FedLaw, KeptLaw};
ghost use Rattle.unit_queue.specs.Laws.{LaterUnitLaw};
ghost use Rattle.unit_queue.specs.Laws.{ContentLaw, CarriedLaw};

/// States that a new queue represents a stream that has accepted no unit.
pub fn first_unit()
    ensures { FirstLaw }
{}

/// States that a queue gives, in an own slot, the packet that the stream's units have there, and then represents one
/// slot more.
pub fn own_slot()
    ensures { StreamSlotLaw }
{}

/// States that a slot that is not the stream's own changes nothing.
pub fn other_slot()
    ensures { OtherStreamSlotLaw }
{}

/// States that a queue refuses a unit for the cause that its history has.
pub fn cause_of_refusal()
    ensures { CauseLaw }
{}

/// States that a queue represents one unit more after it accepts a unit.
pub fn accepted_unit()
    ensures { FedLaw }
{}

/// States that accepted units stay within what the stream declares.
pub fn kept_units()
    ensures { KeptLaw }
{}

/// States that an accepted unit changes nothing in the slots that are written.
pub fn later_unit()
    ensures { LaterUnitLaw }
{}

/// States that what an own slot carries can be a packet.
pub fn slot_contents()
    ensures { ContentLaw }
{}

/// States that, if a stream has its PID for itself, the finished bytes carry its units: counters, payloads in order,
/// none early, and the packets that the timing speaks of.
pub fn carried_units()
    ensures { CarriedLaw }
{}
