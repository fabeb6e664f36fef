//! Laws of a plan that serves a description, about the definitions alone.

ghost use Rattle.slot_plan.specs.ServingLaws.{SomeSlotLaw, NamedLaw, NamedInRunLaw, SecondLaw};

/// States that such a plan has a slot, each of its slots names an item that there is, in the period and in each slot of
/// a run, and a second plan that may follow a first serves by itself.
pub fn serving_plan()
    ensures some_slot { SomeSlotLaw }
    ensures named { NamedLaw }
    ensures named_in_run { NamedInRunLaw }
    ensures second { SecondLaw }
{}
