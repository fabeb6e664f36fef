//! Laws of plans and of their text, about the definitions alone.

ghost use Rattle.slot_plan.specs.PlanTexts.{ReadsExactly, OneText};
ghost use Rattle.slot_plan.specs.Schedule.{OwnedLaw};
ghost use Rattle.slot_plan.specs.SlotPids.{SlotsApartLaw, SlotsBelowLaw};

/// States that a plan is read exactly if a text begins with its text, and that text is the plan's only one.
pub fn plan_text()
    ensures exact { ReadsExactly }
    ensures one_text { OneText }
{}

/// States that an item's own slots over a run are the own slots of its plan's period, repeated; over two plans, the own
/// slots of both, joined.
pub fn own_slots()
    ensures { OwnedLaw }
{}

/// States that slots of two parts of a description have two PIDs, and that no slot has the null packets' PID.
pub fn slot_pids()
    ensures apart { SlotsApartLaw }
    ensures below { SlotsBelowLaw }
{}
