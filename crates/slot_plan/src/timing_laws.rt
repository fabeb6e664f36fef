//! From the conditions on one period to all time.

ghost use Rattle.slot_plan.specs.Promised.{PlanLaw, SwitchLaw};

/// States that a plan whose conditions hold, repeated for all time, keeps every promise of its description.
pub fn accepted_plan()
    ensures { PlanLaw }
{
    crate::laws::own_slots();
}

/// States the same for two plans whose conditions hold by themselves and together, the first for any number of its
/// periods, then the second for all time.
pub fn accepted_switch()
    ensures { SwitchLaw }
{
    crate::laws::own_slots();
}
