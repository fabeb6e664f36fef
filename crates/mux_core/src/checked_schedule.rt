//! A description with the checked plans that serve it.

ghost use Rattle.std.specs.Prelude.{◌≡◌, IfSome, is_none, is_some};
ghost use Rattle.description_parts.specs.Ranges.{IsInRange};
ghost use Rattle.slot_plan.specs.Schedule.{slot_of, repeated, single, switched};
ghost use Rattle.slot_plan.specs.Promised.{Promised};
ghost use Rattle.mux_core.specs.Scheduled.{scheduled_of};

use plan_checker::CheckedPlan;
use slot_plan::{Description, Slot};
use std::alloc::{Allocator, Global};
use std::marker::Model;
use switch_checker::CheckedSwitch;

/// One plan over and over, or one plan for a number of its periods and then a second.
#[derive(Drop)]
pub(crate) enum CheckedPlans<A: Allocator = Global> {
    One(CheckedPlan<A>),
    Two(CheckedSwitch<A>, u64),
}

/// A description, and what each slot of a run carries. Its numbers are in their ranges, and the schedule keeps every
/// promise of the description, in runs of any length: the calls that make one say so.
#[derive(Drop)]
pub(crate) struct CheckedSchedule<A: Allocator = Global> {
    plans: CheckedPlans<A>,
}

impl<A: Allocator> Model for CheckedSchedule<A> {
    ghost use Rattle.mux_core.specs.Scheduled.{Scheduled, scheduled_of};

    ghost Value = { Scheduled };

    ghost view = { λ c. scheduled_of c.plans };
}

impl<A: Allocator> CheckedSchedule<A> {
    /// Returns one plan over and over.
    pub fn single(plan: CheckedPlan<A>) -> CheckedSchedule<A>
        ensures value { result ≡ record { description = plan.description; schedule = single plan.plan.slots } }
        ensures ranges { IsInRange result.description }
        ensures promised { Promised result.description result.schedule }
    {
        plan.description().keeps_ranges();
        let _ = plan.plan();
        slot_plan::timing_laws::accepted_plan();
        CheckedSchedule {
            plans: CheckedPlans::One(plan),
        }
    }

    /// Returns the first plan of a switch for a number of its periods, then the second.
    pub fn switched(switch: CheckedSwitch<A>, periods: u64) -> CheckedSchedule<A>
        ensures value { result ≡ record {
          description = switch.first.description;
          schedule = switched switch.first.plan.slots periods switch.second.slots;
        } }
        ensures ranges { IsInRange result.description }
        ensures promised { Promised result.description result.schedule }
    {
        switch.first().description().keeps_ranges();
        let _ = switch.first().plan();
        let _ = switch.second();
        slot_plan::timing_laws::accepted_switch();
        CheckedSchedule {
            plans: CheckedPlans::Two(switch, periods),
        }
    }

    /// Returns the description that the plans serve.
    pub fn description(&self) -> &Description
        ensures { result.now ≡ self.now.description }
    {
        match &self.plans {
            CheckedPlans::One(plan) => plan.description(),
            CheckedPlans::Two(switch, _) => switch.first().description(),
        }
    }

    /// Returns the plan with its description, if there is no second plan.
    pub fn plan(&self) -> Option<&CheckedPlan<A>>
        ensures alone { is_some result ≡ is_none self.now.schedule.following }
        ensures plan { IfSome result (λ plan. self.now ≡ record {
          description = plan.now.description;
          schedule = single plan.now.plan.slots;
        }) }
    {
        match &self.plans {
            CheckedPlans::One(plan) => Some(plan),
            CheckedPlans::Two(_, _) => None,
        }
    }

    /// Returns what slot `s` of the run carries.
    pub fn slot(&self, s: u64) -> Slot
        ensures { result ≡ slot_of self.now.schedule s }
    {
        match &self.plans {
            CheckedPlans::One(plan) => repeated(plan.plan().slots(), s),
            CheckedPlans::Two(switch, periods) => {
                let first = switch.first().plan().slots();
                let from = u128::from(*periods) * first.len() as u128;
                if u128::from(s) < from {
                    repeated(first, s)
                } else {
                    repeated(switch.second().slots(), s - from as u64)
                }
            }
        }
    }
}

// Returns what slot `s` of a repeated period carries.
fn repeated(slots: &[Slot], s: u64) -> Slot
    ensures { result ≡ repeated slots.now s }
{
    if slots.is_empty() {
        return Slot::Null;
    }
    slots[(s % slots.len() as u64) as usize]
}
