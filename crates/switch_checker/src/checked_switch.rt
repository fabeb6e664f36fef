//! Two plans. The second may follow the first.

ghost use Rattle.std.specs.Prelude.{◌≡◌};
ghost use Rattle.slot_plan.specs.SwitchConditions.{IsSwitchable};

use plan_checker::CheckedPlan;
use slot_plan::Plan;
use std::alloc::{Allocator, Global};
use std::marker::Model;

/// A plan that serves its description, and a second plan that serves it too and may follow the first at the end of any
/// of its periods: every condition holds, of each of the two and of the two together.
#[derive(Drop)]
pub struct CheckedSwitch<A: Allocator = Global> {
    pub(crate) first: CheckedPlan<A>,
    pub(crate) second: Plan<A>,
}

impl<A: Allocator> Model for CheckedSwitch<A> {
    ghost use Rattle.slot_plan.specs.SwitchConditions.{IsSwitchable};
    ghost use Rattle.switch_checker.specs.Followed.{Followed};

    ghost Value = { Followed };

    ghost view = { λ c. record { first = c.first; second = c.second } };

    ghost invariant = { λ c. IsSwitchable c.first.description c.first.plan c.second };
}

impl<A: Allocator> CheckedSwitch<A> {
    /// Returns the first plan, with the description that both serve.
    pub fn first(&self) -> &CheckedPlan<A>
        ensures first { result.now ≡ self.now.first }
        ensures switchable { IsSwitchable self.now.first.description self.now.first.plan self.now.second }
    {
        &self.first
    }

    /// Returns the plan that may follow it.
    pub fn second(&self) -> &Plan<A>
        ensures second { result.now ≡ self.now.second }
        ensures switchable { IsSwitchable self.now.first.description self.now.first.plan self.now.second }
    {
        &self.second
    }
}
