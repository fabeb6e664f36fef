//! A plan that keeps every condition.

ghost use Rattle.std.specs.Prelude.{◌≡◌};
ghost use Rattle.slot_plan.specs.Conditions.{IsServing};

use slot_plan::{Description, Plan};
use std::alloc::{Allocator, Global};
use std::marker::Model;

/// A description and a plan that serves it: the two keep every condition.
#[derive(Drop)]
pub struct CheckedPlan<A: Allocator = Global> {
    pub(crate) description: Description,
    pub(crate) plan: Plan<A>,
}

impl<A: Allocator> Model for CheckedPlan<A> {
    ghost use Rattle.slot_plan.specs.Conditions.{IsServing};
    ghost use Rattle.plan_checker.specs.Served.{Served};

    ghost Value = { Served };

    ghost view = { λ c. record { description = c.description; plan = c.plan } };

    ghost invariant = { λ c. IsServing c.description c.plan };
}

impl<A: Allocator> CheckedPlan<A> {
    /// Returns what the plan serves.
    pub fn description(&self) -> &Description
        ensures description { result.now ≡ self.now.description }
        ensures serving { IsServing self.now.description self.now.plan }
    {
        &self.description
    }

    /// Returns the plan that serves it.
    pub fn plan(&self) -> &Plan<A>
        ensures plan { result.now ≡ self.now.plan }
        ensures serving { IsServing self.now.description self.now.plan }
    {
        &self.plan
    }
}
