//! Two plans that conditions are about, with the description that they are to serve.

ghost use Rattle.std.specs.Prelude.{◌≡◌, None};
ghost use Rattle.slot_plan.specs.Conditions.{stream_leads};
ghost use Rattle.slot_plan.specs.Entries.{first_failing};
ghost use Rattle.slot_plan.specs.Shape.{IsShaped};

use slot_plan::{Description, Plan};
use std::alloc::Allocator;

/// Two plans of good shape that both keep the deadlines of their streams.
#[derive(Drop)]
pub struct PlanPair<'a, A: Allocator> {
    pub description: &'a Description,
    pub first: &'a Plan<A>,
    pub second: &'a Plan<A>,
    pub ghost shaped: { IsShaped description.now first.now },
    pub ghost next_shaped: { IsShaped description.now second.now },
    pub ghost led: { first_failing (stream_leads description.now first.now) ≡ None },
    pub ghost next_led: { first_failing (stream_leads description.now second.now) ≡ None },
}
