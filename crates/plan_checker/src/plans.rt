//! The plans that conditions are about, with the description that they are to serve.

ghost use Rattle.slot_plan.specs.Shape.{IsShaped};

use slot_plan::{Description, Plan};
use std::alloc::Allocator;

/// A plan of any shape.
#[derive(Drop)]
pub struct AnyPlan<'a, A: Allocator> {
    pub description: &'a Description,
    pub plan: &'a Plan<A>,
}

/// A plan of good shape.
#[derive(Drop)]
pub struct ShapedPlan<'a, A: Allocator> {
    pub description: &'a Description,
    pub plan: &'a Plan<A>,
    pub ghost shaped: { IsShaped description.now plan.now },
}
