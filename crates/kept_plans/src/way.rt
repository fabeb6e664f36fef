//! The program that is in the way of a plan.

ghost use Rattle.std.specs.Prelude.{◌≡◌, ◌<◌, IfOk, IfSome, length};
ghost use Rattle.kept_plans.specs.Kept as spec;

use crate::search::kept_plan;
use plan_checker::CheckedPlan;
use slot_plan::Description;
use std::alloc::{AllocError, Allocator};

/// Returns the place of the first program with which a plan is found that serves the description and keeps all slots but
/// those of this program; none if no program helps.
pub fn program_in_the_way<A: Allocator + Clone>(
    alloc: &A,
    old: &CheckedPlan<A>,
    description: &Description,
) -> Result<Option<usize>, AllocError>
    ensures { IfOk result (λ found. IfSome found (spec.IsInTheWay old.now description.now)) }
{
    for place in 0..description.programs().len() {
        if kept_plan(alloc, old, description, Some(place))?.is_some() {
            return Ok(Some(place));
        }
    }
    Ok(None)
}
