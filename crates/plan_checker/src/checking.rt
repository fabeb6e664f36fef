//! Whether a plan serves a description.

ghost use Rattle.std.specs.Prelude.{◌≡◌, IfOk, IfErr, drop, map, option_map, slice_get, take};
ghost use Rattle.slot_plan.specs.Entries.{first_failing};
ghost use Rattle.slot_plan.specs.Conditions.{entries};
ghost use Rattle.plan_checker.specs.Failing.{after, asked_entries, failing, search_of};
ghost use Rattle.plan_checker.specs.Refusals.{entry_of, refusal_of};

use crate::checked_plan::CheckedPlan;
use crate::failure_search::{FailureSearch, WINDOW};
use crate::refusal::Refusal;
use crate::shape::{is_shaped, shape};
use crate::timing::timing;
use arrayvec::ArrayVec;
use slot_plan::{Description, Plan};
use std::alloc::{AllocError, Allocator};

/// Continues a search through the conditions of a plan for a description: the conditions of its shape, or, if these
/// hold, the conditions of its timing.
fn search_conditions<A: Allocator>(
    description: &Description,
    plan: &Plan<A>,
    search: &mut FailureSearch,
)
    ensures { search_of search.new ≡ after (search_of search.old) (asked_entries description.now plan.now) }
{
    if is_shaped(description, plan) {
        timing(description, plan, search);
    } else {
        shape(description, plan, search);
    }
}

/// Returns the first condition that a plan for a description does not keep.
pub fn first_failing<A: Allocator>(description: &Description, plan: &Plan<A>) -> Option<Refusal>
    ensures { option_map entry_of result ≡ first_failing (entries description.now plan.now) }
{
    let mut search = FailureSearch::new(0, 1);
    search_conditions(description, plan, &mut search);
    search.first()
}

/// Returns the conditions that a plan for a description does not keep, from a number on, which counts from 0: as many
/// as one search keeps.
fn failing_from<A: Allocator>(
    description: &Description,
    plan: &Plan<A>,
    number: usize,
) -> ArrayVec<Refusal, 1024>
    ensures { map entry_of result.items ≡ take 1024 (drop number (failing description.now plan.now)) }
{
    let mut search = FailureSearch::new(number, WINDOW);
    search_conditions(description, plan, &mut search);
    search.found
}

/// Returns each condition that a plan for a description does not keep, in their order: [`check`] refuses the plan with
/// the first. One walk over the plan finds 1,024 of them.
pub fn failing<A: Allocator>(
    alloc: A,
    description: &Description,
    plan: &Plan<A>,
) -> Result<Vec<Refusal, A>, AllocError>
    ensures each { IfOk result (λ found. map entry_of found.items ≡ failing description.now plan.now) }
    ensures first { IfOk result (λ found. slice_get (map entry_of found.items) 0
        ≡ first_failing (entries description.now plan.now)) }
{
    let mut found = Vec::new(alloc);
    'windows: loop {
        let more = failing_from(description, plan, found.len());
        found.extend_from_slice(more.as_slice())?;
        if !more.is_full() {
            return Ok(found);
        }
    }
}

/// Returns the plan as a checked plan, if it keeps every condition. Otherwise returns the first condition that it does
/// not keep, by its number, then its item and part (of the shape: by part, then item), with its two numbers, and hands
/// both back.
pub fn check<A: Allocator>(
    description: Description,
    plan: Plan<A>,
) -> Result<CheckedPlan<A>, (Refusal, Description, Plan<A>)>
    ensures refusal { refusal_of result ≡ first_failing (entries description plan) }
    ensures checked { IfOk result (λ c. c ≡ record { description = description; plan = plan }) }
    ensures handed_back { IfErr result (λ e. (e.1 ≡ description) × (e.2 ≡ plan)) }
{
    match first_failing(&description, &plan) {
        None => Ok(CheckedPlan { description, plan }),
        Some(refusal) => Err((refusal, description, plan)),
    }
}
