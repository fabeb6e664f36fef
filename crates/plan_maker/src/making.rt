//! A plan that serves a description.

ghost use Rattle.std.specs.Prelude.{◌≡◌, IfOk, IfErr, false};
ghost use Rattle.plan_maker.specs.PlainPlan.{plain_plan, serves};
ghost use Rattle.plan_maker.specs.Failures.{Fails};
ghost use Rattle.plan_maker.specs.Searches.{NoneServes};
ghost use Rattle.plan_maker.specs.declared.making.MakeError.TheVariants.{NotFound};

use crate::plain::plain_plan;
use crate::search::period_plan;
use plan_checker::{CheckedPlan, check};
use slot_plan::{Description, Plan};
use std::alloc::{AllocError, Allocator};
use thiserror::Error;

/// Why no plan is given.
#[derive(Clone, Copy, Debug, PartialEq, Eq, Error)]
pub enum MakeError {
    #[error("no plan found")]
    NotFound,
    #[error("out of memory")]
    Memory,
}

impl MakeError {
    ghost use Rattle.plan_maker.specs.Codes.{code_of};

    /// Returns the number of the error: 1 if no plan is found; out of memory has no number.
    pub fn code(self) -> Option<u8>
        ensures { result ≡ code_of self }
    {
        match self {
            MakeError::NotFound => Some(1),
            MakeError::Memory => None,
        }
    }
}

/// The least time in ms between two sections of a sub-table (EN 300 468, 5.1.4).
const SECTION_DISTANCE: u64 = 25;

/// The periods that are tried, in slots.
const PERIODS: [u64; 9] = [256, 512, 1_024, 2_048, 4_096, 8_192, 16_384, 32_768, 65_536];

/// Returns the plan as a plan that serves the description, if there is a plan and it does.
fn served<A: Allocator>(
    description: Description,
    plan: Result<Option<Plan<A>>, AllocError>,
) -> Result<CheckedPlan<A>, (MakeError, Description)>
    ensures served { IfOk result (λ c. c.description ≡ description) }
    ensures not_found { IfErr result (λ e. e.0 ≡ NotFound → Fails description plan) }
    ensures handed_back { IfErr result (λ e. e.1 ≡ description) }
{
    match plan {
        Err(_) => Err((MakeError::Memory, description)),
        Ok(None) => Err((MakeError::NotFound, description)),
        Ok(Some(plan)) => match check(description, plan) {
            Ok(checked) => Ok(checked),
            Err((_, description, _)) => Err((MakeError::NotFound, description)),
        },
    }
}

/// Returns the plan of the shortest period whose plan serves the description, with `distance` ms between packets of
/// service information if even spacing gives that.
fn searched<A: Allocator + Clone>(
    alloc: &A,
    description: Description,
    distance: u64,
) -> Result<CheckedPlan<A>, (MakeError, Description)>
    ensures served { IfOk result (λ c. c.description ≡ description) }
    ensures not_found { IfErr result (λ e. e.0 ≡ NotFound → NoneServes description distance) }
    ensures handed_back { IfErr result (λ e. e.1 ≡ description) }
{
    let mut description = description;
    for period in PERIODS {
        let plan = period_plan(alloc, &description, period, distance);
        match served(description, plan) {
            Ok(checked) => return Ok(checked),
            Err((MakeError::Memory, back)) => return Err((MakeError::Memory, back)),
            Err((MakeError::NotFound, back)) => description = back,
        }
    }
    Err((MakeError::NotFound, description))
}

/// Returns a plan that serves the description, as the plan checker says. The search is earliest deadline first, in
/// periods of 256 to 65,536 slots: first with 25 ms between packets of service information, then without. The last plan
/// tried is the plain plan. So none is found only if no period has a plan that serves, either way, and the plain plan
/// is missing or refused. The description is handed back with each error.
pub fn make<A: Allocator + Clone>(
    alloc: A,
    description: Description,
) -> Result<CheckedPlan<A>, (MakeError, Description)>
    ensures served { IfOk result (λ c. c.description ≡ description) }
    ensures none_apart { IfErr result (λ e. e.0 ≡ NotFound → NoneServes description 25) }
    ensures none_close { IfErr result (λ e. e.0 ≡ NotFound → NoneServes description 0) }
    ensures not_found { IfErr result (λ e. e.0 ≡ NotFound → serves description (plain_plan description) ≡ false) }
    ensures handed_back { IfErr result (λ e. e.1 ≡ description) }
{
    let description = match searched(&alloc, description, SECTION_DISTANCE) {
        Ok(checked) => return Ok(checked),
        Err((MakeError::Memory, back)) => return Err((MakeError::Memory, back)),
        Err((MakeError::NotFound, back)) => back,
    };
    let description = match searched(&alloc, description, 0) {
        Ok(checked) => return Ok(checked),
        Err((MakeError::Memory, back)) => return Err((MakeError::Memory, back)),
        Err((MakeError::NotFound, back)) => back,
    };
    let plan = plain_plan(alloc, &description);
    served(description, plan)
}
