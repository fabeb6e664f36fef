//! The search: what comes is placed into free slots, by the earliest deadline first.

ghost use Rattle.std.specs.Prelude.{◌≡◌, ◌≤◌, true, None, IfOk, IfSome, length};
ghost use Rattle.slot_plan.specs.Conditions.{IsServing};
ghost use Rattle.kept_plans.specs.Kept as spec;
ghost use Rattle.kept_plans.specs.Kept.{has_contents, keeps_slots};

use crate::fixed_slots::{fixed_slots, has_contents, is_given_up};
use line_ups::{slot_by, slot_pids};
use plan_checker::CheckedPlan;
use plan_checker::checking::first_failing;
use plan_maker::{
    Demand, PlacementTask, add_slots, demands, first_open, next_slot, plan_of, tasks_of,
};
use slot_plan::{Description, Plan, Slot};
use std::alloc::{AllocError, Allocator};

/// The least slots of a period: a longer one leaves more choice.
const SHORTEST: usize = 2_048;

/// The most slots of a period.
const LONGEST: usize = 65_536;

/// How many times the shortest period is taken, in turn.
const LENGTHS: [usize; 3] = [1, 2, 4];

/// The phases that are tried in a period.
const PHASES: u64 = 4;

/// The number of times that own slots are added in one period before another one is tried.
const TRIES: usize = 12;

/// The least time in ms between two sections of a sub-table (EN 300 468, 5.1.4).
const SECTION_DISTANCE: u64 = 25;

// Places tasks into the free slots of a period. Returns all slots, or the number of a task that misses one.
fn place_around<A: Allocator>(
    alloc: A,
    fixed: &[Slot],
    tasks: &mut [PlacementTask],
) -> Result<Result<Vec<Slot, A>, usize>, AllocError>
    ensures { IfOk result (λ found. IfOk found (λ slots. length slots.items ≡ length fixed.now)) }
{
    let period = fixed.len() as u64;
    let mut slots = Vec::new(alloc);
    for at in 0..fixed.len() {
        match slot_around(fixed[at], tasks, at as u64, period) {
            Ok(slot) => slots.push(slot)?,
            Err(missed) => return Ok(Err(missed)),
        }
    }
    match first_open(tasks) {
        None => Ok(Ok(slots)),
        Some(missed) => Ok(Err(missed)),
    }
}

// Returns the content of one slot: what is fixed there, otherwise that of the most urgent task. An error is a task that
// misses its slot.
fn slot_around(
    fixed: Slot,
    tasks: &mut [PlacementTask],
    at: u64,
    period: u64,
) -> Result<Slot, usize> {
    match fixed {
        Slot::Null => next_slot(tasks, at, period),
        slot => Ok(slot),
    }
}

// Tries to place what comes. Returns all slots, or the number of an item that misses one.
fn attempt<A: Allocator + Clone>(
    alloc: A,
    fixed: &[Slot],
    demands: &[Demand<'_>],
) -> Result<Result<Vec<Slot, A>, usize>, AllocError>
    requires { length fixed.now ≤ 65536 }
    ensures { IfOk result (λ found. IfOk found (λ slots. length slots.items ≡ length fixed.now)) }
{
    match tasks_of(alloc.clone()?, demands, fixed.len() as u64)? {
        Ok(tasks) => {
            let mut tasks = tasks;
            place_around(alloc, fixed, &mut tasks)
        }
        Err(missed) => Ok(Err(missed)),
    }
}

// Returns the slots of a period in which what comes has its slots, if a few tries find them.
fn tried_slots<A: Allocator + Clone>(
    alloc: A,
    fixed: &[Slot],
    demands: &mut [Demand<'_>],
) -> Result<Option<Vec<Slot, A>>, AllocError>
    requires { length fixed.now ≤ 65536 }
    ensures { IfOk result (λ found. IfSome found (λ slots. length slots.items ≡ length fixed.now)) }
{
    for _ in 0..TRIES {
        match attempt(alloc.clone()?, fixed, demands)? {
            Ok(slots) => return Ok(Some(slots)),
            Err(missed) => {
                if !add_slots(demands, missed, fixed.len() as u64) {
                    return Ok(None);
                }
            }
        }
    }
    Ok(None)
}

// Returns the demand with windows that begin later, by a part of what sets two items of its kind apart.
fn in_phase(demand: Demand<'_>, phase: u64) -> Demand<'_> {
    Demand {
        number: demand.number.saturating_mul(PHASES).saturating_add(phase),
        kind: demand.kind.saturating_mul(PHASES),
        ..demand
    }
}

// Returns the demands of what comes, or is given up, in this phase.
fn coming<'a, A: Allocator, B: Allocator>(
    alloc: A,
    old: &CheckedPlan<B>,
    description: &Description,
    given: Option<usize>,
    demands: &[Demand<'a>],
    phase: u64,
) -> Result<Vec<Demand<'a>, A>, AllocError> {
    let listed = slot_pids(old.description());
    let mut coming = Vec::new(alloc);
    for demand in demands {
        let before = slot_by(
            old.description(),
            listed.as_slice(),
            description,
            demand.slot,
        );
        if before == Slot::Null || is_given_up(description, given, demand.slot) {
            coming.push(in_phase(*demand, phase))?;
        }
    }
    Ok(coming)
}

// Returns a plan of a period of as many slots as are fixed, if one is found that serves and keeps them.
fn plan_around<A: Allocator + Clone>(
    alloc: &A,
    description: &Description,
    fixed: &[Slot],
    demands: &mut [Demand<'_>],
) -> Result<Option<Plan<A>>, AllocError>
    requires { length fixed.now ≤ 65536 }
    ensures serving { IfOk result (λ found. IfSome found (λ plan. IsServing description.now plan)) }
    ensures kept { IfOk result (λ found. IfSome found (λ plan. has_contents fixed.now plan.slots ≡ true)) }
    ensures length { IfOk result (λ found. IfSome found (λ plan. length plan.slots ≡ length fixed.now)) }
{
    let Some(slots) = tried_slots(alloc.clone()?, fixed, demands)? else {
        return Ok(None);
    };
    let Some(plan) = plan_of(alloc, description, slots)? else {
        return Ok(None);
    };
    Ok(if_good(description, fixed, plan))
}

// Returns the plan if it serves, and each fixed slot has its content.
fn if_good<A: Allocator>(
    description: &Description,
    fixed: &[Slot],
    plan: Plan<A>,
) -> Option<Plan<A>>
    requires { length plan.slots ≡ length fixed.now }
    ensures serving { IfSome result (λ plan. IsServing description.now plan) }
    ensures kept { IfSome result (λ plan. has_contents fixed.now plan.slots ≡ true) }
    ensures length { IfSome result (λ plan. length plan.slots ≡ length fixed.now) }
{
    if !has_contents(fixed, plan.slots()) {
        return None;
    }
    match first_failing(description, &plan) {
        None => Some(plan),
        Some(_) => None,
    }
}

// Returns a plan of a period in one phase, if one is found.
fn plan_in<A: Allocator + Clone>(
    alloc: &A,
    old: &CheckedPlan<A>,
    description: &Description,
    given: Option<usize>,
    period: usize,
    phase: u64,
) -> Result<Option<Plan<A>>, AllocError>
    requires { period ≤ 65536 }
    ensures serving { IfOk result (λ found. IfSome found (λ plan. IsServing description.now plan)) }
    ensures kept { IfOk result (λ found. IfSome found
        (λ plan. keeps_slots old.now description.now given plan.slots ≡ true)) }
{
    let fixed = fixed_slots(alloc.clone()?, old, description, given, period)?;
    let Some(all) = demands(alloc.clone()?, description, period as u64, SECTION_DISTANCE)? else {
        return Ok(None);
    };
    let mut coming = coming(alloc.clone()?, old, description, given, &all, phase)?;
    plan_around(alloc, description, &fixed, &mut coming)
}

// Returns a plan of a period, if one is found in any phase.
fn plan_of_period<A: Allocator + Clone>(
    alloc: &A,
    old: &CheckedPlan<A>,
    description: &Description,
    given: Option<usize>,
    period: usize,
) -> Result<Option<Plan<A>>, AllocError>
    requires { period ≤ 65536 }
    ensures serving { IfOk result (λ found. IfSome found (λ plan. IsServing description.now plan)) }
    ensures kept { IfOk result (λ found. IfSome found
        (λ plan. keeps_slots old.now description.now given plan.slots ≡ true)) }
{
    for phase in 0..PHASES {
        let found = plan_in(alloc, old, description, given, period, phase)?;
        if found.is_some() {
            return Ok(found);
        }
    }
    Ok(None)
}

// Returns the shortest period: that of the plan on air, as often as 2,048 slots ask for.
fn shortest_period(on_air: usize) -> usize {
    if on_air == 0 {
        return SHORTEST;
    }
    on_air.saturating_mul(SHORTEST.div_ceil(on_air))
}

/// Returns a plan that serves the description, and in which what the line-up on air has keeps its slots, except the
/// program at the place `given`, if there is one; none if the search finds none. It tries one, two and four times the
/// shortest period that has at least 2,048 slots and is a number of times the period on air.
pub fn kept_plan<A: Allocator + Clone>(
    alloc: &A,
    old: &CheckedPlan<A>,
    description: &Description,
    given: Option<usize>,
) -> Result<Option<Plan<A>>, AllocError>
    ensures serving { IfOk result (λ found. IfSome found (λ plan. IsServing description.now plan)) }
    ensures kept { IfOk result (λ found. IfSome found
        (λ plan. keeps_slots old.now description.now given plan.slots ≡ true)) }
{
    let shortest = shortest_period(old.plan().slots().len());
    for times in LENGTHS {
        let period = shortest.saturating_mul(times);
        if period <= LONGEST {
            let found = plan_of_period(alloc, old, description, given, period)?;
            if found.is_some() {
                return Ok(found);
            }
        }
    }
    Ok(None)
}
