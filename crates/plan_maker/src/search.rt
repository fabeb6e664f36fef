//! The search for a plan of a period: each item with the least own slots that its conditions ask for, placed by the
//! earliest deadline first (`specs/Searches`). The plan checker decides whether what it finds serves.

pub mod demand;
pub mod numbers;
pub mod placement;
pub mod recurrence;
pub mod stream_rate;

ghost use Rattle.std.specs.Prelude.{◌≡◌, ◌≤◌, ◌<◌, OnOk, IfOk, IfSome, length, map, option_map};
ghost use Rattle.std.specs.Prelude.{Some, None, if◌then◌else◌};
ghost use Rattle.std.specs.Result.{result_map_both};
ghost use Rattle.plan_maker.specs.Certificates.{certificate_of};
ghost use Rattle.plan_maker.specs.Demands.{demand_view};
ghost use Rattle.plan_maker.specs.Searches as spec;

use crate::certificates::plan_of;
use demand::{Demand, demands, total};
use placement::{PlacementTask, place};
use slot_plan::{Description, Plan, Slot};
use std::alloc::{AllocError, Allocator};

/// The number of times that own slots are added in one period before a longer one is tried.
const TRIES: usize = 12;

/// Returns the placement tasks of all items, or the number of the first whose windows are too narrow.
pub fn tasks_of<A: Allocator>(
    alloc: A,
    demands: &[Demand<'_>],
    period: u64,
) -> Result<Result<Vec<PlacementTask, A>, usize>, AllocError>
    requires { period ≤ 65536 }
    ensures { IfOk result (λ found. result_map_both (λ tasks. tasks.items) (λ i. i) found
        ≡ spec.tasks_from period 0 (map demand_view demands.now)) }
{
    let mut tasks = Vec::new(alloc);
    for i in 0..demands.len() {
        match PlacementTask::new(&demands[i], period) {
            Some(task) => tasks.push(task)?,
            None => return Ok(Err(i)),
        }
    }
    Ok(Ok(tasks))
}

/// Tries to place the slots of the period. Returns None if all items have their slots, otherwise the number of an
/// item that misses one.
fn attempt<A: Allocator + Clone>(
    alloc: A,
    slots: &mut Vec<Slot, A>,
    demands: &[Demand<'_>],
    period: u64,
) -> Result<Option<usize>, AllocError>
    requires { period ≤ 65536 }
    ensures missing { IfOk result (λ missing. missing ≡ spec.missing_in period (map demand_view demands.now)) }
    ensures slots { OnOk result (slots.new.items ≡ spec.slots_in period (map demand_view demands.now)) }
    ensures length { OnOk result (length slots.new.items ≤ period) }
{
    slots.clear();
    match tasks_of(alloc, demands, period)? {
        Ok(tasks) => {
            let mut tasks = tasks;
            place(slots, &mut tasks, period)
        }
        Err(missed) => Ok(Some(missed)),
    }
}

/// Returns the demand with one own slot more, and a sixty-fourth of them.
fn with_more(demand: Demand<'_>) -> Demand<'_>
    ensures { demand_view result ≡ spec.with_more (demand_view demand.entry) }
{
    let more = demand.count / 64;
    Demand {
        count: demand.count.saturating_add(1).saturating_add(more),
        ..demand
    }
}

/// Adds own slots to an item that missed one, and returns whether that may help.
pub fn add_slots(demands: &mut [Demand<'_>], missed: usize, period: u64) -> bool
    ensures { (if result then Some (map demand_view demands.new) else None)
        ≡ spec.added period (map demand_view demands.old) missed }
{
    if demands.len() <= missed {
        return false;
    }
    let demand = demands[missed];
    if demand.need.is_full(period, demand.count) {
        return false;
    }
    demands[missed] = with_more(demand);
    true
}

/// Returns the slots of a period of that length for these demands, if a few tries find them.
fn tried_slots<A: Allocator + Clone>(
    alloc: A,
    demands: &mut [Demand<'_>],
    period: u64,
) -> Result<Option<Vec<Slot, A>>, AllocError>
    requires { period ≤ 65536 }
    ensures slots { IfOk result (λ slots. option_map (λ s. s.items) slots
        ≡ spec.found_in 12 period (map demand_view demands.old)) }
    ensures length { IfOk result (λ slots. IfSome slots (λ s. length s.items ≤ period)) }
{
    let mut slots = Vec::new(alloc.clone()?);
    for _ in 0..TRIES {
        if total(demands) > period {
            return Ok(None);
        }
        match attempt(alloc.clone()?, &mut slots, demands, period)? {
            None => return Ok(Some(slots)),
            Some(missed) => {
                if !add_slots(demands, missed, period) {
                    return Ok(None);
                }
            }
        }
    }
    Ok(None)
}

/// Returns the slots of a period of that length, if they are found.
fn period_slots<A: Allocator + Clone>(
    alloc: A,
    description: &Description,
    period: u64,
    distance: u64,
) -> Result<Option<Vec<Slot, A>>, AllocError>
    requires { period ≤ 65536 }
    ensures slots { IfOk result (λ slots. option_map (λ s. s.items) slots
        ≡ spec.period_slots description.now distance period) }
    ensures length { IfOk result (λ slots. IfSome slots (λ s. length s.items ≤ period)) }
{
    let Some(demands) = demands(alloc.clone()?, description, period, distance)? else {
        return Ok(None);
    };
    let mut demands = demands;
    tried_slots(alloc, &mut demands, period)
}

/// Returns a plan of a period of at most `period` slots, if one is found, with `distance` ms between packets of service
/// information if even spacing gives that; its certificate is the least that its slots can claim. Whether it serves the
/// description is for the plan checker to say.
pub fn period_plan<A: Allocator + Clone>(
    alloc: &A,
    description: &Description,
    period: u64,
    distance: u64,
) -> Result<Option<Plan<A>>, AllocError>
    requires { period ≤ 65536 }
    ensures period { IfOk result (λ found. IfSome found (λ plan. length plan.slots ≤ period)) }
    ensures found { IfOk result (λ found. found ≡ spec.period_plan description.now distance period) }
    ensures certificate { IfOk result (λ found. IfSome found (λ plan. plan.certificate
        ≡ certificate_of description.now plan.slots)) }
{
    let Some(slots) = period_slots(alloc.clone()?, description, period, distance)? else {
        return Ok(None);
    };
    plan_of(alloc, description, slots)
}
