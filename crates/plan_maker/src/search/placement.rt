//! Own slots, placed by the earliest deadline first.

ghost use Rattle.std.specs.Prelude.{◌≡◌, ◌++◌, ◌+◌, ◌≤◌, ◌<◌, min, OnOk, IfOk, IfSome, length, position};
ghost use Rattle.std.specs.Prelude.{Some, nat_lt, slice_get, if◌then◌else◌};
ghost use Rattle.plan_maker.specs.Demands.{demand_view};
ghost use Rattle.plan_maker.specs.Placements as spec;
ghost use Rattle.plan_maker.specs.Placements.{outcome, placed_in};

use crate::search::demand::Demand;
use slot_plan::Slot;
use std::alloc::{AllocError, Allocator};

/// Own slots of an item to be placed: number `placed` of `count` is next, in a slot from `release` to `due`.
#[derive(Clone, Copy)]
pub struct PlacementTask {
    slot: Slot,
    count: u64,
    width: u64,
    phase: u64,
    placed: u64,
    release: u64,
    due: u64,
}

impl PlacementTask {
    /// Returns the task of a demand in a period; None if a window might hold no slot.
    pub fn new(demand: &Demand<'_>, period: u64) -> Option<PlacementTask>
        requires { period ≤ 65536 }
        ensures { result ≡ spec.task_of (demand_view demand.now) period }
    {
        match demand.need.width(period, demand.count) {
            None => None,
            Some(width) => task_in(demand, period, width),
        }
    }

    /// Returns the task with the window of the next own slot open; after the last one none is open.
    fn opened(self, period: u64) -> PlacementTask
        ensures { result ≡ spec.opened period self }
    {
        if self.count <= self.placed {
            return PlacementTask {
                release: u64::MAX,
                ..self
            };
        }
        let place = even_place(period, self.phase, self.placed);
        PlacementTask {
            release: first_slot(place, self.count),
            due: last_slot(period, place, self.width, self.count),
            ..self
        }
    }

    /// Returns the task after one own slot more, with the next window open.
    fn advanced(self, period: u64) -> PlacementTask
        ensures { result ≡ spec.advanced period self }
    {
        let task = PlacementTask {
            placed: self.placed.saturating_add(1),
            ..self
        };
        task.opened(period)
    }
}

/// Returns where own slot number `k` would be if it were evenly spaced, in slots times own slots.
fn even_place(period: u64, phase: u64, k: u64) -> u64
    ensures { result ≡ spec.even_place period phase k }
{
    k.saturating_mul(period).saturating_add(phase)
}

/// Returns the first slot at or after a place.
fn first_slot(place: u64, count: u64) -> u64
    requires { 0 < count }
    ensures { result ≡ spec.first_slot place count }
{
    place.saturating_add(count - 1) / count
}

/// Returns the last slot that strays from a place by `width` at most, within the period.
fn last_slot(period: u64, place: u64, width: u64, count: u64) -> u64
    requires { 0 < count }
    ensures { result ≡ spec.last_slot period place width count }
{
    lesser(
        place.saturating_add(width) / count,
        period.saturating_sub(1),
    )
}

/// Returns the lesser of two numbers.
fn lesser(a: u64, b: u64) -> u64
    ensures { result ≡ min a b }
{
    if a < b { a } else { b }
}

/// Returns the task of a demand whose own slots may stray so much. No window is wider than two even gaps, and the
/// windows of the items of a kind that have less than one are set apart.
fn task_in(demand: &Demand<'_>, period: u64, width: u64) -> Option<PlacementTask>
    requires { period ≤ 65536 }
    ensures { result ≡ spec.task_in period (demand_view demand.now) width }
{
    if width < demand.count.saturating_sub(1) {
        return None;
    }
    if demand.kind == 0 {
        return None;
    }
    let apart = period.saturating_sub(1).saturating_sub(width);
    let task = PlacementTask {
        slot: demand.slot,
        count: demand.count,
        width: lesser(width, (period * 2).saturating_sub(1)),
        phase: demand.number.saturating_mul(apart) / demand.kind,
        placed: 0,
        release: 0,
        due: 0,
    };
    Some(task.opened(period))
}

/// Returns when the window of a task ends that is open at a slot; the greatest number if it is not open.
fn due_at(task: &PlacementTask, at: u64) -> u64
    ensures { result ≡ spec.due_at at task.now }
{
    if task.release <= at {
        task.due
    } else {
        u64::MAX
    }
}

/// Returns the task whose window is open at a slot and ends first; of two that end together, the first.
fn most_urgent(tasks: &[PlacementTask], at: u64) -> Option<usize>
    ensures urgent { result ≡ spec.most_urgent tasks.now at }
    ensures within { IfSome result (λ i. i < length tasks.now) }
{
    let mut urgent = None;
    let mut least = u64::MAX;
    for i in 0..tasks.len() {
        let due = due_at(&tasks[i], at);
        urgent = earlier(urgent, least, i, due);
        least = lesser(least, due);
    }
    urgent
}

/// Returns `i` if its window ends before `least`, otherwise `urgent`.
fn earlier(urgent: Option<usize>, least: u64, i: usize, due: u64) -> Option<usize>
    ensures { result ≡ (if nat_lt due least then Some i else urgent) }
{
    if due < least { Some(i) } else { urgent }
}

/// Returns the content of one slot: the slot of the most urgent task, or null. An error is the task whose window
/// ended before.
pub fn next_slot(tasks: &mut [PlacementTask], at: u64, period: u64) -> Result<Slot, usize>
    ensures { outcome result tasks.new ≡ spec.next_slot period at tasks.old }
{
    match most_urgent(tasks, at) {
        None => Ok(Slot::Null),
        Some(i) => own_slot(tasks, i, at, period),
    }
}

/// Returns what task number `i` has in a slot, and opens its next window. An error is its number if its window ended
/// before.
fn own_slot(tasks: &mut [PlacementTask], i: usize, at: u64, period: u64) -> Result<Slot, usize>
    requires { i < length tasks.old }
    ensures { outcome result tasks.new ≡ spec.own_slot period at tasks.old i (slice_get tasks.old i) }
{
    let task = tasks[i];
    if task.due < at {
        return Err(i);
    }
    tasks[i] = task.advanced(period);
    Ok(task.slot)
}

/// Returns whether own slots are left.
fn is_open(task: &PlacementTask) -> bool
    ensures { result ≡ spec.is_open task.now }
{
    task.placed < task.count
}

/// Returns the first task that has own slots left.
pub fn first_open(tasks: &[PlacementTask]) -> Option<usize>
    ensures { result ≡ position spec.is_open tasks.now }
{
    tasks.iter().position(|task| is_open(task))
}

/// Appends the slots of one period. Returns `None` if every task has its own slots in them, otherwise the number of a
/// task that misses a slot.
pub fn place<A: Allocator>(
    slots: &mut Vec<Slot, A>,
    tasks: &mut [PlacementTask],
    period: u64,
) -> Result<Option<usize>, AllocError>
    ensures slots { OnOk result (slots.new.items ≡ slots.old.items ++ (placed_in period tasks.old period).slots) }
    ensures tasks { OnOk result (tasks.new ≡ (placed_in period tasks.old period).tasks) }
    ensures missing { IfOk result (λ missing. missing ≡ spec.missing_of (placed_in period tasks.old period)) }
    ensures length { OnOk result (length slots.new.items ≤ length slots.old.items + period) }
{
    for at in 0..period {
        match next_slot(tasks, at, period) {
            Ok(slot) => slots.push(slot)?,
            Err(missed) => return Ok(Some(missed)),
        }
    }
    Ok(first_open(tasks))
}
