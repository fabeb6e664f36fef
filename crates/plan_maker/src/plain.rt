//! The plain plan: the slots of each item evenly spaced, one item after another on the first that are free.

ghost use Rattle.std.specs.Prelude.{◌≡◌, ◌≤◌, IfOk, IfSome, length, replicate, option_map};
ghost use Rattle.slot_plan.specs.declared.slot.Slot.TheVariants.{Null};
ghost use Rattle.plan_maker.specs.PlainPlan.{longest, slots_of, plain_plan};

use crate::certificates::plan_of;
use crate::item_order::{are_spaced, longest, place_items};
use crate::spacing::{Spaced, spaced_items};
use slot_plan::{Description, Plan, Slot};
use std::alloc::{AllocError, Allocator};

/// Returns a number of null slots.
fn null_slots<A: Allocator>(alloc: A, length: u64) -> Result<Vec<Slot, A>, AllocError>
    ensures { IfOk result (λ slots. slots.items ≡ replicate length Null) }
{
    let mut slots = Vec::new(alloc);
    for _ in 0..length {
        slots.push(Slot::Null)?;
    }
    Ok(slots)
}

/// Returns the slots of the items, None if an item has no spacing or finds no free slots.
fn plain_slots<A: Allocator>(alloc: A, items: &[Spaced]) -> Result<Option<Vec<Slot, A>>, AllocError>
    requires { longest items.now ≤ 65536 }
    ensures slots { IfOk result (λ slots. option_map (λ s. s.items) slots ≡ slots_of items.now) }
    ensures bound { IfOk result (λ slots. IfSome slots (λ s. length s.items ≤ 65536)) }
{
    if !are_spaced(items) {
        return Ok(None);
    }
    let mut slots = null_slots(alloc, longest(items))?;
    if place_items(&mut slots, items) {
        Ok(Some(slots))
    } else {
        Ok(None)
    }
}

/// Returns the plain plan of a description, if it has a plain plan.
pub fn plain_plan<A: Allocator + Clone>(
    alloc: A,
    description: &Description,
) -> Result<Option<Plan<A>>, AllocError>
    ensures { IfOk result (λ plan. plan ≡ plain_plan description.now) }
{
    let items = spaced_items(alloc.clone()?, description)?;
    let Some(slots) = plain_slots(alloc.clone()?, &items)? else {
        return Ok(None);
    };
    plan_of(&alloc, description, slots)
}
