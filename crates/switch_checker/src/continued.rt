//! Streams whose own slots are the same in both plans: over the switch these continue as over the end of a period.

ghost use Rattle.std.specs.Prelude.{◌≡◌, ◌<◌};
ghost use Rattle.std.specs.Bool.{beq};
ghost use Rattle.std.specs.List.{list_all, zip};
ghost use Rattle.slot_plan.specs.Items.{is_own};
ghost use Rattle.slot_plan.specs.SwitchConditions.{owns_same, is_finer, continues};

use crate::plan_pair::PlanPair;
use slot_plan::{Description, Item, Slot};
use std::alloc::Allocator;

/// Returns whether the item owns both of two slots, or neither.
fn owns_alike(item: Item, slot: Slot, next: Slot) -> bool
    ensures { result ≡ beq (is_own item slot) (is_own item next) }
{
    item.owns(slot) == item.owns(next)
}

/// Returns whether the item owns the same slots of both periods, as far as both go.
fn owns_all_alike(item: Item, first: &[Slot], second: &[Slot]) -> bool
    ensures { result ≡ list_all (λ p. beq (is_own item p.0) (is_own item p.1)) (zip first.now second.now) }
{
    first
        .iter()
        .zip(second)
        .all(|(slot, next)| owns_alike(item, *slot, *next))
}

/// Returns whether the item owns the same slots of both periods.
fn owns_same(item: Item, first: &[Slot], second: &[Slot]) -> bool
    ensures { result ≡ owns_same item first.now second.now }
{
    first.len() == second.len() && owns_all_alike(item, first, second)
}

/// Returns whether some stream declares a multiplexing buffer, or access units that leave one by one.
fn is_finer(description: &Description) -> bool
    ensures { result ≡ is_finer description.now }
{
    description.streams().iter().any(|stream| stream.multiplexing.is_some()
        || stream.framing.is_some())
}

/// Returns whether the own slots of stream number `i` continue over the switch, in a description of such streams.
pub fn continues<A: Allocator>(plans: &PlanPair<'_, A>, i: usize) -> bool
    requires { i < 256 }
    ensures { result ≡ continues plans.now.description.now plans.now.first.now plans.now.second.now i }
{
    let item = Item::Stream(i as u8);
    is_finer(plans.description) && owns_same(item, plans.first.slots(), plans.second.slots())
}
