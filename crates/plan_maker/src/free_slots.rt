//! The free slots of a period, given to one item after another.

ghost use Rattle.std.specs.Prelude.{◌≡◌, ◌<◌, ◌≤◌, true, false, Some, None, length, ◌∷◌, []};
ghost use Rattle.plan_maker.specs.FirstNumbers.{first_of};
ghost use Rattle.plan_maker.specs.PlainPlan.{is_null, is_free, with_item, placed, of_spacing};

use crate::spacing::Spaced;
use slot_plan::Slot;

/// Returns whether a slot is not given yet.
fn is_null(slot: Slot) -> bool
    ensures { result ≡ is_null slot }
{
    match slot {
        Slot::Null => true,
        _ => false,
    }
}

/// Returns whether the slots `first`, `first + spacing`, .. are free.
fn is_free(slots: &[Slot], spacing: u64, first: u64) -> bool
    requires positive { 0 < spacing }
    requires within { first < spacing }
    requires short { length slots.now ≤ 65536 }
    ensures { result ≡ is_free slots.now spacing first }
{
    for step in 0..slots.len() as u64 / spacing {
        if !is_null(slots[(first + step * spacing) as usize]) {
            return false;
        }
    }
    true
}

/// Returns the least slot that is free together with all later slots at distances of `spacing`.
fn first_free(slots: &[Slot], spacing: u64) -> Option<u64>
    requires short { length slots.now ≤ 65536 }
    ensures { result ≡ first_of spacing (is_free slots.now spacing) }
{
    for first in 0..spacing {
        if is_free(slots, spacing, first) {
            return Some(first);
        }
    }
    None
}

/// Gives an item the slots `first`, `first + spacing`, ..
fn give(slots: &mut [Slot], item: Slot, spacing: u64, first: u64)
    requires { 0 < spacing }
    ensures slots { slots.new ≡ with_item item spacing first slots.old }
{
    for s in 0..slots.len() {
        if s as u64 % spacing == first {
            slots[s] = item;
        }
    }
}

/// Gives an item the first free slots of its spacing, if there are any.
fn place(slots: &mut [Slot], item: Spaced) -> bool
    requires short { length slots.old ≤ 65536 }
    ensures given { result ≡ true → placed (item ∷ []) slots.old ≡ Some slots.new }
    ensures full { result ≡ false → placed (item ∷ []) slots.old ≡ None }
    ensures same_length { length slots.new ≡ length slots.old }
{
    match first_free(slots, item.spacing) {
        None => false,
        Some(first) => {
            give(slots, item.slot, item.spacing, first);
            true
        }
    }
}

/// Places the items of one spacing, in their order.
pub fn place_spacing(slots: &mut [Slot], items: &[Spaced], spacing: u64) -> bool
    requires short { length slots.old ≤ 65536 }
    ensures given { result ≡ true → placed (of_spacing spacing items.now) slots.old ≡ Some slots.new }
    ensures full { result ≡ false → placed (of_spacing spacing items.now) slots.old ≡ None }
    ensures same_length { length slots.new ≡ length slots.old }
{
    for item in items {
        if item.spacing == spacing && !place(slots, *item) {
            return false;
        }
    }
    true
}
