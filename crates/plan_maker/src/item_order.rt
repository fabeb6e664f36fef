//! The items of a plain plan in their order, and the slots that they take.

ghost use Rattle.std.specs.Prelude.{◌≡◌, ◌≤◌, true, false, Some, None, length};
ghost use Rattle.std.specs.List.{list_all};
ghost use Rattle.plan_maker.specs.PlainPlan.{longest, is_spaced, by_spacing, placed};

use crate::free_slots::place_spacing;
use crate::spacing::Spaced;
use slot_plan::Slot;

/// Returns the greatest spacing.
pub fn longest(items: &[Spaced]) -> u64
    ensures { result ≡ longest items.now }
{
    let mut longest = 0;
    for item in items {
        longest = longest.max(item.spacing);
    }
    longest
}

/// Returns whether each item has a spacing.
pub fn are_spaced(items: &[Spaced]) -> bool
    ensures { result ≡ list_all is_spaced items.now }
{
    items.iter().all(|item| item.spacing > 0)
}

/// Gives each item its slots, in rising order of spacings.
pub fn place_items(slots: &mut [Slot], items: &[Spaced]) -> bool
    requires short { length slots.old ≤ 65536 }
    ensures given { result ≡ true → placed (by_spacing 0 17 items.now) slots.old ≡ Some slots.new }
    ensures full { result ≡ false → placed (by_spacing 0 17 items.now) slots.old ≡ None }
    ensures same_length { length slots.new ≡ length slots.old }
{
    let mut power: u64 = 1;
    for exponent in 0..17usize {
        if !place_spacing(slots, items, power) {
            return false;
        }
        power *= 2;
    }
    true
}
