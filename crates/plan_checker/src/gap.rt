//! Gaps of an item's own slots.

ghost use Rattle.std.specs.Prelude.{◌≡◌, ◌^◌, ◌<◌, ◌≤◌, length};
ghost use Rattle.own_slots.specs.Period.{per_period};
ghost use Rattle.own_slots.specs.Gaps.{gap};
ghost use Rattle.slot_plan.specs.Items.{marks};

use crate::own_positions::{next_own_slot, position};
use crate::period::Period;
use slot_plan::Item;

/// Returns the greatest distance in slots from an own slot to the `row`-th own slot after it, round the period's end
/// too.
pub fn greatest_gap(slots: &Period<'_>, item: Item, row: u64) -> u64
    requires owned { 0 < per_period (marks item slots.now) }
    requires short { length slots.now ≤ 65536 }
    requires near { row < 2 ^ 31 }
    ensures { result ≡ gap (marks item slots.now) row }
{
    let period = slots.len();
    let mut ahead = position(slots, item, row);
    let mut greatest = 0;
    let mut at = 0;
    'walk: while at < period {
        if slots.owns(item, at) {
            greatest = greatest.max(ahead - at as u64);
            ahead = next_own_slot(slots, item, ahead);
            at = slots.next(item, at);
        } else {
            at = slots.next(item, at);
        }
    }
    greatest
}
