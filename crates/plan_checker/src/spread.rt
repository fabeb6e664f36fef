//! The spread of an item's own slots.

ghost use Rattle.std.specs.Prelude.{◌≡◌, ◌+◌, ◌*◌, ◌≤◌, length};
ghost use Rattle.own_slots.specs.Spread.{spread};
ghost use Rattle.slot_plan.specs.Items.{marks};

use crate::own_counts::own_count;
use crate::period::Period;
use slot_plan::Item;

/// Returns how far the own slots stray from even spacing, in slots times own slots a period: the greatest difference of
/// two own slots, found in one walk as the difference of the two extremes; 0 if the item has no own slot.
pub fn spread_of(slots: &Period<'_>, item: Item) -> u64
    requires short { length slots.now ≤ 65536 }
    ensures spread { result ≡ spread (marks item slots.now) }
    ensures bound { result ≤ 2 * 65536 * 65536 }
{
    let count = own_count(slots, item);
    if count == 0 {
        return 0;
    }
    let end = slots.len();
    let period = end as u64;
    let mut number = 0;
    let mut highest = 0;
    let mut lowest = 2 * count * period;
    let mut at = 0;
    'walk: while at < end {
        if slots.owns(item, at) {
            let raised = count * at as u64 + (count - number) * period;
            highest = highest.max(raised);
            lowest = lowest.min(raised);
            number += 1;
            at = slots.next(item, at);
        } else {
            at = slots.next(item, at);
        }
    }
    highest.saturating_sub(lowest)
}
