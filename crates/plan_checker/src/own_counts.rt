//! The slots of a period that an item owns: their number, and which they are.

ghost use Rattle.std.specs.Prelude.{◌≡◌, ◌<◌, ◌≤◌, length};
ghost use Rattle.own_slots.specs.Period.{per_period, position};
ghost use Rattle.slot_plan.specs.Items.{marks};

use crate::period::Period;
use slot_plan::Item;

/// Returns the number of the item's own slots in a period.
pub fn own_count(slots: &Period<'_>, item: Item) -> u64
    ensures count { result ≡ per_period (marks item slots.now) }
    ensures bound { result ≤ length slots.now }
{
    let period = slots.len();
    let mut count: u64 = 0;
    let mut at = 0;
    'walk: while at < period {
        if slots.owns(item, at) {
            count += 1;
            at = slots.next(item, at);
        } else {
            at = slots.next(item, at);
        }
    }
    count
}

/// Returns the slot of the item's own slot number `number`, from 0, in a period.
pub fn own_slot(slots: &Period<'_>, item: Item, number: u64) -> u64
    requires { number < per_period (marks item slots.now) }
    ensures slot { result ≡ position (marks item slots.now) number }
    ensures within { result < length slots.now }
{
    let period = slots.len();
    let mut count: u64 = 0;
    let mut at = 0;
    'walk: while at < period {
        if slots.owns(item, at) {
            if count == number {
                return at as u64;
            }
            count += 1;
            at = slots.next(item, at);
        } else {
            at = slots.next(item, at);
        }
    }
    0
}
