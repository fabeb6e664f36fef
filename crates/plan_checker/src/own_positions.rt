//! The slots that an item owns over all time, the period repeated.

ghost use Rattle.std.specs.Prelude.{◌≡◌, ◌+◌, ◌^◌, ◌<◌, ◌≤◌, true, length};
ghost use Rattle.own_slots.specs.Slots.{own_before};
ghost use Rattle.own_slots.specs.Period.{own, per_period, position};
ghost use Rattle.slot_plan.specs.Items.{marks};

use crate::own_counts::{own_count, own_slot};
use crate::period::Period;
use slot_plan::Item;

/// Returns the slot of own slot number `number`, from 0.
pub fn position(slots: &Period<'_>, item: Item, number: u64) -> u64
    requires owned { 0 < per_period (marks item slots.now) }
    requires short { length slots.now ≤ 65536 }
    requires near { number < 2 ^ 32 }
    ensures { result ≡ position (marks item slots.now) number }
{
    let count = own_count(slots, item);
    let period = slots.len() as u64;
    own_slot(slots, item, number % count) + number / count * period
}

/// Returns the next own slot after an own slot.
pub fn next_own_slot(slots: &Period<'_>, item: Item, from: u64) -> u64
    requires own { own (marks item slots.now) from ≡ true }
    requires owned { 0 < per_period (marks item slots.now) }
    requires short { length slots.now ≤ 65536 }
    requires near { from < 2 ^ 60 }
    ensures { result ≡ position (marks item slots.now) (own_before (own (marks item slots.now)) from + 1) }
{
    let period = slots.len() as u64;
    let place = from % period;
    let mut at = from + (slots.next(item, place as usize) as u64 - place);
    'walk: while at < from + period {
        let here = at % period;
        if slots.owns(item, here as usize) {
            return at;
        }
        let next = slots.next(item, here as usize) as u64;
        at += next - here;
    }
    from + period
}
