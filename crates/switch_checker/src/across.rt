//! An item's own slots across a switch: the first plan up to the end of any of its periods, then the second.

ghost use Rattle.std.specs.Prelude.{◌≡◌, ◌<◌, ◌≤◌, length};
ghost use Rattle.own_slots.specs.Period.{per_period, back};
ghost use Rattle.own_slots.specs.Switch.{shift};
ghost use Rattle.slot_plan.specs.Items.{marks};
ghost use Rattle.slot_plan.specs.SwitchConditions.{gap_across};

use plan_checker::own_counts::own_slot;
use plan_checker::own_positions::{next_own_slot, position};
use plan_checker::{Period, own_count};
use slot_plan::Item;

/// Returns the greatest gap across the switch between `row` own slots in a row: from own slot `-x` of the first
/// plan to own slot `row - x` of the second, x from 1 to `row`.
pub fn greatest_gap_across(first: &Period<'_>, second: &Period<'_>, item: Item, row: u64) -> u64
    requires owned { 0 < per_period (marks item first.now) }
    requires next_owned { 0 < per_period (marks item second.now) }
    requires short { length first.now ≤ 65536 }
    requires next_short { length second.now ≤ 65536 }
    requires near { row < 32768 }
    ensures { result ≡ gap_across (marks item first.now) (marks item second.now) row }
{
    let end = first.slots_in(row);
    let mut before = position(first, item, row * own_count(first, item) - row);
    let mut after = position(second, item, 0);
    let mut greatest = 0;
    for step in 0..row {
        greatest = greatest.max(after + (end - before));
        before = next_own_slot(first, item, before);
        after = next_own_slot(second, item, after);
    }
    greatest
}

/// Returns the slots from the item's last own slot to the period's end.
pub fn last_from_end(slots: &Period<'_>, item: Item) -> u64
    requires owned { 0 < per_period (marks item slots.now) }
    requires short { length slots.now ≤ 65536 }
    ensures last { result ≡ back (marks item slots.now) 1 }
    ensures within { result ≤ length slots.now }
{
    let period = slots.len() as u64;
    period - own_slot(slots, item, own_count(slots, item) - 1)
}

/// Returns how many slots later the second plan's last own slot is, counted from its period's end, than the first's.
pub fn shift_of(first: &Period<'_>, second: &Period<'_>, item: Item) -> u64
    requires owned { 0 < per_period (marks item first.now) }
    requires next_owned { 0 < per_period (marks item second.now) }
    requires short { length first.now ≤ 65536 }
    requires next_short { length second.now ≤ 65536 }
    ensures shift { result ≡ shift (marks item first.now) (marks item second.now) }
    ensures within { result ≤ length first.now }
{
    last_from_end(first, item).saturating_sub(last_from_end(second, item))
}
