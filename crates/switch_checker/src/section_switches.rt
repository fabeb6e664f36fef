//! The sections of a transponder's sub-tables are 25 ms apart over a switch too.

ghost use Rattle.std.specs.Prelude.{◌≡◌, ◌<◌, ◌≤◌, length};
ghost use Rattle.own_slots.specs.Period.{per_period};
ghost use Rattle.description_parts.specs.Tables.{table_kinds};
ghost use Rattle.slot_plan.specs.Items.{marks};
ghost use Rattle.slot_plan.specs.LeastGaps.{least_gap_across};
ghost use Rattle.slot_plan.specs.SectionDistances.{section_switch_entries};

use crate::plan_pair::PlanPair;
use plan_checker::conditions::ItemCondition;
use plan_checker::failure_search::FailureSearch;
use plan_checker::own_positions::{next_own_slot, position};
use plan_checker::section_distances::{check_distance, is_spaced, places_apart};
use plan_checker::{Period, own_count};
use slot_plan::{Item, TableKind};
use std::alloc::Allocator;

/// Returns the least gap across the switch between `row` own slots in a row: from own slot `-x` of the first plan to
/// own slot `row - x` of the second, x from 1 to `row`.
pub fn least_gap_across(first: &Period<'_>, second: &Period<'_>, item: Item, row: u64) -> u64
    requires owned { 0 < per_period (marks item first.now) }
    requires next_owned { 0 < per_period (marks item second.now) }
    requires short { length first.now ≤ 65536 }
    requires next_short { length second.now ≤ 65536 }
    requires some { 0 < row }
    requires near { row < 32768 }
    ensures { result ≡ least_gap_across (marks item first.now) (marks item second.now) row }
{
    let end = first.slots_in(row);
    let mut before = position(first, item, row * own_count(first, item) - row);
    let mut after = position(second, item, 0);
    let mut least = after + (end - before);
    for step in 0..row {
        least = least.min(after + (end - before));
        before = next_own_slot(first, item, before);
        after = next_own_slot(second, item, after);
    }
    least
}

/// The sections of each sub-table keep their distance over the switch (ETSI EN 300 468, 5.1.4.1).
pub struct SectionSwitches;

impl<A: Allocator> ItemCondition<PlanPair<'_, A>> for SectionSwitches {
    type Item = TableKind;

    ghost items = { λ s. table_kinds s.description.now };

    ghost entries = { λ s t _. section_switch_entries s.description.now s.first.now s.second.now t };

    fn count(plans: &PlanPair<'_, A>) -> usize {
        plans.description.tables()
    }

    fn check_item(plans: &PlanPair<'_, A>, i: usize, search: &mut FailureSearch) {
        if !is_spaced(plans.description, i) {
            return;
        }
        plans.description.keeps_ranges();
        let places = places_apart(plans.description, i);
        let (first, second) = (Period::of(plans.first), Period::of(plans.second));
        let gap = least_gap_across(&first, &second, Item::Table(i as u8), places);
        check_distance(plans.description, i, 1, gap, search);
    }
}
