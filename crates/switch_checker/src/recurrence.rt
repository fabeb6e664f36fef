//! Gaps over a switch: PCRs and sections recur within their limits.

ghost use Rattle.std.specs.Prelude.{◌∷◌, []};
ghost use Rattle.description_parts.specs.Tables.{table_kinds};
ghost use Rattle.slot_plan.specs.SwitchConditions.{pcr_switch_entry, table_switch_entry};

use crate::across::greatest_gap_across;
use crate::plan_pair::PlanPair;
use clock27::SLOT_MS_AT_1BPS;
use plan_checker::comparison::at_most;
use plan_checker::conditions::ItemCondition;
use plan_checker::failure_search::FailureSearch;
use plan_checker::{Period, clock_item};
use slot_plan::{Condition, Item, ProgramDescription, TableKind};
use std::alloc::Allocator;

/// The PCRs of each program's clock recur over the switch (ISO/IEC 13818-1, 2.7.2).
pub struct PcrSwitches;

impl<A: Allocator> ItemCondition<PlanPair<'_, A>> for PcrSwitches {
    type Item = ProgramDescription;

    ghost items = { λ s. s.description.now.programs };

    ghost entries = { λ s i program. pcr_switch_entry s.description.now s.first.now s.second.now i program ∷ [] };

    fn count(plans: &PlanPair<'_, A>) -> usize {
        plans.description.programs().len()
    }

    fn check_item(plans: &PlanPair<'_, A>, i: usize, search: &mut FailureSearch) {
        let (first, second) = (Period::of(plans.first), Period::of(plans.second));
        let clock = clock_item(plans.description, i);
        let gap = greatest_gap_across(&first, &second, clock, 1);
        let limit = plans.description.programs()[i].pcr_limit();
        at_most(
            Condition::PcrSwitch,
            0,
            i as u32,
            gap as u128 * SLOT_MS_AT_1BPS,
            limit as u128 * plans.description.rate().bits_per_second() as u128,
            search,
        );
    }
}

/// Each section of each table recurs over the switch (ETSI TR 101 290, 5.2).
pub struct TableSwitches;

impl<A: Allocator> ItemCondition<PlanPair<'_, A>> for TableSwitches {
    type Item = TableKind;

    ghost items = { λ s. table_kinds s.description.now };

    ghost entries = { λ s t _. table_switch_entry s.description.now s.first.now s.second.now t ∷ [] };

    fn count(plans: &PlanPair<'_, A>) -> usize {
        plans.description.tables()
    }

    fn check_item(plans: &PlanPair<'_, A>, i: usize, search: &mut FailureSearch) {
        plans.description.keeps_ranges();
        let places = plans.description.round_packets(i) as u64;
        let (first, second) = (Period::of(plans.first), Period::of(plans.second));
        let gap = greatest_gap_across(&first, &second, Item::Table(i as u8), places);
        let limit = plans.description.table_limit(i);
        at_most(
            Condition::TableSwitch,
            0,
            i as u32,
            gap as u128 * SLOT_MS_AT_1BPS,
            limit as u128 * plans.description.rate().bits_per_second() as u128,
            search,
        );
    }
}
