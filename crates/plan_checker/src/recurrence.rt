//! PCRs and sections recur in time.

ghost use Rattle.std.specs.Prelude.{◌≡◌, ◌<◌, ◌∷◌, [], length};
ghost use Rattle.description_parts.specs.Tables.{clock_of, table_kinds};
ghost use Rattle.slot_plan.specs.Conditions.{pcr_gap_entry, table_gap_entry};
ghost use Rattle.slot_plan.specs.declared.slot.Item.TheVariants.{Pcr};

use crate::comparison::at_most;
use crate::conditions::ItemCondition;
use crate::failure_search::FailureSearch;
use crate::gap::greatest_gap;
use crate::period::Period;
use crate::plans::ShapedPlan;
use clock27::SLOT_MS_AT_1BPS;
use slot_plan::{Condition, Description, Item, ProgramDescription, TableKind};
use std::alloc::Allocator;

/// Returns the item whose slots carry the clock references of program number `i`.
#[tactic(auto, using(slot_plan::proofs::Clocks::clock_within))]
pub fn clock_item(description: &Description, i: usize) -> Item
    requires { i < length description.now.programs }
    ensures { result ≡ Pcr (clock_of description.now i) }
{
    description.keeps_ranges();
    Item::Pcr(description.clock_of(i) as u8)
}

/// The PCRs of each program's clock recur within the program's limit.
pub struct PcrGaps;

impl<A: Allocator> ItemCondition<ShapedPlan<'_, A>> for PcrGaps {
    type Item = ProgramDescription;

    ghost items = { λ s. s.description.now.programs };

    ghost entries = { λ s i program. pcr_gap_entry s.description.now s.plan.now i program ∷ [] };

    fn count(plans: &ShapedPlan<'_, A>) -> usize {
        plans.description.programs().len()
    }

    fn check_item(plans: &ShapedPlan<'_, A>, i: usize, search: &mut FailureSearch) {
        let clock = clock_item(plans.description, i);
        let gap = greatest_gap(&Period::of(plans.plan), clock, 1);
        let limit = plans.description.programs()[i].pcr_limit();
        at_most(
            Condition::PcrGap,
            0,
            i as u32,
            gap as u128 * SLOT_MS_AT_1BPS,
            limit as u128 * plans.description.rate().bits_per_second() as u128,
            search,
        );
    }
}

/// The sections of each table recur within its limit.
pub struct TableGaps;

impl<A: Allocator> ItemCondition<ShapedPlan<'_, A>> for TableGaps {
    type Item = TableKind;

    ghost items = { λ s. table_kinds s.description.now };

    ghost entries = { λ s t _. table_gap_entry s.description.now s.plan.now t ∷ [] };

    fn count(plans: &ShapedPlan<'_, A>) -> usize {
        plans.description.tables()
    }

    fn check_item(plans: &ShapedPlan<'_, A>, i: usize, search: &mut FailureSearch) {
        plans.description.keeps_ranges();
        let places = plans.description.round_packets(i) as u64;
        let gap = greatest_gap(&Period::of(plans.plan), Item::Table(i as u8), places);
        let limit = plans.description.table_limit(i);
        at_most(
            Condition::TableGap,
            0,
            i as u32,
            gap as u128 * SLOT_MS_AT_1BPS,
            limit as u128 * plans.description.rate().bits_per_second() as u128,
            search,
        );
    }
}
