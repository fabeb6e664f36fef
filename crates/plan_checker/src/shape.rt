//! The shape of a plan: its period, the items that its slots name, the items that have slots, the entries of its
//! certificate.

ghost use Rattle.std.specs.Prelude.{◌≡◌, ◌+◌, ◌<◌, ◌∷◌, [], if◌then◌else◌, is_none, length};
ghost use Rattle.description_parts.specs.Tables.{has_references, table_kinds};
ghost use Rattle.slot_plan.specs.declared.slot.Item.TheVariants.{Stream as StreamItem, Table as TableItem};
ghost use Rattle.slot_plan.specs.Entries.{first_failing};
ghost use Rattle.slot_plan.specs.Conditions.{named_entry, length_entries, claim_entries, shape_entries, owner_entry};
ghost use Rattle.slot_plan.specs.Conditions.{clock_owner_entries};
ghost use Rattle.plan_checker.specs.Failing.{after, search_of};

use crate::comparison::{at_most, equal_counts};
use crate::conditions::{ItemCondition, check_each};
use crate::failure_search::FailureSearch;
use crate::own_counts::own_count;
use crate::period::Period;
use crate::plans::AnyPlan;
use slot_plan::{
    Condition, Description, Item, Plan, ProgramDescription, Slot, StreamDescription, TableKind,
};
use std::alloc::Allocator;

/// The most slots of a period.
const MAX_PERIOD: u128 = 65_536;

/// Looks at the conditions of code 1.
pub fn shape<A: Allocator>(description: &Description, plan: &Plan<A>, search: &mut FailureSearch)
    ensures { search_of search.new ≡ after (search_of search.old) (shape_entries description.now plan.now) }
{
    let plans = &AnyPlan { description, plan };
    period(plan, search);
    check_each::<Names, _>(plans, search);
    check_each::<StreamOwners, _>(plans, search);
    check_each::<ProgramOwners, _>(plans, search);
    check_each::<TableOwners, _>(plans, search);
    claims(description, plan, search);
}

/// Returns whether a plan keeps the conditions of code 1.
pub fn is_shaped<A: Allocator>(description: &Description, plan: &Plan<A>) -> bool
    ensures { result ≡ is_none (first_failing (shape_entries description.now plan.now)) }
{
    let mut search = FailureSearch::new(0, 1);
    shape(description, plan, &mut search);
    !search.is_done()
}

/// Checks that a period has slots, and at most 65,536.
fn period<A: Allocator>(plan: &Plan<A>, search: &mut FailureSearch)
    ensures { search_of search.new ≡ after (search_of search.old) (length_entries plan.now) }
{
    let slots = plan.slots().len() as u128;
    at_most(Condition::Shape, 1, 0, 1, slots, search);
    at_most(Condition::Shape, 2, 0, slots, MAX_PERIOD, search);
}

/// Returns how many programs a slot for the clock references of that program may name: none if another program's slots
/// carry these.
fn clocks_named(description: &Description, number: usize) -> usize
    ensures { result ≡ if has_references description.now number then length description.now.programs else 0 }
{
    if description.has_references(number) {
        description.programs().len()
    } else {
        0
    }
}

/// Each slot names an item of the description.
struct Names;

impl<A: Allocator> ItemCondition<AnyPlan<'_, A>> for Names {
    type Item = Slot;

    ghost items = { λ s. s.plan.now.slots };

    ghost entries = { λ s i slot. named_entry s.description.now i slot ∷ [] };

    fn count(plans: &AnyPlan<'_, A>) -> usize {
        plans.plan.slots().len()
    }

    fn check_item(plans: &AnyPlan<'_, A>, i: usize, search: &mut FailureSearch) {
        let (number, count) = match plans.plan.slots()[i] {
            Slot::Stream(number) => (number as u128 + 1, plans.description.streams().len()),
            Slot::Pcr(number) => (
                number as u128 + 1,
                clocks_named(plans.description, number as usize),
            ),
            Slot::Table(number) => (number as u128 + 1, plans.description.tables()),
            Slot::Null => (0, 0),
        };
        at_most(Condition::Shape, 3, i as u32, number, count as u128, search);
    }
}

/// Checks that an item has a slot.
fn owner<A: Allocator>(plan: &Plan<A>, number: usize, item: Item, search: &mut FailureSearch)
    requires { number < 100000 }
    ensures { search_of search.new ≡ after (search_of search.old) (owner_entry plan.now number item ∷ []) }
{
    at_most(
        Condition::Shape,
        4,
        number as u32,
        1,
        own_count(&Period::of(plan), item) as u128,
        search,
    );
}

/// Each stream has a slot.
struct StreamOwners;

impl<A: Allocator> ItemCondition<AnyPlan<'_, A>> for StreamOwners {
    type Item = StreamDescription;

    ghost items = { λ s. s.description.now.streams };

    ghost entries = { λ s i _. owner_entry s.plan.now i (StreamItem i) ∷ [] };

    fn count(plans: &AnyPlan<'_, A>) -> usize {
        plans.description.streams().len()
    }

    fn check_item(plans: &AnyPlan<'_, A>, i: usize, search: &mut FailureSearch) {
        plans.description.keeps_ranges();
        owner(plans.plan, i, Item::Stream(i as u8), search);
    }
}

/// Each program whose slots carry clock references has a slot.
struct ProgramOwners;

impl<A: Allocator> ItemCondition<AnyPlan<'_, A>> for ProgramOwners {
    type Item = ProgramDescription;

    ghost items = { λ s. s.description.now.programs };

    ghost entries = { λ s i _. clock_owner_entries s.description.now s.plan.now i };

    fn count(plans: &AnyPlan<'_, A>) -> usize {
        plans.description.programs().len()
    }

    fn check_item(plans: &AnyPlan<'_, A>, i: usize, search: &mut FailureSearch) {
        if plans.description.has_references(i) {
            let before = plans.description.streams().len();
            owner(plans.plan, before + i, Item::Pcr(i as u8), search);
        }
    }
}

/// Each table has a slot.
struct TableOwners;

impl<A: Allocator> ItemCondition<AnyPlan<'_, A>> for TableOwners {
    type Item = TableKind;

    ghost items = { λ s. table_kinds s.description.now };

    ghost entries = { λ s t _. owner_entry s.plan.now
        (length s.description.now.streams + length s.description.now.programs + t) (TableItem t) ∷ [] };

    fn count(plans: &AnyPlan<'_, A>) -> usize {
        plans.description.tables()
    }

    fn check_item(plans: &AnyPlan<'_, A>, i: usize, search: &mut FailureSearch) {
        let before = plans.description.streams().len() + plans.description.programs().len();
        owner(plans.plan, before + i, Item::Table(i as u8), search);
    }
}

/// Checks that the certificate has an entry for each stream and for each program.
fn claims<A: Allocator>(description: &Description, plan: &Plan<A>, search: &mut FailureSearch)
    ensures { search_of search.new ≡ after (search_of search.old) (claim_entries description.now plan.now) }
{
    let certificate = plan.certificate();
    equal_counts(
        Condition::Shape,
        5,
        0,
        certificate.streams.len() as u128,
        description.streams().len() as u128,
        search,
    );
    equal_counts(
        Condition::Shape,
        6,
        0,
        certificate.programs.len() as u128,
        description.programs().len() as u128,
        search,
    );
}
