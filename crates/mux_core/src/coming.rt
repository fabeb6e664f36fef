//! A table that comes on air.

ghost use Rattle.std.specs.Prelude.{◌≡◌, ◌<◌, ◌≤◌, cond, length};
ghost use Rattle.description_parts.specs.Tables.{table_count};
ghost use Rattle.own_slots.specs.Slots.{own_before};
ghost use Rattle.own_slots.specs.Period.{own};
ghost use Rattle.slot_plan.specs.Items.{marks};
ghost use Rattle.mux_core.specs.LineUps.{moment_in};
ghost use Rattle.mux_core.specs.LineUpSteps as steps;

use clock27::SLOT_SECONDS_AT_1BPS;
use plan_checker::{CheckedPlan, Period, own_count};
use slot_plan::{Description, Item};
use std::alloc::Allocator;
use table_rounds::TableCarousel;

// Returns 1 for an own slot, 0 for another.
fn one_if_own(slots: &Period<'_>, item: Item, at: usize) -> u64
    requires { at < length slots.now }
    ensures { result ≡ cond (own (marks item slots.now) at) 1 0 }
{
    if slots.owns(item, at) { 1 } else { 0 }
}

// Returns the number of the item's own slots among the first slots of a period.
fn own_among(slots: &Period<'_>, item: Item, first: usize) -> u64
    requires { first ≤ length slots.now }
    ensures { result ≡ own_before (own (marks item slots.now)) first }
{
    let mut count: u64 = 0;
    for at in 0..first {
        count += one_if_own(slots, item, at);
    }
    count
}

// Returns the number of the item's own slots before a slot, the period repeated.
fn own_before(slots: &Period<'_>, item: Item, until: u64) -> u64
    requires { 0 < length slots.now }
    ensures { result ≡ own_before (own (marks item slots.now)) until }
{
    let period = slots.len() as u64;
    until / period * own_count(slots, item) + own_among(slots, item, (until % period) as usize)
}

// Returns the moment at which a slot begins.
fn moment_in(description: &Description, slot: u64) -> u64
    ensures { result ≡ moment_in description.now slot }
{
    description.keeps_ranges();
    let time = u128::from(slot) * u128::from(SLOT_SECONDS_AT_1BPS)
        / u128::from(description.rate().bits_per_second());
    description.start() + time as u64
}

// Returns a silent carousel of a table that had this number of own slots.
fn silent_after(description: &Description, table: usize, before: u64, moment: u64) -> TableCarousel
    requires { table < table_count description.now }
    ensures { result ≡ steps.silent_after description.now table before moment }
{
    description.keeps_ranges();
    let number = before % description.round_packets(table) as u64;
    TableCarousel::silent(
        description.table_pid(table),
        description.rate(),
        &description.section_lengths(table),
        number as u32,
        moment,
    )
}

/// Returns the carousel of a table that comes in a slot: silent, at the place where it would be.
#[tactic(auto, using(plan_checker::proofs::Counts::few_tables))]
pub(crate) fn come_carousel<A: Allocator>(
    next: &CheckedPlan<A>,
    slots: u64,
    table: usize,
) -> TableCarousel
    requires { table < table_count next.now.description }
    ensures { result ≡ steps.come_carousel next.now slots table }
{
    slot_plan::laws::own_slots();
    let description = next.description();
    description.keeps_ranges();
    let before = own_before(&Period::of(next.plan()), Item::Table(table as u8), slots);
    silent_after(description, table, before, moment_in(description, slots))
}
