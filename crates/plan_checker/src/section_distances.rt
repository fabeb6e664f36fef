//! The sections of a transponder's sub-tables are 25 ms apart.

ghost use Rattle.std.specs.Prelude.{◌≡◌, suc, ◌-◌, ◌/◌, ◌^◌, ◌<◌, ◌≤◌, length, slice_index_or, true};
ghost use Rattle.own_slots.specs.Extremes.{greatest};
ghost use Rattle.own_slots.specs.Period.{per_period};
ghost use Rattle.description_parts.specs.Tables.{packets_of_section, round_packets, table_count, table_kinds};
ghost use Rattle.slot_plan.specs.Items.{marks};
ghost use Rattle.slot_plan.specs.LeastGaps.{least_gap};
ghost use Rattle.slot_plan.specs.SectionDistances as spec;
ghost use Rattle.plan_checker.specs.Failing.{after, search_of};

use crate::comparison::at_most;
use crate::conditions::ItemCondition;
use crate::failure_search::FailureSearch;
use crate::own_positions::{next_own_slot, position};
use crate::period::Period;
use crate::plans::ShapedPlan;
use clock27::SLOT_MS_AT_1BPS;
use slot_plan::{Condition, Description, Item, TableKind};
use std::alloc::Allocator;

/// The least time from the end of a section to the begin of the next section of its sub-table, in ms.
const LEAST_DISTANCE: u128 = 25;

/// Returns the least distance in slots from an own slot to the `row`-th own slot after it, round the period's end too.
pub fn least_gap(slots: &Period<'_>, item: Item, row: u64) -> u64
    requires owned { 0 < per_period (marks item slots.now) }
    requires short { length slots.now ≤ 65536 }
    requires near { row < 2 ^ 31 }
    ensures { result ≡ least_gap (marks item slots.now) row }
{
    let mut ahead = position(slots, item, row);
    let mut least = ahead;
    let period = slots.len();
    let mut at = 0;
    'walk: while at < period {
        if slots.owns(item, at) {
            least = least.min(ahead - at as u64);
            ahead = next_own_slot(slots, item, ahead);
            at = slots.next(item, at);
        } else {
            at = slots.next(item, at);
        }
    }
    least
}

/// Returns whether the sections of a table have to keep their distance.
pub fn is_spaced(description: &Description, table: usize) -> bool
    requires { table < table_count description.now }
    ensures { result ≡ spec.is_spaced description.now table }
{
    let pid = description.table_pid(table);
    description.is_transponder() && pid >= 0x10 && pid <= 0x14
}

// Returns the packets of a section of that length.
fn packets_of_section(length: u16) -> u64
    ensures { result ≡ packets_of_section length }
{
    (1 + length as u64).div_ceil(184)
}

// Returns the packets of the longest of sections of these lengths, 0 if there are none.
fn most_packets(lengths: &[u16]) -> u64
    ensures { result ≡ greatest (length lengths.now) (λ j. packets_of_section (slice_index_or lengths.now j 0)) }
{
    let mut most = 0;
    for j in 0..lengths.len() {
        most = most.max(packets_of_section(lengths[j]));
    }
    most
}

// Returns half of the packets of a table's round, less the packets of its longest section, and one more.
fn half_round(description: &Description, table: usize) -> u64
    requires { table < table_count description.now }
    ensures value { result ≡ suc (round_packets description.now table / 2 - spec.most_packets description.now table) }
    ensures bound { result ≤ 20000 }
{
    description.keeps_ranges();
    let half = description.round_packets(table) as u64 / 2;
    let lengths = description.section_lengths(table);
    half.saturating_sub(most_packets(lengths.as_slice())) + 1
}

// Returns the same as [`places_apart`], for a table of that kind.
fn kind_places(description: &Description, table: usize, kind: TableKind) -> u64
    requires { table < table_count description.now }
    ensures value { result ≡ spec.kind_places description.now table kind }
    ensures bound { result ≤ 20000 }
{
    match kind {
        TableKind::Eit => half_round(description, table),
        TableKind::Pat
        | TableKind::Pmt(_)
        | TableKind::Nit
        | TableKind::Sdt
        | TableKind::Tdt
        | TableKind::Private(_) => 1,
    }
}

/// Returns the least number of places from the last place of a section to the first place of the next section of its
/// sub-table.
pub fn places_apart(description: &Description, table: usize) -> u64
    requires { table < table_count description.now }
    ensures value { result ≡ spec.places_apart description.now table }
    ensures bound { result ≤ 20000 }
{
    match description.kind(table) {
        None => 1,
        Some(kind) => kind_places(description, table, kind),
    }
}

/// Checks part number `part` of the condition on a table that has it, with the least distance of own slots so many places
/// apart.
pub fn check_distance(
    description: &Description,
    table: usize,
    part: u8,
    slots: u64,
    search: &mut FailureSearch,
)
    requires spaced { spec.is_spaced description.now table ≡ true }
    requires few { table < 256 }
    ensures { search_of search.new ≡ after (search_of search.old) (spec.distance_entries part description.now table slots) }
{
    at_most(
        Condition::SectionDistance,
        part,
        table as u32,
        LEAST_DISTANCE * description.rate().bits_per_second() as u128 + SLOT_MS_AT_1BPS,
        slots as u128 * SLOT_MS_AT_1BPS,
        search,
    );
}

/// The sections of each sub-table keep their distance.
pub struct SectionDistances;

impl<A: Allocator> ItemCondition<ShapedPlan<'_, A>> for SectionDistances {
    type Item = TableKind;

    ghost items = { λ s. table_kinds s.description.now };

    ghost entries = { λ s t _. spec.section_distance_entries s.description.now s.plan.now t };

    fn count(plans: &ShapedPlan<'_, A>) -> usize {
        plans.description.tables()
    }

    fn check_item(plans: &ShapedPlan<'_, A>, i: usize, search: &mut FailureSearch) {
        if !is_spaced(plans.description, i) {
            return;
        }
        plans.description.keeps_ranges();
        let places = places_apart(plans.description, i);
        let gap = least_gap(&Period::of(plans.plan), Item::Table(i as u8), places);
        check_distance(plans.description, i, 0, gap, search);
    }
}
