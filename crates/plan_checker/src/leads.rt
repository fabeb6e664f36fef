//! The units of a stream have left its transport buffer, and its multiplexing buffer if it has one, by their decoding
//! times.

ghost use Rattle.std.specs.Prelude.{◌≡◌, ◌^◌, ◌<◌, ◌≤◌, ◌∷◌, [], length};
ghost use Rattle.own_slots.specs.Period.{per_period};
ghost use Rattle.description_parts.specs.Ranges.{IsStream};
ghost use Rattle.description_parts.specs.Tables.{greatest_unit_packets};
ghost use Rattle.unit_timing.specs.Allowances.{allowance_rows};
ghost use Rattle.unit_timing.specs.Conditions.{packets_in_row};
ghost use Rattle.slot_plan.specs.Claims.{declaration, peaked_share};
ghost use Rattle.slot_plan.specs.Items.{marks};
ghost use Rattle.slot_plan.specs.Conditions.{entries_from, group_part, lead_entry, stream_lead_entry};
ghost use Rattle.slot_plan.specs.Conditions.{elementary_lead_entries};
ghost use Rattle.plan_checker.specs.Failing.{after, search_of};

use crate::claims::{claim_of_multiplexing, claim_of_stream};
use crate::comparison::at_most;
use crate::condition_terms::{time_given, time_needed};
use crate::conditions::ItemCondition;
use crate::failure_search::FailureSearch;
use crate::own_counts::own_count;
use crate::period::Period;
use crate::plans::ShapedPlan;
use slot_plan::{Condition, Item, StreamDescription};
use std::alloc::Allocator;
use unit_timing::allowance::Allowance;

/// Returns the packets of a stream's greatest unit, with the longest PES header of 19 bytes (ISO/IEC 13818-1, 2.4.3.7).
pub fn packets_of_unit(stream: &StreamDescription) -> u64
    ensures packets { result ≡ greatest_unit_packets stream.now }
    ensures bound { result < 2 ^ 32 }
{
    (19 + stream.size as u64).div_ceil(184)
}

/// Returns the most packets of `units` units in a row: at most the packets of a group. By pace it is the burst.
#[tactic(auto, using(description::proofs::Allowed::at_once_few))]
pub fn packets_in_row(stream: &StreamDescription, units: u8) -> u64
    ensures packets { result ≡ packets_in_row (declaration stream.now) units }
    ensures bound { IsStream stream.now → result ≤ 1391360 }
{
    match stream.allowance {
        Allowance::Groups { packets, .. } => {
            (units as u64 * packets_of_unit(stream)).min(packets as u64)
        }
        Allowance::Pace { burst, .. } => burst as u64,
    }
}

/// Returns the part of a condition on `units` units in a row: 0 if the stream has no groups.
pub fn group_part(stream: &StreamDescription, units: u8) -> u8
    ensures { result ≡ group_part stream.now units }
{
    if stream.allowance.rows() == 1 {
        0
    } else {
        units
    }
}

/// The way of a stream's packets to the buffer where they wait for their decoding time: the rate in bits a second of
/// the buffer before it, and the most work of this earlier buffer after an own slot.
#[derive(Clone, Copy)]
pub struct Way {
    pub drain: u64,
    pub peak: u64,
}

/// The units of each stream leave the transport buffer, one and up to a group in a row.
pub struct StreamLeads;

impl<A: Allocator> ItemCondition<ShapedPlan<'_, A>> for StreamLeads {
    type Item = StreamDescription;

    ghost items = { λ s. s.description.now.streams };

    ghost entries = { λ s i stream.
        entries_from (stream_lead_entry s.description.now s.plan.now i stream) 1 (allowance_rows stream.allowance) };

    fn count(plans: &ShapedPlan<'_, A>) -> usize {
        plans.description.streams().len()
    }

    fn check_item(plans: &ShapedPlan<'_, A>, i: usize, search: &mut FailureSearch) {
        stream_lead(plans, i, &plans.description.streams()[i], search);
    }
}

/// Checks the units of one stream.
fn stream_lead<A: Allocator>(
    plans: &ShapedPlan<'_, A>,
    i: usize,
    stream: &StreamDescription,
    search: &mut FailureSearch,
)
    requires stream { i < length plans.now.description.now.streams }
    requires small { i < 256 }
    requires ranges { IsStream stream.now }
    ensures { search_of search.new ≡ after (search_of search.old) (entries_from
        (stream_lead_entry plans.now.description.now plans.now.plan.now i stream.now) 1
        (allowance_rows stream.now.allowance)) }
{
    let way = Way {
        drain: stream.rx as u64,
        peak: claim_of_stream(plans.plan, i).peak,
    };
    row_leads(Condition::StreamLead, plans, i, stream, way, search);
}

/// The units of each stream with a multiplexing buffer are in its elementary stream buffer, one and up to a group in a
/// row (ISO/IEC 13818-1, 2.4.2.3).
pub struct ElementaryLeads;

impl<A: Allocator> ItemCondition<ShapedPlan<'_, A>> for ElementaryLeads {
    type Item = StreamDescription;

    ghost items = { λ s. s.description.now.streams };

    ghost entries = { λ s i stream.
        elementary_lead_entries s.description.now s.plan.now i stream stream.multiplexing };

    fn count(plans: &ShapedPlan<'_, A>) -> usize {
        plans.description.streams().len()
    }

    fn check_item(plans: &ShapedPlan<'_, A>, i: usize, search: &mut FailureSearch) {
        elementary_lead(plans, i, &plans.description.streams()[i], search);
    }
}

/// Checks the units of one stream, if it has a multiplexing buffer.
#[tactic(auto, using(crate::proofs::Leaks::leak_most))]
fn elementary_lead<A: Allocator>(
    plans: &ShapedPlan<'_, A>,
    i: usize,
    stream: &StreamDescription,
    search: &mut FailureSearch,
)
    requires stream { i < length plans.now.description.now.streams }
    requires small { i < 256 }
    requires ranges { IsStream stream.now }
    ensures { search_of search.new ≡ after (search_of search.old) (elementary_lead_entries
        plans.now.description.now plans.now.plan.now i stream.now stream.now.multiplexing) }
{
    let Some(buffer) = stream.multiplexing else {
        return;
    };
    let rate = plans.description.rate().bits_per_second();
    let way = Way {
        drain: buffer.rbx as u64,
        peak: claim_of_multiplexing(plans.plan, i).peak + rate,
    };
    row_leads(Condition::ElementaryLead, plans, i, stream, way, search);
}

/// Checks the units of one stream on one way.
fn row_leads<A: Allocator>(
    condition: Condition,
    plans: &ShapedPlan<'_, A>,
    i: usize,
    stream: &StreamDescription,
    way: Way,
    search: &mut FailureSearch,
)
    requires stream { i < length plans.now.description.now.streams }
    requires small { i < 256 }
    requires ranges { IsStream stream.now }
    requires drain { way.drain ≤ 200000000 }
    requires peak { way.peak < 2 ^ 60 }
    ensures { search_of search.new ≡ after (search_of search.old) (entries_from (lead_entry condition
        plans.now.description.now.rate way.drain (peaked_share plans.now.plan.now i way.peak) i stream.now) 1
        (allowance_rows stream.now.allowance)) }
{
    let count = own_count(&Period::of(plans.plan), Item::Stream(i as u8));
    for before in 0..stream.allowance.rows() {
        units_lead(condition, plans, i, stream, count, way, before + 1, search);
    }
}

/// Checks `units` units in a row of stream number `i`, which has `count` own slots a period, on one way.
#[tactic(auto, using(description::proofs::Allowed::rows_most))]
fn units_lead<A: Allocator>(
    condition: Condition,
    plans: &ShapedPlan<'_, A>,
    i: usize,
    stream: &StreamDescription,
    count: u64,
    way: Way,
    units: u8,
    search: &mut FailureSearch,
)
    requires stream { i < length plans.now.description.now.streams }
    requires small { i < 256 }
    requires ranges { IsStream stream.now }
    requires counted { count ≡ per_period (marks (Item.Stream i) plans.now.plan.now.slots) }
    requires bound { count ≤ 65536 }
    requires drain { way.drain ≤ 200000000 }
    requires peak { way.peak < 2 ^ 60 }
    requires positive { 0 < units }
    requires rows { units ≤ allowance_rows stream.now.allowance }
    ensures { search_of search.new ≡ after (search_of search.old) (lead_entry condition
        plans.now.description.now.rate way.drain (peaked_share plans.now.plan.now i way.peak) i stream.now units ∷ []) }
{
    let claim = claim_of_stream(plans.plan, i);
    let period = plans.plan.slots().len() as u64;
    let packets = packets_in_row(stream, units);
    let rate = plans.description.rate().bits_per_second();
    let slots = claim.spread as u128 + packets as u128 * period as u128 + count as u128;
    let needed = time_needed(slots, count as u128, way.drain, way.peak);
    let given = time_given(
        count as u128,
        stream.lead as u64,
        units as u64,
        stream.interval as u64,
        rate,
        way.drain,
    );
    let part = group_part(stream, units);
    at_most(condition, part, i as u32, needed, given, search);
}
