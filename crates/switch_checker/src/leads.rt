//! Deadlines over a switch: units that are sent across it have left the transport buffer, and the multiplexing buffer
//! if there is one, by their decoding times.

ghost use Rattle.std.specs.Prelude.{◌≡◌, ◌^◌, ◌<◌, ◌≤◌, ◌∷◌, [], length};
ghost use Rattle.description_parts.specs.Ranges.{IsStream};
ghost use Rattle.unit_timing.specs.Allowances.{allowance_rows};
ghost use Rattle.slot_plan.specs.Conditions.{entries_from};
ghost use Rattle.slot_plan.specs.SwitchConditions.{lead_switch_entry, elementary_switch_entries, if_changed};
ghost use Rattle.plan_checker.specs.Failing.{after, search_of};
ghost use Rattle.switch_checker.specs.SwitchShares.{switch_shares, elementary_shares};
ghost use Rattle.switch_checker.specs.SwitchShares.{deadline_entry, AreSharesInRange};

use crate::across::shift_of;
use crate::continued::continues;
use crate::plan_pair::PlanPair;
use crate::shares::{PlanShare, SwitchShares, slots_needed};
use plan_checker::claims::{claim_of_multiplexing, claim_of_stream};
use plan_checker::comparison::at_most;
use plan_checker::condition_terms::{time_given, time_needed};
use plan_checker::conditions::ItemCondition;
use plan_checker::failure_search::FailureSearch;
use plan_checker::leads::group_part;
use plan_checker::{Period, own_count, packets_in_row};
use slot_plan::{Condition, Item, StreamDescription};
use std::alloc::Allocator;

/// The deadlines of all streams, of one and up to a group of units in a row.
pub struct LeadSwitches;

impl<A: Allocator> ItemCondition<PlanPair<'_, A>> for LeadSwitches {
    type Item = StreamDescription;

    ghost items = { λ s. s.description.now.streams };

    ghost entries = { λ s i stream. if_changed s.description.now s.first.now s.second.now i
        (entries_from (lead_switch_entry s.description.now s.first.now s.second.now i stream) 1
        (allowance_rows stream.allowance)) };

    fn count(plans: &PlanPair<'_, A>) -> usize {
        plans.description.streams().len()
    }

    fn check_item(plans: &PlanPair<'_, A>, i: usize, search: &mut FailureSearch) {
        lead_switch(plans, i, &plans.description.streams()[i], search);
    }
}

/// Checks the deadlines of one stream at its transport buffer, if its own slots change.
fn lead_switch<A: Allocator>(
    plans: &PlanPair<'_, A>,
    i: usize,
    stream: &StreamDescription,
    search: &mut FailureSearch,
)
    requires stream { i < length plans.now.description.now.streams }
    requires index { i < 256 }
    requires ranges { IsStream stream.now }
    ensures { search_of search.new ≡ after (search_of search.old) (if_changed
        plans.now.description.now plans.now.first.now plans.now.second.now i
        (entries_from (lead_switch_entry plans.now.description.now plans.now.first.now
        plans.now.second.now i stream.now)
        1 (allowance_rows stream.now.allowance))) }
{
    if continues(plans, i) {
        return;
    }
    let rate = plans.description.rate().bits_per_second();
    let shares = shares_of(plans, i);
    row_switches(
        Condition::LeadSwitch,
        rate,
        stream.rx as u64,
        stream,
        i,
        shares,
        search,
    );
}

/// The deadlines of all streams with a multiplexing buffer, at the elementary stream buffer (ISO/IEC 13818-1, 2.4.2.3).
pub struct ElementarySwitches;

impl<A: Allocator> ItemCondition<PlanPair<'_, A>> for ElementarySwitches {
    type Item = StreamDescription;

    ghost items = { λ s. s.description.now.streams };

    ghost entries = { λ s i stream. if_changed s.description.now s.first.now s.second.now i
        (elementary_switch_entries s.description.now s.first.now s.second.now i stream stream.multiplexing) };

    fn count(plans: &PlanPair<'_, A>) -> usize {
        plans.description.streams().len()
    }

    fn check_item(plans: &PlanPair<'_, A>, i: usize, search: &mut FailureSearch) {
        changed_elementary(plans, i, &plans.description.streams()[i], search);
    }
}

/// Checks the deadlines of one stream at its elementary stream buffer, if its own slots change.
fn changed_elementary<A: Allocator>(
    plans: &PlanPair<'_, A>,
    i: usize,
    stream: &StreamDescription,
    search: &mut FailureSearch,
)
    requires stream { i < length plans.now.description.now.streams }
    requires index { i < 256 }
    requires ranges { IsStream stream.now }
    ensures { search_of search.new ≡ after (search_of search.old) (if_changed
        plans.now.description.now plans.now.first.now plans.now.second.now i
        (elementary_switch_entries plans.now.description.now plans.now.first.now plans.now.second.now i stream.now
        stream.now.multiplexing)) }
{
    if continues(plans, i) {
        return;
    }
    elementary_switch(plans, i, stream, search);
}

/// Checks the deadlines of one stream at its elementary stream buffer, if it has a multiplexing buffer.
#[tactic(auto, using(plan_checker::proofs::Leaks::leak_most))]
fn elementary_switch<A: Allocator>(
    plans: &PlanPair<'_, A>,
    i: usize,
    stream: &StreamDescription,
    search: &mut FailureSearch,
)
    requires stream { i < length plans.now.description.now.streams }
    requires index { i < 256 }
    requires ranges { IsStream stream.now }
    ensures { search_of search.new ≡ after (search_of search.old) (elementary_switch_entries
        plans.now.description.now plans.now.first.now plans.now.second.now i stream.now stream.now.multiplexing) }
{
    let Some(buffer) = stream.multiplexing else {
        return;
    };
    let rate = plans.description.rate().bits_per_second();
    let shares = elementary_shares_of(plans, i);
    row_switches(
        Condition::ElementarySwitch,
        rate,
        buffer.rbx as u64,
        stream,
        i,
        shares,
        search,
    );
}

/// Returns the own slots of stream number `i` in the two plans.
fn shares_of<A: Allocator>(plans: &PlanPair<'_, A>, i: usize) -> SwitchShares
    requires { i < length plans.now.description.now.streams }
    ensures shares { result ≡ switch_shares plans.now.first.now plans.now.second.now i }
    ensures in_range { AreSharesInRange result }
    ensures spread { result.first.spread < 2 ^ 33 }
    ensures next_spread { result.second.spread < 2 ^ 33 }
{
    plans.description.keeps_ranges();
    let (first, second) = (plans.first, plans.second);
    let item = Item::Stream(i as u8);
    let claim = claim_of_stream(first, i);
    let next_claim = claim_of_stream(second, i);
    SwitchShares {
        first: PlanShare {
            count: own_count(&Period::of(first), item),
            period: first.slots().len() as u64,
            spread: claim.spread,
            peak: claim.peak,
        },
        second: PlanShare {
            count: own_count(&Period::of(second), item),
            period: second.slots().len() as u64,
            spread: next_claim.spread,
            peak: next_claim.peak,
        },
        shift: shift_of(&Period::of(first), &Period::of(second), item),
    }
}

/// Returns the same with the work that is still before the elementary stream buffer after an own slot.
fn elementary_shares_of<A: Allocator>(plans: &PlanPair<'_, A>, i: usize) -> SwitchShares
    requires { i < length plans.now.description.now.streams }
    ensures shares { result
        ≡ elementary_shares plans.now.description.now.rate plans.now.first.now plans.now.second.now i }
    ensures in_range { AreSharesInRange result }
    ensures spread { result.first.spread < 2 ^ 33 }
    ensures next_spread { result.second.spread < 2 ^ 33 }
{
    plans.description.keeps_ranges();
    let rate = plans.description.rate().bits_per_second();
    let shares = shares_of(plans, i);
    let claim = claim_of_multiplexing(plans.first, i);
    let next_claim = claim_of_multiplexing(plans.second, i);
    SwitchShares {
        first: shares.first.peaked(claim.peak + rate),
        second: shares.second.peaked(next_claim.peak + rate),
        shift: shares.shift,
    }
}

/// Checks the deadlines of one stream, behind a buffer with that drain in bits a second.
fn row_switches(
    condition: Condition,
    rate: u64,
    drain: u64,
    stream: &StreamDescription,
    i: usize,
    shares: SwitchShares,
    search: &mut FailureSearch,
)
    requires rate { rate ≤ 100000000 }
    requires drain { drain ≤ 200000000 }
    requires stream { IsStream stream.now }
    requires index { i < 256 }
    requires in_range { AreSharesInRange shares }
    requires spread { shares.first.spread < 2 ^ 33 }
    requires next_spread { shares.second.spread < 2 ^ 33 }
    ensures { search_of search.new
        ≡ after (search_of search.old) (entries_from (deadline_entry condition rate drain shares i stream.now) 1
        (allowance_rows stream.now.allowance)) }
{
    for before in 0..stream.allowance.rows() {
        deadline(
            condition,
            rate,
            drain,
            stream,
            i,
            shares,
            before + 1,
            search,
        );
    }
}

/// Checks the deadline of the last of `units` units in a row, behind that buffer.
#[tactic(auto, using(description::proofs::Allowed::rows_most))]
fn deadline(
    condition: Condition,
    rate: u64,
    drain: u64,
    stream: &StreamDescription,
    i: usize,
    shares: SwitchShares,
    units: u8,
    search: &mut FailureSearch,
)
    requires rate { rate ≤ 100000000 }
    requires drain { drain ≤ 200000000 }
    requires stream { IsStream stream.now }
    requires index { i < 256 }
    requires in_range { AreSharesInRange shares }
    requires spread { shares.first.spread < 2 ^ 33 }
    requires next_spread { shares.second.spread < 2 ^ 33 }
    requires positive { 0 < units }
    requires units { units ≤ allowance_rows stream.now.allowance }
    ensures { search_of search.new
        ≡ after (search_of search.old) (deadline_entry condition rate drain shares i stream.now units ∷ []) }
{
    let packets = packets_in_row(stream, units);
    let count = shares.first.count as u128 * shares.second.count as u128;
    let slots = slots_needed(shares, packets);
    let peak = shares.first.peak.max(shares.second.peak);
    at_most(
        condition,
        group_part(stream, units),
        i as u32,
        time_needed(slots, count, drain, peak),
        time_given(
            count,
            stream.lead as u64,
            units as u64,
            stream.interval as u64,
            rate,
            drain,
        ),
        search,
    );
}
