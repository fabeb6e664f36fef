//! Main buffers over a switch: what waits for its decoding time finds room.

ghost use Rattle.std.specs.Prelude.{◌≡◌, ◌^◌, ◌<◌, ◌≤◌, ◌∷◌, [], length};
ghost use Rattle.description_parts.specs.Ranges.{IsStream};
ghost use Rattle.unit_timing.specs.Conditions.{bytes_across};
ghost use Rattle.slot_plan.specs.Claims.{led_declaration, stream_share};
ghost use Rattle.slot_plan.specs.SwitchConditions.{main_switch_entry, frame_switch_entries, if_changed};
ghost use Rattle.plan_checker.specs.Failing.{after, search_of};

use crate::continued::continues;
use crate::frames::frame_switches;
use crate::plan_pair::PlanPair;
use plan_checker::comparison::at_most;
use plan_checker::conditions::ItemCondition;
use plan_checker::failure_search::FailureSearch;
use plan_checker::main_buffers::sent_within;
use plan_checker::waiting_units::bytes_led;
use slot_plan::{Condition, StreamDescription};
use std::alloc::Allocator;

/// Returns the bytes that can wait at once across the switch if units are sent at most `lead` units of 90 kHz
/// before their decoding times.
pub fn bytes_across<A: Allocator>(
    plans: &PlanPair<'_, A>,
    i: usize,
    stream: &StreamDescription,
    lead: u64,
) -> u128
    requires stream { i < length plans.now.description.now.streams }
    requires index { i < 256 }
    requires ranges { IsStream stream.now }
    requires positive { 0 < lead }
    requires lead { lead ≤ 90000 }
    ensures bytes { result ≡ bytes_across plans.now.description.now.rate (led_declaration stream.now lead)
        (stream_share plans.now.first.now i) (stream_share plans.now.second.now i) }
    ensures bound { result < 2 ^ 73 }
{
    let by_units = bytes_led(stream, lead) as u128;
    let first = sent_within(plans.description, plans.first, i, lead);
    let second = sent_within(plans.description, plans.second, i, lead);
    by_units.min(first + second)
}

/// The main buffers of all streams (ISO/IEC 13818-1, 2.4.2.3).
pub struct MainSwitches;

impl<A: Allocator> ItemCondition<PlanPair<'_, A>> for MainSwitches {
    type Item = StreamDescription;

    ghost items = { λ s. s.description.now.streams };

    ghost entries = { λ s i stream. if_changed s.description.now s.first.now s.second.now i
        (main_switch_entry s.description.now s.first.now s.second.now i stream
        ∷ frame_switch_entries s.description.now s.first.now s.second.now i stream stream.framing) };

    fn count(plans: &PlanPair<'_, A>) -> usize {
        plans.description.streams().len()
    }

    fn check_item(plans: &PlanPair<'_, A>, i: usize, search: &mut FailureSearch) {
        changed_mains(plans, i, &plans.description.streams()[i], search);
    }
}

/// Checks the main buffer of one stream, if its own slots change.
fn changed_mains<A: Allocator>(
    plans: &PlanPair<'_, A>,
    i: usize,
    stream: &StreamDescription,
    search: &mut FailureSearch,
)
    requires stream { i < length plans.now.description.now.streams }
    requires index { i < 256 }
    requires ranges { IsStream stream.now }
    ensures { search_of search.new ≡ after (search_of search.old) (if_changed
        plans.now.description.now plans.now.first.now plans.now.second.now i
        (main_switch_entry plans.now.description.now plans.now.first.now plans.now.second.now i stream.now
        ∷ frame_switch_entries plans.now.description.now plans.now.first.now plans.now.second.now i stream.now
        stream.now.framing)) }
{
    if continues(plans, i) {
        return;
    }
    main_switches(plans, i, stream, search);
}

/// Checks the main buffer of one stream, for whole units and for their access units one by one.
fn main_switches<A: Allocator>(
    plans: &PlanPair<'_, A>,
    i: usize,
    stream: &StreamDescription,
    search: &mut FailureSearch,
)
    requires stream { i < length plans.now.description.now.streams }
    requires index { i < 256 }
    requires ranges { IsStream stream.now }
    ensures { search_of search.new ≡ after (search_of search.old) (
        main_switch_entry plans.now.description.now plans.now.first.now plans.now.second.now i stream.now
        ∷ frame_switch_entries plans.now.description.now plans.now.first.now plans.now.second.now i stream.now
        stream.now.framing) }
{
    main_switch(plans, i, stream, search);
    frame_switches(plans, i, stream, search);
}

/// Checks the main buffer of one stream, for whole units.
fn main_switch<A: Allocator>(
    plans: &PlanPair<'_, A>,
    i: usize,
    stream: &StreamDescription,
    search: &mut FailureSearch,
)
    requires stream { i < length plans.now.description.now.streams }
    requires index { i < 256 }
    requires ranges { IsStream stream.now }
    ensures { search_of search.new ≡ after (search_of search.old)
        (main_switch_entry plans.now.description.now plans.now.first.now plans.now.second.now i stream.now ∷ []) }
{
    let bytes = bytes_across(plans, i, stream, stream.lead as u64);
    at_most(
        Condition::MainSwitch,
        0,
        i as u32,
        bytes,
        stream.main as u128,
        search,
    );
}
