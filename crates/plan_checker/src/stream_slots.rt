//! The slots of a stream: spread as claimed, and enough for its units.

ghost use Rattle.std.specs.Prelude.{◌≡◌, ◌*◌, ◌≤◌, ◌∷◌, []};
ghost use Rattle.unit_timing.specs.Allowances.{steady_packets, steady_time};
ghost use Rattle.description_parts.specs.Ranges.{IsStream};
ghost use Rattle.slot_plan.specs.Conditions.{spread_entry, stream_rate_entry};

use crate::claims::claim_of_stream;
use crate::comparison::at_most;
use crate::condition_terms::{rate_given, rate_needed};
use crate::conditions::ItemCondition;
use crate::failure_search::FailureSearch;
use crate::own_counts::own_count;
use crate::period::Period;
use crate::plans::ShapedPlan;
use crate::spread::spread_of;
use clock27::SLOT_UNITS_AT_1BPS;
use slot_plan::{Condition, Item, StreamDescription};
use std::alloc::Allocator;
use unit_timing::allowance::Allowance;

/// The own slots of each stream stray from even spacing by no more than claimed.
pub struct Spreads;

impl<A: Allocator> ItemCondition<ShapedPlan<'_, A>> for Spreads {
    type Item = StreamDescription;

    ghost items = { λ s. s.description.now.streams };

    ghost entries = { λ s i _. spread_entry s.plan.now i ∷ [] };

    fn count(plans: &ShapedPlan<'_, A>) -> usize {
        plans.description.streams().len()
    }

    fn check_item(plans: &ShapedPlan<'_, A>, i: usize, search: &mut FailureSearch) {
        plans.description.keeps_ranges();
        let spread = spread_of(&Period::of(plans.plan), Item::Stream(i as u8));
        let claimed = claim_of_stream(plans.plan, i).spread;
        at_most(
            Condition::Spread,
            0,
            i as u32,
            spread as u128,
            claimed as u128,
            search,
        );
    }
}

/// Returns the packets of a stream in the time of [`steady_time`] in the long run, each counted as 135,360,000: the
/// packets of a group of units. By pace it is the pace, in bits a second.
#[tactic(auto, using(description::proofs::Allowed::steady_some, description::proofs::Allowed::steady_few))]
pub fn steady_packets(stream: &StreamDescription) -> u64
    ensures packets { result ≡ steady_packets stream.now.allowance }
    ensures some { IsStream stream.now → 1 ≤ result }
    ensures bound { IsStream stream.now → result ≤ 1391360 * 135360000 }
{
    match stream.allowance {
        Allowance::Groups { packets, .. } => packets as u64 * SLOT_UNITS_AT_1BPS as u64,
        Allowance::Pace { pace, .. } => pace as u64,
    }
}

/// Returns the time of [`steady_packets`], in units of 90 kHz: the time of a group of units. By pace it is 1.
#[tactic(auto, using(description::proofs::Allowed::time_some, description::proofs::Allowed::time_few))]
pub fn steady_time(stream: &StreamDescription) -> u64
    ensures time { result ≡ steady_time stream.now.allowance stream.now.interval }
    ensures some { IsStream stream.now → 1 ≤ result }
    ensures bound { IsStream stream.now → result ≤ 5760000 }
{
    match stream.allowance {
        Allowance::Groups { units, .. } => units as u64 * stream.interval as u64,
        Allowance::Pace { .. } => 1,
    }
}

/// Each stream has slots enough for the packets of its units in the long run.
pub struct StreamRates;

impl<A: Allocator> ItemCondition<ShapedPlan<'_, A>> for StreamRates {
    type Item = StreamDescription;

    ghost items = { λ s. s.description.now.streams };

    ghost entries = { λ s i stream. stream_rate_entry s.description.now s.plan.now i stream ∷ [] };

    fn count(plans: &ShapedPlan<'_, A>) -> usize {
        plans.description.streams().len()
    }

    fn check_item(plans: &ShapedPlan<'_, A>, i: usize, search: &mut FailureSearch) {
        let stream = &plans.description.streams()[i];
        let slots = &Period::of(plans.plan);
        let count = own_count(slots, Item::Stream(i as u8));
        let rate = plans.description.rate().bits_per_second();
        let needed = rate_needed(steady_packets(stream), slots.len() as u64);
        let given = rate_given(count, steady_time(stream), rate);
        at_most(Condition::StreamRate, 0, i as u32, needed, given, search);
    }
}
