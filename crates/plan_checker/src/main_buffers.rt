//! The bytes that wait for their decoding time find room in the main buffer (ISO/IEC 13818-1, 2.4.2.3).

ghost use Rattle.std.specs.Prelude.{◌≡◌, ◌^◌, ◌<◌, ◌≤◌, ◌∷◌, [], length};
ghost use Rattle.description_parts.specs.Ranges.{IsStream};
ghost use Rattle.unit_timing.specs.Conditions.{waiting_slots, bytes_by_units, bytes_waiting};
ghost use Rattle.slot_plan.specs.Claims.{declaration, led_declaration, stream_share};
ghost use Rattle.slot_plan.specs.Conditions.{main_buffer_entry, frame_entries};
ghost use Rattle.slot_plan.specs.Shape.{IsShaped};
ghost use Rattle.plan_checker.specs.Failing.{after, search_of};
ghost use Rattle.plan_checker.specs.SentBytes.{sent_within};

use crate::claims::claim_of_stream;
use crate::comparison::at_most;
use crate::condition_terms::{slots_of_time, slots_within};
use crate::conditions::ItemCondition;
use crate::failure_search::FailureSearch;
use crate::frames::frame_rooms;
use crate::own_counts::own_count;
use crate::period::Period;
use crate::plans::ShapedPlan;
use crate::waiting_units::bytes_led;
use slot_plan::{Condition, Description, Item, Plan, StreamDescription};
use std::alloc::Allocator;

/// Returns the slots that carry the packets of units that can wait at once.
pub fn waiting_slots(description: &Description, stream: &StreamDescription) -> u64
    requires ranges { IsStream stream.now }
    ensures slots { result ≡ waiting_slots description.now.rate (declaration stream.now) }
    ensures positive { 0 < result }
    ensures bound { result ≤ 2 ^ 32 }
{
    slots_of_time(stream.lead as u64, description.rate().bits_per_second())
}

/// Returns the bytes of units that can wait at once: by the sizes of the units or by their packets, the smaller.
pub fn bytes_by_units(stream: &StreamDescription) -> u64
    requires ranges { IsStream stream.now }
    ensures bytes { result ≡ bytes_by_units (declaration stream.now) }
{
    bytes_led(stream, stream.lead as u64)
}

/// Returns the most bytes that the own slots of stream number `i` carry in `time` units of 90 kHz.
pub fn sent_within<A: Allocator>(
    description: &Description,
    plan: &Plan<A>,
    i: usize,
    time: u64,
) -> u128
    requires shaped { IsShaped description.now plan.now }
    requires stream { i < length description.now.streams }
    requires small { i < 256 }
    requires positive { 0 < time }
    requires time { time ≤ 90000 }
    ensures bytes { result ≡ sent_within description.now plan.now i time }
    ensures bound { result < 2 ^ 72 }
{
    let slots = &Period::of(plan);
    let count = own_count(slots, Item::Stream(i as u8));
    let spread = claim_of_stream(plan, i).spread;
    let window = slots_of_time(time, description.rate().bits_per_second());
    184 * slots_within(count, slots.len() as u64, spread, window)
}

/// Returns the bytes that can wait at once if units are sent at most `lead` units of 90 kHz before their
/// decoding times.
pub fn bytes_waiting<A: Allocator>(
    plans: &ShapedPlan<'_, A>,
    i: usize,
    stream: &StreamDescription,
    lead: u64,
) -> u128
    requires stream { i < length plans.now.description.now.streams }
    requires small { i < 256 }
    requires ranges { IsStream stream.now }
    requires positive { 0 < lead }
    requires lead { lead ≤ 90000 }
    ensures bytes { result ≡ bytes_waiting plans.now.description.now.rate (led_declaration stream.now lead)
        (stream_share plans.now.plan.now i) }
    ensures bound { result < 2 ^ 72 }
{
    let by_units = bytes_led(stream, lead) as u128;
    by_units.min(sent_within(plans.description, plans.plan, i, lead))
}

/// The main buffer of each stream.
pub struct MainBuffers;

impl<A: Allocator> ItemCondition<ShapedPlan<'_, A>> for MainBuffers {
    type Item = StreamDescription;

    ghost items = { λ s. s.description.now.streams };

    ghost entries = { λ s i stream.
        main_buffer_entry s.description.now s.plan.now i stream
        ∷ frame_entries s.description.now s.plan.now i stream stream.framing };

    fn count(plans: &ShapedPlan<'_, A>) -> usize {
        plans.description.streams().len()
    }

    fn check_item(plans: &ShapedPlan<'_, A>, i: usize, search: &mut FailureSearch) {
        main_rooms(plans, i, &plans.description.streams()[i], search);
    }
}

/// Checks the main buffer of one stream, for whole units and for their access units one by one.
fn main_rooms<A: Allocator>(
    plans: &ShapedPlan<'_, A>,
    i: usize,
    stream: &StreamDescription,
    search: &mut FailureSearch,
)
    requires stream { i < length plans.now.description.now.streams }
    requires small { i < 256 }
    requires ranges { IsStream stream.now }
    ensures { search_of search.new ≡ after (search_of search.old) (
        main_buffer_entry plans.now.description.now plans.now.plan.now i stream.now
        ∷ frame_entries plans.now.description.now plans.now.plan.now i stream.now stream.now.framing) }
{
    main_room(plans, i, stream, search);
    frame_rooms(plans, i, stream, search);
}

/// Checks the main buffer of one stream, for whole units.
fn main_room<A: Allocator>(
    plans: &ShapedPlan<'_, A>,
    i: usize,
    stream: &StreamDescription,
    search: &mut FailureSearch,
)
    requires stream { i < length plans.now.description.now.streams }
    requires small { i < 256 }
    requires ranges { IsStream stream.now }
    ensures { search_of search.new ≡ after (search_of search.old)
        (main_buffer_entry plans.now.description.now plans.now.plan.now i stream.now ∷ []) }
{
    let bytes = bytes_waiting(plans, i, stream, stream.lead as u64);
    at_most(
        Condition::MainBuffer,
        0,
        i as u32,
        bytes,
        stream.main as u128,
        search,
    );
}
