//! Access units that are removed from the main buffer one by one (ISO/IEC 13818-1, 2.4.2.3): the access units that are
//! left and the bytes of later units find room.

ghost use Rattle.std.specs.Prelude.{◌≡◌, ◌-◌, ◌*◌, ◌^◌, ◌<◌, ◌≤◌, ◌∷◌, [], length, slice_index_or};
ghost use Rattle.description_parts.specs.Ranges.{IsStream};
ghost use Rattle.unit_timing.specs.AccessUnits.{ahead_of, left_of, framed_waiting};
ghost use Rattle.slot_plan.specs.Claims.{declaration, stream_share};
ghost use Rattle.slot_plan.specs.Conditions.{entries_from, frame_entry, frame_entries};
ghost use Rattle.plan_checker.specs.Failing.{after, search_of};

use crate::comparison::at_most;
use crate::failure_search::FailureSearch;
use crate::main_buffers::bytes_waiting;
use crate::plans::ShapedPlan;
use slot_plan::{Condition, StreamDescription};
use std::alloc::Allocator;
use unit_timing::framing::{FrameDeclaration, LastBytes};

/// Returns how long after any moment with `left` access units of a unit left a later unit is due at the earliest, up to
/// the lead: units of 90 kHz.
pub fn ahead_of(stream: &StreamDescription, framing: FrameDeclaration, left: u8) -> u64
    ensures ahead { result ≡ ahead_of (declaration stream.now) framing left }
    ensures bound { result ≤ stream.now.lead }
{
    let others = left.saturating_sub(1) as u64 * framing.frame as u64;
    (framing.rest as u64 + others).min(stream.lead as u64)
}

// Returns a number of a list; 0 after its end.
fn number_at(numbers: &[u32], place: usize) -> u32
    ensures { result ≡ slice_index_or numbers.now place 0 }
{
    match numbers.get(place) {
        None => 0,
        Some(number) => *number,
    }
}

/// Returns the most bytes of the last `left` access units of a unit that has more.
pub fn left_of_unit(framing: FrameDeclaration, left: u8) -> u128
    ensures left { result ≡ left_of framing.left left }
    ensures bound { result < 2 ^ 40 }
{
    match framing.left {
        LastBytes::Each(size) => left as u128 * size as u128,
        LastBytes::Sums(sums) => number_at(&sums, left.saturating_sub(1) as usize) as u128,
    }
}

/// Returns the bytes that wait when `left` access units of a unit are left.
fn framed_waiting<A: Allocator>(
    plans: &ShapedPlan<'_, A>,
    i: usize,
    stream: &StreamDescription,
    framing: FrameDeclaration,
    left: u8,
) -> u128
    requires stream { i < length plans.now.description.now.streams }
    requires small { i < 256 }
    requires ranges { IsStream stream.now }
    ensures { result ≡ framed_waiting plans.now.description.now.rate (declaration stream.now)
        framing (stream_share plans.now.plan.now i) left }
{
    let bytes = left_of_unit(framing, left);
    let ahead = ahead_of(stream, framing, left);
    let lead = stream.lead as u64;
    if ahead < lead {
        bytes + bytes_waiting(plans, i, stream, lead - ahead)
    } else {
        bytes
    }
}

/// Looks at the access units of one stream, if its units have several.
pub fn frame_rooms<A: Allocator>(
    plans: &ShapedPlan<'_, A>,
    i: usize,
    stream: &StreamDescription,
    search: &mut FailureSearch,
)
    requires stream { i < length plans.now.description.now.streams }
    requires small { i < 256 }
    requires ranges { IsStream stream.now }
    ensures { search_of search.new ≡ after (search_of search.old) (frame_entries
        plans.now.description.now plans.now.plan.now i stream.now stream.now.framing) }
{
    let Some(framing) = stream.framing else {
        return;
    };
    framed_rooms(plans, i, stream, framing, search);
}

/// Checks the room when one access unit has been removed, and so on up to all but one.
fn framed_rooms<A: Allocator>(
    plans: &ShapedPlan<'_, A>,
    i: usize,
    stream: &StreamDescription,
    framing: FrameDeclaration,
    search: &mut FailureSearch,
)
    requires stream { i < length plans.now.description.now.streams }
    requires small { i < 256 }
    requires ranges { IsStream stream.now }
    ensures { search_of search.new ≡ after (search_of search.old) (entries_from (frame_entry
        plans.now.description.now plans.now.plan.now i stream.now framing) 1 (framing.frames - 1)) }
{
    let others = framing.frames.saturating_sub(1);
    for before in 0..others {
        frame_room(plans, i, stream, framing, before + 1, search);
    }
}

/// Checks the room of the main buffer when `gone` access units of a unit of most access units have been removed.
fn frame_room<A: Allocator>(
    plans: &ShapedPlan<'_, A>,
    i: usize,
    stream: &StreamDescription,
    framing: FrameDeclaration,
    gone: u8,
    search: &mut FailureSearch,
)
    requires stream { i < length plans.now.description.now.streams }
    requires small { i < 256 }
    requires ranges { IsStream stream.now }
    ensures { search_of search.new ≡ after (search_of search.old) (frame_entry
        plans.now.description.now plans.now.plan.now i stream.now framing gone ∷ []) }
{
    let left = framing.frames.saturating_sub(gone);
    let bytes = framed_waiting(plans, i, stream, framing, left);
    at_most(
        Condition::MainBuffer,
        gone,
        i as u32,
        bytes,
        stream.main as u128,
        search,
    );
}
