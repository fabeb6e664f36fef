//! Access units that are removed from the main buffer one by one, across a switch: the access units that are left and
//! the bytes of later units find room.

ghost use Rattle.std.specs.Prelude.{◌≡◌, ◌-◌, ◌<◌, ◌∷◌, [], length};
ghost use Rattle.description_parts.specs.Ranges.{IsStream};
ghost use Rattle.unit_timing.specs.AccessUnits.{framed_across};
ghost use Rattle.slot_plan.specs.Claims.{declaration, stream_share};
ghost use Rattle.slot_plan.specs.Conditions.{entries_from};
ghost use Rattle.slot_plan.specs.SwitchConditions.{frame_switch_entry, frame_switch_entries};
ghost use Rattle.plan_checker.specs.Failing.{after, search_of};

use crate::main_buffers::bytes_across;
use crate::plan_pair::PlanPair;
use plan_checker::comparison::at_most;
use plan_checker::failure_search::FailureSearch;
use plan_checker::{ahead_of, left_of_unit};
use slot_plan::{Condition, StreamDescription};
use std::alloc::Allocator;
use unit_timing::framing::FrameDeclaration;

/// Returns what waits across the switch when `left` access units of a unit are left.
fn framed_across<A: Allocator>(
    plans: &PlanPair<'_, A>,
    i: usize,
    stream: &StreamDescription,
    framing: FrameDeclaration,
    left: u8,
) -> u128
    requires stream { i < length plans.now.description.now.streams }
    requires index { i < 256 }
    requires ranges { IsStream stream.now }
    ensures { result ≡ framed_across plans.now.description.now.rate (declaration stream.now)
        framing (stream_share plans.now.first.now i)
        (stream_share plans.now.second.now i) left }
{
    let bytes = left_of_unit(framing, left);
    let ahead = ahead_of(stream, framing, left);
    let lead = stream.lead as u64;
    if ahead < lead {
        bytes + bytes_across(plans, i, stream, lead - ahead)
    } else {
        bytes
    }
}

/// Looks at the access units of one stream, if its units have several.
pub fn frame_switches<A: Allocator>(
    plans: &PlanPair<'_, A>,
    i: usize,
    stream: &StreamDescription,
    search: &mut FailureSearch,
)
    requires stream { i < length plans.now.description.now.streams }
    requires index { i < 256 }
    requires ranges { IsStream stream.now }
    ensures { search_of search.new ≡ after (search_of search.old) (frame_switch_entries
        plans.now.description.now plans.now.first.now plans.now.second.now i stream.now stream.now.framing) }
{
    let Some(framing) = stream.framing else {
        return;
    };
    framed_switches(plans, i, stream, framing, search);
}

/// Checks the room when one access unit has been removed, and so on up to all but one.
fn framed_switches<A: Allocator>(
    plans: &PlanPair<'_, A>,
    i: usize,
    stream: &StreamDescription,
    framing: FrameDeclaration,
    search: &mut FailureSearch,
)
    requires stream { i < length plans.now.description.now.streams }
    requires index { i < 256 }
    requires ranges { IsStream stream.now }
    ensures { search_of search.new ≡ after (search_of search.old) (entries_from (frame_switch_entry
        plans.now.description.now plans.now.first.now plans.now.second.now i stream.now framing) 1
        (framing.frames - 1)) }
{
    let others = framing.frames.saturating_sub(1);
    for before in 0..others {
        frame_switch(plans, i, stream, framing, before + 1, search);
    }
}

/// Checks the room of the main buffer over both plans when `gone` access units of a unit of most access units have been
/// removed.
fn frame_switch<A: Allocator>(
    plans: &PlanPair<'_, A>,
    i: usize,
    stream: &StreamDescription,
    framing: FrameDeclaration,
    gone: u8,
    search: &mut FailureSearch,
)
    requires stream { i < length plans.now.description.now.streams }
    requires index { i < 256 }
    requires ranges { IsStream stream.now }
    ensures { search_of search.new ≡ after (search_of search.old) (frame_switch_entry
        plans.now.description.now plans.now.first.now plans.now.second.now i stream.now framing gone ∷ []) }
{
    let left = framing.frames.saturating_sub(gone);
    let bytes = framed_across(plans, i, stream, framing, left);
    at_most(
        Condition::MainSwitch,
        gone,
        i as u32,
        bytes,
        stream.main as u128,
        search,
    );
}
