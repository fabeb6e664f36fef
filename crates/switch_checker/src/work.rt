//! Work over a switch: what the first plan's period leaves in a buffer is at most what the second begins with, and a
//! buffer that has to be empty at least once a second (ISO/IEC 13818-1, 2.4.2.6) is so across the switch.

ghost use Rattle.std.specs.Prelude.{◌≡◌, ◌^◌, ◌<◌, ◌≤◌, ◌∷◌, [], Some, length};
ghost use Rattle.slot_plan.specs.Items.{marks};
ghost use Rattle.slot_plan.specs.SwitchConditions.{work_switch_entry, emptied_switch_entry, stream_work_entry};
ghost use Rattle.slot_plan.specs.SwitchConditions.{stream_work_entries, stream_emptied_switch_entries};
ghost use Rattle.slot_plan.specs.SwitchConditions.{transport_work_entry, system_work_entry};
ghost use Rattle.slot_plan.specs.SwitchConditions.{multiplexing_work_entries};
ghost use Rattle.description_parts.specs.Ranges.{IsStream};
ghost use Rattle.plan_checker.specs.Failing.{after, search_of};

use crate::plan_pair::PlanPair;
use clock27::SLOT_SECONDS_AT_1BPS;
use plan_checker::claims::{claim_of_multiplexing, claim_of_program, claim_of_stream};
use plan_checker::comparison::at_most;
use plan_checker::conditions::ItemCondition;
use plan_checker::failure_search::FailureSearch;
use plan_checker::{Period, empty_slots, work_of};
use slot_plan::{Condition, Item, ProgramDescription, Slot, StreamDescription};
use std::alloc::Allocator;
use unit_timing::buffers::{BSYS_DRAIN, SYSTEM_TB_DRAIN};
use unit_timing::multiplexing_buffer::MultiplexingBuffer;

/// Checks one buffer at the switch; takes its item and number, its drain and the works that both plans' periods begin
/// with.
fn work_switch(
    slots: &Period<'_>,
    item: Item,
    number: usize,
    rate: u64,
    drain: u64,
    start: u64,
    next_start: u64,
    search: &mut FailureSearch,
)
    requires short { length slots.now ≤ 65536 }
    requires number { number < 1000 }
    requires rate { rate ≤ 100000000 }
    requires drain { drain ≤ 200000000 }
    requires start { start < 10 ^ 18 }
    ensures { search_of search.new
        ≡ after (search_of search.old)
        (work_switch_entry number rate drain start (marks item slots.now) next_start ∷ []) }
{
    let left = work_of(slots, item, rate, drain, start).left;
    at_most(
        Condition::WorkSwitch,
        0,
        number as u32,
        left as u128,
        next_start as u128,
        search,
    );
}

/// Checks at the switch one buffer that has to be empty at least once a second; takes its item and number, its drain
/// and the works that both plans' periods begin with.
fn emptied_switch(
    slots: &[Slot],
    next_slots: &[Slot],
    item: Item,
    number: usize,
    rate: u64,
    drain: u64,
    start: u64,
    next_start: u64,
    search: &mut FailureSearch,
)
    requires short { length slots.now ≤ 65536 }
    requires next_short { length next_slots.now ≤ 65536 }
    requires number { number < 1000 }
    requires rate { rate ≤ 100000000 }
    requires drain { drain ≤ 200000000 }
    requires start { start < 10 ^ 18 }
    requires next_start { next_start < 10 ^ 18 }
    ensures { search_of search.new ≡ after (search_of search.old) (emptied_switch_entry number rate drain
        start (marks item slots.now) next_start (marks item next_slots.now) ∷ []) }
{
    let back = empty_slots(slots, item, rate, drain, start).back;
    let first = empty_slots(next_slots, item, rate, drain, next_start).first;
    at_most(
        Condition::WorkSwitch,
        1,
        number as u32,
        ((first + back) * SLOT_SECONDS_AT_1BPS) as u128,
        rate as u128,
        search,
    );
}

/// The transport buffers of the streams.
pub struct StreamWorks;

impl<A: Allocator> ItemCondition<PlanPair<'_, A>> for StreamWorks {
    type Item = StreamDescription;

    ghost items = { λ s. s.description.now.streams };

    ghost entries = { λ s i stream. stream_work_entries s.description.now s.first.now s.second.now i stream };

    fn count(plans: &PlanPair<'_, A>) -> usize {
        plans.description.streams().len()
    }

    fn check_item(plans: &PlanPair<'_, A>, i: usize, search: &mut FailureSearch) {
        stream_works(plans, i, &plans.description.streams()[i], search);
    }
}

/// Checks the transport buffer of one stream.
fn stream_works<A: Allocator>(
    plans: &PlanPair<'_, A>,
    i: usize,
    stream: &StreamDescription,
    search: &mut FailureSearch,
)
    requires stream { i < length plans.now.description.now.streams }
    requires index { i < 256 }
    requires ranges { IsStream stream.now }
    ensures { search_of search.new ≡ after (search_of search.old) (stream_work_entries
        plans.now.description.now plans.now.first.now plans.now.second.now i stream.now) }
{
    stream_work(plans, i, stream, search);
    stream_emptied(plans, i, stream, search);
}

/// Checks whether it is left with no more work than the second plan begins with.
fn stream_work<A: Allocator>(
    plans: &PlanPair<'_, A>,
    i: usize,
    stream: &StreamDescription,
    search: &mut FailureSearch,
)
    requires stream { i < length plans.now.description.now.streams }
    requires index { i < 256 }
    requires ranges { IsStream stream.now }
    ensures { search_of search.new ≡ after (search_of search.old) (stream_work_entry
        plans.now.description.now plans.now.first.now plans.now.second.now i stream.now ∷ []) }
{
    work_switch(
        &Period::of(plans.first),
        Item::Stream(i as u8),
        i,
        plans.description.rate().bits_per_second(),
        stream.rx as u64,
        claim_of_stream(plans.first, i).start,
        claim_of_stream(plans.second, i).start,
        search,
    );
}

/// Checks whether it is empty at least once a second across the switch, if there is a multiplexing buffer after it.
fn stream_emptied<A: Allocator>(
    plans: &PlanPair<'_, A>,
    i: usize,
    stream: &StreamDescription,
    search: &mut FailureSearch,
)
    requires stream { i < length plans.now.description.now.streams }
    requires index { i < 256 }
    requires ranges { IsStream stream.now }
    ensures { search_of search.new ≡ after (search_of search.old) (stream_emptied_switch_entries
        plans.now.description.now plans.now.first.now plans.now.second.now i stream.now stream.now.multiplexing) }
{
    let Some(_) = stream.multiplexing else {
        return;
    };
    emptied_switch(
        plans.first.slots(),
        plans.second.slots(),
        Item::Stream(i as u8),
        i,
        plans.description.rate().bits_per_second(),
        stream.rx as u64,
        claim_of_stream(plans.first, i).start,
        claim_of_stream(plans.second, i).start,
        search,
    );
}

/// The transport buffers of the programs' tables; their numbers follow the streams' numbers.
pub struct TransportWorks;

impl<A: Allocator> ItemCondition<PlanPair<'_, A>> for TransportWorks {
    type Item = ProgramDescription;

    ghost items = { λ s. s.description.now.programs };

    ghost entries = { λ s i _. transport_work_entry s.description.now s.first.now s.second.now i ∷ [] };

    fn count(plans: &PlanPair<'_, A>) -> usize {
        plans.description.programs().len()
    }

    fn check_item(plans: &PlanPair<'_, A>, i: usize, search: &mut FailureSearch) {
        plans.description.keeps_ranges();
        work_switch(
            &Period::of(plans.first),
            Item::System(i as u8),
            plans.description.streams().len() + i,
            plans.description.rate().bits_per_second(),
            SYSTEM_TB_DRAIN,
            claim_of_program(plans.first, i).transport_start,
            claim_of_program(plans.second, i).transport_start,
            search,
        );
    }
}

/// The system buffers of the programs; their numbers follow the transport buffers' numbers.
pub struct SystemWorks;

impl<A: Allocator> ItemCondition<PlanPair<'_, A>> for SystemWorks {
    type Item = ProgramDescription;

    ghost items = { λ s. s.description.now.programs };

    ghost entries = { λ s i _. system_work_entry s.description.now s.first.now s.second.now i ∷ [] };

    fn count(plans: &PlanPair<'_, A>) -> usize {
        plans.description.programs().len()
    }

    fn check_item(plans: &PlanPair<'_, A>, i: usize, search: &mut FailureSearch) {
        let streams = plans.description.streams().len();
        let programs = plans.description.programs().len();
        work_switch(
            &Period::of(plans.first),
            Item::System(i as u8),
            streams + programs + i,
            plans.description.rate().bits_per_second(),
            BSYS_DRAIN,
            claim_of_program(plans.first, i).system_start,
            claim_of_program(plans.second, i).system_start,
            search,
        );
    }
}

/// The multiplexing buffers of the streams that have one; their numbers follow the system buffers' numbers.
pub struct MultiplexingWorks;

impl<A: Allocator> ItemCondition<PlanPair<'_, A>> for MultiplexingWorks {
    type Item = StreamDescription;

    ghost items = { λ s. s.description.now.streams };

    ghost entries = { λ s i stream.
        multiplexing_work_entries s.description.now s.first.now s.second.now i stream.multiplexing };

    fn count(plans: &PlanPair<'_, A>) -> usize {
        plans.description.streams().len()
    }

    fn check_item(plans: &PlanPair<'_, A>, i: usize, search: &mut FailureSearch) {
        multiplexing_work(plans, i, &plans.description.streams()[i], search);
    }
}

/// Checks the multiplexing buffer of one stream, if it has one.
fn multiplexing_work<A: Allocator>(
    plans: &PlanPair<'_, A>,
    i: usize,
    stream: &StreamDescription,
    search: &mut FailureSearch,
)
    requires stream { i < length plans.now.description.now.streams }
    requires index { i < 256 }
    requires ranges { IsStream stream.now }
    ensures { search_of search.new ≡ after (search_of search.old) (multiplexing_work_entries
        plans.now.description.now plans.now.first.now plans.now.second.now i stream.now.multiplexing) }
{
    let Some(buffer) = stream.multiplexing else {
        return;
    };
    leaking_work(plans, i, stream, buffer, search);
}

/// Checks a multiplexing buffer.
#[tactic(auto, using(plan_checker::proofs::Leaks::leak_most))]
fn leaking_work<A: Allocator>(
    plans: &PlanPair<'_, A>,
    i: usize,
    stream: &StreamDescription,
    buffer: MultiplexingBuffer,
    search: &mut FailureSearch,
)
    requires stream { i < length plans.now.description.now.streams }
    requires index { i < 256 }
    requires ranges { IsStream stream.now }
    requires buffer { stream.now.multiplexing ≡ Some buffer }
    ensures { search_of search.new ≡ after (search_of search.old) (multiplexing_work_entries
        plans.now.description.now plans.now.first.now plans.now.second.now i (Some buffer)) }
{
    let rate = plans.description.rate().bits_per_second();
    let number = plans.description.streams().len() + 2 * plans.description.programs().len() + i;
    let item = Item::Stream(i as u8);
    let start = claim_of_multiplexing(plans.first, i).start;
    let next = claim_of_multiplexing(plans.second, i).start;
    let slots = plans.first.slots();
    let next_slots = plans.second.slots();
    let rbx = buffer.rbx as u64;
    work_switch(
        &Period::of(plans.first),
        item,
        number,
        rate,
        rbx,
        start,
        next,
        search,
    );
    emptied_switch(
        slots, next_slots, item, number, rate, rbx, start, next, search,
    );
}
