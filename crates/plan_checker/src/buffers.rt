//! Transport, system and multiplexing buffers never overflow (ISO/IEC 13818-1, 2.4.2.3). The transport buffer and the
//! multiplexing buffer of a stream that has both are empty at least once a second (2.4.2.6).

ghost use Rattle.std.specs.Prelude.{◌≡◌, ◌^◌, ◌<◌, ◌≤◌, ◌∷◌, [], Some, length};
ghost use Rattle.description_parts.specs.Ranges.{IsStream};
ghost use Rattle.unit_timing.specs.Buffers.{tb_size};
ghost use Rattle.slot_plan.specs.Items.{marks};
ghost use Rattle.slot_plan.specs.Claims.{stream_claim};
ghost use Rattle.slot_plan.specs.declared.condition.Condition.TheVariants.{TransportBuffer};
ghost use Rattle.slot_plan.specs.declared.slot.Item.TheVariants.{Stream};
ghost use Rattle.slot_plan.specs.Entries.{at_most};
ghost use Rattle.slot_plan.specs.Conditions.{buffer_entries, emptied_entries, stream_emptied_entries};
ghost use Rattle.slot_plan.specs.Conditions.{stream_buffer_entries, transport_buffer_entries, system_buffer_entries};
ghost use Rattle.slot_plan.specs.Conditions.{multiplexing_buffer_entries};
ghost use Rattle.plan_checker.specs.Failing.{after, search_of};

use crate::claims::{claim_of_multiplexing, claim_of_program, claim_of_stream};
use crate::comparison::at_most;
use crate::conditions::ItemCondition;
use crate::empties::empty_slots;
use crate::failure_search::FailureSearch;
use crate::period::Period;
use crate::plans::ShapedPlan;
use crate::work::{Work, work_of};
use clock27::SLOT_SECONDS_AT_1BPS;
use slot_plan::{Condition, Item, ProgramDescription, Slot, StreamDescription};
use std::alloc::Allocator;
use unit_timing::buffers::{BSYS_DRAIN, BSYS_SIZE, SYSTEM_TB_DRAIN, TB_SIZE};
use unit_timing::multiplexing_buffer::MultiplexingBuffer;

/// Checks the three parts of a buffer: a packet finds `room`, the work after it is at most `peak`, and a period
/// leaves at most the work `start` that it began with.
fn buffer(
    condition: Condition,
    item: u32,
    work: Work,
    room: u64,
    start: u64,
    peak: u64,
    search: &mut FailureSearch,
)
    ensures { search_of search.new ≡ after (search_of search.old) (
        at_most condition 1 item work.most_before room
        ∷ at_most condition 2 item work.most_after peak
        ∷ at_most condition 3 item work.left start ∷ []) }
{
    let (before, after) = (work.most_before as u128, work.most_after as u128);
    at_most(condition, 1, item, before, room as u128, search);
    at_most(condition, 2, item, after, peak as u128, search);
    at_most(condition, 3, item, work.left as u128, start as u128, search);
}

/// Checks two parts more of the buffer of stream number `i`, if it has to be empty at least once a second: it becomes
/// empty in some slot of a period, and the longest time from one such slot to the next is at most a second.
fn emptied(
    condition: Condition,
    i: usize,
    slots: &[Slot],
    rate: u64,
    drain: u64,
    start: u64,
    search: &mut FailureSearch,
)
    requires short { length slots.now ≤ 65536 }
    requires small { i < 256 }
    requires rate { rate ≤ 100000000 }
    requires drain { drain ≤ 200000000 }
    requires start { start < 10 ^ 18 }
    ensures { search_of search.new ≡ after (search_of search.old)
        (emptied_entries condition i rate drain start (marks (Stream i) slots.now)) }
{
    let empties = empty_slots(slots, Item::Stream(i as u8), rate, drain, start);
    let longest = empties.gap as u128 * SLOT_SECONDS_AT_1BPS as u128;
    at_most(condition, 4, i as u32, 1, empties.count as u128, search);
    at_most(condition, 5, i as u32, longest, rate as u128, search);
}

/// The transport buffer of each stream.
pub struct StreamBuffers;

impl<A: Allocator> ItemCondition<ShapedPlan<'_, A>> for StreamBuffers {
    type Item = StreamDescription;

    ghost items = { λ s. s.description.now.streams };

    ghost entries = { λ s. stream_buffer_entries s.description.now s.plan.now };

    fn count(plans: &ShapedPlan<'_, A>) -> usize {
        plans.description.streams().len()
    }

    fn check_item(plans: &ShapedPlan<'_, A>, i: usize, search: &mut FailureSearch) {
        stream_buffer(plans, i, &plans.description.streams()[i], search);
    }
}

/// Checks the transport buffer of one stream.
fn stream_buffer<A: Allocator>(
    plans: &ShapedPlan<'_, A>,
    i: usize,
    stream: &StreamDescription,
    search: &mut FailureSearch,
)
    requires stream { i < length plans.now.description.now.streams }
    requires small { i < 256 }
    requires ranges { IsStream stream.now }
    ensures { search_of search.new ≡ after (search_of search.old)
        (stream_buffer_entries plans.now.description.now plans.now.plan.now i stream.now) }
{
    stream_overflow(plans, i, stream, search);
    stream_emptied(plans, i, stream, search);
}

/// Checks whether it has room for each packet.
fn stream_overflow<A: Allocator>(
    plans: &ShapedPlan<'_, A>,
    i: usize,
    stream: &StreamDescription,
    search: &mut FailureSearch,
)
    requires stream { i < length plans.now.description.now.streams }
    requires small { i < 256 }
    requires ranges { IsStream stream.now }
    ensures { search_of search.new ≡ after (search_of search.old)
        (buffer_entries TransportBuffer i plans.now.description.now.rate stream.now.rx tb_size
        (stream_claim plans.now.plan.now i).start (stream_claim plans.now.plan.now i).peak
        (marks (Stream i) plans.now.plan.now.slots)) }
{
    let claim = claim_of_stream(plans.plan, i);
    let rate = plans.description.rate().bits_per_second();
    let item = Item::Stream(i as u8);
    let work = work_of(
        &Period::of(plans.plan),
        item,
        rate,
        stream.rx as u64,
        claim.start,
    );
    buffer(
        Condition::TransportBuffer,
        i as u32,
        work,
        TB_SIZE * rate,
        claim.start,
        claim.peak,
        search,
    );
}

/// Checks whether it is empty at least once a second, if there is a multiplexing buffer after it.
fn stream_emptied<A: Allocator>(
    plans: &ShapedPlan<'_, A>,
    i: usize,
    stream: &StreamDescription,
    search: &mut FailureSearch,
)
    requires stream { i < length plans.now.description.now.streams }
    requires small { i < 256 }
    requires ranges { IsStream stream.now }
    ensures { search_of search.new ≡ after (search_of search.old) (stream_emptied_entries
        plans.now.description.now plans.now.plan.now i stream.now stream.now.multiplexing) }
{
    let Some(_) = stream.multiplexing else {
        return;
    };
    emptied(
        Condition::TransportBuffer,
        i,
        plans.plan.slots(),
        plans.description.rate().bits_per_second(),
        stream.rx as u64,
        claim_of_stream(plans.plan, i).start,
        search,
    );
}

/// The transport buffer of each program's system packets; programs are counted on after the streams.
pub struct TransportBuffers;

impl<A: Allocator> ItemCondition<ShapedPlan<'_, A>> for TransportBuffers {
    type Item = ProgramDescription;

    ghost items = { λ s. s.description.now.programs };

    ghost entries = { λ s i _. transport_buffer_entries s.description.now s.plan.now i };

    fn count(plans: &ShapedPlan<'_, A>) -> usize {
        plans.description.programs().len()
    }

    fn check_item(plans: &ShapedPlan<'_, A>, i: usize, search: &mut FailureSearch) {
        let number = plans.description.streams().len() + i;
        let claim = claim_of_program(plans.plan, i);
        let start = claim.transport_start;
        let rate = plans.description.rate().bits_per_second();
        let item = Item::System(i as u8);
        let work = work_of(&Period::of(plans.plan), item, rate, SYSTEM_TB_DRAIN, start);
        buffer(
            Condition::TransportBuffer,
            number as u32,
            work,
            TB_SIZE * rate,
            start,
            claim.transport_peak,
            search,
        );
    }
}

/// The system buffer of each program.
pub struct SystemBuffers;

impl<A: Allocator> ItemCondition<ShapedPlan<'_, A>> for SystemBuffers {
    type Item = ProgramDescription;

    ghost items = { λ s. s.description.now.programs };

    ghost entries = { λ s i _. system_buffer_entries s.description.now s.plan.now i };

    fn count(plans: &ShapedPlan<'_, A>) -> usize {
        plans.description.programs().len()
    }

    fn check_item(plans: &ShapedPlan<'_, A>, i: usize, search: &mut FailureSearch) {
        plans.description.keeps_ranges();
        let claim = claim_of_program(plans.plan, i);
        let start = claim.system_start;
        let rate = plans.description.rate().bits_per_second();
        let item = Item::System(i as u8);
        let work = work_of(&Period::of(plans.plan), item, rate, BSYS_DRAIN, start);
        buffer(
            Condition::SystemBuffer,
            i as u32,
            work,
            BSYS_SIZE * rate,
            start,
            claim.system_peak,
            search,
        );
    }
}

/// The multiplexing buffer of each stream that has one.
pub struct MultiplexingBuffers;

impl<A: Allocator> ItemCondition<ShapedPlan<'_, A>> for MultiplexingBuffers {
    type Item = StreamDescription;

    ghost items = { λ s. s.description.now.streams };

    ghost entries = { λ s i stream.
        multiplexing_buffer_entries s.description.now s.plan.now i stream.multiplexing };

    fn count(plans: &ShapedPlan<'_, A>) -> usize {
        plans.description.streams().len()
    }

    fn check_item(plans: &ShapedPlan<'_, A>, i: usize, search: &mut FailureSearch) {
        multiplexing_buffer(plans, i, &plans.description.streams()[i], search);
    }
}

/// Checks the multiplexing buffer of one stream, if it has one.
fn multiplexing_buffer<A: Allocator>(
    plans: &ShapedPlan<'_, A>,
    i: usize,
    stream: &StreamDescription,
    search: &mut FailureSearch,
)
    requires stream { i < length plans.now.description.now.streams }
    requires small { i < 256 }
    requires ranges { IsStream stream.now }
    ensures { search_of search.new ≡ after (search_of search.old) (multiplexing_buffer_entries
        plans.now.description.now plans.now.plan.now i stream.now.multiplexing) }
{
    let Some(buffered) = stream.multiplexing else {
        return;
    };
    leaking_buffer(plans, i, stream, buffered, search);
}

/// Checks a multiplexing buffer.
#[tactic(auto, using(crate::proofs::Leaks::leak_most, crate::proofs::Leaks::size_most))]
fn leaking_buffer<A: Allocator>(
    plans: &ShapedPlan<'_, A>,
    i: usize,
    stream: &StreamDescription,
    buffered: MultiplexingBuffer,
    search: &mut FailureSearch,
)
    requires stream { i < length plans.now.description.now.streams }
    requires small { i < 256 }
    requires ranges { IsStream stream.now }
    requires buffered { stream.now.multiplexing ≡ Some buffered }
    ensures { search_of search.new ≡ after (search_of search.old) (multiplexing_buffer_entries
        plans.now.description.now plans.now.plan.now i (Some buffered)) }
{
    let claim = claim_of_multiplexing(plans.plan, i);
    let rate = plans.description.rate().bits_per_second();
    let drain = buffered.rbx as u64;
    let item = Item::Stream(i as u8);
    let work = work_of(&Period::of(plans.plan), item, rate, drain, claim.start);
    buffer(
        Condition::MultiplexingBuffer,
        i as u32,
        work,
        buffered.size as u64 * rate,
        claim.start,
        claim.peak,
        search,
    );
    let slots = plans.plan.slots();
    emptied(
        Condition::MultiplexingBuffer,
        i,
        slots,
        rate,
        drain,
        claim.start,
        search,
    );
}
