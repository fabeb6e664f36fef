//! The least claims that the slots of a period can make.

ghost use Rattle.std.specs.Prelude.{◌≡◌, ◌^◌, ◌<◌, ◌≤◌, IfOk, Some, None, true, length};
ghost use Rattle.std.specs.List.{list_all};
ghost use Rattle.description_parts.specs.Ranges.{IsStream};
ghost use Rattle.slot_plan.specs.Planned.{is_small_multiplexing, is_small_stream};
ghost use Rattle.slot_plan.specs.Planned.{is_small_program, plan_error};
ghost use Rattle.plan_maker.specs.Certificates.{multiplexing_entry_of, stream_entry_of, program_entry_of};
ghost use Rattle.plan_maker.specs.Certificates.{stream_entries_of};
ghost use Rattle.plan_maker.specs.Certificates.{program_entries_of, certificate_of, start_of, peak_of};
ghost use Rattle.plan_maker.specs.PlainPlan.{plan_of};

use plan_checker::{Period, spread_of, work_of};
use slot_plan::{
    Certificate, Description, Item, MultiplexingEntry, Plan, ProgramEntry, Slot, StreamDescription,
    StreamEntry, links_of,
};
use std::alloc::{AllocError, Allocator};
use unit_timing::buffers::{BSYS_DRAIN, SYSTEM_TB_DRAIN};

/// The work that a period of a buffer begins with, and the greatest work after one of its packets.
#[derive(Clone, Copy)]
struct BufferClaim {
    start: u64,
    peak: u64,
}

/// Returns the claim on a buffer that the item's slots fill: a period begins with what one leaves that began with
/// nothing.
fn claim(slots: &Period<'_>, item: Item, rate: u64, drain: u64) -> BufferClaim
    requires short { length slots.now ≤ 65536 }
    requires rate { rate ≤ 100000000 }
    requires drain { drain ≤ 200000000 }
    ensures start { result.start ≡ start_of rate drain item slots.now }
    ensures peak { result.peak ≡ peak_of rate drain item slots.now }
    ensures small_start { result.start < 10 ^ 18 }
    ensures small_peak { result.peak < 10 ^ 18 }
{
    let start = work_of(slots, item, rate, drain, 0).left;
    let peak = work_of(slots, item, rate, drain, start).most_after;
    BufferClaim { start, peak }
}

/// Returns the claim on the multiplexing buffer of stream number `i`, if it has one.
#[tactic(auto, using(plan_checker::proofs::Leaks::leak_most))]
fn multiplexing_entry(
    description: &Description,
    slots: &Period<'_>,
    i: usize,
    stream: &StreamDescription,
) -> Option<MultiplexingEntry>
    requires short { length slots.now ≤ 65536 }
    requires small { i < 256 }
    requires ranges { IsStream stream.now }
    ensures entry { result ≡ multiplexing_entry_of description.now slots.now i stream.now.multiplexing }
    ensures small { is_small_multiplexing result ≡ true }
{
    description.keeps_ranges();
    let buffer = stream.multiplexing?;
    let rate = description.rate().bits_per_second();
    let BufferClaim { start, peak } = claim(slots, Item::Stream(i as u8), rate, buffer.rbx as u64);
    Some(MultiplexingEntry { start, peak })
}

/// Returns the claim of stream number `i`.
fn stream_entry(
    description: &Description,
    slots: &Period<'_>,
    i: usize,
    stream: &StreamDescription,
) -> StreamEntry
    requires short { length slots.now ≤ 65536 }
    requires small { i < 256 }
    requires ranges { IsStream stream.now }
    ensures entry { result ≡ stream_entry_of description.now slots.now i stream.now }
    ensures small { is_small_stream result ≡ true }
{
    description.keeps_ranges();
    let item = Item::Stream(i as u8);
    let rate = description.rate().bits_per_second();
    let claim = claim(slots, item, rate, stream.rx as u64);
    StreamEntry {
        spread: spread_of(slots, item),
        start: claim.start,
        peak: claim.peak,
        multiplexing: multiplexing_entry(description, slots, i, stream),
    }
}

/// Returns the claim of program number `i`.
fn program_entry(description: &Description, slots: &Period<'_>, i: usize) -> ProgramEntry
    requires short { length slots.now ≤ 65536 }
    requires small { i < 256 }
    ensures entry { result ≡ program_entry_of description.now slots.now i }
    ensures small { is_small_program result ≡ true }
{
    description.keeps_ranges();
    let item = Item::System(i as u8);
    let rate = description.rate().bits_per_second();
    let transport = claim(slots, item, rate, SYSTEM_TB_DRAIN);
    let system = claim(slots, item, rate, BSYS_DRAIN);
    ProgramEntry {
        transport_start: transport.start,
        transport_peak: transport.peak,
        system_start: system.start,
        system_peak: system.peak,
    }
}

/// Returns the claims of all streams.
fn stream_entries<A: Allocator>(
    alloc: A,
    description: &Description,
    slots: &Period<'_>,
) -> Result<Vec<StreamEntry, A>, AllocError>
    requires short { length slots.now ≤ 65536 }
    ensures entries { IfOk result (λ entries. entries.items ≡ stream_entries_of description.now slots.now) }
    ensures small { IfOk result (λ entries. list_all is_small_stream entries.items ≡ true) }
{
    let mut entries = Vec::new(alloc);
    for (i, stream) in description.streams().iter().enumerate() {
        entries.push(stream_entry(description, slots, i, stream))?;
    }
    Ok(entries)
}

/// Returns the claims of all programs.
fn program_entries<A: Allocator>(
    alloc: A,
    description: &Description,
    slots: &Period<'_>,
) -> Result<Vec<ProgramEntry, A>, AllocError>
    requires short { length slots.now ≤ 65536 }
    ensures entries { IfOk result (λ entries. entries.items ≡ program_entries_of description.now slots.now) }
    ensures small { IfOk result (λ entries. list_all is_small_program entries.items ≡ true) }
{
    let mut entries = Vec::new(alloc);
    for i in 0..description.programs().len() {
        entries.push(program_entry(description, slots, i))?;
    }
    Ok(entries)
}

/// Returns the certificate of these slots.
fn certificate_of<A: Allocator + Clone>(
    alloc: A,
    description: &Description,
    slots: &Period<'_>,
) -> Result<Certificate<A>, AllocError>
    requires short { length slots.now ≤ 65536 }
    ensures certificate { IfOk result (λ c. c ≡ certificate_of description.now slots.now) }
    ensures fits { IfOk result (λ c. plan_error slots.now c ≡ None) }
{
    description.keeps_ranges();
    let streams = stream_entries(alloc.clone()?, description, slots)?;
    let programs = program_entries(alloc, description, slots)?;
    Ok(Certificate { streams, programs })
}

/// Returns the plan of these slots, with their certificate, and with links if memory suffices.
pub fn plan_of<A: Allocator + Clone>(
    alloc: &A,
    description: &Description,
    slots: Vec<Slot, A>,
) -> Result<Option<Plan<A>>, AllocError>
    requires short { length slots.items ≤ 65536 }
    ensures { IfOk result (λ plan. plan ≡ Some (plan_of description.now slots.items)) }
{
    let links = links_of(alloc.clone()?, &slots);
    let certificate = certificate_of(alloc.clone()?, description, &Period::linked(&slots, &links))?;
    match Plan::new(slots, certificate) {
        Ok(plan) => Ok(Some(plan.linked(links))),
        Err(_) => Ok(None),
    }
}
