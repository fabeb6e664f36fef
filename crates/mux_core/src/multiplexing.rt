//! A whole job at once: all units are fed before the first slot, and then a number of slots is written.

ghost use Rattle.std.specs.Prelude.{◌≡◌, ◌≤◌, ◌*◌, ◌^◌, ℕ, false, List, [], Option, None, IfOk, IfErr, OnOk, OnErr};
ghost use Rattle.counted_io.specs.Device.{Failed};
ghost use Rattle.pes_packet.specs.Units.{units_of};
ghost use Rattle.mux_core.specs.Headline.{Headline};
ghost use Rattle.mux_core.specs.MeasuredRuns.{MeasuresWell};
ghost use Rattle.mux_core.specs.Histories.{History, content_over, bytes_of, empty_history};
ghost use Rattle.mux_core.specs.MuxStates.{Represents};
ghost use Rattle.mux_core.specs.Buffer.{waiting_of, IsOutput, Took};
ghost use Rattle.mux_core.specs.WholeJobs.{plan_schedule, switch_schedule, job_history, slots_cause};
ghost use Rattle.mux_core.specs.WholeJobs.{switch_slots_cause, job_cause, capacity_for, max_stream_units};
ghost use Rattle.mux_core.specs.WholeJobs.{run_output, output_of, slot_size, FeedsAll, WritesAll, Refuses, Writes};
ghost use Rattle.mux_core.specs.WholeJobs.{OnWriting, NamesWriter};

use crate::making::is_periods;
use crate::multiplexer::{MAX_SLOTS, Mux};
use crate::room::{MAX_CAPACITY, Room};
use crate::{OutputFault, PacketOutput};
use counted_io::Sink;
use pes_packet::Unit;
use plan_checker::CheckedPlan;
use std::alloc::Allocator;
use std::collections::VecDeque;
use switch_checker::CheckedSwitch;
use thiserror::Error;
use unit_queue::FeedError;

/// Why a job was not written to its end. The first that holds is given.
#[derive(Clone, Copy, Debug, PartialEq, Eq, Error)]
pub enum MuxError {
    /// More than 2^40 slots are asked for. Nothing is written.
    #[error("more than 2^40 slots are asked for")]
    TooManySlots,
    /// The first plan runs for no period, or for more than 2^40 slots. Nothing is written.
    #[error("the first plan runs for no period, or for more than 2^40 slots")]
    Periods,
    /// A unit is refused. Nothing is written.
    #[error("unit {index} is refused: {cause}")]
    Feed { index: u64, cause: FeedError },
    /// The writer failed. It took exactly the first `sent` bytes of the output.
    #[error("the writer failed after {sent} bytes")]
    Device { sent: u64 },
    /// No memory was left for the units that wait, or for the output. Nothing is written.
    #[error("no memory was left for the job")]
    Memory,
}

/// Writes `slots` slots of a plan, 188 bytes each, after all units were fed, each to the stream of its number. It
/// answers the number of bytes written. A stream may have 1,048,576 units; the next is refused as Full.
pub fn multiplex<A: Allocator + Copy, W: Sink>(
    alloc: A,
    plan: CheckedPlan<A>,
    units: Vec<(u8, Unit<A>), A>,
    slots: u64,
    to: &mut W,
) -> Result<u64, MuxError>
    ensures refused { Refuses (slots_cause slots)
        (job_cause (slots_cause slots) (plan_schedule plan) units.items) result }
    ensures written { Writes (bytes_of (plan_schedule plan) (job_history units.items slots))
        (W.contents to.old) (W.contents to.new) result }
    ensures sent { IfOk result (λ sent. sent ≡ 188 * slots) }
    ensures headline { OnWriting result (Headline (plan_schedule plan) (λ k. units_of k units.items) slots
        (bytes_of (plan_schedule plan) (job_history units.items slots))) }
    ensures measured { OnWriting result (MeasuresWell (plan_schedule plan) units.items
        (bytes_of (plan_schedule plan) (job_history units.items slots))) }
    ensures fault { NamesWriter result (W.fault_count to.old) (W.fault_count to.new) }
{
    multiplex_as(alloc, plan, units, slots, false, to)
}

/// Writes the packets as `multiplex` does; with `hex` each packet is a line of 376 lower-case digits and LF.
pub fn multiplex_as<A: Allocator + Copy, W: Sink>(
    alloc: A,
    plan: CheckedPlan<A>,
    units: Vec<(u8, Unit<A>), A>,
    slots: u64,
    hex: bool,
    to: &mut W,
) -> Result<u64, MuxError>
    ensures refused { Refuses (slots_cause slots)
        (job_cause (slots_cause slots) (plan_schedule plan) units.items) result }
    ensures written { Writes (output_of hex (plan_schedule plan) (job_history units.items slots))
        (W.contents to.old) (W.contents to.new) result }
    ensures sent { IfOk result (λ sent. sent ≡ slot_size hex * slots) }
    ensures headline { OnWriting result (Headline (plan_schedule plan) (λ k. units_of k units.items) slots
        (bytes_of (plan_schedule plan) (job_history units.items slots))) }
    ensures measured { OnWriting result (MeasuresWell (plan_schedule plan) units.items
        (bytes_of (plan_schedule plan) (job_history units.items slots))) }
    ensures fault { NamesWriter result (W.fault_count to.old) (W.fault_count to.new) }
{
    if slots > MAX_SLOTS {
        // By a call: at the end of a function the drop of each part would be a step of its proof.
        drop(plan);
        return Err(MuxError::TooManySlots);
    }
    let Ok(mut mux) = Mux::with_room(alloc, plan, capacity_for(&units)) else {
        return Err(MuxError::Memory);
    };
    let written = write_job(alloc, &mut mux, units, slots, hex, to);
    drop(mux);
    written
}

/// Writes the packets as `multiplex` does, over two plans, the first for `periods` of its periods: 1 or more, and 2^40
/// slots at most.
pub fn multiplex_switch<A: Allocator + Copy, W: Sink>(
    alloc: A,
    switch: CheckedSwitch<A>,
    periods: u64,
    units: Vec<(u8, Unit<A>), A>,
    slots: u64,
    to: &mut W,
) -> Result<u64, MuxError>
    ensures refused { Refuses (switch_slots_cause switch periods slots)
        (job_cause (switch_slots_cause switch periods slots) (switch_schedule switch periods) units.items) result }
    ensures written { Writes (bytes_of (switch_schedule switch periods) (job_history units.items slots))
        (W.contents to.old) (W.contents to.new) result }
    ensures sent { IfOk result (λ sent. sent ≡ 188 * slots) }
    ensures headline { OnWriting result (Headline (switch_schedule switch periods) (λ k. units_of k units.items) slots
        (bytes_of (switch_schedule switch periods) (job_history units.items slots))) }
    ensures measured { OnWriting result (MeasuresWell (switch_schedule switch periods) units.items
        (bytes_of (switch_schedule switch periods) (job_history units.items slots))) }
    ensures fault { NamesWriter result (W.fault_count to.old) (W.fault_count to.new) }
{
    multiplex_switch_as(alloc, switch, periods, units, slots, false, to)
}

/// Writes the packets as `multiplex_switch` does; with `hex` each packet is a line of 376 lower-case digits and LF.
pub fn multiplex_switch_as<A: Allocator + Copy, W: Sink>(
    alloc: A,
    switch: CheckedSwitch<A>,
    periods: u64,
    units: Vec<(u8, Unit<A>), A>,
    slots: u64,
    hex: bool,
    to: &mut W,
) -> Result<u64, MuxError>
    ensures refused { Refuses (switch_slots_cause switch periods slots)
        (job_cause (switch_slots_cause switch periods slots) (switch_schedule switch periods) units.items) result }
    ensures written { Writes (output_of hex (switch_schedule switch periods) (job_history units.items slots))
        (W.contents to.old) (W.contents to.new) result }
    ensures sent { IfOk result (λ sent. sent ≡ slot_size hex * slots) }
    ensures headline { OnWriting result (Headline (switch_schedule switch periods) (λ k. units_of k units.items) slots
        (bytes_of (switch_schedule switch periods) (job_history units.items slots))) }
    ensures measured { OnWriting result (MeasuresWell (switch_schedule switch periods) units.items
        (bytes_of (switch_schedule switch periods) (job_history units.items slots))) }
    ensures fault { NamesWriter result (W.fault_count to.old) (W.fault_count to.new) }
{
    if slots > MAX_SLOTS {
        // By a call: at the end of a function the drop of each part would be a step of its proof.
        drop(switch);
        return Err(MuxError::TooManySlots);
    }
    if !is_periods(switch.first().plan().slots().len(), periods) {
        drop(switch);
        return Err(MuxError::Periods);
    }
    let Ok(mut mux) = Mux::with_switch_and_room(alloc, switch, periods, capacity_for(&units)) else {
        return Err(MuxError::Memory);
    };
    let written = write_job(alloc, &mut mux, units, slots, hex, to);
    drop(mux);
    written
}

// Returns the room for the units of a stream.
fn capacity_for<A: Allocator>(units: &[(u8, Unit<A>)]) -> Room
    ensures { result ≡ capacity_for units.now }
{
    Room::Units(max_stream_units(units).max(1).min(MAX_CAPACITY))
}

// Returns the maximum number of units of one stream.
fn max_stream_units<A: Allocator>(units: &[(u8, Unit<A>)]) -> usize
    ensures { result ≡ max_stream_units units.now }
{
    let mut counts = [0usize; 256];
    let mut most = 0;
    let mut left = units.len();
    'units: while left > 0 {
        left -= 1;
        let stream = units[left].0 as usize;
        counts[stream] += 1;
        most = most.max(counts[stream]);
    }
    most
}

// Feeds all units to a multiplexer before its first slot, and then writes `slots` slots.
fn write_job<A: Allocator + Copy, W: Sink>(
    alloc: A,
    mux: &mut Mux<A>,
    units: Vec<(u8, Unit<A>), A>,
    slots: u64,
    hex: bool,
    to: &mut W,
) -> Result<u64, MuxError>
    requires slots { slots ≤ 2 ^ 40 }
    requires represents { Represents empty_history mux.old }
    requires capacity { mux.old.capacity ≡ capacity_for units.items }
    ensures refused { Refuses None (job_cause None mux.old.schedule units.items) result }
    ensures written { Writes (output_of hex mux.old.schedule (job_history units.items slots))
        (W.contents to.old) (W.contents to.new) result }
    ensures sent { IfOk result (λ sent. sent ≡ slot_size hex * slots) }
    ensures headline { OnWriting result (Headline mux.old.schedule (λ k. units_of k units.items) slots
        (bytes_of mux.old.schedule (job_history units.items slots))) }
    ensures measured { OnWriting result (MeasuresWell mux.old.schedule units.items
        (bytes_of mux.old.schedule (job_history units.items slots))) }
    ensures fault { NamesWriter result (W.fault_count to.old) (W.fault_count to.new) }
{
    mux.keeps_promises();
    match feed_all(mux, units) {
        Ok(()) => {}
        Err((index, cause)) => return Err(MuxError::Feed { index, cause }),
    }
    let Ok(packets) = PacketOutput::new(alloc, hex) else {
        return Err(MuxError::Memory);
    };
    write_all(mux, slots, packets, to)
}

// Writes `slots` slots, to the last byte.
fn write_all<A: Allocator, B: Allocator, W: Sink>(
    mux: &mut Mux<A>,
    slots: u64,
    mut packets: PacketOutput<B>,
    to: &mut W,
) -> Result<u64, MuxError>
    requires slots { slots ≤ 2 ^ 40 }
    requires empty { waiting_of packets ≡ [] }
    requires none_sent { packets.sent ≡ 0 }
    ensures answers { (h : History) → Represents h mux.old → h.slots ≡ 0 →
        WritesAll (run_output packets.hex (content_over mux.old.schedule h.changes h.units) 0 slots)
        (W.contents to.old) (W.contents to.new) result }
    ensures fault { NamesWriter result (W.fault_count to.old) (W.fault_count to.new) }
{
    match write_slots(mux, slots, &mut packets, to) {
        Ok(()) => {}
        Err(fault) => return Err(MuxError::Device { sent: fault.sent }),
    }
    match packets.finish(to) {
        Ok(sent) => Ok(sent),
        Err(fault) => Err(MuxError::Device { sent: fault.sent }),
    }
}

// Feeds units in order, each to the stream of its number; the first that is refused is named by its index.
fn feed_all<A: Allocator>(
    mux: &mut Mux<A>,
    units: Vec<(u8, Unit<A>), A>,
) -> Result<(), (u64, FeedError)>
    ensures fed { Represents empty_history mux.old → FeedsAll mux.old units.items result mux.new }
{
    let mut left = VecDeque::from(units);
    let mut index: u64 = 0;
    'units: while let Some((stream, unit)) = left.pop_front() {
        match mux.feed(stream, unit) {
            Ok(()) => index += 1,
            Err((cause, _unit)) => return Err((index, cause)),
        }
    }
    Ok(())
}

// Writes the packets of `slots` slots.
fn write_slots<A: Allocator, B: Allocator, W: Sink>(
    mux: &mut Mux<A>,
    slots: u64,
    packets: &mut PacketOutput<B>,
    to: &mut W,
) -> Result<(), OutputFault>
    requires slots { slots ≤ 2 ^ 40 }
    ensures ok { (h : History) (start : Option (List ℕ)) → Represents h mux.old → h.slots ≡ 0 →
        IsOutput start (W.contents to.old) packets.old [] →
        OnOk result (IsOutput start (W.contents to.new) packets.new
        (run_output packets.old.hex (content_over mux.old.schedule h.changes h.units) 0 slots)) }
    ensures err { (h : History) (start : Option (List ℕ)) → Represents h mux.old → h.slots ≡ 0 →
        IsOutput start (W.contents to.old) packets.old [] →
        IfErr result (λ fault. Took start (W.contents to.new) fault.sent
        (run_output packets.old.hex (content_over mux.old.schedule h.changes h.units) 0 slots)) }
    ensures clean { OnOk result (W.fault_count to.new ≡ W.fault_count to.old) }
    ensures fault { OnErr result (Failed (W.fault_count to.old) (W.fault_count to.new)) }
{
    'slots: for _ in 0..slots {
        let Ok(()) = mux.write_next(packets.room()) else {
            return Ok(());
        };
        match packets.push(to) {
            Ok(()) => {}
            Err(fault) => return Err(fault),
        }
    }
    Ok(())
}
