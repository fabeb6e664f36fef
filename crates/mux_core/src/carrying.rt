//! Records of one stream become the packets of one PID, back to back.

ghost use Rattle.std.specs.Prelude.{◌≡◌, ◌<◌, ℕ, ◌+◌, ◌++◌, List, Option, Some, None, IsTrue, IfOk, IfErr};
ghost use Rattle.std.specs.Prelude.{IfSome, OnOk, OnErr, take};
ghost use Rattle.pes_packet.specs.StreamIds.{is_unit_id};
ghost use Rattle.mux_core.specs.RecordRuns.{Carries, IsOwn, Leaves, NamesDevice, run_of, carried};
ghost use Rattle.mux_core.specs.Buffer.{IsOutput, Took};
ghost use Rattle.mux_core.specs.RunSteps.{IsAccepted, JudgesNext, ReadsNext, EndsRun, LeavesAt, NamesStop, NamesNext};
ghost use Rattle.mux_core.specs.RunSteps.{answer_of};
ghost use Rattle.counted_io.specs.Device.{Failed};

use crate::pid_packets::push_unit;
use crate::refusals::refusal;
use crate::{OutputFault, PacketOutput};
use counted_io::{Sink, Source};
use pes_packet::Unit;
use std::alloc::Allocator;
use thiserror::Error;
use unit_queue::FeedError;
use unit_records::{UnitFileError, read_unit};

/// Why records were not carried to their end. The records before the one named have been written.
#[derive(Clone, Copy, Debug, PartialEq, Eq, Error)]
pub enum CarryError {
    /// The unit of a record is refused.
    #[error("unit {index} is refused: {cause}")]
    Unit { index: u64, cause: FeedError },
    /// There is no whole record, or the reader failed.
    #[error("record {index} was not read: {fault}")]
    File { index: u64, fault: UnitFileError },
    /// The writer failed. It took exactly the first `sent` bytes of the output.
    #[error("the writer failed after {sent} bytes")]
    Device { sent: u64 },
    /// No memory was left for a record, or for the output.
    #[error("no memory was left for record {index}")]
    Memory { index: u64 },
}

/// Writes the units of stream 0 as the packets of one PID, back to back: stream_id `id`, stamps as they are,
/// continuity counters from 0. With `hex` each packet is a line of 376 lower-case digits and LF. Returns the number of
/// bytes written; this number and `sent` stop at 2^64 - 1.
///
/// Units have 1 to 4,000,000 bytes with a video stream_id, otherwise 1 to 65,522; each DTS is later than the DTS
/// before and at most 2^52, and each PTS at most 90,000 after its DTS.
pub fn carry<A: Allocator + Copy, R: Source, W: Sink>(
    alloc: A,
    pid: u16,
    id: u8,
    hex: bool,
    input: &mut R,
    output: &mut W,
) -> Result<u64, CarryError>
    requires pid { pid < 8192 }
    requires id { IsTrue (is_unit_id id) }

    // For an input whose bytes are known: the bytes that remain.
    ensures left { (xs : List ℕ) → R.remaining input.old ≡ Some xs → Leaves xs (R.remaining input.new) result }

    // For any input and writer: the answer and what the writer took, by the bytes that were read, the input's own if
    // these are known; the failed calls.
    ensures carries { Carries hex pid id (R.remaining input.old) (W.contents output.old) (W.contents output.new)
        result }
    ensures fault { NamesDevice result (R.fault_count input.old) (R.fault_count input.new)
        (W.fault_count output.old) (W.fault_count output.new) }
{
    let Ok(mut packets) = PacketOutput::new(alloc, hex) else {
        return Err(CarryError::Memory { index: 0 });
    };
    let (index, stop) = match carry_all(alloc, pid, id, input, &mut packets, output) {
        Ok(carried) => carried,
        Err(fault) => return Err(CarryError::Device { sent: fault.sent }),
    };
    match packets.finish(output) {
        Ok(sent) => answer(index, stop, sent),
        Err(fault) => Err(CarryError::Device { sent: fault.sent }),
    }
}

// Why a run over records ends before the input does.
#[derive(Clone, Copy)]
enum Stop {
    Refused(FeedError),
    Unread(UnitFileError),
    OutOfMemory,
}

// Returns the answer of a run that ended after `index` records, when `sent` bytes are written.
fn answer(index: u64, stop: Option<Stop>, sent: u64) -> Result<u64, CarryError>
    ensures { result ≡ answer_of index stop sent }
{
    match stop {
        None => Ok(sent),
        Some(Stop::Refused(cause)) => Err(CarryError::Unit { index, cause }),
        Some(Stop::Unread(fault)) => Err(CarryError::File { index, fault }),
        Some(Stop::OutOfMemory) => Err(CarryError::Memory { index }),
    }
}

// Reads the next record and returns its unit, if it is accepted; returns None at the end of the input.
fn next_unit<A: Allocator, R: Source>(
    alloc: A,
    id: u8,
    min_next_dts: u64,
    input: &mut R,
) -> Result<Option<Unit<A>>, Stop>
    ensures known { (xs : List ℕ) → R.remaining input.old ≡ Some xs →
        ReadsNext id min_next_dts xs (R.remaining input.new) result }
    ensures judges { JudgesNext id min_next_dts result }
    ensures accepted { IfOk result (λ found. IfSome found (IsAccepted id min_next_dts)) }
    ensures fault { NamesNext result (R.fault_count input.old) (R.fault_count input.new) }
{
    match read_unit(alloc, input) {
        Ok(None) => Ok(None),
        Ok(Some((stream, unit))) => match refusal(id, min_next_dts, stream, &unit) {
            None => Ok(Some(unit)),
            Some(cause) => Err(Stop::Refused(cause)),
        },
        Err(UnitFileError::Cut) => Err(Stop::Unread(UnitFileError::Cut)),
        Err(UnitFileError::Size) => Err(Stop::Unread(UnitFileError::Size)),
        Err(UnitFileError::Device) => Err(Stop::Unread(UnitFileError::Device)),
        Err(UnitFileError::Memory) => Err(Stop::OutOfMemory),
    }
}

// Writes the packets of the records up to the first that is not accepted; how many they are, and why they end.
fn carry_all<A: Allocator + Copy, R: Source, W: Sink>(
    alloc: A,
    pid: u16,
    id: u8,
    input: &mut R,
    packets: &mut PacketOutput<A>,
    output: &mut W,
) -> Result<(u64, Option<Stop>), OutputFault>
    requires pid { pid < 8192 }
    requires id { IsTrue (is_unit_id id) }
    ensures ok { (start : Option (List ℕ)) (all : List ℕ) → IsOutput start (W.contents output.old) packets.old all →
        IfOk result (λ run. (bytes : List ℕ) × IsOwn (R.remaining input.old) bytes
        × EndsRun (run_of id bytes) run.0 run.1 × IsOutput start (W.contents output.new) packets.new
        (all ++ carried packets.old.hex pid id (take run.0 (run_of id bytes).units))) }
    ensures err { (start : Option (List ℕ)) (all : List ℕ) → IsOutput start (W.contents output.old) packets.old all →
        IfErr result (λ fault. (bytes : List ℕ) × IsOwn (R.remaining input.old) bytes
        × Took start (W.contents output.new) fault.sent
        (all ++ carried packets.old.hex pid id (run_of id bytes).units)) }
    ensures left { (xs : List ℕ) → R.remaining input.old ≡ Some xs →
        IfOk result (λ run. LeavesAt xs (R.remaining input.new) run.0 run.1) }
    ensures reads { IfOk result (λ run. NamesStop run.1 (R.fault_count input.old) (R.fault_count input.new)) }
    ensures clean { OnOk result (W.fault_count output.new ≡ W.fault_count output.old) }
    ensures fault { OnErr result (Failed (W.fault_count output.old) (W.fault_count output.new)) }
{
    let mut index: u64 = 0;
    let mut min_next_dts: u64 = 0;
    let mut counter: u8 = 0;
    'records: loop {
        match next_unit(alloc, id, min_next_dts, input) {
            Ok(None) => return Ok((index, None)),
            Err(stop) => return Ok((index, Some(stop))),
            Ok(Some(unit)) => {
                match push_unit(packets, output, pid, id, counter, &unit) {
                    Ok(next) => counter = next,
                    Err(fault) => return Err(fault),
                }
                min_next_dts = unit.dts + 1;
                index += 1;
            }
        }
    }
}
