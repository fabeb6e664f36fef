//! The counts of a stream's units.

ghost use Rattle.std.specs.Prelude.{◌≡◌, ◌≤◌, IfErr, IfNone, IfOk, Ok, All};
ghost use Rattle.job_programs.specs.Answers.{Answers, Refuses};
ghost use Rattle.job_units.specs.Declarations as spec;
ghost use Rattle.job_programs.specs.FoundUnits.{FitsQueue};

use crate::stream_measures::StreamMeasures;
use es_buffers::{Buffers, PidBuffers, buffers_of, coding_holding, given_buffers, multiplexing_of};
use es_moments::CountedPackets;
use job_programs::{JobError, JobRefusal, TimedStream};
use pes_packet::greatest_size;
use std::alloc::{AllocError, Global};
use std::marker::Model;
use stream_choice::{Choice, FrameCounts, Needs};
use stream_coding::{Coding, coding_of};
use unit_timing::multiplexing_buffer::MultiplexingBuffer;

/// The greatest number of programs, and of streams, in a description.
const MAX_PROGRAMS: usize = 64;

const MAX_STREAMS: usize = 254;

/// The greatest number of units in a stream of a job.
const MAX_UNITS: usize = 1_048_576;

/// The greatest number of units that are counted together.
const MAX_GROUP: usize = 64;

/// The counts of a stream's units: what they need, the multiplexing buffer of a stream of video, the access units of a
/// stream of sound whose units are whole frames, and the greatest number of packets of 1, 2, .. units in a row.
#[derive(Drop)]
pub struct UnitCounts {
    pub needs: Needs,
    pub multiplexing: Option<MultiplexingBuffer>,
    pub framing: Option<FrameCounts>,
    pub max_group_packets: Vec<u32>,
}

/// What a stream declares of its packets, and what it keeps so: the multiplexing buffer and the access units that it
/// declares, if any.
#[derive(Clone, Copy)]
pub struct StreamChoice {
    pub choice: Choice,
    pub multiplexing: Option<MultiplexingBuffer>,
    pub framing: Option<FrameCounts>,
}

// A contract sees its packets as a list.
impl Model for UnitCounts {
    ghost use Rattle.job_units.specs.Declarations.{UnitCountsView};

    ghost Value = { UnitCountsView };

    ghost view = { λ c. record {
      needs = c.needs;
      multiplexing = c.multiplexing;
      framing = c.framing;
      max_group_packets = c.max_group_packets.items;
    } };
}

/// Returns the refusal of too many programs or streams, or of no stream.
#[tactic(auto, unfolding(crate::specs::Declarations::too_many))]
pub fn too_many(programs: usize, streams: usize) -> Option<JobRefusal>
    ensures value { result ≡ spec.too_many programs streams }
    ensures bound { IfNone result (streams ≤ 254) }
{
    if streams == 0 {
        Some(JobRefusal::NoStream)
    } else if programs > MAX_PROGRAMS {
        Some(JobRefusal::Programs(programs))
    } else if streams > MAX_STREAMS {
        Some(JobRefusal::Streams(streams))
    } else {
        None
    }
}

// Returns the refusal of a stream with more units than a job may have.
#[tactic(auto, unfolding(crate::specs::Declarations::units_refusal))]
fn units_refusal(stream: &TimedStream) -> JobRefusal
    ensures { result ≡ spec.units_refusal stream.now }
{
    JobRefusal::Units {
        pid: stream.pid,
        count: stream.units.len(),
    }
}

/// Returns the refusal of a stream that has more units than a job may have.
#[tactic(auto, unfolding(crate::specs::Declarations::length_refusal))]
pub(crate) fn units_fault(stream: &StreamMeasures) -> Option<JobRefusal>
    ensures { result ≡ spec.length_refusal stream.now }
{
    if stream.units.count > MAX_UNITS {
        Some(JobRefusal::Units {
            pid: stream.pid,
            count: stream.units.count,
        })
    } else {
        None
    }
}

/// Returns the refusal of the first stream with more units than a job may have.
#[tactic(auto, unfolding(crate::specs::Declarations::too_long, crate::specs::Declarations::is_too_long))]
pub fn too_long(streams: &[TimedStream]) -> Option<JobRefusal>
    ensures value { result ≡ spec.too_long streams.now }
    ensures fits { IfNone result (All FitsQueue streams.now) }
{
    match streams.iter().find(|stream| stream.units.len() > MAX_UNITS) {
        Some(stream) => Some(units_refusal(stream)),
        None => None,
    }
}

/// Returns how a stream is coded by its first unit.
pub(crate) fn said_coding(stream: &StreamMeasures) -> Coding
    ensures { result ≡ spec.said_coding stream.now }
{
    coding_of(stream.stream_type, &stream.descriptors, &stream.first)
}

/// Returns how a stream is coded: by its first unit, and by a buffer that holds its greatest one.
#[tactic(auto, unfolding(crate::specs::Declarations::coding_for))]
pub(crate) fn coding_for(stream: &StreamMeasures) -> Coding
    ensures { result ≡ spec.coding_for stream.now }
{
    coding_holding(stream.units.largest, said_coding(stream))
}

// Returns the buffers of a stream, from the options or else from its coding.
#[tactic(auto, unfolding(crate::specs::Declarations::buffers_for))]
fn buffers_for(given: &[PidBuffers], stream: &StreamMeasures) -> Buffers
    ensures { result ≡ spec.buffers_for given.now stream.now }
{
    match given_buffers(given, stream.pid) {
        Some(buffers) => buffers,
        None => buffers_of(coding_for(stream)),
    }
}

// Returns a multiplexing buffer as it is declared: with room for a header that leaves it at no cost of time.
#[tactic(auto, unfolding(crate::specs::Declarations::without_header))]
fn without_header(header: u32, buffer: MultiplexingBuffer) -> MultiplexingBuffer
    ensures { result ≡ spec.without_header header buffer }
{
    let MultiplexingBuffer { rbx, size } = buffer;
    if header < size {
        MultiplexingBuffer {
            rbx,
            size: size - header,
        }
    } else {
        buffer
    }
}

// Returns the multiplexing buffer of video whose buffers the options don't give.
#[tactic(auto, unfolding(crate::specs::Declarations::multiplexing_for))]
fn multiplexing_for(given: &[PidBuffers], stream: &StreamMeasures) -> Option<MultiplexingBuffer>
    ensures { result ≡ spec.multiplexing_for given.now stream.now }
{
    if given_buffers(given, stream.pid).is_some() {
        return None;
    }
    match multiplexing_of(coding_for(stream)) {
        None => None,
        Some(buffer) => Some(without_header(stream.header, buffer)),
    }
}

// Returns the greatest number of packets of `group` units in a row, as a number of 32 bits.
#[tactic(auto, unfolding(crate::specs::Declarations::packets_of_group))]
fn packets_of_group(packets: &CountedPackets, group: usize) -> u32
    requires { group ≤ 64 }
    ensures { result ≡ spec.packets_of_group packets.now group }
{
    let most = packets.of_group(group as u8);
    most.min(u64::from(u32::MAX)) as u32
}

// Returns the greatest number of packets of 1, 2, .. units in a row.
#[tactic(auto, unfolding(crate::specs::Declarations::max_group_packets))]
fn max_group_packets(alloc: Global, stream: &StreamMeasures) -> Result<Vec<u32>, AllocError>
    ensures { IfOk result (λ packets. packets.items ≡ spec.max_group_packets stream.now) }
{
    let packets = &stream.units.packets;
    let groups = stream.units.count.min(MAX_GROUP);
    (0..groups)
        .map(|before| packets_of_group(packets, before + 1))
        .collect(alloc)
}

// Returns the refusal of a stream with a unit that is too large whatever its buffers.
#[tactic(auto, unfolding(crate::specs::Declarations::size_refusal))]
fn size_refusal(stream: &StreamMeasures) -> Option<JobRefusal>
    ensures value { result ≡ spec.size_refusal stream.now }
    ensures bound { IfNone result (stream.now.units.largest ≤ 4000000) }
{
    let size = stream.units.largest;
    if size > greatest_size(stream.stream_id) {
        Some(JobRefusal::Size {
            pid: stream.pid,
            size,
        })
    } else {
        None
    }
}

// Returns what the units of a stream need.
#[tactic(auto, unfolding(crate::specs::Declarations::needs_of))]
fn needs_of(given: &[PidBuffers], stream: &StreamMeasures) -> Needs
    requires { stream.now.units.largest ≤ 4000000 }
    ensures { result ≡ spec.needs_of given.now stream.now }
{
    let buffers = buffers_for(given, stream);
    Needs {
        interval: stream.units.interval,
        size: stream.units.largest as u32,
        rx: buffers.rx,
        main: buffers.main,
    }
}

/// Counts the units of a stream.
#[tactic(auto, unfolding(crate::specs::Declarations::unit_counts, job_programs::specs::Answers::unless, job_programs::specs::Answers::Answers, job_programs::specs::Answers::Refuses))]
pub(crate) fn count_stream(
    alloc: Global,
    given: &[PidBuffers],
    stream: &StreamMeasures,
) -> Result<UnitCounts, JobError>
    ensures { Answers (spec.unit_counts given.now stream.now) result }
{
    if let Some(refusal) = size_refusal(stream) {
        return Err(JobError::Refused(refusal));
    }
    let needs = needs_of(given, stream);
    let multiplexing = multiplexing_for(given, stream);
    let framing = stream.framing;
    let max_group_packets = max_group_packets(alloc, stream)?;
    Ok(UnitCounts {
        needs,
        multiplexing,
        framing,
        max_group_packets,
    })
}

/// Counts the units of all streams.
#[tactic(auto, unfolding(job_programs::specs::Answers::Refuses))]
pub fn count_units(
    alloc: Global,
    given: &[PidBuffers],
    streams: &[StreamMeasures],
) -> Result<Vec<UnitCounts>, JobError>
    ensures unit_counts { IfOk result (λ all. spec.all_unit_counts given.now streams.now ≡ Ok all.items) }
    ensures refused { IfErr result (Refuses (spec.all_unit_counts given.now streams.now)) }
{
    let mut all = Vec::new(alloc);
    let mut left = streams;
    while let Some((stream, later)) = left.split_first() {
        let next = count_stream(alloc, given, stream)?;
        all.push(next)?;
        left = later;
    }
    Ok(all)
}
