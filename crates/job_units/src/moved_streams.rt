//! The moments of streams' units in a run.

ghost use Rattle.std.specs.Prelude.{◌≡◌, ◌<◌, ◌^◌, IfOk, IfErr, Ok, All, map};
ghost use Rattle.es_units.specs.PidPlaces.{AreLinks, pids_in};
ghost use Rattle.pid_findings.specs.Shown.{finding_view};
ghost use Rattle.job_programs.specs.Answers.{Refuses, each, Leads};
ghost use Rattle.job_units.specs.Moments as spec;
ghost use Rattle.job_programs.specs.FoundUnits.{IsCarried, IsMoved};
ghost use Rattle.job_units.specs.Moments.{timed_stream};

use crate::pts_limit::stream_limit;
use clock27::STAMP_MODULUS;
use es_moments::{DtsError, StampError, StampFault, constant, found_moments, units_with_made_dts};
use es_units::{PidLinks, found_units};
use job_programs::job_programs::clock_in;
use job_programs::program_clock::is_same_clock;
use job_programs::{JobError, JobProgram, JobRefusal, ProgramClock, StreamMoments, WireStream};
use pid_findings::Finding;
use std::alloc::{AllocError, Global};

/// The first DTS of a stream, modulo 2^33, and the clock of the stream.
#[derive(Clone, Copy)]
pub struct FirstDts {
    pub clock: ProgramClock,
    pub dts: u64,
}

// Returns the first DTS of a stream.
#[tactic(auto, unfolding(crate::specs::Moments::first_dts, crate::specs::Moments::first_dts_of))]
fn first_dts_of(programs: &[JobProgram], stream: &WireStream<'_>) -> FirstDts
    ensures { result ≡ spec.first_dts_of programs.now stream.now }
{
    let dts = match stream.units.first() {
        Some(unit) => unit.dts,
        None => 0,
    };
    FirstDts {
        clock: clock_in(programs, stream.program),
        dts,
    }
}

// Returns the first DTS of each stream.
fn firsts_of(
    alloc: Global,
    programs: &[JobProgram],
    streams: &[WireStream<'_>],
) -> Result<Vec<FirstDts>, AllocError>
    ensures { IfOk result (λ firsts. firsts.items ≡ spec.firsts programs.now streams.now) }
{
    streams
        .iter()
        .map(|stream| first_dts_of(programs, stream))
        .collect(alloc)
}

// Returns whether it is the first DTS of a stream that counts by this clock.
#[tactic(auto, unfolding(crate::specs::Moments::is_on_clock))]
fn is_on_clock(clock: ProgramClock, first: &FirstDts) -> bool
    ensures { result ≡ spec.is_on_clock clock first.now }
{
    is_same_clock(first.clock, clock)
}

// Returns the first DTS of each stream on this clock.
fn stamps_of(
    alloc: Global,
    clock: ProgramClock,
    firsts: &[FirstDts],
) -> Result<Vec<u64>, AllocError>
    ensures { IfOk result (λ stamps. stamps.items ≡ spec.stamps_of clock firsts.now) }
{
    let mut stamps = Vec::new(alloc);
    for first in firsts {
        if is_on_clock(clock, first) {
            stamps.push(first.dts)?;
        }
    }
    Ok(stamps)
}

// Returns the clock at moment 0, if the first unit on it is due at `earliest`.
#[tactic(auto, unfolding(crate::specs::Moments::base_for, crate::specs::Moments::base_of))]
fn base_of(
    alloc: Global,
    earliest: u64,
    clock: ProgramClock,
    firsts: &[FirstDts],
) -> Result<u64, AllocError>
    ensures value { IfOk result (λ base. base ≡ spec.base_of earliest firsts.now clock) }
    ensures bound { IfOk result (λ base. base < 2 ^ 33) }
{
    let stamps = stamps_of(alloc, clock, firsts)?;
    match stamps.first() {
        Some(first) => Ok(constant(earliest, *first % STAMP_MODULUS, &stamps)),
        None => Ok(0),
    }
}

// Returns the packet where the unit with this index on a PID begins.
#[tactic(auto, unfolding(crate::specs::Moments::packet_of))]
fn packet_of(
    alloc: Global,
    pid: u16,
    index: usize,
    findings: &[Finding<'_>],
    links: &PidLinks<Global>,
) -> Result<u64, AllocError>
    requires links { AreLinks links.now (pids_in (map finding_view findings.now)) }
    ensures { IfOk result (λ packet. packet ≡ spec.packet_of (map finding_view findings.now) pid index) }
{
    let units = found_units(alloc, pid, findings, links)?;
    match units.get(index) {
        Some(unit) => Ok(unit.packet),
        None => Ok(0),
    }
}

// Returns whether DTS can be made from the PTS of a PID.
#[tactic(auto, unfolding(crate::specs::Moments::is_mended))]
fn is_mended(
    alloc: Global,
    pid: u16,
    findings: &[Finding<'_>],
    links: &PidLinks<Global>,
) -> Result<bool, AllocError>
    requires links { AreLinks links.now (pids_in (map finding_view findings.now)) }
    ensures { IfOk result (λ mended. mended ≡ spec.is_mended (map finding_view findings.now) pid) }
{
    let units = found_units(alloc, pid, findings, links)?;
    match units_with_made_dts(alloc, units) {
        Ok(_) => Ok(true),
        Err(DtsError::Fault(_)) => Ok(false),
        Err(DtsError::Memory) => Err(AllocError),
    }
}

/// Returns the refusal of a stream: the stamps of this unit can't be moments.
#[tactic(auto, unfolding(crate::specs::Moments::stamps_refusal))]
pub(crate) fn stamps_refusal(
    alloc: Global,
    pid: u16,
    index: usize,
    fault: StampFault,
    findings: &[Finding<'_>],
    links: &PidLinks<Global>,
) -> Result<JobRefusal, AllocError>
    requires links { AreLinks links.now (pids_in (map finding_view findings.now)) }
    ensures { IfOk result (λ refusal. refusal ≡ spec.stamps_refusal (map finding_view findings.now) pid
        (index, fault)) }
{
    let packet = packet_of(alloc, pid, index, findings, links)?;
    let mended = is_mended(alloc, pid, findings, links)?;
    Ok(JobRefusal::Stamps {
        packet,
        pid,
        fault,
        mended,
    })
}

// Returns the moments of a stream's units by the constant of its program's clock.
#[tactic(auto, unfolding(crate::specs::Moments::moved_by, crate::specs::Moments::moved_stream, job_programs::specs::Answers::unless, job_programs::specs::Answers::Leads, job_programs::specs::Answers::Refuses))]
fn moved_by(
    alloc: Global,
    make_dts: bool,
    earliest: u64,
    programs: &[JobProgram],
    firsts: &[FirstDts],
    stream: WireStream<'_>,
    findings: &[Finding<'_>],
    links: &PidLinks<Global>,
) -> Result<StreamMoments, JobError>
    requires links { AreLinks links.now (pids_in (map finding_view findings.now)) }
    requires carried { IsCarried make_dts (map finding_view findings.now) stream }
    ensures value { Leads (spec.moved_by (map finding_view findings.now) earliest programs.now firsts.now
        stream.entry) (λ s. Ok (timed_stream (map finding_view findings.now) s)) result }
    ensures moved { IfOk result (λ s. IsMoved make_dts (map finding_view findings.now)
        (timed_stream (map finding_view findings.now) s)) }
{
    let pid = stream.pid;
    let clock = clock_in(programs, stream.program);
    let base = base_of(alloc, earliest, clock, firsts)?;
    let limit = stream_limit(&stream);
    match found_moments(alloc, limit, base, &stream.units) {
        Ok(units) => Ok(StreamMoments {
            program: stream.program,
            pid,
            stream_type: stream.stream_type,
            stream_id: stream.stream_id,
            descriptors: stream.descriptors,
            shared_with: stream.shared_with,
            units,
        }),
        Err(StampError::Memory) => Err(JobError::Memory),
        Err(StampError::Unit { index, fault }) => {
            let refusal = stamps_refusal(alloc, pid, index, fault, findings, links)?;
            Err(JobError::Refused(refusal))
        }
    }
}

// Returns the moments of all streams' units.
#[tactic(auto, unfolding(job_programs::specs::Answers::Refuses))]
fn each_moved(
    alloc: Global,
    make_dts: bool,
    earliest: u64,
    programs: &[JobProgram],
    firsts: &[FirstDts],
    streams: Vec<WireStream<'_>>,
    findings: &[Finding<'_>],
    links: &PidLinks<Global>,
) -> Result<Vec<StreamMoments>, JobError>
    requires links { AreLinks links.now (pids_in (map finding_view findings.now)) }
    requires carried { All (IsCarried make_dts (map finding_view findings.now)) streams.items }
    ensures streams { IfOk result (λ moved. each (spec.moved_by (map finding_view findings.now) earliest programs.now
        firsts.now) streams.entry.items ≡ Ok (map (timed_stream (map finding_view findings.now)) moved.items)) }
    ensures refused { IfErr result (Refuses (each (spec.moved_by (map finding_view findings.now) earliest programs.now
        firsts.now) streams.entry.items)) }
    ensures moved { IfOk result (λ moved. All (IsMoved make_dts (map finding_view findings.now))
        (map (timed_stream (map finding_view findings.now)) moved.items)) }
{
    let mut moved = Vec::new(alloc);
    for stream in streams {
        let next = moved_by(
            alloc, make_dts, earliest, programs, firsts, stream, findings, links,
        )?;
        moved.push(next)?;
    }
    Ok(moved)
}

/// Returns what the clock of the first stream shows at moment 0, if the first unit that counts by it is due at
/// `earliest`.
#[tactic(auto, unfolding(crate::specs::Moments::first_base, crate::specs::Moments::base_of_first))]
pub fn first_base(
    alloc: Global,
    earliest: u64,
    programs: &[JobProgram],
    streams: &[WireStream<'_>],
) -> Result<u64, AllocError>
    ensures { IfOk result (λ base. base ≡ spec.first_base earliest programs.now streams.now) }
{
    let firsts = firsts_of(alloc, programs, streams)?;
    match firsts.first() {
        Some(first) => base_of(alloc, earliest, first.clock, &firsts),
        None => Ok(0),
    }
}

/// Returns the moments of the streams' units. The first unit of each clock is due at `earliest`.
#[tactic(auto, unfolding(crate::specs::Moments::moved_streams, job_programs::specs::Answers::Refuses))]
pub fn moved_streams(
    alloc: Global,
    make_dts: bool,
    earliest: u64,
    programs: &[JobProgram],
    streams: Vec<WireStream<'_>>,
    findings: &[Finding<'_>],
    links: &PidLinks<Global>,
) -> Result<Vec<StreamMoments>, JobError>
    requires links { AreLinks links.now (pids_in (map finding_view findings.now)) }
    requires carried { All (IsCarried make_dts (map finding_view findings.now)) streams.items }
    ensures streams { IfOk result (λ moved. spec.moved_streams (map finding_view findings.now) earliest programs.now
        streams.entry.items ≡ Ok (map (timed_stream (map finding_view findings.now)) moved.items)) }
    ensures refused { IfErr result (Refuses (spec.moved_streams (map finding_view findings.now) earliest programs.now
        streams.entry.items)) }
    ensures moved { IfOk result (λ moved. All (IsMoved make_dts (map finding_view findings.now))
        (map (timed_stream (map finding_view findings.now)) moved.items)) }
{
    let firsts = firsts_of(alloc, programs, &streams)?;
    each_moved(
        alloc, make_dts, earliest, programs, &firsts, streams, findings, links,
    )
}
