//! Streams with units that are left out: a job can't carry them.

ghost use Rattle.std.specs.Prelude.{◌≡◌, ◌<◌, ◌^◌, IfOk, IfErr, OnOk, None, map};
ghost use Rattle.es_units.specs.PidPlaces.{AreLinks, pids_in};
ghost use Rattle.pid_findings.specs.Shown.{finding_view};
ghost use Rattle.es_moments.specs.Stamps.{moved};
ghost use Rattle.es_moments.specs.UnitMoments.{moment_of};
ghost use Rattle.job_units.specs.Declarations.{measured};
ghost use Rattle.job_units.specs.Moments.{wire_of};
ghost use Rattle.job_units.specs.OddStreams as spec;

use crate::declarations::{count_stream, units_fault};
use crate::greater_buffers::alone_refusal;
use crate::moved_streams::stamps_refusal;
use crate::pts_limit::stream_limit;
use crate::stream_measures::{StreamMeasures, found_measured, measured};
use clock27::STAMP_MODULUS;
use es_moments::{FoundUnit, StampError, UnitMoment, WireUnit, found_moments, units_at};
use es_units::PidLinks;
use job_programs::{JobError, JobOptions, JobRefusal, TimedStream, WireStream};
use pes_packet::Unit;
use pid_findings::Finding;
use sound_frames::frame_kind;
use std::alloc::{AllocError, Global};

// Returns the clock at moment 0, if the first unit is due at once.
#[tactic(auto, unfolding(crate::specs::OddStreams::own_base, crate::specs::Moments::first_dts))]
fn own_base(stream: &WireStream<'_>) -> u64
    ensures value { result ≡ spec.own_base stream.now }
    ensures bound { result < 2 ^ 33 }
{
    match stream.units.first() {
        Some(unit) => unit.dts % STAMP_MODULUS,
        None => 0,
    }
}

// Returns the moments of a stream's units, the first due at once; refused if its stamps can't be moments of a run.
#[tactic(auto, unfolding(crate::specs::OddStreams::odd_stamps, crate::specs::OddStreams::IsOddBy))]
fn own_moments(
    alloc: Global,
    stream: &WireStream<'_>,
    findings: &[Finding<'_>],
    links: &PidLinks<Global>,
) -> Result<Vec<UnitMoment>, JobError>
    requires links { AreLinks links.now (pids_in (map finding_view findings.now)) }
    ensures moments { IfOk result (λ ms. ms.items
        ≡ map moment_of (moved (spec.own_base stream.now) None (wire_of stream.now))) }
    ensures even { OnOk result (spec.odd_stamps (map finding_view findings.now) stream.now ≡ None) }
    ensures odd { IfErr result (spec.IsOddBy (spec.odd_stamps (map finding_view findings.now) stream.now)) }
{
    let base = own_base(stream);
    let limit = stream_limit(stream);
    match found_moments(alloc, limit, base, &stream.units) {
        Ok(moments) => Ok(moments),
        Err(StampError::Memory) => Err(JobError::Memory),
        Err(StampError::Unit { index, fault }) => {
            let refusal = stamps_refusal(alloc, stream.pid, index, fault, findings, links)?;
            Err(JobError::Refused(refusal))
        }
    }
}

// Returns a copy of a unit.
fn copied(alloc: Global, unit: &FoundUnit<'_>) -> Result<WireUnit, AllocError>
    ensures { IfOk result (λ copy. copy ≡ unit.now) }
{
    let mut bytes = Vec::from_slice(alloc, unit.bytes.body)?;
    bytes.extend_from_slice(&unit.bytes.more)?;
    Ok(WireUnit {
        packet: unit.packet,
        stream_id: unit.stream_id,
        dts: unit.dts,
        pts: unit.pts,
        marks: unit.marks,
        bytes,
    })
}

// Copies of units.
fn copies(alloc: Global, units: &[FoundUnit<'_>]) -> Result<Vec<WireUnit>, AllocError>
    ensures { IfOk result (λ copies. copies.items ≡ units.now) }
{
    let mut copies = Vec::with_capacity(alloc, units.len())?;
    for unit in units {
        copies.push(copied(alloc, unit)?)?;
    }
    Ok(copies)
}

// Copies of a stream's units at these moments.
fn own_units(
    alloc: Global,
    stream: &WireStream<'_>,
    moments: &[UnitMoment],
) -> Result<Vec<Unit>, AllocError>
    requires { moments.now ≡ map moment_of (moved (spec.own_base stream.now) None (wire_of stream.now)) }
    ensures { IfOk result (λ us. us.items ≡ moved (spec.own_base stream.now) None (wire_of stream.now)) }
{
    let copies = copies(alloc, &stream.units)?;
    let units = units_at(alloc, moments, copies)?;
    Ok(units)
}

// Returns a copy of a stream at these moments.
#[tactic(auto, unfolding(crate::specs::OddStreams::alone, crate::specs::Moments::with_moments))]
fn alone(
    alloc: Global,
    stream: &WireStream<'_>,
    moments: &[UnitMoment],
) -> Result<TimedStream, AllocError>
    requires { moments.now ≡ map moment_of (moved (spec.own_base stream.now) None (wire_of stream.now)) }
    ensures { IfOk result (λ t. t ≡ spec.alone stream.now) }
{
    let units = own_units(alloc, stream, moments)?;
    let descriptors = Vec::from_slice(alloc, &stream.descriptors)?;
    let shared_with = Vec::from_slice(alloc, &stream.shared_with)?;
    Ok(TimedStream {
        program: stream.program,
        pid: stream.pid,
        stream_type: stream.stream_type,
        stream_id: stream.stream_id,
        descriptors,
        shared_with,
        units,
    })
}

// Returns the measures of a stream at these moments; its bytes are copied only if they may be frames of sound.
fn odd_measures(
    alloc: Global,
    stream: &WireStream<'_>,
    moments: &[UnitMoment],
) -> Result<StreamMeasures, AllocError>
    requires { moments.now ≡ map moment_of (moved (spec.own_base stream.now) None (wire_of stream.now)) }
    ensures { IfOk result (λ m. m ≡ measured (spec.alone stream.now)) }
{
    if frame_kind(stream.stream_type, &stream.descriptors).is_none() {
        return found_measured(alloc, stream, moments);
    }
    let copy = alone(alloc, stream, moments)?;
    measured(alloc, &copy)
}

// Returns the refusal of a stream whose units nothing declares.
#[tactic(auto, unfolding(crate::specs::OddStreams::odd_units, crate::specs::OddStreams::odd_counts, crate::specs::OddStreams::first_odd, job_programs::specs::Answers::Answers, job_programs::specs::Answers::Refuses))]
fn odd_units(
    alloc: Global,
    options: &JobOptions<'_>,
    stream: &StreamMeasures,
) -> Result<Option<JobRefusal>, AllocError>
    ensures { IfOk result (λ odd. odd ≡ spec.odd_units options.now stream.now) }
{
    if let Some(refusal) = units_fault(stream) {
        return Ok(Some(refusal));
    }
    match count_stream(alloc, options.buffers, stream) {
        Ok(unit_counts) => alone_refusal(
            alloc,
            options.declare_by,
            options.lead,
            stream,
            &unit_counts,
        ),
        Err(JobError::Refused(refusal)) => Ok(Some(refusal)),
        Err(JobError::Memory) => Err(AllocError),
    }
}

// Returns the refusal of a stream on the wire whose units nothing declares.
#[tactic(auto, unfolding(crate::specs::OddStreams::odd_bytes))]
fn odd_bytes(
    alloc: Global,
    options: &JobOptions<'_>,
    stream: &WireStream<'_>,
    moments: &[UnitMoment],
) -> Result<Option<JobRefusal>, AllocError>
    requires { moments.now ≡ map moment_of (moved (spec.own_base stream.now) None (wire_of stream.now)) }
    ensures { IfOk result (λ odd. odd ≡ spec.odd_bytes options.now stream.now) }
{
    let measures = odd_measures(alloc, stream, moments)?;
    odd_units(alloc, options, &measures)
}

/// Returns why a stream with units is left out, if it is: its stamps, or units that nothing declares.
#[tactic(auto, unfolding(crate::specs::OddStreams::odd_stream, crate::specs::OddStreams::first_odd, crate::specs::OddStreams::IsOddBy))]
pub(crate) fn odd_stream(
    alloc: Global,
    options: &JobOptions<'_>,
    stream: &WireStream<'_>,
    findings: &[Finding<'_>],
    links: &PidLinks<Global>,
) -> Result<Option<JobRefusal>, AllocError>
    requires links { AreLinks links.now (pids_in (map finding_view findings.now)) }
    ensures { IfOk result (λ odd. odd ≡ spec.odd_stream options.now (map finding_view findings.now) stream.now) }
{
    match own_moments(alloc, stream, findings, links) {
        Ok(moments) => odd_bytes(alloc, options, stream, &moments),
        Err(JobError::Refused(refusal)) => Ok(Some(refusal)),
        Err(JobError::Memory) => Err(AllocError),
    }
}
