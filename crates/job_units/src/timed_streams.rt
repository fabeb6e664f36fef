//! The units of streams, moved out of the findings.

ghost use Rattle.std.specs.Prelude.{◌≡◌, IfOk, OnOk, map};
ghost use Rattle.es_units.specs.PidPlaces.{AreLinks, pids_in};
ghost use Rattle.pid_findings.specs.Shown.{finding_view};
ghost use Rattle.job_units.specs.Moments as spec;
ghost use Rattle.job_units.specs.TakenStreams.{OthersCarried, StayCarried};
ghost use Rattle.es_units.specs.TakenUnits.{OthersStay};
ghost use Rattle.es_units.specs.CarriedUnits.{carried_units};

use es_moments::{WireUnit, units_at};
use es_units::{PidLinks, carried_units, taken_units};
use job_programs::job_options::is_among;
use job_programs::{StreamMoments, TimedStream};
use pid_findings::Finding;
use std::alloc::{AllocError, Global};
use std::collections::VecDeque;

// Returns the units of a PID: moved out of the findings, or copied if a later stream has the same PID.
#[tactic(auto, using(crate::proofs::TakenStreams::others_same, crate::proofs::TakenStreams::stay_same, crate::proofs::TakenStreams::stay_taken))]
fn units_of(
    alloc: Global,
    pid: u16,
    later: &[u16],
    findings: &mut [Finding<'_>],
    links: &PidLinks<Global>,
) -> Result<Vec<WireUnit>, AllocError>
    requires links { AreLinks links.now (pids_in (map finding_view findings.old)) }
    ensures units { IfOk result (λ units. units.items ≡ carried_units pid (map finding_view findings.old)) }
    ensures others { IfOk result (λ units. StayCarried later.now (map finding_view findings.old)
        (map finding_view findings.new)) }
    ensures own { OnOk result (OthersStay pid (map finding_view findings.old) (map finding_view findings.new)) }
    ensures pids { OnOk result (pids_in (map finding_view findings.new) ≡ pids_in (map finding_view findings.old)) }
{
    if is_among(pid, later) {
        carried_units(alloc, pid, findings, links)
    } else {
        taken_units(alloc, pid, findings, links)
    }
}

// Returns a stream with its units.
#[tactic(auto, unfolding(crate::specs::Moments::with_units))]
fn timed_stream(
    alloc: Global,
    stream: StreamMoments,
    units: Vec<WireUnit>,
) -> Result<TimedStream, AllocError>
    ensures { IfOk result (λ t. t ≡ spec.with_units stream units.items) }
{
    let units = units_at(alloc, &stream.units, units)?;
    Ok(TimedStream {
        program: stream.program,
        pid: stream.pid,
        stream_type: stream.stream_type,
        stream_id: stream.stream_id,
        descriptors: stream.descriptors,
        shared_with: stream.shared_with,
        units,
    })
}

// Returns the PIDs of streams.
fn pids_of(alloc: Global, streams: &[StreamMoments]) -> Result<Vec<u16>, AllocError>
    ensures { IfOk result (λ pids. pids.items ≡ map (λ s. s.pid) streams.now) }
{
    streams.iter().map(|stream| stream.pid).collect(alloc)
}

/// Returns the streams with their units at their moments. The bodies of these are moved out of the findings; the
/// units of all other PIDs remain.
pub fn timed_streams(
    alloc: Global,
    streams: Vec<StreamMoments>,
    findings: &mut [Finding<'_>],
) -> Result<Vec<TimedStream>, AllocError>
    ensures streams { IfOk result (λ timed. timed.items
        ≡ map (spec.timed_stream (map finding_view findings.old)) streams.items) }
    ensures others { OnOk result (OthersCarried (map (λ s. s.pid) streams.items) (map finding_view findings.old)
        (map finding_view findings.new)) }
    ensures pids { OnOk result (pids_in (map finding_view findings.new) ≡ pids_in (map finding_view findings.old)) }
{
    let links = PidLinks::new(alloc, findings)?;
    let pids = pids_of(alloc, &streams)?;
    let mut timed = Vec::with_capacity(alloc, streams.len())?;
    let mut left = VecDeque::from(streams);
    let mut later = pids.as_slice();
    'streams: while let Some(next) = left.pop_front() {
        let Some((pid, rest)) = later.split_first() else {
            return Err(AllocError);
        };
        let units = units_of(alloc, *pid, rest, findings, &links)?;
        timed.push(timed_stream(alloc, next, units)?)?;
        later = rest;
    }
    Ok(timed)
}
