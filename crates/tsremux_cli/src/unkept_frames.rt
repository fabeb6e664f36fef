//! The streams of sound of a job that leave their main buffers in whole units.
ghost use Rattle.std.specs.Prelude.{◌≡◌, ◌++◌, ◌||◌, [], IfOk, OnOk, find, option_map};
ghost use Rattle.std.specs.List.{list_any};
ghost use Rattle.checked_jobs.specs.JobFaults.{plans_view};
ghost use Rattle.checked_jobs.specs.MuxJobs.{mux_job_view};
ghost use Rattle.tsremux_cli.specs.UnkeptFrames as spec;

use crate::figures::UnkeptFrames;
use checked_jobs::{JobPlans, MuxJob};
use description::Description;
use description_parts::StreamDescription;
use job_units::crossing_frames::crosses;
use sound_frames::{FrameKind, frame_kind, unit_frames};
use std::alloc::{AllocError, Global};
use unit_records::Unit;

// Returns whether a unit has several frames.
#[tactic(auto, unfolding(crate::specs::UnkeptFrames::has_frames))]
fn has_frames(kind: FrameKind, unit: &Unit) -> bool
    ensures { result ≡ spec.has_frames kind unit.now }
{
    match unit_frames(kind, unit.bytes.as_slice()) {
        None => false,
        Some(frames) => frames.count > 1,
    }
}

// Returns whether a unit of a stream has several frames.
fn is_framed(kind: FrameKind, number: usize, entry: &(u8, Unit)) -> bool
    ensures { result ≡ spec.is_framed kind number entry.now }
{
    usize::from(entry.0) == number && has_frames(kind, &entry.1)
}

// Returns whether any unit of a stream has several frames.
fn are_framed(kind: FrameKind, number: usize, units: &[(u8, Unit)]) -> bool
    ensures { result ≡ list_any (spec.is_framed kind number) units.now }
{
    units.iter().any(|entry| is_framed(kind, number, entry))
}

// Returns whether a unit is of a stream.
fn is_of(number: usize, entry: &(u8, Unit)) -> bool
    ensures { result ≡ spec.is_of number entry.now }
{
    usize::from(entry.0) == number
}

// Returns whether a unit is a later one of a stream.
fn is_later(number: usize, dts: u64, entry: &(u8, Unit)) -> bool
    ensures { result ≡ spec.is_later number dts entry.now }
{
    usize::from(entry.0) == number && dts < entry.1.dts
}

// Returns the first unit of a stream.
fn first_of<'a>(number: usize, units: &'a [(u8, Unit)]) -> Option<&'a (u8, Unit)>
    ensures { option_map (λ e. e.now) result ≡ find (spec.is_of number) units.now }
{
    units.iter().find(|entry| is_of(number, entry))
}

// Returns the first later unit of a stream.
fn later_of<'a>(number: usize, dts: u64, units: &'a [(u8, Unit)]) -> Option<&'a (u8, Unit)>
    ensures { option_map (λ e. e.now) result ≡ find (spec.is_later number dts) units.now }
{
    units.iter().find(|entry| is_later(number, dts, entry))
}

// Returns whether a frame begins in a unit of a stream and ends in its next one.
#[tactic(auto, unfolding(crate::specs::UnkeptFrames::is_continued))]
fn is_continued(
    alloc: Global,
    kind: FrameKind,
    number: usize,
    units: &[(u8, Unit)],
    one: &Unit,
) -> Result<bool, AllocError>
    ensures { IfOk result (λ is. is ≡ spec.is_continued kind number units.now one.now) }
{
    match later_of(number, one.dts, units) {
        None => Ok(false),
        Some(next) => crosses(alloc, kind, one.bytes.as_slice(), next.1.bytes.as_slice()),
    }
}

// Returns whether a frame begins in the first unit of a stream and ends in its next one.
#[tactic(auto, unfolding(crate::specs::UnkeptFrames::do_cross))]
fn do_cross(
    alloc: Global,
    kind: FrameKind,
    number: usize,
    units: &[(u8, Unit)],
) -> Result<bool, AllocError>
    ensures { IfOk result (λ is. is ≡ spec.do_cross kind number units.now) }
{
    match first_of(number, units) {
        None => Ok(false),
        Some(one) => is_continued(alloc, kind, number, units, &one.1),
    }
}

// Returns whether units of a stream have several frames, or frames cross its units.
fn have_frames(
    alloc: Global,
    kind: FrameKind,
    number: usize,
    units: &[(u8, Unit)],
) -> Result<bool, AllocError>
    ensures { IfOk result (λ is. is
        ≡ (list_any (spec.is_framed kind number) units.now || spec.do_cross kind number units.now)) }
{
    if are_framed(kind, number, units) {
        return Ok(true);
    }
    do_cross(alloc, kind, number, units)
}

// Returns whether a stream leaves its main buffer in units with several frames.
#[tactic(auto, unfolding(crate::specs::UnkeptFrames::is_unkept))]
fn is_unkept(
    alloc: Global,
    units: &[(u8, Unit)],
    number: usize,
    stream: &StreamDescription,
) -> Result<bool, AllocError>
    ensures { IfOk result (λ is. is ≡ spec.is_unkept units.now number stream.now) }
{
    match frame_kind(stream.stream_type, stream.descriptors.as_bytes()) {
        None => Ok(false),
        Some(kind) => match stream.framing {
            Some(_) => Ok(false),
            None => have_frames(alloc, kind, number, units),
        },
    }
}

// Appends the PID of a stream that leaves its main buffer in units with several frames.
fn push_unkept(
    alloc: Global,
    units: &[(u8, Unit)],
    number: usize,
    stream: &StreamDescription,
    pids: &mut Vec<u16>,
) -> Result<(), AllocError>
    ensures { OnOk result (pids.new.items
        ≡ pids.old.items ++ spec.pid_if (spec.is_unkept units.now number stream.now) stream.now.pid) }
{
    if is_unkept(alloc, units, number, stream)? {
        pids.push(stream.pid)?;
    }
    Ok(())
}

// Returns the PIDs of the streams that leave their main buffers in units with several frames.
fn unkept_pids(
    alloc: Global,
    units: &[(u8, Unit)],
    streams: &[StreamDescription],
) -> Result<Vec<u16>, AllocError>
    ensures { IfOk result (λ pids. pids.items ≡ spec.unkept_from units.now 0 streams.now) }
{
    let mut pids = Vec::new(alloc);
    for (number, stream) in streams.iter().enumerate() {
        push_unkept(alloc, units, number, stream, &mut pids)?;
    }
    Ok(pids)
}

// Returns the first of these PIDs, and the number of the others.
#[tactic(auto, unfolding(crate::specs::UnkeptFrames::first_and_others))]
fn first_and_others(pids: &[u16]) -> Option<UnkeptFrames>
    ensures { result ≡ spec.first_and_others pids.now }
{
    match pids.split_first() {
        None => None,
        Some((pid, others)) => Some(UnkeptFrames {
            pid: *pid,
            others: others.len(),
        }),
    }
}

// Returns the description of a job.
fn description_of(plans: &JobPlans) -> &Description
    ensures { result.now ≡ (plans_view plans.now []).description }
{
    match plans {
        JobPlans::One(plan) => plan.description(),
        JobPlans::Two(switch) => switch.first().description(),
    }
}

/// Returns the first stream of sound of a job that leaves its main buffer in units with several frames, and the number
/// of the others.
pub(crate) fn unkept_frames(alloc: Global, job: &MuxJob) -> Result<Option<UnkeptFrames>, AllocError>
    ensures { IfOk result (λ found. found ≡ spec.unkept_of (mux_job_view job.now)) }
{
    let streams = description_of(&job.plans).streams();
    let pids = unkept_pids(alloc, &job.units, streams)?;
    Ok(first_and_others(&pids))
}
