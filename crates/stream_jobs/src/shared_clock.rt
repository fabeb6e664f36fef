//! The clocks of a job's programs.

ghost use Rattle.std.specs.Prelude.{◌≡◌, IfOk, filter, map};
ghost use Rattle.std.specs.List.{list_any};
ghost use Rattle.stream_jobs.specs.SharedClocks as spec;

use given_values::ClockSharing;
use job_inputs::JobInput;
use job_programs::job_options::is_among;
use job_programs::job_stream::is_stream_of;
use job_programs::{JobProgram, StreamKind, TimedStream};
use job_units::stream_kinds::kind_of;
use std::alloc::{AllocError, Global};

// Returns whether a kind of streams is video.
fn is_picture(kind: Option<StreamKind>) -> bool
    ensures { result ≡ spec.is_picture kind }
{
    match kind {
        Some(StreamKind::Picture) => true,
        _ => false,
    }
}

// Returns whether a stream is video of the program with this number.
#[tactic(auto, unfolding(crate::specs::SharedClocks::is_video_of))]
fn is_video_of(number: u16, stream: &TimedStream) -> bool
    ensures { result ≡ spec.is_video_of number stream.now }
{
    is_stream_of(number, stream) && is_picture(kind_of(stream.stream_type, &stream.descriptors))
}

// Returns whether the program with this number has video.
fn has_video(number: u16, streams: &[TimedStream]) -> bool
    ensures { result ≡ list_any (spec.is_video_of number) streams.now }
{
    streams.iter().any(|stream| is_video_of(number, stream))
}

// Returns whether a program is on the shared clock, if there is one.
#[tactic(auto, unfolding(crate::specs::SharedClocks::may_share))]
fn may_share(by: ClockSharing, streams: &[TimedStream], program: &JobProgram) -> bool
    ensures { result ≡ spec.may_share by streams.now program.now }
{
    match by {
        ClockSharing::Each => false,
        ClockSharing::One => true,
        ClockSharing::WithoutVideo => !has_video(program.number, streams),
    }
}

// Returns the PIDs that clocks of their own would have for the programs that may share one.
fn may_share_pids(
    alloc: Global,
    by: ClockSharing,
    streams: &[TimedStream],
    programs: &[JobProgram],
) -> Result<Vec<u16>, AllocError>
    ensures { IfOk result (λ pids. pids.items
        ≡ map (λ p. p.pcr_pid) (filter (spec.may_share by streams.now) programs.now)) }
{
    programs
        .iter()
        .filter(|program| may_share(by, streams, program))
        .map(|program| program.pcr_pid)
        .collect(alloc)
}

// Returns these PIDs if there are two or more.
#[tactic(auto, unfolding(crate::specs::SharedClocks::if_several))]
fn if_several(alloc: Global, pids: Vec<u16>) -> Vec<u16>
    ensures { result.items ≡ spec.if_several pids.items }
{
    if pids.len() > 1 {
        pids
    } else {
        Vec::new(alloc)
    }
}

/// Returns the PIDs that clocks of their own would have for the programs that share a clock; none if no two programs
/// do. The first is the PID of the shared clock.
pub(crate) fn sharing(
    alloc: Global,
    by: ClockSharing,
    input: &JobInput,
) -> Result<Vec<u16>, AllocError>
    ensures { IfOk result (λ pids. pids.items ≡ spec.sharing by input.now) }
{
    let pids = may_share_pids(alloc, by, &input.streams, &input.programs)?;
    Ok(if_several(alloc, pids))
}

/// Returns the PID of the shared clock, if there is one.
pub(crate) fn shared_clock(pids: &[u16]) -> Option<u16>
    ensures { result ≡ spec.shared_clock pids.now }
{
    pids.first().copied()
}

/// Returns the PID of a program's own clock, if it shares none.
#[tactic(auto, unfolding(crate::specs::SharedClocks::own_clock))]
pub(crate) fn own_clock(pids: &[u16], program: &JobProgram) -> Option<u16>
    ensures { result ≡ spec.own_clock pids.now program.now }
{
    if is_among(program.pcr_pid, pids) {
        None
    } else {
        Some(program.pcr_pid)
    }
}
