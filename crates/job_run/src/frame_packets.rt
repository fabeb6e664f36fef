//! The PES packets of sound of a job, with at most as many frames as its options ask for.

ghost use Rattle.std.specs.Prelude.{◌≡◌, IfOk, filter_map, map};
ghost use Rattle.pid_findings.specs.Shown.{finding_view};
ghost use Rattle.job_run.specs.FramePackets as spec;

use pid_findings::Finding;
use sound_frames::frame_kind;
use sound_packets::{SoundPid, cut_packets};
use stamp_repair::programs_in;
use std::alloc::{AllocError, Global};
use stream_programs::FoundStream;

// Returns a stream, if it is sound.
#[tactic(auto, unfolding(crate::specs::FramePackets::sound_of))]
fn sound_of(stream: &FoundStream) -> Option<SoundPid>
    ensures { result ≡ spec.sound_of stream.now }
{
    match frame_kind(stream.stream_type, &stream.descriptors) {
        None => None,
        Some(kind) => Some(SoundPid {
            pid: stream.pid,
            kind,
        }),
    }
}

// Returns the streams of sound.
fn sounds_of(alloc: Global, streams: &[FoundStream]) -> Result<Vec<SoundPid>, AllocError>
    ensures { IfOk result (λ sounds. sounds.items ≡ filter_map spec.sound_of streams.now) }
{
    streams
        .iter()
        .filter_map(|stream| sound_of(stream))
        .collect(alloc)
}

// Returns findings in which each PES packet of sound has at most `frames` frames.
fn cut_sounds(
    alloc: Global,
    frames: u8,
    findings: Vec<Finding<'static>>,
) -> Result<Vec<Finding<'static>>, AllocError>
    ensures { IfOk result (λ cut. map finding_view cut.items
        ≡ spec.cut_sounds frames (map finding_view findings.entry.items)) }
{
    let programs = programs_in(alloc, &findings)?;
    let sounds = sounds_of(alloc, &programs.streams)?;
    cut_packets(alloc, frames, &sounds, findings)
}

/// Returns findings in which each PES packet of sound has at most `frames` frames; the same findings without a number.
#[tactic(auto, unfolding(crate::specs::FramePackets::framed_by))]
pub(crate) fn frame_packets(
    alloc: Global,
    frames: Option<u8>,
    findings: Vec<Finding<'static>>,
) -> Result<Vec<Finding<'static>>, AllocError>
    ensures { IfOk result (λ framed. map finding_view framed.items
        ≡ spec.framed_by frames (map finding_view findings.entry.items)) }
{
    match frames {
        None => Ok(findings),
        Some(frames) => cut_sounds(alloc, frames, findings),
    }
}
