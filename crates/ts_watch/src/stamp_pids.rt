//! Which time stamps have to repeat, by the tables.
ghost use Rattle.std.specs.Prelude.{◌≡◌, Some};
ghost use Rattle.ts_watch.specs.StampPids as spec;

use es_buffers::longest_stay;
use stream_coding::{Coding, coding_of};
use stream_programs::FoundStream;
use ts_tables::NamedStreams;

// Returns what the tables say of pictures, by the seconds that a byte may stay in a decoder.
fn of_picture(seconds: u32) -> Option<bool>
    ensures { result ≡ spec.of_picture seconds }
{
    if seconds == 60 { Some(false) } else { None }
}

#[tactic(auto, unfolding(crate::specs::StampPids::said_by))]
fn said_by(coding: Coding, seconds: u32) -> Option<bool>
    ensures { result ≡ spec.said_by coding seconds }
{
    match coding {
        Coding::Mpeg(_) | Coding::Avc(_) | Coding::Hevc(_) => of_picture(seconds),
        Coding::Ac3 | Coding::Pcm(_) => Some(true),
        _ => None,
    }
}

#[tactic(auto, unfolding(crate::specs::StampPids::said_of))]
fn said_of(stream: &FoundStream) -> Option<bool>
    ensures { result ≡ spec.said_of (Some stream.now) }
{
    let coding = coding_of(stream.stream_type, &stream.descriptors, &[]);
    said_by(
        coding,
        longest_stay(stream.stream_type, &stream.descriptors),
    )
}

/// Returns whether the tables say that time stamps of a PID have to repeat; `None` if they do not say it.
#[tactic(auto, unfolding(crate::specs::StampPids::said_of))]
pub(crate) fn said(named: &NamedStreams, pid: u16) -> Option<bool>
    ensures { result ≡ spec.said named.now pid }
{
    match named.stream(pid) {
        None => None,
        Some(stream) => said_of(stream),
    }
}
