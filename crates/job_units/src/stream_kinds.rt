//! What a stream is for a viewer, by its coding.

ghost use Rattle.std.specs.Prelude.{◌≡◌};
ghost use Rattle.job_units.specs.StreamKinds as spec;

use job_programs::{NamedStream, StreamKind};
use stream_coding::{Coding, coding_of};
use stream_programs::FoundStream;

// Returns the kind of streams of a coding.
#[tactic(auto, unfolding(crate::specs::StreamKinds::coded_kind))]
fn coded_kind(coding: Coding) -> Option<StreamKind>
    ensures { result ≡ spec.coded_kind coding }
{
    match coding {
        Coding::Mpeg(_) => Some(StreamKind::Picture),
        Coding::Avc(_) => Some(StreamKind::Picture),
        Coding::Hevc(_) => Some(StreamKind::Picture),
        Coding::Jpeg2000(_) => Some(StreamKind::Picture),
        Coding::Audio => Some(StreamKind::Sound),
        Coding::Aac(_) => Some(StreamKind::Sound),
        Coding::Ac3 => Some(StreamKind::Sound),
        Coding::Pcm(_) => Some(StreamKind::Sound),
        Coding::Subtitles => None,
        Coding::Teletext => None,
        Coding::Other => None,
    }
}

/// Returns whether a stream with this stream_type and these descriptors is a picture or sound.
pub fn kind_of(stream_type: u8, descriptors: &[u8]) -> Option<StreamKind>
    ensures { result ≡ spec.kind_of stream_type descriptors.now }
{
    coded_kind(coding_of(stream_type, descriptors, &[]))
}

// Returns the name of a stream for a warning about it.
pub(crate) fn named_stream(stream: &FoundStream) -> NamedStream
    ensures { result ≡ spec.named_stream stream.now }
{
    NamedStream {
        program: stream.program,
        pid: stream.pid,
        kind: kind_of(stream.stream_type, &stream.descriptors),
    }
}
