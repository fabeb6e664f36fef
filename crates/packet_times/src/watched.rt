//! Which streams may not be without a packet for long.
ghost use Rattle.std.specs.Prelude.{◌≡◌, option_map};
ghost use Rattle.descriptor_loops.specs.Descriptors.{descriptor_view};
ghost use Rattle.ts_tables.specs.NamedStreams.{stream_of};
ghost use Rattle.packet_times.specs.Watched as spec;

use descriptor_loops::{Descriptor, Descriptors};
use stream_coding::{Coding, coding_of};
use stream_programs::FoundStream;
use ts_tables::NamedStreams;

// The tag of an ISO_639_language_descriptor (ISO/IEC 13818-1, table 2-45).
const ISO_639_LANGUAGE: u8 = 10;

// Returns whether the audio_type of the first language is greater than 0.
#[tactic(auto, unfolding(crate::specs::Watched::has_type))]
fn has_type(body: &[u8]) -> bool
    ensures { result ≡ spec.has_type body.now }
{
    match body {
        [_, _, _, audio_type, ..] => *audio_type > 0,
        _ => false,
    }
}

#[tactic(auto, unfolding(crate::specs::Watched::is_typed))]
fn is_typed(descriptor: Descriptor<'_>) -> bool
    ensures { result ≡ spec.is_typed (descriptor_view descriptor.entry) }
{
    descriptor.tag == ISO_639_LANGUAGE && has_type(descriptor.body)
}

fn has_typed(descriptors: &[u8]) -> bool
    ensures { result ≡ spec.has_typed descriptors.now }
{
    for descriptor in Descriptors::of(descriptors) {
        if is_typed(descriptor) {
            return true;
        }
    }
    false
}

#[tactic(auto, unfolding(crate::specs::Watched::is_steady))]
fn is_steady(coding: Coding, descriptors: &[u8]) -> bool
    ensures { result ≡ spec.is_steady coding descriptors.now }
{
    match coding {
        Coding::Mpeg(_) | Coding::Avc(_) | Coding::Hevc(_) | Coding::Jpeg2000(_) => true,
        Coding::Audio | Coding::Aac(_) | Coding::Ac3 | Coding::Pcm(_) => !has_typed(descriptors),
        Coding::Subtitles | Coding::Teletext | Coding::Other => false,
    }
}

fn is_steady_stream(stream: &FoundStream) -> bool
    ensures { result ≡ spec.is_steady_stream stream.now }
{
    let coding = coding_of(stream.stream_type, &stream.descriptors, &[]);
    is_steady(coding, &stream.descriptors)
}

/// Returns whether the first tables name a PID as video or audio, once these are known.
#[tactic(auto, unfolding(crate::specs::Watched::is_watched_by))]
pub(crate) fn is_watched(named: &NamedStreams, pid: u16) -> bool
    ensures { result ≡ spec.is_watched named.now pid }
{
    match named.stream(pid) {
        None => false,
        Some(stream) => is_steady_stream(stream),
    }
}
