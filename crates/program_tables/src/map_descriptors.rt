//! Whether a program map table has all descriptors of another one.

ghost use Rattle.std.specs.Prelude.{◌≡◌};
ghost use Rattle.descriptor_loops.specs.Descriptors.{descriptor_view};
ghost use Rattle.psi_tables.specs.ProgramMap.{pmt_view, stream_view, streams_of};
ghost use Rattle.program_tables.specs.ProgramMaps as spec;

use crate::program_map::is_same_stream;
use descriptor_loops::{Descriptor, Descriptors};
use psi_tables::{Pmt, Stream, Streams};

// Returns whether a descriptor with this tag only repeats facts of the stream itself: AC-3 and enhanced AC-3 (EN 300
// 468, annex D).
#[tactic(auto, unfolding(crate::specs::ProgramMaps::is_of_sound))]
fn is_of_sound(tag: u8) -> bool
    ensures { result ≡ spec.is_of_sound tag }
{
    tag == 0x6A || tag == 0x7A
}

// Returns whether two descriptors have one tag and the same bytes; of AC-3 the tag alone counts.
#[tactic(auto, unfolding(crate::specs::ProgramMaps::is_same_descriptor))]
fn is_same_descriptor(one: Descriptor<'_>, other: Descriptor<'_>) -> bool
    ensures { result ≡ spec.is_same_descriptor (descriptor_view one.entry) (descriptor_view other.entry) }
{
    one.tag == other.tag && (is_of_sound(one.tag) || one.body == other.body)
}

// Returns whether a descriptor is among the descriptors in `bytes`.
#[tactic(auto, unfolding(crate::specs::ProgramMaps::has_descriptor))]
fn has_descriptor(bytes: &[u8], descriptor: Descriptor<'_>) -> bool
    ensures { result ≡ spec.has_descriptor bytes.now (descriptor_view descriptor.entry) }
{
    for other in Descriptors::of(bytes) {
        if is_same_descriptor(other, descriptor) {
            return true;
        }
    }
    false
}

// Returns whether all descriptors in `others` are among the descriptors in `bytes`.
#[tactic(auto, unfolding(crate::specs::ProgramMaps::has_descriptors))]
fn has_descriptors(bytes: &[u8], others: &[u8]) -> bool
    ensures { result ≡ spec.has_descriptors bytes.now others.now }
{
    for descriptor in Descriptors::of(others) {
        if !has_descriptor(bytes, descriptor) {
            return false;
        }
    }
    true
}

// Returns whether an entry of the same stream has all descriptors of `other`; true for another stream.
#[tactic(auto, unfolding(crate::specs::ProgramMaps::keeps_one))]
fn keeps_one(stream: Stream<'_>, other: Stream<'_>) -> bool
    ensures { result ≡ spec.keeps_one (stream_view stream.entry) (stream_view other.entry) }
{
    !is_same_stream(stream, other) || has_descriptors(stream.descriptors, other.descriptors)
}

// Returns whether the entries of a stream have all its descriptors.
#[tactic(auto, unfolding(crate::specs::ProgramMaps::keeps_stream))]
fn keeps_stream(streams: Streams<'_>, stream: Stream<'_>) -> bool
    ensures { result ≡ spec.keeps_stream (streams_of streams.entry) (stream_view stream.entry) }
{
    for one in streams {
        if !keeps_one(one, stream) {
            return false;
        }
    }
    true
}

// Returns whether the entries of each stream in `others` have all its descriptors.
#[tactic(auto, unfolding(crate::specs::ProgramMaps::keeps_streams))]
fn keeps_streams(streams: Streams<'_>, others: Streams<'_>) -> bool
    ensures { result ≡ spec.keeps_streams (streams_of streams.entry) (streams_of others.entry) }
{
    for other in others {
        if !keeps_stream(streams, other) {
            return false;
        }
    }
    true
}

/// Returns whether a table has all descriptors of another one: of the program, and of each stream that both name.
#[tactic(auto, unfolding(crate::specs::ProgramMaps::keeps_descriptors))]
pub(crate) fn keeps_descriptors(one: &Pmt<'_>, other: &Pmt<'_>) -> bool
    ensures { result ≡ spec.keeps_descriptors (pmt_view one.now) (pmt_view other.now) }
{
    has_descriptors(one.program_info, other.program_info)
        && keeps_streams(one.streams, other.streams)
}
