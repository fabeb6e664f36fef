//! Which streams are SMPTE 302M audio, and how many channels their units have.

ghost use Rattle.std.specs.Prelude.{◌≡◌, ◌≤◌};
ghost use Rattle.descriptor_loops.specs.Descriptors.{descriptor_view};
ghost use Rattle.stream_coding.specs.Codings as spec;

use descriptor_loops::{Descriptor, Descriptors};

// Tag of a registration descriptor (ISO/IEC 13818-1, table 2-45).
const REGISTRATION: u8 = 5;

#[tactic(auto, unfolding(crate::specs::Codings::registers_pcm))]
fn registers_pcm(descriptor: Descriptor<'_>) -> bool
    ensures { result ≡ spec.registers_pcm (descriptor_view descriptor.entry) }
{
    descriptor.tag == REGISTRATION && descriptor.body.starts_with(b"BSSD")
}

/// Returns whether a stream is SMPTE 302M audio: a descriptor registers "BSSD".
pub(crate) fn is_pcm(descriptors: &[u8]) -> bool
    ensures { result ≡ spec.is_pcm descriptors.now }
{
    for descriptor in Descriptors::of(descriptors) {
        if registers_pcm(descriptor) {
            return true;
        }
    }
    false
}

/// Returns the pairs of channels of a unit, by its header.
#[tactic(auto, unfolding(crate::specs::Codings::channel_pairs))]
pub(crate) fn channel_pairs(unit: &[u8]) -> u8
    ensures { result ≡ spec.channel_pairs unit.now }
{
    match unit {
        [_, _, c, ..] => *c / 64 + 1,
        _ => 4,
    }
}
