//! How long a byte may stay in a decoder.

ghost use Rattle.std.specs.Prelude.{◌≡◌, ◌<◌, ◌≤◌, option_map};
ghost use Rattle.descriptor_loops.specs.Descriptors.{descriptor_view};
ghost use Rattle.es_buffers.specs.Stays as spec;

use descriptor_loops::{Descriptor, Descriptors};
use stream_coding::is_ac3;

// Tags of descriptors (ISO/IEC 13818-1, table 2-45).
const VIDEO_STREAM: u8 = 2;

const AVC_VIDEO: u8 = 40;

const HEVC_VIDEO: u8 = 56;

// Returns whether there is a byte and it has a bit.
#[tactic(auto, unfolding(crate::specs::Stays::has_bit))]
fn has_bit(byte: Option<&u8>, unit: u8) -> bool
    requires { 0 < unit }
    ensures { result ≡ spec.has_bit (option_map (λ b. b.now) byte.entry) unit }
{
    match byte {
        None => false,
        Some(byte) => *byte / unit % 2 == 1,
    }
}

#[tactic(auto, unfolding(crate::specs::Stays::names_stills))]
fn names_stills(descriptor: Descriptor<'_>) -> bool
    ensures { result ≡ spec.names_stills (descriptor_view descriptor.entry) }
{
    (descriptor.tag == VIDEO_STREAM && has_bit(descriptor.body.get(0), 1))
        || (descriptor.tag == AVC_VIDEO && has_bit(descriptor.body.get(3), 128))
        || (descriptor.tag == HEVC_VIDEO && has_bit(descriptor.body.get(12), 64))
}

fn has_stills(descriptors: &[u8]) -> bool
    ensures { result ≡ spec.has_stills descriptors.now }
{
    for descriptor in Descriptors::of(descriptors) {
        if names_stills(descriptor) {
            return true;
        }
    }
    false
}

/// Returns the longest time in seconds that a byte of a stream may stay in a decoder before it is decoded, by the
/// stream_type and the bytes of descriptors of its entry in the program map (ISO/IEC 13818-1, 2.4.2.6).
#[tactic(auto, unfolding(crate::specs::Stays::longest_stay, crate::specs::Stays::is_mpeg_video, crate::specs::Stays::is_later_video))]
pub fn longest_stay(stream_type: u8, descriptors: &[u8]) -> u32
    ensures value { result ≡ spec.longest_stay stream_type descriptors.now }
    ensures bound { result ≤ 60 }
{
    match stream_type {
        0x01 | 0x02 => if has_stills(descriptors) { 60 } else { 1 },
        0x10 | 0x1b | 0x24 => if has_stills(descriptors) { 60 } else { 10 },
        0x11 | 0x1c => 10,
        0x03 | 0x04 | 0x0f => 1,
        _ => if is_ac3(stream_type, descriptors) {
            1
        } else {
            60
        },
    }
}
