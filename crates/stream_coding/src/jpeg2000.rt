//! The values of the J2K_video_descriptor of JPEG 2000 video (ISO/IEC 13818-1, 2.6.80).

ghost use Rattle.std.specs.Prelude.{◌≡◌, drop, find};
ghost use Rattle.std.specs.Option.{option_map_or};
ghost use Rattle.descriptor_loops.specs.Descriptors.{descriptor_view, descriptors_in};
ghost use Rattle.stream_coding.specs.Codings as spec;

use crate::adts::bytes_from;
use crate::coding::J2kLimits;
use descriptor_loops::{Descriptor, Descriptors};

// Tag of a J2K_video_descriptor (ISO/IEC 13818-1, table 2-45).
const J2K_VIDEO: u8 = 0x32;

#[tactic(auto, unfolding(crate::specs::Codings::is_j2k))]
fn is_j2k(descriptor: Descriptor<'_>) -> bool
    ensures { result ≡ spec.is_j2k (descriptor_view descriptor.entry) }
{
    descriptor.tag == J2K_VIDEO
}

// Returns the number in four bytes at the front; 0 if they are fewer.
#[tactic(auto, unfolding(crate::specs::Codings::four_bytes))]
fn four_bytes(bytes: &[u8]) -> u32
    ensures { result ≡ spec.four_bytes bytes.now }
{
    match bytes {
        [a, b, c, d, ..] => {
            u32::from(*a) * 16_777_216
                + u32::from(*b) * 65_536
                + u32::from(*c) * 256
                + u32::from(*d)
        }
        _ => 0,
    }
}

// Returns the limits in the body of a descriptor.
#[tactic(auto, unfolding(crate::specs::Codings::j2k_limits))]
fn limits_in(body: &[u8]) -> J2kLimits
    ensures { result ≡ spec.j2k_limits body.now }
{
    J2kLimits {
        max_bit_rate: four_bytes(bytes_from(10, body)),
        max_buffer_size: four_bytes(bytes_from(14, body)),
    }
}

// Returns the body of the first such descriptor; no bytes if there is none.
fn j2k_body(descriptors: &[u8]) -> &[u8]
    ensures { result.now ≡ spec.j2k_body descriptors.now }
{
    for descriptor in Descriptors::of(descriptors) {
        if is_j2k(descriptor) {
            return descriptor.body;
        }
    }
    &[]
}

/// Returns the values of the first J2K_video_descriptor among these descriptors.
pub(crate) fn j2k_limits(descriptors: &[u8]) -> J2kLimits
    ensures { result ≡ spec.j2k_limits (spec.j2k_body descriptors.now) }
{
    limits_in(j2k_body(descriptors))
}
