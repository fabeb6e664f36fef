//! Descriptors of the rates and buffers of the multiplex that contains them.

ghost use Rattle.std.specs.Prelude.{◌≡◌};
ghost use Rattle.descriptor_loops.specs.Descriptors as spec;

use crate::descriptors::{Descriptor, Descriptors};

// Tags (ISO/IEC 13818-1, table 2-45).
const MULTIPLEX_BUFFER_UTILIZATION: u8 = 12;

const MAXIMUM_BITRATE: u8 = 14;

const SMOOTHING_BUFFER: u8 = 16;

const STD: u8 = 17;

const AVC_TIMING_AND_HRD: u8 = 42;

const EXTENSION: u8 = 63;

// descriptor_tag_extension (table 2-108).
const HEVC_TIMING_AND_HRD: u8 = 3;

// Returns whether leak_valid_flag is 0.
#[tactic(auto, unfolding(crate::specs::Descriptors::is_by_vbv_delay))]
fn is_by_vbv_delay(body: &[u8]) -> bool
    ensures { result ≡ spec.is_by_vbv_delay body.now }
{
    match body {
        [] => false,
        [b, ..] => *b % 2 == 0,
    }
}

// Returns whether hrd_management_valid_flag is 1.
#[tactic(auto, unfolding(crate::specs::Descriptors::is_by_hrd))]
fn is_by_hrd(body: &[u8]) -> bool
    ensures { result ≡ spec.is_by_hrd body.now }
{
    match body {
        [] => false,
        [b, ..] => *b / 128 == 1,
    }
}

// Returns whether descriptor_tag_extension is the number of HEVC_timing_and_HRD, and hrd_management_valid_flag 1.
#[tactic(auto, unfolding(crate::specs::Descriptors::is_by_hevc_hrd))]
fn is_by_hevc_hrd(body: &[u8]) -> bool
    ensures { result ≡ spec.is_by_hevc_hrd body.now }
{
    match body {
        [extension, b, ..] => *extension == HEVC_TIMING_AND_HRD && *b / 128 == 1,
        _ => false,
    }
}

/// Returns whether a descriptor speaks of a multiplex.
#[tactic(auto, unfolding(crate::specs::Descriptors::is_of_multiplex))]
pub(crate) fn is_of_multiplex(descriptor: Descriptor<'_>) -> bool
    ensures { result ≡ spec.is_of_multiplex (spec.descriptor_view descriptor.entry) }
{
    descriptor.tag == MULTIPLEX_BUFFER_UTILIZATION
        || descriptor.tag == MAXIMUM_BITRATE
        || descriptor.tag == SMOOTHING_BUFFER
        || (descriptor.tag == STD && is_by_vbv_delay(descriptor.body))
        || (descriptor.tag == AVC_TIMING_AND_HRD && is_by_hrd(descriptor.body))
        || (descriptor.tag == EXTENSION && is_by_hevc_hrd(descriptor.body))
}

/// Returns whether these bytes have a complete descriptor of a multiplex.
#[tactic(auto, unfolding(crate::specs::Descriptors::has_of_multiplex))]
pub fn has_of_multiplex(bytes: &[u8]) -> bool
    ensures { result ≡ spec.has_of_multiplex bytes.now }
{
    for descriptor in Descriptors::of(bytes) {
        if is_of_multiplex(descriptor) {
            return true;
        }
    }
    false
}
