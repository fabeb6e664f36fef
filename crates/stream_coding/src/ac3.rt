//! Which streams are AC-3 or Enhanced AC-3.

ghost use Rattle.std.specs.Prelude.{◌≡◌};
ghost use Rattle.std.specs.List.{list_any};
ghost use Rattle.descriptor_loops.specs.Descriptors.{descriptor_view, descriptors_in};
ghost use Rattle.stream_coding.specs.Codings as spec;

use descriptor_loops::{Descriptor, Descriptors, has_tag};

// stream_types of ATSC A/53.
const AC3_TYPE: u8 = 0x81;

const ENHANCED_AC3_TYPE: u8 = 0x87;

// stream_type of private data in PES packets (ISO/IEC 13818-1, table 2-34).
const PRIVATE_DATA: u8 = 6;

// Tags of descriptors (ISO/IEC 13818-1, table 2-45; EN 300 468, table 12).
const REGISTRATION: u8 = 5;

const AC3: u8 = 0x6a;

const ENHANCED_AC3: u8 = 0x7a;

#[tactic(auto, unfolding(crate::specs::Codings::registers_ac3))]
fn registers_ac3(descriptor: Descriptor<'_>) -> bool
    ensures { result ≡ spec.registers_ac3 (descriptor_view descriptor.entry) }
{
    descriptor.tag == REGISTRATION
        && (descriptor.body.starts_with(b"AC-3") || descriptor.body.starts_with(b"EAC3"))
}

fn is_registered(descriptors: &[u8]) -> bool
    ensures { result ≡ list_any spec.registers_ac3 (descriptors_in descriptors.now) }
{
    for descriptor in Descriptors::of(descriptors) {
        if registers_ac3(descriptor) {
            return true;
        }
    }
    false
}

/// Returns whether a stream is AC-3 or Enhanced AC-3, by its stream_type and its bytes of descriptors: stream_type 0x81
/// or 0x87 (ATSC A/53), an AC-3 or enhanced_AC-3 descriptor (EN 300 468, annex D), or private data (stream_type 6) with
/// a registration descriptor (ISO/IEC 13818-1, 2.6.8) of "AC-3" or "EAC3".
#[tactic(auto, unfolding(crate::specs::Codings::is_ac3))]
pub fn is_ac3(stream_type: u8, descriptors: &[u8]) -> bool
    ensures { result ≡ spec.is_ac3 stream_type descriptors.now }
{
    stream_type == AC3_TYPE
        || stream_type == ENHANCED_AC3_TYPE
        || has_tag(AC3, descriptors)
        || has_tag(ENHANCED_AC3, descriptors)
        || (stream_type == PRIVATE_DATA && is_registered(descriptors))
}
