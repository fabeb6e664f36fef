//! The values of the sequence header and the sequence extension of ISO/IEC 13818-2.

ghost use Rattle.std.specs.Prelude.{◌≡◌, ◌<◌, ◌^◌};
ghost use Rattle.stream_coding.specs.Sequences as spec;

use crate::coding::MpegSequence;
use crate::structures::{Structure, bytes_of};

#[tactic(auto, unfolding(crate::specs::Sequences::bit_rate_value))]
fn bit_rate_value(header: &[u8]) -> u32
    ensures value { result ≡ spec.bit_rate_value header.now }
    ensures bound { result < 2 ^ 18 }
{
    match header {
        [_, _, _, _, high, middle, low, ..] => {
            u32::from(*high) * 1024 + u32::from(*middle) * 4 + u32::from(*low / 64)
        }
        _ => 0,
    }
}

#[tactic(auto, unfolding(crate::specs::Sequences::vbv_buffer_size_value))]
fn vbv_buffer_size_value(header: &[u8]) -> u32
    ensures value { result ≡ spec.vbv_buffer_size_value header.now }
    ensures bound { result < 2 ^ 10 }
{
    match header {
        [_, _, _, _, _, _, high, low, ..] => u32::from(*high % 32) * 32 + u32::from(*low / 8),
        _ => 0,
    }
}

/// Returns the profile_and_level_indication of a sequence extension; 0 if it is cut.
#[tactic(auto, unfolding(crate::specs::Sequences::profile_and_level))]
pub(crate) fn profile_and_level(extension: &[u8]) -> u8
    ensures { result ≡ spec.profile_and_level extension.now }
{
    match extension {
        [first, second, ..] => *first % 16 * 16 + *second / 16,
        _ => 0,
    }
}

#[tactic(auto, unfolding(crate::specs::Sequences::bit_rate_extension))]
fn bit_rate_extension(extension: &[u8]) -> u32
    ensures value { result ≡ spec.bit_rate_extension extension.now }
    ensures bound { result < 2 ^ 12 }
{
    match extension {
        [_, _, high, low, ..] => u32::from(*high % 32) * 128 + u32::from(*low / 2),
        _ => 0,
    }
}

#[tactic(auto, unfolding(crate::specs::Sequences::vbv_buffer_size_extension))]
fn vbv_buffer_size_extension(extension: &[u8]) -> u8
    ensures { result ≡ spec.vbv_buffer_size_extension extension.now }
{
    match extension {
        [_, _, _, _, size, ..] => *size,
        _ => 0,
    }
}

// Returns the values of a sequence header and a sequence extension.
fn sequence_of(header: &[u8], extension: &[u8]) -> MpegSequence
    ensures { result ≡ spec.sequence_of header.now extension.now }
{
    let vbv_high = u32::from(vbv_buffer_size_extension(extension));
    MpegSequence {
        profile_and_level: profile_and_level(extension),
        bit_rate: bit_rate_extension(extension) * 262_144 + bit_rate_value(header),
        vbv_buffer_size: vbv_high * 1024 + vbv_buffer_size_value(header),
    }
}

/// Returns the values of the first sequence header and the first sequence extension of a unit.
#[tactic(auto, unfolding(crate::specs::Sequences::mpeg_sequence))]
pub(crate) fn mpeg_sequence(unit: &[u8]) -> MpegSequence
    ensures { result ≡ spec.mpeg_sequence unit.now }
{
    let header = bytes_of(Structure::SequenceHeader, unit);
    let extension = bytes_of(Structure::SequenceExtension, unit);
    sequence_of(header, extension)
}
