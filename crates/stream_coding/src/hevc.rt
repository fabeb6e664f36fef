//! The values of a sequence parameter set of ISO/IEC 23008-2.

ghost use Rattle.std.specs.Prelude.{◌≡◌, ◌≤◌};
ghost use Rattle.stream_coding.specs.Hevc as spec;

use crate::coding::HevcSequence;
use crate::rbsp::rbsp_byte;
use crate::structures::{Structure, bytes_of};

/// Returns a byte of a NAL unit without its emulation prevention bytes; 0 if it ends before.
pub(crate) fn byte_or_zero(bytes: &[u8], number: usize) -> u8
    ensures { result ≡ spec.byte_or_zero bytes.now number }
{
    rbsp_byte(number, bytes).unwrap_or(0)
}

// Returns whether a profile has flags of its limits.
#[tactic(auto, unfolding(crate::specs::Hevc::has_limit_flags))]
fn has_limit_flags(idc: u8) -> bool
    ensures { result ≡ spec.has_limit_flags idc }
{
    idc == 4 || idc == 5 || idc == 9 || idc == 10 || idc == 11
}

// Returns one number of four, for samples of up to 8, 10, 12 or 16 bits.
#[tactic(auto, unfolding(crate::specs::Hevc::by_depth))]
fn by_depth(depths: u8, eight: u32, ten: u32, twelve: u32, sixteen: u32) -> u32
    ensures { result ≡ spec.by_depth depths eight ten twelve sixteen }
{
    if depths / 2 % 2 == 1 {
        eight
    } else if depths / 4 % 2 == 1 {
        ten
    } else if depths / 8 % 2 == 1 {
        twelve
    } else {
        sixteen
    }
}

// Returns CpbNalFactor by these flags.
#[tactic(auto, unfolding(crate::specs::Hevc::limited_factor, crate::specs::Hevc::by_depth))]
fn limited_factor(depths: u8, formats: u8) -> u32
    ensures value { result ≡ spec.limited_factor depths formats }
    ensures bound { result ≤ 4400 }
{
    if formats / 64 % 2 == 1 {
        by_depth(depths, 733, 917, 1_100, 1_467)
    } else if formats / 128 == 1 {
        by_depth(depths, 1_100, 1_100, 1_650, 4_400)
    } else if depths % 2 == 1 {
        by_depth(depths, 1_833, 1_833, 2_200, 4_400)
    } else {
        by_depth(depths, 2_200, 2_750, 3_300, 4_400)
    }
}

// Returns CpbNalFactor of a profile.
#[tactic(auto, unfolding(crate::specs::Hevc::cpb_nal_factor))]
fn cpb_nal_factor(idc: u8, depths: u8, formats: u8) -> u32
    ensures value { result ≡ spec.cpb_nal_factor idc depths formats }
    ensures bound { result ≤ 4400 }
{
    if has_limit_flags(idc) {
        limited_factor(depths, formats)
    } else {
        1_100
    }
}

// Returns BrNalFactor of a profile.
#[tactic(auto, unfolding(crate::specs::Hevc::br_nal_factor))]
fn br_nal_factor(idc: u8, depths: u8, formats: u8) -> u32
    ensures { result ≡ spec.br_nal_factor idc depths formats }
{
    let factor = cpb_nal_factor(idc, depths, formats);
    if has_limit_flags(idc) && formats / 32 % 2 == 1 && formats / 8 % 2 == 0 {
        2 * factor
    } else {
        factor
    }
}

// Returns the values in these bytes of a sequence parameter set.
fn sequence_of(profile: u8, depths: u8, formats: u8, level: u8) -> HevcSequence
    ensures { result ≡ spec.sequence_of profile depths formats level }
{
    let idc = profile % 32;
    HevcSequence {
        level,
        high_tier: profile / 32 % 2 == 1,
        cpb_nal_factor: cpb_nal_factor(idc, depths, formats),
        br_nal_factor: br_nal_factor(idc, depths, formats),
    }
}

/// Returns the values of the first sequence parameter set of a unit.
#[tactic(auto, unfolding(crate::specs::Hevc::hevc_sequence))]
pub(crate) fn hevc_sequence(unit: &[u8]) -> HevcSequence
    ensures { result ≡ spec.hevc_sequence unit.now }
{
    let bytes = bytes_of(Structure::HevcParameters, unit);
    sequence_of(
        byte_or_zero(bytes, 1),
        byte_or_zero(bytes, 6),
        byte_or_zero(bytes, 7),
        byte_or_zero(bytes, 12),
    )
}
