//! The profile and the level of a stream, by their numbers.

ghost use Rattle.std.specs.Prelude.{◌≡◌};
ghost use Rattle.stream_coding.specs.Profiles as spec;

use crate::avc::level_idc;
use crate::hevc::byte_or_zero;
use crate::sequences::profile_and_level;
use crate::structures::{Structure, bytes_of};

// stream_types (ISO/IEC 13818-1, table 2-34).
const MPEG_VIDEO: u8 = 0x02;

const AAC_AUDIO: u8 = 0x0f;

const AVC_VIDEO: u8 = 0x1b;

const HEVC_VIDEO: u8 = 0x24;

/// The profile and the level in the headers of a stream, by the numbers of the standards.
#[derive(Clone, Copy, PartialEq, Eq)]
pub enum ProfileLevel {
    /// No header says it.
    Unsaid,
    /// The profile_and_level_indication of ISO/IEC 13818-2 video; 0 if it has no sequence extension.
    Mpeg(u8),
    /// The first three bytes of a sequence parameter set of ISO/IEC 14496-10 video.
    Avc {
        /// profile_idc.
        profile: u8,
        /// The constraint_set flags, constraint_set0_flag in the first bit.
        constraints: u8,
        /// level_idc, 9 for level 1b.
        level: u8,
    },
    /// Bytes of a sequence parameter set of ISO/IEC 23008-2 video; 0 if it ends before.
    Hevc {
        /// general_profile_space, general_tier_flag and general_profile_idc.
        profile: u8,
        /// The flags of the number of bits in a sample, and of 4:2:2, in the last four bits.
        depths: u8,
        /// The flags of 4:2:0, monochrome and intra pictures, in the first three bits.
        formats: u8,
        /// general_level_idc.
        level: u8,
    },
    /// An ADTS header of ISO/IEC 13818-7 audio.
    Aac {
        /// The audio object type.
        object_type: u8,
        /// channel_configuration.
        channels: u8,
    },
}

// Returns profile and level by the bytes of a sequence parameter set of ISO/IEC 14496-10.
#[tactic(auto, unfolding(crate::specs::Profiles::avc_profile))]
fn avc_profile(bytes: &[u8]) -> ProfileLevel
    ensures { result ≡ spec.avc_profile bytes.now }
{
    match bytes {
        [profile, constraints, level, ..] => ProfileLevel::Avc {
            profile: *profile,
            constraints: *constraints,
            level: level_idc(*profile, *constraints, *level),
        },
        _ => ProfileLevel::Unsaid,
    }
}

// Returns profile and level by the bytes of a sequence parameter set of ISO/IEC 23008-2.
#[tactic(auto, unfolding(crate::specs::Profiles::hevc_profile))]
fn hevc_profile(bytes: &[u8]) -> ProfileLevel
    ensures { result ≡ spec.hevc_profile bytes.now }
{
    ProfileLevel::Hevc {
        profile: byte_or_zero(bytes, 1),
        depths: byte_or_zero(bytes, 6),
        formats: byte_or_zero(bytes, 7),
        level: byte_or_zero(bytes, 12),
    }
}

// Returns the profile by the bytes of an ADTS header.
#[tactic(auto, unfolding(crate::specs::Profiles::aac_profile))]
fn aac_profile(bytes: &[u8]) -> ProfileLevel
    ensures { result ≡ spec.aac_profile bytes.now }
{
    match bytes {
        [_, b, c, ..] => ProfileLevel::Aac {
            object_type: *b / 64 + 1,
            channels: *b % 2 * 4 + *c / 64,
        },
        _ => ProfileLevel::Unsaid,
    }
}

/// Returns the profile and the level in an access unit of a stream of this stream_type.
#[tactic(auto, unfolding(crate::specs::Profiles::profile_level))]
pub fn profile_level(stream_type: u8, unit: &[u8]) -> ProfileLevel
    ensures { result ≡ spec.profile_level stream_type unit.now }
{
    match stream_type {
        MPEG_VIDEO => {
            ProfileLevel::Mpeg(profile_and_level(bytes_of(Structure::SequenceExtension, unit)))
        }
        AVC_VIDEO => avc_profile(bytes_of(Structure::AvcParameters, unit)),
        HEVC_VIDEO => hevc_profile(bytes_of(Structure::HevcParameters, unit)),
        AAC_AUDIO => aac_profile(bytes_of(Structure::AdtsHeader, unit)),
        _ => ProfileLevel::Unsaid,
    }
}
