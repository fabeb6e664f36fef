//! How a stream is coded.

ghost use Rattle.std.specs.Prelude.{◌≡◌};
ghost use Rattle.stream_coding.specs.Codings as spec;

use crate::ac3::is_ac3;
use crate::adts::channels;
use crate::avc::avc_sequence;
use crate::hevc::hevc_sequence;
use crate::jpeg2000::j2k_limits;
use crate::pcm::{channel_pairs, is_pcm};
use crate::sequences::mpeg_sequence;
use crate::structures::{Structure, bytes_of};
use descriptor_loops::has_tag;

// Tags of descriptors (EN 300 468, table 12).
const SUBTITLES: u8 = 0x59;

const TELETEXT: u8 = 0x56;

// stream_type of private data in PES packets (ISO/IEC 13818-1, table 2-34).
const PRIVATE_DATA: u8 = 6;

/// The values in the headers of ISO/IEC 11172-2 and 13818-2 video; 0 for an absent value.
#[derive(Clone, Copy, PartialEq, Eq)]
pub struct MpegSequence {
    /// profile_and_level_indication.
    pub profile_and_level: u8,
    /// In units of 400 bits a second.
    pub bit_rate: u32,
    /// In units of 16,384 bits.
    pub vbv_buffer_size: u32,
}

/// The values in the headers of ISO/IEC 14496-10 video; 0 for an absent value.
#[derive(Clone, Copy, PartialEq, Eq)]
pub struct AvcSequence {
    /// level_idc, 9 for level 1b.
    pub level: u8,
    /// cpbBrNalFactor of its profile.
    pub cpb_br_nal_factor: u32,
    /// CpbSize[cpb_cnt_minus1] of the HRD parameters of NAL units, in bits.
    pub cpb_size: u64,
}

/// The values in the headers of ISO/IEC 23008-2 video; 0 for an absent value.
#[derive(Clone, Copy, PartialEq, Eq)]
pub struct HevcSequence {
    /// general_level_idc.
    pub level: u8,
    /// general_tier_flag.
    pub high_tier: bool,
    /// CpbNalFactor of its profile.
    pub cpb_nal_factor: u32,
    /// BrNalFactor of its profile.
    pub br_nal_factor: u32,
}

/// The values of the J2K_video_descriptor of JPEG 2000 video; 0 for an absent value.
#[derive(Clone, Copy, PartialEq, Eq)]
pub struct J2kLimits {
    /// In bits a second.
    pub max_bit_rate: u32,
    /// In bytes.
    pub max_buffer_size: u32,
}

/// How a stream is coded, as far as its buffers depend on it. For a level that no table has, or 0, the one in most use
/// is taken (main level, 4, 4).
#[derive(Clone, Copy, PartialEq, Eq)]
pub enum Coding {
    /// ISO/IEC 11172-2 and 13818-2 video.
    Mpeg(MpegSequence),
    /// ISO/IEC 14496-10 video.
    Avc(AvcSequence),
    /// ISO/IEC 23008-2 video.
    Hevc(HevcSequence),
    /// ISO/IEC 15444-1 video.
    Jpeg2000(J2kLimits),
    /// ISO/IEC 11172-3 and 13818-3 audio, and any other audio.
    Audio,
    /// ISO/IEC 13818-7 audio with at least this number of channels.
    Aac(u8),
    /// AC-3 and Enhanced AC-3 audio.
    Ac3,
    /// SMPTE 302M audio with this number of pairs of channels.
    Pcm(u8),
    /// DVB subtitles.
    Subtitles,
    /// Teletext.
    Teletext,
    /// Any other private data.
    Other,
}

// Returns the coding by a stream's descriptors, if its stream_type leaves the coding open.
#[tactic(auto, unfolding(crate::specs::Codings::coding_by_descriptors))]
fn coding_by_descriptors(stream_type: u8, descriptors: &[u8], unit: &[u8]) -> Coding
    ensures { result ≡ spec.coding_by_descriptors stream_type descriptors.now unit.now }
{
    if is_ac3(stream_type, descriptors) {
        Coding::Ac3
    } else if has_tag(SUBTITLES, descriptors) {
        Coding::Subtitles
    } else if has_tag(TELETEXT, descriptors) {
        Coding::Teletext
    } else if stream_type == PRIVATE_DATA && is_pcm(descriptors) {
        Coding::Pcm(channel_pairs(unit))
    } else {
        Coding::Other
    }
}

/// Returns how a stream is coded that a program map names with this stream_type (ISO/IEC 13818-1, table 2-34) and
/// these bytes of descriptors; `unit` is its first access unit, which is searched for the level, the video buffer or
/// the number of channels. A stream_type that names a coding goes before descriptors.
#[tactic(auto, unfolding(crate::specs::Codings::coding_of))]
pub fn coding_of(stream_type: u8, descriptors: &[u8], unit: &[u8]) -> Coding
    ensures { result ≡ spec.coding_of stream_type descriptors.now unit.now }
{
    match stream_type {
        0x01 | 0x02 => Coding::Mpeg(mpeg_sequence(unit)),
        0x1b => Coding::Avc(avc_sequence(unit)),
        0x24 => Coding::Hevc(hevc_sequence(unit)),
        0x21 => Coding::Jpeg2000(j2k_limits(descriptors)),
        0x0f => Coding::Aac(channels(bytes_of(Structure::AdtsHeader, unit))),
        0x03 | 0x04 | 0x11 | 0x1c => Coding::Audio,
        _ => coding_by_descriptors(stream_type, descriptors, unit),
    }
}
