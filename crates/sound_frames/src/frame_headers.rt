//! The headers of frames of sound: by the kind of frames, with ADTS (ISO/IEC 13818-7) and LOAS (ISO/IEC 14496-3).

ghost use Rattle.std.specs.Prelude.{◌≡◌, ◌≤◌};
ghost use Rattle.sound_frames.specs.FrameHeaders as spec;

use crate::ac3_frames::ac3_frame;
use crate::frame::{FrameHeader, sounding};
use crate::layers::layer_header;
use stream_coding::is_ac3;

/// The kind of a stream's frames of sound.
#[derive(Clone, Copy, PartialEq, Eq)]
pub enum FrameKind {
    /// Layers I to III of ISO/IEC 11172-3 and 13818-3.
    Layer,
    /// ADTS of ISO/IEC 13818-7.
    Adts,
    /// AudioSyncStream of ISO/IEC 14496-3.
    Loas,
    /// AC-3 and Enhanced AC-3.
    Ac3,
}

// Returns the samples a second of a sampling_frequency_index.
#[tactic(auto, unfolding(crate::specs::FrameHeaders::aac_frequency))]
fn aac_frequency(index: u8) -> u32
    ensures value { result ≡ spec.aac_frequency index }
    ensures bound { result ≤ 96000 }
{
    match index {
        0 => 96_000,
        1 => 88_200,
        2 => 64_000,
        3 => 48_000,
        4 => 44_100,
        5 => 32_000,
        6 => 24_000,
        7 => 22_050,
        8 => 16_000,
        9 => 12_000,
        10 => 11_025,
        11 => 8_000,
        12 => 7_350,
        _ => 0,
    }
}

#[tactic(auto, unfolding(crate::specs::FrameHeaders::adts_frame))]
fn adts_frame(bytes: &[u8]) -> Option<FrameHeader>
    ensures { result ≡ spec.adts_frame bytes.now }
{
    match bytes {
        [a, b, c, d, e, f, g, ..] => {
            if *a == 0xff && *b / 16 == 15 && *b / 2 % 4 == 0 {
                let size = u32::from(*d % 4) * 2_048 + u32::from(*e) * 8 + u32::from(*f / 32);
                let samples = 1_024 * (u32::from(*g % 4) + 1);
                sounding(size, samples, aac_frequency(*c / 4 % 16))
            } else {
                None
            }
        }
        _ => None,
    }
}

// Returns the header by the configuration in the frame, or in an earlier frame.
#[tactic(auto, unfolding(crate::specs::FrameHeaders::loas_config))]
fn loas_config(size: u32, d: u8, e: u8, f: u8, g: u8) -> Option<FrameHeader>
    ensures { result ≡ spec.loas_config size d e f g }
{
    if d / 128 == 1 {
        return Some(FrameHeader { size, time: 0 });
    }
    if d / 64 == 1 || f / 8 == 31 {
        return None;
    }
    let samples = 1_024 * (u32::from(d % 32) * 2 + u32::from(e / 128) + 1);
    sounding(size, samples, aac_frequency(f % 8 * 2 + g / 128))
}

#[tactic(auto, unfolding(crate::specs::FrameHeaders::loas_frame))]
fn loas_frame(bytes: &[u8]) -> Option<FrameHeader>
    ensures { result ≡ spec.loas_frame bytes.now }
{
    match bytes {
        [a, b, c, d, e, f, g, ..] => {
            if *a == 0x56 && *b / 32 == 7 {
                let size = 3 + (u32::from(*b % 32) * 256 + u32::from(*c));
                loas_config(size, *d, *e, *f, *g)
            } else {
                None
            }
        }
        _ => None,
    }
}

/// Returns the size and the time of the frame at the front; none if the bytes begin with no frame of this kind.
#[tactic(auto, unfolding(crate::specs::FrameHeaders::frame_header))]
pub(crate) fn frame_header(kind: FrameKind, bytes: &[u8]) -> Option<FrameHeader>
    ensures { result ≡ spec.frame_header kind bytes.now }
{
    match kind {
        FrameKind::Layer => layer_header(bytes),
        FrameKind::Adts => adts_frame(bytes),
        FrameKind::Loas => loas_frame(bytes),
        FrameKind::Ac3 => ac3_frame(bytes),
    }
}

/// Returns the kind of frames of a stream that a program map names with this stream_type and these bytes of
/// descriptors; none if the stream is no sound of these kinds.
#[tactic(auto, unfolding(crate::specs::FrameHeaders::frame_kind))]
pub fn frame_kind(stream_type: u8, descriptors: &[u8]) -> Option<FrameKind>
    ensures { result ≡ spec.frame_kind stream_type descriptors.now }
{
    match stream_type {
        0x03 | 0x04 => Some(FrameKind::Layer),
        0x0f => Some(FrameKind::Adts),
        0x11 => Some(FrameKind::Loas),
        _ => if is_ac3(stream_type, descriptors) {
            Some(FrameKind::Ac3)
        } else {
            None
        },
    }
}
