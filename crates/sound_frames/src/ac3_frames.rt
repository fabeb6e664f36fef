//! The headers of frames of AC-3 and Enhanced AC-3 (ETSI TS 102 366).

ghost use Rattle.std.specs.Prelude.{◌≡◌, ◌≤◌};
ghost use Rattle.sound_frames.specs.FrameHeaders as spec;

use crate::frame::{FrameHeader, sounding};

// Returns the samples a second of an fscod.
#[tactic(auto, unfolding(crate::specs::FrameHeaders::ac3_frequency))]
fn ac3_frequency(code: u8) -> u32
    ensures { result ≡ spec.ac3_frequency code }
{
    match code {
        0 => 48_000,
        1 => 44_100,
        2 => 32_000,
        _ => 0,
    }
}

// Returns the kbit/s of a frmsizecod, by its half.
#[tactic(auto, unfolding(crate::specs::FrameHeaders::ac3_rate))]
fn ac3_rate(index: u8) -> u32
    ensures value { result ≡ spec.ac3_rate index }
    ensures bound { result ≤ 640 }
{
    match index {
        0 => 32,
        1 => 40,
        2 => 48,
        3 => 56,
        4 => 64,
        5 => 80,
        6 => 96,
        7 => 112,
        8 => 128,
        9 => 160,
        10 => 192,
        11 => 224,
        12 => 256,
        13 => 320,
        14 => 384,
        15 => 448,
        16 => 512,
        17 => 576,
        18 => 640,
        _ => 0,
    }
}

// Returns the bytes of a frame.
#[tactic(auto, unfolding(crate::specs::FrameHeaders::ac3_size))]
fn ac3_size(fscod: u8, rate: u32, odd: u8) -> u32
    requires { rate ≤ 640 }
    ensures { result ≡ spec.ac3_size fscod rate odd }
{
    if rate == 0 {
        0
    } else if fscod == 0 {
        4 * rate
    } else if fscod == 1 {
        2 * (rate * 320 / 147 + u32::from(odd))
    } else {
        6 * rate
    }
}

#[tactic(auto, unfolding(crate::specs::FrameHeaders::plain_ac3))]
fn plain_ac3(e: u8) -> Option<FrameHeader>
    ensures { result ≡ spec.plain_ac3 e }
{
    let size = ac3_size(e / 64, ac3_rate(e % 64 / 2), e % 2);
    sounding(size, 1_536, ac3_frequency(e / 64))
}

#[tactic(auto, unfolding(crate::specs::FrameHeaders::enhanced_frequency))]
fn enhanced_frequency(fscod: u8, code: u8) -> u32
    ensures { result ≡ spec.enhanced_frequency fscod code }
{
    if fscod != 3 {
        return ac3_frequency(fscod);
    }
    match code {
        0 => 24_000,
        1 => 22_050,
        2 => 16_000,
        _ => 0,
    }
}

#[tactic(auto, unfolding(crate::specs::FrameHeaders::enhanced_blocks))]
fn enhanced_blocks(fscod: u8, code: u8) -> u32
    ensures value { result ≡ spec.enhanced_blocks fscod code }
    ensures bound { result ≤ 256 }
{
    if fscod == 3 || code == 3 {
        6
    } else {
        u32::from(code) + 1
    }
}

#[tactic(auto, unfolding(crate::specs::FrameHeaders::enhanced_ac3))]
fn enhanced_ac3(c: u8, d: u8, e: u8) -> Option<FrameHeader>
    ensures { result ≡ spec.enhanced_ac3 c d e }
{
    if c / 64 == 1 || c / 8 % 8 != 0 {
        return None;
    }
    let size = (u32::from(c % 8) * 256 + u32::from(d) + 1) * 2;
    let (fscod, code) = (e / 64, e / 16 % 4);
    sounding(
        size,
        256 * enhanced_blocks(fscod, code),
        enhanced_frequency(fscod, code),
    )
}

/// Returns the header of a frame of AC-3 or Enhanced AC-3.
#[tactic(auto, unfolding(crate::specs::FrameHeaders::ac3_frame))]
pub(crate) fn ac3_frame(bytes: &[u8]) -> Option<FrameHeader>
    ensures { result ≡ spec.ac3_frame bytes.now }
{
    match bytes {
        [a, b, c, d, e, f, ..] => {
            if *a != 0x0b || *b != 0x77 {
                None
            } else if *f / 8 <= 10 {
                plain_ac3(*e)
            } else {
                enhanced_ac3(*c, *d, *e)
            }
        }
        _ => None,
    }
}
