//! The headers of frames of layers I to III (ISO/IEC 11172-3 and 13818-3).

ghost use Rattle.std.specs.Prelude.{◌≡◌, ◌<◌, ◌≤◌};
ghost use Rattle.sound_frames.specs.FrameHeaders as spec;

use crate::frame::{FrameHeader, sounding};

// Returns the kbit/s of ISO/IEC 11172-3, layer I.
#[tactic(auto, unfolding(crate::specs::FrameHeaders::first_layer_rate))]
fn first_layer_rate(index: u8) -> u32
    requires { index < 16 }
    ensures value { result ≡ spec.first_layer_rate index }
    ensures bound { result ≤ 480 }
{
    if index == 15 {
        0
    } else {
        32 * u32::from(index)
    }
}

// Returns the kbit/s of ISO/IEC 11172-3, layer II.
#[tactic(auto, unfolding(crate::specs::FrameHeaders::second_layer_rate))]
fn second_layer_rate(index: u8) -> u32
    ensures value { result ≡ spec.second_layer_rate index }
    ensures bound { result ≤ 384 }
{
    match index {
        1 => 32,
        2 => 48,
        3 => 56,
        4 => 64,
        5 => 80,
        6 => 96,
        7 => 112,
        8 => 128,
        9 => 160,
        10 => 192,
        11 => 224,
        12 => 256,
        13 => 320,
        14 => 384,
        _ => 0,
    }
}

// Returns the kbit/s of ISO/IEC 11172-3, layer III.
#[tactic(auto, unfolding(crate::specs::FrameHeaders::third_layer_rate))]
fn third_layer_rate(index: u8) -> u32
    ensures value { result ≡ spec.third_layer_rate index }
    ensures bound { result ≤ 320 }
{
    match index {
        1 => 32,
        2 => 40,
        3 => 48,
        4 => 56,
        5 => 64,
        6 => 80,
        7 => 96,
        8 => 112,
        9 => 128,
        10 => 160,
        11 => 192,
        12 => 224,
        13 => 256,
        14 => 320,
        _ => 0,
    }
}

// Returns the kbit/s of ISO/IEC 13818-3, layer I.
#[tactic(auto, unfolding(crate::specs::FrameHeaders::low_first_layer_rate))]
fn low_first_layer_rate(index: u8) -> u32
    ensures value { result ≡ spec.low_first_layer_rate index }
    ensures bound { result ≤ 256 }
{
    match index {
        1 => 32,
        2 => 48,
        3 => 56,
        4 => 64,
        5 => 80,
        6 => 96,
        7 => 112,
        8 => 128,
        9 => 144,
        10 => 160,
        11 => 176,
        12 => 192,
        13 => 224,
        14 => 256,
        _ => 0,
    }
}

// Returns the kbit/s of ISO/IEC 13818-3, layers II and III.
#[tactic(auto, unfolding(crate::specs::FrameHeaders::low_layer_rate))]
fn low_layer_rate(index: u8) -> u32
    ensures value { result ≡ spec.low_layer_rate index }
    ensures bound { result ≤ 160 }
{
    match index {
        1 => 8,
        2 => 16,
        3 => 24,
        4 => 32,
        5 => 40,
        6 => 48,
        7 => 56,
        8 => 64,
        9 => 80,
        10 => 96,
        11 => 112,
        12 => 128,
        13 => 144,
        14 => 160,
        _ => 0,
    }
}

#[tactic(auto, unfolding(crate::specs::FrameHeaders::layer_rate))]
fn layer_rate(id: u8, layer: u8, index: u8) -> u32
    requires { index < 16 }
    ensures value { result ≡ spec.layer_rate id layer index }
    ensures bound { result ≤ 480 }
{
    if id == 1 {
        if layer == 3 {
            first_layer_rate(index)
        } else if layer == 2 {
            second_layer_rate(index)
        } else {
            third_layer_rate(index)
        }
    } else if layer == 3 {
        low_first_layer_rate(index)
    } else {
        low_layer_rate(index)
    }
}

// Returns the samples a second.
#[tactic(auto, unfolding(crate::specs::FrameHeaders::layer_frequency))]
fn layer_frequency(id: u8, code: u8) -> u32
    ensures value { result ≡ spec.layer_frequency id code }
{
    match code {
        0 => if id == 1 { 44_100 } else { 22_050 },
        1 => if id == 1 { 48_000 } else { 24_000 },
        2 => if id == 1 { 32_000 } else { 16_000 },
        _ => 0,
    }
}

// Returns the samples of a frame.
#[tactic(auto, unfolding(crate::specs::FrameHeaders::layer_samples))]
fn layer_samples(id: u8, layer: u8) -> u32
    ensures { result ≡ spec.layer_samples id layer }
{
    if layer == 3 {
        384
    } else if id == 0 && layer == 1 {
        576
    } else {
        1_152
    }
}

// Returns the bytes of a frame.
#[tactic(auto, unfolding(crate::specs::FrameHeaders::layer_size))]
fn layer_size(id: u8, layer: u8, rate: u32, frequency: u32, padding: u8) -> u32
    requires rate { rate ≤ 480000 }
    requires some { 0 < frequency }
    ensures { result ≡ spec.layer_size id layer rate frequency padding }
{
    if layer == 3 {
        return (12 * rate / frequency + u32::from(padding)) * 4;
    }
    let factor = if id == 0 && layer == 1 { 72 } else { 144 };
    factor * rate / frequency + u32::from(padding)
}

#[tactic(auto, unfolding(crate::specs::FrameHeaders::layer_frame))]
fn layer_frame(id: u8, layer: u8, rate: u32, frequency: u32, padding: u8) -> Option<FrameHeader>
    requires { rate ≤ 480 }
    ensures { result ≡ spec.layer_frame id layer rate frequency padding }
{
    if rate == 0 || frequency == 0 {
        return None;
    }
    let size = layer_size(id, layer, 1_000 * rate, frequency, padding);
    sounding(size, layer_samples(id, layer), frequency)
}

/// Returns the header of a frame of layers I to III.
#[tactic(auto, unfolding(crate::specs::FrameHeaders::layer_header))]
pub(crate) fn layer_header(bytes: &[u8]) -> Option<FrameHeader>
    ensures { result ≡ spec.layer_header bytes.now }
{
    match bytes {
        [a, b, c, ..] => {
            if *a == 0xff && *b / 16 == 15 && *b / 2 % 4 != 0 {
                let (id, layer) = (*b / 8 % 2, *b / 2 % 4);
                let rate = layer_rate(id, layer, *c / 16);
                let frequency = layer_frequency(id, *c / 4 % 4);
                layer_frame(id, layer, rate, frequency, *c / 2 % 2)
            } else {
                None
            }
        }
        _ => None,
    }
}
