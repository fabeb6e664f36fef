//! The buffers that a decoder has for video (ISO/IEC 13818-1, 2.4.2.3).

ghost use Rattle.std.specs.Prelude.{◌≡◌, ◌≤◌, ◌^◌};
ghost use Rattle.es_buffers.specs.Video as spec;

use stream_coding::{AvcSequence, Coding, HevcSequence, MpegSequence};

/// Rx and Rbx, out of the transport buffer and out of the multiplexing buffer, in bits a second; EBS and MBS, the
/// elementary stream buffer and the multiplexing buffer, in bits.
#[derive(Clone, Copy)]
pub(crate) struct VideoBuffers {
    pub rx: u64,
    pub ebs: u64,
    pub rbx: u64,
    pub mbs: u64,
}

// Returns Rmax and VBVmax in bits for a level of main profile, and of all profiles without layers of another rate.
#[tactic(auto, unfolding(crate::specs::Video::main_profile_limits))]
fn main_profile_limits(level: u8) -> (u64, u64)
    ensures value { result ≡ spec.main_profile_limits level }
    ensures rate { result.0 ≤ 300000000 }
    ensures size { result.1 ≤ 47185920 }
{
    match level {
        10 => (4_000_000, 475_136),
        6 => (60_000_000, 7_340_032),
        4 => (80_000_000, 9_781_248),
        _ => (15_000_000, 1_835_008),
    }
}

// Returns Rmax and VBVmax in bits for a level of high profile.
#[tactic(auto, unfolding(crate::specs::Video::high_profile_limits))]
fn high_profile_limits(level: u8) -> (u64, u64)
    ensures value { result ≡ spec.high_profile_limits level }
    ensures rate { result.0 ≤ 300000000 }
    ensures size { result.1 ≤ 47185920 }
{
    match level {
        6 => (80_000_000, 9_781_248),
        4 => (100_000_000, 12_222_464),
        _ => (20_000_000, 2_441_216),
    }
}

// Returns Rmax and VBVmax of a profile_and_level_indication with the escape bit.
#[tactic(auto, unfolding(crate::specs::Video::escaped_limits))]
fn escaped_limits(indication: u8) -> (u64, u64)
    ensures value { result ≡ spec.escaped_limits indication }
    ensures rate { result.0 ≤ 300000000 }
    ensures size { result.1 ≤ 47185920 }
{
    match indication {
        0x82 => (300_000_000, 47_185_920),
        0x85 => (50_000_000, 9_437_184),
        _ => (15_000_000, 1_835_008),
    }
}

// Returns Rmax and VBVmax of a profile_and_level_indication.
#[tactic(auto, unfolding(crate::specs::Video::mpeg_limits))]
fn mpeg_limits(indication: u8) -> (u64, u64)
    ensures value { result ≡ spec.mpeg_limits indication }
    ensures rate { result.0 ≤ 300000000 }
    ensures size { result.1 ≤ 47185920 }
{
    if indication >= 128 {
        escaped_limits(indication)
    } else if indication / 16 == 1 {
        high_profile_limits(indication % 16)
    } else {
        main_profile_limits(indication % 16)
    }
}

// Returns MaxBR and MaxCPB of a level.
#[tactic(auto, unfolding(crate::specs::Video::avc_limits))]
fn avc_limits(level: u8) -> (u64, u64)
    ensures value { result ≡ spec.avc_limits level }
    ensures rate { result.0 ≤ 800000 }
    ensures size { result.1 ≤ 800000 }
{
    match level {
        10 => (64, 175),
        9 => (128, 350),
        11 => (192, 500),
        12 => (384, 1_000),
        13 => (768, 2_000),
        20 => (2_000, 2_000),
        21 => (4_000, 4_000),
        22 => (4_000, 4_000),
        30 => (10_000, 10_000),
        31 => (14_000, 14_000),
        32 => (20_000, 20_000),
        41 => (50_000, 62_500),
        42 => (50_000, 62_500),
        50 => (135_000, 135_000),
        51 => (240_000, 240_000),
        52 => (240_000, 240_000),
        60 => (240_000, 240_000),
        61 => (480_000, 480_000),
        62 => (800_000, 800_000),
        _ => (20_000, 25_000),
    }
}

// Returns MaxBR and MaxCPB of a level in the high tier of ISO/IEC 23008-2.
#[tactic(auto, unfolding(crate::specs::Video::high_tier_limits))]
fn high_tier_limits(level: u8) -> (u64, u64)
    ensures value { result ≡ spec.high_tier_limits level }
    ensures rate { result.0 ≤ 800000 }
    ensures size { result.1 ≤ 800000 }
{
    match level {
        123 => (50_000, 50_000),
        150 => (100_000, 100_000),
        153 => (160_000, 160_000),
        156 => (240_000, 240_000),
        180 => (240_000, 240_000),
        183 => (480_000, 480_000),
        186 => (800_000, 800_000),
        _ => (30_000, 30_000),
    }
}

// Returns MaxBR and MaxCPB of a level in the main tier.
#[tactic(auto, unfolding(crate::specs::Video::main_tier_limits))]
fn main_tier_limits(level: u8) -> (u64, u64)
    ensures value { result ≡ spec.main_tier_limits level }
    ensures rate { result.0 ≤ 240000 }
    ensures size { result.1 ≤ 240000 }
{
    match level {
        30 => (128, 350),
        60 => (1_500, 1_500),
        63 => (3_000, 3_000),
        90 => (6_000, 6_000),
        93 => (10_000, 10_000),
        123 => (20_000, 20_000),
        150 => (25_000, 25_000),
        153 => (40_000, 40_000),
        156 => (60_000, 60_000),
        180 => (60_000, 60_000),
        183 => (120_000, 120_000),
        186 => (240_000, 240_000),
        _ => (12_000, 12_000),
    }
}

// Returns MaxBR and MaxCPB by level and tier.
#[tactic(auto, unfolding(crate::specs::Video::hevc_limits))]
fn hevc_limits(sequence: HevcSequence) -> (u64, u64)
    ensures value { result ≡ spec.hevc_limits sequence }
    ensures rate { result.0 ≤ 800000 }
    ensures size { result.1 ≤ 800000 }
{
    let level = sequence.level;
    if sequence.high_tier && (level >= 120 || level == 0) {
        high_tier_limits(level)
    } else {
        main_tier_limits(level)
    }
}

// Returns the bits of 4 ms for multiplexing and of a 750th of a second for headers.
fn mux_bits(rate: u64) -> u64
    requires { rate ≤ 2 ^ 53 }
    ensures value { result ≡ spec.mux_bits rate }
    ensures bound { result ≤ 2 ^ 54 }
{
    4 * rate / 1000 + rate / 750
}

// Returns the stream's value, at most the greatest; the greatest if the stream has no value.
#[tactic(auto, unfolding(crate::specs::Video::said_or_greatest))]
fn said_or_greatest(said: u64, greatest: u64) -> u64
    ensures value { result ≡ spec.said_or_greatest said greatest }
    ensures bound { result ≤ greatest }
{
    if said == 0 {
        greatest
    } else {
        said.min(greatest)
    }
}

// Returns the rest of a level's video buffer, with the bits for multiplexing and headers.
fn shared_mbs(rate: u64, greatest: u64, ebs: u64) -> u64
    requires rate { rate ≤ 2 ^ 53 }
    requires greatest { greatest ≤ 2 ^ 53 }
    requires ebs { ebs ≤ greatest }
    ensures { result ≡ spec.shared_mbs rate greatest ebs }
{
    mux_bits(rate) + (greatest - ebs)
}

#[tactic(auto, unfolding(crate::specs::Video::is_high))]
fn is_high(indication: u8) -> bool
    ensures { result ≡ spec.is_high indication }
{
    if indication >= 128 {
        indication == 0x82
    } else {
        indication % 16 == 6 || indication % 16 == 4
    }
}

#[tactic(auto, unfolding(crate::specs::Video::mpeg_rbx))]
fn mpeg_rbx(sequence: MpegSequence) -> u64
    ensures { result ≡ spec.mpeg_rbx sequence }
{
    let (rate, _) = mpeg_limits(sequence.profile_and_level);
    if is_high(sequence.profile_and_level) {
        said_or_greatest(420 * u64::from(sequence.bit_rate), rate)
    } else {
        rate
    }
}

fn mpeg_ebs(sequence: MpegSequence) -> u64
    ensures value { result ≡ spec.mpeg_ebs sequence }
{
    let (_, greatest) = mpeg_limits(sequence.profile_and_level);
    said_or_greatest(16_384 * u64::from(sequence.vbv_buffer_size), greatest)
}

#[tactic(auto, unfolding(crate::specs::Video::mpeg_mbs))]
fn mpeg_mbs(sequence: MpegSequence) -> u64
    ensures { result ≡ spec.mpeg_mbs sequence }
{
    let (rate, greatest) = mpeg_limits(sequence.profile_and_level);
    if is_high(sequence.profile_and_level) {
        mux_bits(rate)
    } else {
        let ebs = said_or_greatest(16_384 * u64::from(sequence.vbv_buffer_size), greatest);
        shared_mbs(rate, greatest, ebs)
    }
}

pub(crate) fn mpeg_buffers(sequence: MpegSequence) -> VideoBuffers
    ensures { result ≡ spec.mpeg_buffers sequence }
{
    let (rate, _) = mpeg_limits(sequence.profile_and_level);
    VideoBuffers {
        rx: rate * 12 / 10,
        ebs: mpeg_ebs(sequence),
        rbx: mpeg_rbx(sequence),
        mbs: mpeg_mbs(sequence),
    }
}

// Returns the buffers by a level's rate and its buffer in bits, and the stream's buffer size.
fn level_buffers(rate: u64, greatest: u64, said: u64) -> VideoBuffers
    requires rate { rate ≤ 2 ^ 53 }
    requires greatest { greatest ≤ 2 ^ 53 }
    ensures { result ≡ spec.level_buffers rate greatest said }
{
    let rate = if rate < 2_000_000 { 2_000_000 } else { rate };
    let ebs = said_or_greatest(said, greatest);
    VideoBuffers {
        rx: rate,
        ebs,
        rbx: rate,
        mbs: shared_mbs(rate, greatest, ebs),
    }
}

pub(crate) fn avc_buffers(sequence: AvcSequence) -> VideoBuffers
    ensures { result ≡ spec.avc_buffers sequence }
{
    let (rate, size) = avc_limits(sequence.level);
    let factor = u64::from(sequence.cpb_br_nal_factor);
    level_buffers(factor * rate, factor * size, sequence.cpb_size)
}

pub(crate) fn hevc_buffers(sequence: HevcSequence) -> VideoBuffers
    ensures { result ≡ spec.hevc_buffers sequence }
{
    let (rate, size) = hevc_limits(sequence);
    let rate = u64::from(sequence.br_nal_factor) * rate;
    level_buffers(rate, u64::from(sequence.cpb_nal_factor) * size, 0)
}

/// Returns the buffers of a stream of this coding, if it is of video.
#[tactic(auto, unfolding(crate::specs::Video::video_buffers))]
pub(crate) fn video_buffers(coding: Coding) -> Option<VideoBuffers>
    ensures { result ≡ spec.video_buffers coding }
{
    match coding {
        Coding::Mpeg(sequence) => Some(mpeg_buffers(sequence)),
        Coding::Avc(sequence) => Some(avc_buffers(sequence)),
        Coding::Hevc(sequence) => Some(hevc_buffers(sequence)),
        _ => None,
    }
}
