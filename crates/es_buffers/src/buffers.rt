//! The buffers that a decoder has for a stream of each coding (ISO/IEC 13818-1, 2.4.2).

ghost use Rattle.std.specs.Prelude.{◌≡◌, option_map};
ghost use Rattle.es_buffers.specs.Buffers as spec;

use crate::video_buffers::{VideoBuffers, avc_buffers, hevc_buffers, mpeg_buffers, video_buffers};
use stream_coding::{AvcSequence, Coding, J2kLimits, MpegSequence};
use unit_timing::multiplexing_buffer::MultiplexingBuffer;

/// The rate out of the transport buffer in bits a second, Rx, and the main buffer in bytes: of video the elementary
/// stream buffer, EBS, with the multiplexing buffer before it.
#[derive(Clone, Copy)]
pub struct Buffers {
    pub rx: u32,
    pub main: u32,
}

/// Buffers for the stream of a PID.
#[derive(Clone, Copy)]
pub struct PidBuffers {
    pub pid: u16,
    pub buffers: Buffers,
}

// Returns the buffers of ADTS audio, by the number of channels.
#[tactic(auto, unfolding(crate::specs::Buffers::aac_buffers))]
fn aac_buffers(channels: u8) -> Buffers
    ensures { result ≡ spec.aac_buffers channels }
{
    let (rx, main) = if channels <= 2 {
        (2_000_000, 3_584)
    } else if channels <= 8 {
        (5_529_600, 8_976)
    } else if channels <= 12 {
        (8_294_400, 12_804)
    } else {
        (33_177_600, 51_216)
    };
    fixed(rx, main)
}

// Returns one main buffer, and the rate into it.
fn fixed(rx: u32, main: u32) -> Buffers
    ensures { result ≡ record { rx = rx; main = main } }
{
    Buffers { rx, main }
}

// Returns bits a second, at most the greatest rate that a description can declare; `declared_bytes` does so for bytes.
fn declared_rate(rate: u64) -> u32
    ensures { result ≡ spec.declared_rate rate }
{
    rate.min(200_000_000) as u32
}

fn declared_bytes(bits: u64) -> u32
    ensures { result ≡ spec.declared_bytes bits }
{
    (bits / 8).min(10_000_000) as u32
}

// Returns the buffers of SMPTE 302M audio, by its pairs of channels.
fn pcm_buffers(pairs: u8) -> Buffers
    ensures { result ≡ spec.pcm_buffers pairs }
{
    fixed(declared_rate(3_225_600 * u64::from(pairs)), 65_536)
}

// Returns the buffers of JPEG 2000 video, by its limits.
#[tactic(auto, unfolding(crate::specs::Buffers::j2k_buffers))]
fn j2k_buffers(limits: J2kLimits) -> Buffers
    ensures { result ≡ spec.j2k_buffers limits }
{
    let rx = if limits.max_bit_rate == 0 {
        200_000_000
    } else {
        declared_rate((u64::from(limits.max_bit_rate) * 12 / 10).max(2_000_000))
    };
    let main = if limits.max_buffer_size == 0 {
        10_000_000
    } else {
        limits.max_buffer_size.min(10_000_000)
    };
    fixed(rx, main)
}

// Returns the buffers of video; the main buffer is the elementary stream buffer.
fn elementary(video: VideoBuffers) -> Buffers
    ensures { result ≡ spec.elementary video }
{
    Buffers {
        rx: declared_rate(video.rx),
        main: declared_bytes(video.ebs),
    }
}

#[tactic(auto, unfolding(crate::specs::Buffers::multiplexing))]
fn multiplexing(video: VideoBuffers) -> MultiplexingBuffer
    ensures { result ≡ spec.multiplexing video }
{
    MultiplexingBuffer {
        rbx: declared_rate(video.rbx),
        size: declared_bytes(video.mbs),
    }
}

/// Returns the buffers of a stream of this coding, cut to what a description can declare.
#[tactic(auto, unfolding(crate::specs::Buffers::buffers_of))]
pub fn buffers_of(coding: Coding) -> Buffers
    ensures { result ≡ spec.buffers_of coding }
{
    match coding {
        Coding::Mpeg(sequence) => elementary(mpeg_buffers(sequence)),
        Coding::Avc(sequence) => elementary(avc_buffers(sequence)),
        Coding::Hevc(sequence) => elementary(hevc_buffers(sequence)),
        Coding::Jpeg2000(limits) => j2k_buffers(limits),
        Coding::Audio => fixed(2_000_000, 3_584),
        Coding::Aac(channels) => aac_buffers(channels),
        Coding::Ac3 => fixed(2_000_000, 5_696),
        Coding::Pcm(pairs) => pcm_buffers(pairs),
        Coding::Subtitles => fixed(400_000, 24_576),
        Coding::Teletext => fixed(6_750_000, 1_504),
        Coding::Other => fixed(2_000_000, 65_536),
    }
}

/// Returns the multiplexing buffer of a stream of this coding, if it is of video, cut to what a description can
/// declare.
pub fn multiplexing_of(coding: Coding) -> Option<MultiplexingBuffer>
    ensures { result ≡ spec.multiplexing_of coding }
{
    match video_buffers(coding) {
        None => None,
        Some(video) => Some(multiplexing(video)),
    }
}

/// Returns the buffers of a stream of this coding with the multiplexing buffer and the elementary stream buffer of
/// video as one, for callers that keep one buffer.
pub fn joined_buffers_of(coding: Coding) -> Buffers
    ensures { result ≡ spec.joined_buffers_of coding }
{
    let Buffers { rx, main } = buffers_of(coding);
    let before = match multiplexing_of(coding) {
        None => 0,
        Some(buffer) => buffer.size,
    };
    Buffers {
        rx,
        main: main.saturating_add(before).min(10_000_000),
    }
}

// Returns the coding with the greatest buffer of its level.
#[tactic(auto, unfolding(crate::specs::Buffers::without_size))]
fn without_size(coding: Coding) -> Coding
    ensures { result ≡ spec.without_size coding }
{
    match coding {
        Coding::Mpeg(sequence) => Coding::Mpeg(MpegSequence {
            profile_and_level: sequence.profile_and_level,
            bit_rate: sequence.bit_rate,
            vbv_buffer_size: 0,
        }),
        Coding::Avc(sequence) => Coding::Avc(AvcSequence {
            level: sequence.level,
            cpb_br_nal_factor: sequence.cpb_br_nal_factor,
            cpb_size: 0,
        }),
        _ => coding,
    }
}

/// Returns the coding of a stream with a unit of this size: if the elementary stream buffer that the stream says does
/// not hold the unit, the stream does not keep to it, and its level's buffer counts.
#[tactic(auto, unfolding(crate::specs::Buffers::coding_holding))]
pub fn coding_holding(size: usize, coding: Coding) -> Coding
    ensures { result ≡ spec.coding_holding size coding }
{
    if (buffers_of(coding).main as usize) < size {
        without_size(coding)
    } else {
        coding
    }
}

/// Returns the first buffers that are given for a PID; `None` if there are no buffers for it.
#[tactic(auto, unfolding(crate::specs::Buffers::given_buffers))]
pub fn given_buffers(given: &[PidBuffers], pid: u16) -> Option<Buffers>
    ensures { result ≡ spec.given_buffers given.now pid }
{
    match given.iter().find(|one| one.pid == pid) {
        Some(one) => Some(one.buffers),
        None => None,
    }
}
