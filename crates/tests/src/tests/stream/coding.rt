//! Beginnings of units as encoders write them.

use stream_coding::{
    AvcSequence, Coding, HevcSequence, J2kLimits, MpegSequence, coding_of, is_ac3,
};

// A sequence extension of main profile, main level, after the end of a sequence header, and one with the escape bit.
const MPEG: &[u8] = &[0x10, 0, 0, 1, 0xb5, 0x14, 0x8a, 0, 1];

const ESCAPED: &[u8] = &[0, 0, 1, 0xb5, 0x18, 0x8a];

// The sequence header and the sequence extension of ffmpeg: 1,280 by 720, high-1440 level, 10 Mbit/s and a buffer of
// 2,000,000
// bits; 720 by 576, main level, 4 Mbit/s and a buffer of 800,000 bits.
const HIGH_1440: &[u8] = &[
    0, 0, 1, 0xb3, 0x50, 2, 0xd0, 0x33, 0x18, 0x6a, 0x23, 0xd8, 0, 0, 1, 0xb5, 0x14, 0x6a, 0, 1, 0,
    0,
];

const MAIN_LEVEL: &[u8] = &[
    0, 0, 1, 0xb3, 0x2d, 2, 0x40, 0x13, 9, 0xc4, 0x21, 0x88, 0, 0, 1, 0xb5, 0x14, 0x8a, 0, 1, 0, 0,
];

// Worked by hand: bit_rate_extension 1 and vbv_buffer_size_extension 2 with it.
const EXTENDED: &[u8] = &[
    0, 0, 1, 0xb3, 0x2d, 2, 0x40, 0x13, 9, 0xc4, 0x21, 0x88, 0, 0, 1, 0xb5, 0x14, 0x4a, 0, 3, 2, 0,
];

// An access unit delimiter, and the sequence parameter set of high profile, level 3.1.
const AVC: &[u8] = &[0, 0, 0, 1, 9, 0xf0, 0, 0, 0, 1, 0x67, 0x64, 0, 0x1f, 0xac];
// Sequence parameter sets of x264, level 3: with HRD parameters of NAL units and a buffer of 1,000,000 bits, and
// without them.
const NAL_HRD: &[u8] = &[
    0, 0, 1, 0x67, 0x64, 0, 0x1e, 0xac, 0xd9, 0x40, 0xa0, 0x2f, 0xf9, 0x70, 0x11, 0, 0, 3, 0, 1, 0,
    0, 3, 0, 0x32, 0x60, 0x40, 0, 0xf4, 0x24, 0, 0x1e, 0x84, 0xa4, 0xc3, 0, 0x78, 0xb1, 0x6c, 0xb0,
];

const NO_HRD: &[u8] = &[
    0, 0, 1, 0x67, 0x64, 0, 0x1e, 0xac, 0xd9, 0x40, 0xa0, 0x2f, 0xf9, 0x70, 0x11, 0, 0, 3, 0, 1, 0,
    0, 3, 0, 0x32, 0x0f, 0x16, 0x2d, 0x96,
];

// Worked by hand: high profile, level 3, a buffer of 1,000,000 bits, and three scaling lists: the first ends at its
// first number, the second has 16 numbers, the third ends at its second number.
const SCALED: &[u8] = &[
    0, 0, 1, 0x67, 0x64, 0, 0x1e, 0xad, 0x84, 0x42, 0x10, 8, 0x7f, 0xfc, 0x14, 0xc0, 0x78, 0, 0x40,
    0x1b, 0x20, 0x28, 0x27, 0x41, 0x90, 0, 0x3e, 0x80, 0, 0x1e, 0x84, 0x88,
];

// Worked by hand: baseline profile, level 3, pic_order_cnt_type 1 with two offsets, fields, cropping, all VUI
// parameters up to the HRD
// parameters, and two schedules, of 64,000 and of 192,000 bits (cpb_size_scale 3).
const SCHEDULES: &[u8] = &[
    0, 0, 1, 0x67, 0x42, 0, 0x1e, 0xd1, 0x91, 0x94, 0xcc, 0x14, 0x12, 0xf5, 0x7f, 0xf8, 0, 0x80, 0,
    0x7d, 0xb8, 8, 8, 0x0d, 0x28, 0, 0, 0x1f, 0x48, 0, 7, 0x53, 6, 0x88, 0xc0, 0x1f, 0x40, 7, 0xd0,
    0, 0x7d, 0, 2, 0xee, 0x6f, 0x7b, 0xe0, 0x40,
];

// The sequence parameter set of main profile, level 4, with three emulation prevention bytes; and its first 20 bytes.
const HEVC: &[u8] = &[
    0, 0, 0, 1, 0x42, 1, 1, 1, 0x60, 0, 0, 3, 0, 0x90, 0, 0, 3, 0, 0, 3, 0, 0x78, 0xa0,
];

const CUT: &[u8] = &[
    0, 0, 0, 1, 0x42, 1, 1, 1, 0x60, 0, 0, 3, 0, 0x90, 0, 0, 3, 0, 0, 3,
];

// The same parameter set at the high tier.
const HIGH_TIER: &[u8] = &[
    0, 0, 0, 1, 0x42, 1, 1, 0x21, 0x60, 0, 0, 3, 0, 0x90, 0, 0, 3, 0, 0, 3, 0, 0x78, 0xa0,
];

// The sequence header and the sequence extension of ffmpeg: 720 by 576, 4:2:2 profile at main level, 50 Mbit/s and a
// buffer of 9,000,000 bits.
const CHROMA_422: &[u8] = &[
    0, 0, 1, 0xb3, 0x2d, 2, 0x40, 0x13, 0x7a, 0x12, 0x31, 0x30, 0, 0, 1, 0xb5, 0x18, 0x5c, 0, 1, 0,
    0,
];

// The sequence parameter set of x264 in the High 4:2:2 profile, level 3, up to its picture size; and of x265 in the
// profiles Main 4:2:2 10 and Main Intra, level 2.1.
const HIGH_422: &[u8] = &[0, 0, 1, 0x67, 0x7a, 0, 0x1e, 0xb6, 0xcd, 0x94, 0x0b];

const MAIN_422_10: &[u8] = &[
    0, 0, 1, 0x42, 1, 1, 4, 8, 0, 0, 3, 0, 0x9d, 8, 0, 0, 3, 0, 0, 0x3f, 0xb0,
];

const MAIN_INTRA: &[u8] = &[
    0, 0, 1, 0x42, 1, 1, 4, 8, 0, 0, 3, 0, 0x9f, 0xa8, 0, 0, 3, 0, 0, 0x3f, 0xa0,
];

// SMPTE 302M audio of ffmpeg, 8 channels.
const PCM: &[u8] = &[5, 4, 0x42, 0x53, 0x53, 0x44];

const PCM_UNIT: &[u8] = &[0x70, 0, 0xc0, 0x20, 0, 0, 0, 0x10];

// Worked by hand: a J2K_video_descriptor of 50 Mbit/s and a buffer of 1,250,000 bytes.
const J2K: &[u8] = &[
    0x32, 24, 1, 1, 0, 0, 7, 0x80, 0, 0, 4, 0x38, 2, 0xfa, 0xf0, 0x80, 0, 0x13, 0x12, 0xd0, 0, 1,
    0, 25, 3, 0,
];

// ADTS headers of 2, 6 and 8 channels, the last after two other bytes.
const STEREO: &[u8] = &[0xff, 0xf1, 0x50, 0x80, 0x2e];

const FIVE_ONE: &[u8] = &[0xff, 0xf1, 0x4d, 0x80, 0x2e];

const SEVEN_ONE: &[u8] = &[0xff, 0xf2, 0xff, 0xf9, 0x4d, 0xc0];

// Descriptors as DVB and ffmpeg write them.
const AC3: &[u8] = &[0x0a, 4, 0x65, 0x6e, 0x67, 0, 0x6a, 1, 0];

const REGISTERED: &[u8] = &[5, 4, 0x41, 0x43, 0x2d, 0x33];

const SUBTITLES: &[u8] = &[0x59, 8, 0x65, 0x6e, 0x67, 0x10, 0, 1, 0, 2];

// The stream_type, the descriptors, the beginning of a unit, and the coding.
static CODINGS: [(u8, &[u8], &[u8], Coding); 35] = [
    (
        2,
        &[],
        MPEG,
        Coding::Mpeg(MpegSequence {
            profile_and_level: 0x48,
            bit_rate: 0,
            vbv_buffer_size: 0,
        }),
    ),
    (
        2,
        &[],
        ESCAPED,
        Coding::Mpeg(MpegSequence {
            profile_and_level: 0x88,
            bit_rate: 0,
            vbv_buffer_size: 0,
        }),
    ),
    (
        1,
        &[],
        AVC,
        Coding::Mpeg(MpegSequence {
            profile_and_level: 0,
            bit_rate: 0,
            vbv_buffer_size: 0,
        }),
    ),
    (
        2,
        &[],
        HIGH_1440,
        Coding::Mpeg(MpegSequence {
            profile_and_level: 0x46,
            bit_rate: 25_000,
            vbv_buffer_size: 123,
        }),
    ),
    (
        2,
        &[],
        MAIN_LEVEL,
        Coding::Mpeg(MpegSequence {
            profile_and_level: 0x48,
            bit_rate: 10_000,
            vbv_buffer_size: 49,
        }),
    ),
    (
        2,
        &[],
        EXTENDED,
        Coding::Mpeg(MpegSequence {
            profile_and_level: 0x44,
            bit_rate: 272_144,
            vbv_buffer_size: 2_097,
        }),
    ),
    (
        0x1b,
        &[],
        AVC,
        Coding::Avc(AvcSequence {
            level: 31,
            cpb_br_nal_factor: 1_500,
            cpb_size: 0,
        }),
    ),
    (
        0x1b,
        &[],
        NAL_HRD,
        Coding::Avc(AvcSequence {
            level: 30,
            cpb_br_nal_factor: 1_500,
            cpb_size: 1_000_000,
        }),
    ),
    (
        0x1b,
        &[],
        SCALED,
        Coding::Avc(AvcSequence {
            level: 30,
            cpb_br_nal_factor: 1_500,
            cpb_size: 1_000_000,
        }),
    ),
    (
        0x1b,
        &[],
        SCHEDULES,
        Coding::Avc(AvcSequence {
            level: 30,
            cpb_br_nal_factor: 1_200,
            cpb_size: 192_000,
        }),
    ),
    (
        0x1b,
        &[],
        NO_HRD,
        Coding::Avc(AvcSequence {
            level: 30,
            cpb_br_nal_factor: 1_500,
            cpb_size: 0,
        }),
    ),
    (
        0x24,
        &[],
        HEVC,
        Coding::Hevc(HevcSequence {
            level: 120,
            high_tier: false,
            cpb_nal_factor: 1_100,
            br_nal_factor: 1_100,
        }),
    ),
    (
        0x24,
        &[],
        HIGH_TIER,
        Coding::Hevc(HevcSequence {
            level: 120,
            high_tier: true,
            cpb_nal_factor: 1_100,
            br_nal_factor: 1_100,
        }),
    ),
    (
        0x24,
        &[],
        CUT,
        Coding::Hevc(HevcSequence {
            level: 0,
            high_tier: false,
            cpb_nal_factor: 1_100,
            br_nal_factor: 1_100,
        }),
    ),
    (
        2,
        &[],
        CHROMA_422,
        Coding::Mpeg(MpegSequence {
            profile_and_level: 0x85,
            bit_rate: 125_000,
            vbv_buffer_size: 550,
        }),
    ),
    (
        0x1b,
        &[],
        HIGH_422,
        Coding::Avc(AvcSequence {
            level: 30,
            cpb_br_nal_factor: 4_800,
            cpb_size: 0,
        }),
    ),
    (
        0x24,
        &[],
        MAIN_422_10,
        Coding::Hevc(HevcSequence {
            level: 63,
            high_tier: false,
            cpb_nal_factor: 1_833,
            br_nal_factor: 1_833,
        }),
    ),
    (
        0x24,
        &[],
        MAIN_INTRA,
        Coding::Hevc(HevcSequence {
            level: 63,
            high_tier: false,
            cpb_nal_factor: 1_100,
            br_nal_factor: 1_100,
        }),
    ),
    (6, PCM, PCM_UNIT, Coding::Pcm(4)),
    (
        0x21,
        J2K,
        &[],
        Coding::Jpeg2000(J2kLimits {
            max_bit_rate: 50_000_000,
            max_buffer_size: 1_250_000,
        }),
    ),
    (
        0x21,
        &[],
        &[],
        Coding::Jpeg2000(J2kLimits {
            max_bit_rate: 0,
            max_buffer_size: 0,
        }),
    ),
    (0x0f, &[], STEREO, Coding::Aac(2)),
    (0x0f, &[], FIVE_ONE, Coding::Aac(6)),
    (0x0f, &[], SEVEN_ONE, Coding::Aac(8)),
    (0x0f, &[], &[], Coding::Aac(0)),
    (6, AC3, &[], Coding::Ac3),
    (6, &[0x7a, 0], &[], Coding::Ac3),
    (6, REGISTERED, &[], Coding::Ac3),
    (0x83, REGISTERED, &[], Coding::Other),
    (0x81, &[], &[], Coding::Ac3),
    (0x87, &[], &[], Coding::Ac3),
    (6, SUBTITLES, &[], Coding::Subtitles),
    (6, &[0x56, 0], &[], Coding::Teletext),
    (6, &[], &[], Coding::Other),
    (4, &[], &[], Coding::Audio),
];

fn are_codings() -> bool {
    for (stream_type, descriptors, unit, wanted) in &CODINGS {
        if coding_of(*stream_type, descriptors, unit) != *wanted
            || is_ac3(*stream_type, descriptors) != (*wanted == Coding::Ac3)
        {
            return false;
        }
    }
    true
}

#[test]
fn codings(rt: HostRuntime) {
    assert!(rt; are_codings());
}
