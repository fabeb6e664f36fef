//! Buffers of codings, as the tables of the standards give them.

use es_buffers::{Buffers, buffers_of, joined_buffers_of, multiplexing_of};
use stream_coding::{AvcSequence, Coding, HevcSequence, J2kLimits, MpegSequence};
use unit_timing::multiplexing_buffer::MultiplexingBuffer;

// Rx, the main buffer, Rbx and MBS of video, as the tables of the standards give them.
static VIDEO: [(Coding, u32, u32, u32, u32); 15] = [
    (
        Coding::Mpeg(MpegSequence {
            profile_and_level: 0x48,
            bit_rate: 0,
            vbv_buffer_size: 0,
        }),
        18_000_000,
        229_376,
        15_000_000,
        10_000,
    ),
    (
        Coding::Mpeg(MpegSequence {
            profile_and_level: 0,
            bit_rate: 0,
            vbv_buffer_size: 0,
        }),
        18_000_000,
        229_376,
        15_000_000,
        10_000,
    ),
    (
        Coding::Mpeg(MpegSequence {
            profile_and_level: 0x48,
            bit_rate: 10_000,
            vbv_buffer_size: 49,
        }),
        18_000_000,
        100_352,
        15_000_000,
        139_024,
    ),
    (
        Coding::Mpeg(MpegSequence {
            profile_and_level: 0x48,
            bit_rate: 10_000,
            vbv_buffer_size: 200,
        }),
        18_000_000,
        229_376,
        15_000_000,
        10_000,
    ),
    (
        Coding::Mpeg(MpegSequence {
            profile_and_level: 0x46,
            bit_rate: 25_000,
            vbv_buffer_size: 123,
        }),
        72_000_000,
        251_904,
        10_500_000,
        40_000,
    ),
    (
        Coding::Mpeg(MpegSequence {
            profile_and_level: 0x44,
            bit_rate: 0,
            vbv_buffer_size: 1_024,
        }),
        96_000_000,
        1_222_656,
        80_000_000,
        53_333,
    ),
    (
        Coding::Avc(AvcSequence {
            level: 40,
            cpb_br_nal_factor: 1_200,
            cpb_size: 0,
        }),
        24_000_000,
        3_750_000,
        24_000_000,
        16_000,
    ),
    (
        Coding::Avc(AvcSequence {
            level: 30,
            cpb_br_nal_factor: 1_200,
            cpb_size: 1_000_000,
        }),
        12_000_000,
        125_000,
        12_000_000,
        1_383_000,
    ),
    (
        Coding::Avc(AvcSequence {
            level: 10,
            cpb_br_nal_factor: 1_200,
            cpb_size: 0,
        }),
        2_000_000,
        26_250,
        2_000_000,
        1_333,
    ),
    (
        Coding::Avc(AvcSequence {
            level: 51,
            cpb_br_nal_factor: 1_200,
            cpb_size: 0,
        }),
        200_000_000,
        10_000_000,
        200_000_000,
        192_000,
    ),
    (
        Coding::Hevc(HevcSequence {
            level: 120,
            high_tier: false,
            cpb_nal_factor: 1_100,
            br_nal_factor: 1_100,
        }),
        13_200_000,
        1_650_000,
        13_200_000,
        8_800,
    ),
    (
        Coding::Hevc(HevcSequence {
            level: 120,
            high_tier: true,
            cpb_nal_factor: 1_100,
            br_nal_factor: 1_100,
        }),
        33_000_000,
        4_125_000,
        33_000_000,
        22_000,
    ),
    (
        Coding::Mpeg(MpegSequence {
            profile_and_level: 0x85,
            bit_rate: 125_000,
            vbv_buffer_size: 550,
        }),
        60_000_000,
        1_126_400,
        50_000_000,
        86_581,
    ),
    (
        Coding::Avc(AvcSequence {
            level: 40,
            cpb_br_nal_factor: 1_500,
            cpb_size: 0,
        }),
        30_000_000,
        4_687_500,
        30_000_000,
        20_000,
    ),
    (
        Coding::Hevc(HevcSequence {
            level: 120,
            high_tier: false,
            cpb_nal_factor: 1_833,
            br_nal_factor: 1_833,
        }),
        21_996_000,
        2_749_500,
        21_996_000,
        14_664,
    ),
];

// Streams with both buffers as one.
static JOINED: [(Coding, u32); 4] = [
    (
        Coding::Mpeg(MpegSequence {
            profile_and_level: 0x48,
            bit_rate: 10_000,
            vbv_buffer_size: 49,
        }),
        239_376,
    ),
    (
        Coding::Mpeg(MpegSequence {
            profile_and_level: 0x46,
            bit_rate: 25_000,
            vbv_buffer_size: 123,
        }),
        291_904,
    ),
    (
        Coding::Avc(AvcSequence {
            level: 30,
            cpb_br_nal_factor: 1_200,
            cpb_size: 1_000_000,
        }),
        1_508_000,
    ),
    (Coding::Ac3, 5_696),
];

// Other streams: rx and main.
static OTHERS: [(Coding, u32, u32); 5] = [
    (Coding::Aac(2), 2_000_000, 3_584),
    (Coding::Aac(6), 5_529_600, 8_976),
    (Coding::Ac3, 2_000_000, 5_696),
    (Coding::Pcm(1), 3_225_600, 65_536),
    (
        Coding::Jpeg2000(J2kLimits {
            max_bit_rate: 50_000_000,
            max_buffer_size: 1_250_000,
        }),
        60_000_000,
        1_250_000,
    ),
];

fn are_others() -> bool {
    for (coding, rx, main) in &OTHERS {
        let Buffers { rx: a, main: b } = buffers_of(*coding);
        if a != *rx || b != *main || multiplexing_of(*coding).is_some() {
            return false;
        }
    }
    true
}

fn are_buffers() -> bool {
    for (coding, rx, main, rbx, size) in &VIDEO {
        let Buffers { rx: a, main: b } = buffers_of(*coding);
        let Some(MultiplexingBuffer { rbx: c, size: d }) = multiplexing_of(*coding) else {
            return false;
        };
        if a != *rx || b != *main || c != *rbx || d != *size {
            return false;
        }
    }
    for (coding, main) in &JOINED {
        if joined_buffers_of(*coding).main != *main {
            return false;
        }
    }
    are_others()
}

#[test]
fn buffers(rt: HostRuntime) {
    assert!(rt; are_buffers());
}
