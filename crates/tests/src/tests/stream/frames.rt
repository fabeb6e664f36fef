//! Frames of sound in units, worked by hand.

use sound_frames::{frame_kind, unit_frames};
use stream_choice::{FrameCounts, Needs, are_max_packets, choose_framed, keeps_framing};

// Two frames of layer III, 24 kHz and 8 kbit/s, of 24 bytes.
const LAYER_THREE: &[u8] = &[
    0xff, 0xf3, 0x14, 0xc0, 0, 0, 0, 0, 0, 0, 0, 0, 0, 0, 0, 0, 0, 0, 0, 0, 0, 0, 0, 0, 0xff, 0xf3,
    0x14, 0xc0, 0, 0, 0, 0, 0, 0, 0, 0, 0, 0, 0, 0, 0, 0, 0, 0, 0, 0, 0, 0,
];

// Two frames of ADTS of 7 bytes, 24 kHz; a frame of 44.1 kHz.
const ADTS: &[u8] = &[
    0xff, 0xf1, 0x58, 0x40, 0, 0xff, 0xfc, 0xff, 0xf1, 0x58, 0x40, 0, 0xff, 0xfc,
];

const ADTS_44: &[u8] = &[0xff, 0xf1, 0x50, 0x40, 0, 0xff, 0xfc];

// Frames of ISO/IEC 14496-3 of 7 bytes, 24 kHz, the second with the configuration of the first.
const LOAS: &[u8] = &[
    0x56, 0xe0, 4, 0x20, 0, 0x13, 0, 0x56, 0xe0, 4, 0x80, 0, 0, 0,
];

// Frames of Enhanced AC-3 of 6 and 8 bytes, 48 kHz; a frame of a dependent substream.
const ENHANCED: &[u8] = &[
    0x0b, 0x77, 0, 2, 0x30, 0x80, 0x0b, 0x77, 0, 3, 0x30, 0x80, 0, 0, 0x0b, 0x77, 0, 2, 0x30, 0x80,
];

const DEPENDENT: &[u8] = &[0x0b, 0x77, 0x40, 2, 0x30, 0x80];

// A stream_type, a unit, and the number of its frames, the longest time of a frame, and the bytes of the last frame and
// of the last two, without the first.
type Row = (u8, &'static [u8], Option<(usize, u64, u32, u32)>);

static UNITS: [Row; 10] = [
    (3, LAYER_THREE, Some((2, 2_160, 24, 24))),
    (4, &[0xff, 0xf3, 0x14, 0xc0], None),
    (3, ADTS, None),
    (0x0f, ADTS, Some((2, 3_840, 7, 7))),
    (0x0f, ADTS_44, Some((1, 2_090, 0, 0))),
    (0x11, LOAS, Some((2, 3_840, 7, 7))),
    (0x87, ENHANCED, Some((3, 2_880, 6, 14))),
    (0x81, DEPENDENT, None),
    (0x81, &[], Some((0, 0, 0, 0))),
    (0x1b, ADTS, None),
];

fn are_frames(row: &Row) -> bool {
    let (stream_type, unit, wanted) = *row;
    let found = match frame_kind(stream_type, &[]) {
        Some(kind) => unit_frames(kind, unit),
        None => None,
    };
    match found {
        Some(frames) => Some((frames.count, frames.time, frames.left[0], frames.left[1])) == wanted,
        None => wanted.is_none(),
    }
}

// The sums of frames of this size.
fn sums(size: u32) -> [u32; 63] {
    let mut left = [0u32; 63];
    for i in 0..63 {
        left[i] = size.saturating_mul(i as u32 + 1);
    }
    left
}

// Five frames of 576 bytes in a unit of 2,880, 16 packets to a unit: when one to four frames have left the main buffer,
// 3,408, 3,384, 3,544 and 3,475 bytes wait in a large output, and 3,224, 3,200, 3,360 and 3,336 where ten of eleven
// packets are the stream's.
fn are_kept(main: u32, rest: u32, sum: u64) -> bool {
    let needs = Needs {
        interval: 10_800,
        size: 2_880,
        rx: 2_000_000,
        main,
    };
    let framing = FrameCounts {
        frames: 5,
        frame: 2_160,
        rest,
        left: sums(576),
    };
    keeps_framing(needs, framing, 11_796, 1_628_906_116, sum)
}

// The lead and the share of three frames of 960 bytes in a unit of 2,880: the slower output keeps them with a shorter
// lead alone.
fn framed(sum: u64) -> (u32, u64) {
    let needs = Needs {
        interval: 6_480,
        size: 2_880,
        rx: 2_000_000,
        main: 3_584,
    };
    let framing = FrameCounts {
        frames: 3,
        frame: 2_160,
        rest: 2_160,
        left: sums(960),
    };
    let most: [u32; 1] = [16];
    if !needs.is_in_range() || !are_max_packets(&most) || sum < 1 << 17 {
        return (0, 0);
    }
    match choose_framed(needs, framing, &most, sum, 90_000) {
        Some(choice) => (choice.lead, choice.share),
        None => (0, 0),
    }
}

#[test]
fn frames(rt: HostRuntime) {
    for row in &UNITS {
        assert!(rt; are_frames(row));
    }
    assert!(rt; are_kept(3_544, 2_160, u64::MAX));
    assert!(rt; !are_kept(3_543, 2_160, u64::MAX) && !are_kept(3_584, 0, u64::MAX));
    assert!(rt; are_kept(3_360, 2_160, 1_791_796_728) && !are_kept(3_359, 2_160, 1_791_796_728));
    assert!(rt; framed(3_000_000_000) == (6_075, 3_918_081_525));
    assert!(rt; framed(3_300_000_000) == (6_480, 3_543_953_676));
}
