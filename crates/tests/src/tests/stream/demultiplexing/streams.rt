//! The worked streams: their packets and findings.

use super::rows::Row;
use crate::tests::stream::packets::{Packet, stream_of};
use pid_findings::Kind;
use std::alloc::Global;

// A packet of PID 256 with a PES packet of three bytes, 41 42 43, with PTS 90,000, after stuffing; and with 44 for 43.
pub const PES: Packet = (
    &[0x47, 0x41, 0x00, 0x30, 0xA6, 0x00],
    0xFF,
    &[
        0x00, 0x00, 0x01, 0xC0, 0x00, 0x0B, 0x80, 0x80, 0x05, 0x21, 0x00, 0x05, 0xBF, 0x21, 0x41,
        0x42, 0x43,
    ],
);

const OTHER: Packet = (
    &[0x47, 0x41, 0x00, 0x30, 0xA6, 0x00],
    0xFF,
    &[
        0x00, 0x00, 0x01, 0xC0, 0x00, 0x0B, 0x80, 0x80, 0x05, 0x21, 0x00, 0x05, 0xBF, 0x21, 0x41,
        0x42, 0x44,
    ],
);

// A packet of PID 0 with a whole program association section; a packet with its first ten bytes, after stuffing; and a
// packet with the rest.
pub const PAT: Packet = (
    &[
        0x47, 0x40, 0x00, 0x10, 0x00, 0x00, 0xB0, 0x0D, 0x00, 0x01, 0xC1, 0x00, 0x00, 0x00, 0x01,
        0xF0, 0x00, 0x2A, 0xB1, 0x04, 0xB2,
    ],
    0xFF,
    &[],
);

pub const FIRST: Packet = (
    &[0x47, 0x40, 0x00, 0x31, 0xAC, 0x00],
    0xFF,
    &[
        0x00, 0x00, 0xB0, 0x0D, 0x00, 0x01, 0xC1, 0x00, 0x00, 0x00, 0x01,
    ],
);

pub const SECOND: Packet = (
    &[0x47, 0x00, 0x00, 0x12, 0xF0, 0x00, 0x2A, 0xB1, 0x04, 0xB2],
    0xFF,
    &[],
);

// Packets of PID 257 full of payload bytes A5: PES packets without a length begin in the first and the third.
pub const LONG: Packet = (
    &[
        0x47, 0x41, 0x01, 0x10, 0x00, 0x00, 0x01, 0xE0, 0x00, 0x00, 0x80, 0x00, 0x00,
    ],
    0xA5,
    &[],
);

pub const MORE: Packet = (&[0x47, 0x01, 0x01, 0x11], 0xA5, &[]);

pub const AGAIN: Packet = (
    &[
        0x47, 0x41, 0x01, 0x12, 0x00, 0x00, 0x01, 0xE0, 0x00, 0x00, 0x80, 0x00, 0x00,
    ],
    0xA5,
    &[],
);

// The PES packet of PID 256 in a packet with the random_access_indicator; a PES packet of PID 257 without a length that
// begins in such a packet; and a packet with the indicator that continues the PES packet of `AGAIN`.
const ACCESS: Packet = (
    &[0x47, 0x41, 0x00, 0x30, 0xA6, 0x40],
    0xFF,
    &[
        0x00, 0x00, 0x01, 0xC0, 0x00, 0x0B, 0x80, 0x80, 0x05, 0x21, 0x00, 0x05, 0xBF, 0x21, 0x41,
        0x42, 0x43,
    ],
);

const LONG_ACCESS: Packet = (
    &[
        0x47, 0x41, 0x01, 0x30, 0x01, 0x40, 0x00, 0x00, 0x01, 0xE0, 0x00, 0x00, 0x80, 0x00, 0x00,
    ],
    0xA5,
    &[],
);

const MORE_ACCESS: Packet = (&[0x47, 0x01, 0x01, 0x33, 0x01, 0x40], 0xA5, &[]);

// A wrong check word, a null packet, a packet with transport_error_indicator, no packet, a scrambled one, and one whose
// pointer_field points past the end.
const DAMAGED: [Packet; 6] = [
    (
        &[
            0x47, 0x40, 0x00, 0x10, 0x00, 0x00, 0xB0, 0x0D, 0x00, 0x01, 0xC1, 0x00, 0x00, 0x00,
            0x01, 0xF0, 0x00, 0x2A, 0xB1, 0x04, 0xB3,
        ],
        0xFF,
        &[],
    ),
    (&[0x47, 0x1F, 0xFF, 0x10, 0x00, 0x00, 0xB0, 0x0D], 0xFF, &[]),
    (&[0x47, 0x9F, 0xFF, 0x10, 0x00, 0x00, 0xB0, 0x0D], 0xFF, &[]),
    (&[0x46, 0x9F, 0xFF, 0x10, 0x00, 0x00, 0xB0, 0x0D], 0xFF, &[]),
    (&[0x47, 0x40, 0x00, 0x51, 0x00, 0x00, 0xB0, 0x0D], 0xFF, &[]),
    (&[0x47, 0x40, 0x00, 0x12, 184, 0x00, 0xB0, 0x0D], 0xFF, &[]),
];

// The PES packet of PID 256 that begins in packet 0, in packet 1 and in packet 2.
pub const PES_AT_0: Row = (
    0,
    Some(256),
    ("pes", [192, 0, 3]),
    Some((
        0,
        Kind::Pes {
            stamped: true,
            access: false,
        },
    )),
);

const PES_AT_1: Row = (
    1,
    Some(256),
    ("pes", [192, 0, 3]),
    Some((
        1,
        Kind::Pes {
            stamped: true,
            access: false,
        },
    )),
);

const PES_AT_2: Row = (
    2,
    Some(256),
    ("pes", [192, 0, 3]),
    Some((
        2,
        Kind::Pes {
            stamped: true,
            access: false,
        },
    )),
);

pub const DUPLICATE: Row = (1, Some(256), ("duplicate", [0; 3]), None);

const BREAK: Row = (2, Some(256), ("counter", [1, 0, 0]), None);

/// A stream: its packets, the bytes cut off its end, and its findings.
pub type Stream = (&'static [Packet], usize, &'static [Row]);

pub static STREAMS: [Stream; 8] = [
    // The worked packet, the same again, the same with another last byte, and 100 bytes of one more.
    (
        &[PES, PES, OTHER, PES],
        88,
        &[
            PES_AT_0,
            DUPLICATE,
            BREAK,
            PES_AT_2,
            (3, None, ("truncated", [100, 0, 0]), None),
        ],
    ),
    // A packet is repeated once. The third one alike breaks the counter, and the fourth repeats it.
    (
        &[PES, PES, PES, PES],
        0,
        &[
            PES_AT_0,
            DUPLICATE,
            BREAK,
            PES_AT_2,
            (3, Some(256), ("duplicate", [0; 3]), None),
        ],
    ),
    // A section in one packet, and in two: then it is found at the second.
    (
        &[PAT],
        0,
        &[(
            0,
            Some(0),
            ("section", [16, 0, 0]),
            Some((0, Kind::Table(0))),
        )],
    ),
    (
        &[FIRST, SECOND],
        0,
        &[(
            1,
            Some(0),
            ("section", [16, 0, 0]),
            Some((0, Kind::Table(0))),
        )],
    ),
    (
        &DAMAGED,
        0,
        &[
            (
                0,
                Some(0),
                ("bad section", [3, 0, 0]),
                Some((0, Kind::Table(0))),
            ),
            (2, None, ("errored", [0; 3]), None),
            (3, None, ("bad packet", [1, 0, 0]), None),
            (4, Some(0), ("scrambled", [0; 3]), None),
            (5, Some(0), ("bad section", [5, 0, 0]), None),
        ],
    ),
    // A PES packet without a length ends at the next PES packet, or with the stream; a packet of another PID does not
    // end it.
    (
        &[LONG, PES, MORE, AGAIN],
        0,
        &[
            PES_AT_1,
            (
                3,
                Some(257),
                ("pes", [224, 0, 359]),
                Some((
                    0,
                    Kind::Pes {
                        stamped: false,
                        access: false,
                    },
                )),
            ),
            (
                4,
                Some(257),
                ("pes", [224, 1, 175]),
                Some((
                    3,
                    Kind::Pes {
                        stamped: false,
                        access: false,
                    },
                )),
            ),
        ],
    ),
    // A PES packet has the random_access_indicator of its first packet, wherever it ends.
    (
        &[ACCESS, LONG_ACCESS, MORE, AGAIN, MORE_ACCESS],
        0,
        &[
            (
                0,
                Some(256),
                ("pes", [192, 0, 3]),
                Some((
                    0,
                    Kind::Pes {
                        stamped: true,
                        access: true,
                    },
                )),
            ),
            (
                3,
                Some(257),
                ("pes", [224, 0, 357]),
                Some((
                    1,
                    Kind::Pes {
                        stamped: false,
                        access: true,
                    },
                )),
            ),
            (
                5,
                Some(257),
                ("pes", [224, 1, 357]),
                Some((
                    3,
                    Kind::Pes {
                        stamped: false,
                        access: false,
                    },
                )),
            ),
        ],
    ),
    // Payload that continues nothing, at the start of a stream and after a loss.
    (
        &[MORE, PAT, SECOND],
        0,
        &[
            (0, Some(257), ("stray", [184, 0, 0]), None),
            (
                1,
                Some(0),
                ("section", [16, 0, 0]),
                Some((1, Kind::Table(0))),
            ),
            (2, Some(0), ("counter", [1, 2, 0]), None),
            (2, Some(0), ("stray", [184, 0, 0]), None),
        ],
    ),
];

/// Returns the bytes of a stream.
pub fn bytes_of(alloc: Global, stream: &Stream) -> Option<Vec<u8>> {
    let (packets, cut, _) = *stream;
    let mut bytes = stream_of(alloc, packets).ok()?;
    bytes.truncate(bytes.len().saturating_sub(cut));
    Some(bytes)
}
