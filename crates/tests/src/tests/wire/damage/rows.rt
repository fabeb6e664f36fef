//! Inputs, and the answers to them.

use super::readers::{HEADER, PACKET, SECTION};
use crate::tests::wire::vectors::{
    ALL_PARTS, CLOCK, CUT_PAT, CUT_PMT, CUT_PROGRAM_INFO, EIT, EMPTY_EIT, FFMPEG_SDT, NIT, PAT,
    PMT, PTS_DTS_HEADER, PTS_HEADER, SDT, STATION_SDT, TDT,
};

/// Readers, bytes, and the answer: 100 and the bytes that are read, or the number of the first refusal in its order.
pub static REFUSED: [(u8, &[u8], usize); 35] = [
    // Another prefix, and a cut one.
    (HEADER, b"\x00\x00\x02", 2),
    (HEADER, b"\x00\x00", 1),
    // PTS_DTS_flags 01, a marker bit 0, no room for the PTS, a PES_packet_length of 7.
    (
        HEADER,
        b"\x00\x00\x01\xc0\x00\x08\x80\x40\x05\x21\x00\x01\x00\x01",
        3,
    ),
    (
        HEADER,
        b"\x00\x00\x01\xc0\x00\x08\x80\x80\x05\x20\x00\x01\x00\x01",
        4,
    ),
    (
        HEADER,
        b"\x00\x00\x01\xe0\x00\x00\x80\x80\x04\x21\x00\x01\x00",
        5,
    ),
    (
        HEADER,
        b"\x00\x00\x01\xc0\x00\x07\x80\x80\x05\x21\x00\x01\x00\x01",
        5,
    ),
    // Two refusals at once. A wrong prefix, cut.
    (HEADER, b"\x00\x01", 2),
    // Cut header data, after PTS_DTS_flags 01.
    (HEADER, b"\x00\x00\x01\xc0\x00\x00\x80\x40\x05\x21", 1),
    // PTS_DTS_flags 01, and a PES_packet_length of 1.
    (HEADER, b"\x00\x00\x01\xc0\x00\x01\x80\x40\x00", 3),
    // Flag bytes that do not begin with 10, and a marker bit 0.
    (
        HEADER,
        b"\x00\x00\x01\xc0\x00\x00\x00\x80\x05\x20\x00\x01\x00\x01",
        3,
    ),
    // A PES_packet_length of 7, and a marker bit 0.
    (
        HEADER,
        b"\x00\x00\x01\xc0\x00\x07\x80\x80\x05\x20\x00\x01\x00\x01",
        5,
    ),
    // No room for the DTS, and a marker bit 0 in the PTS.
    (
        HEADER,
        b"\x00\x00\x01\xc0\x00\x00\x80\xc0\x05\x20\x00\x01\x00\x01",
        5,
    ),
    (PACKET, b"\x46\x01\x00\x10", 1),
    (PACKET, b"\x47\x01\x00\x00\xb7\x00", 2),
    (PACKET, b"\x47\x01\x00\x30\xb7\x00", 3),
    (PACKET, b"\x47\x01\x00\x20\xb8\x00", 3),
    (PACKET, b"\x47\x01\x00\x30\x01\x10", 4),
    (PACKET, b"\x47\x01\x00\x20\xb7\x02\xff", 4),
    // Two at once.
    (PACKET, b"\x46\x01\x00\x00\xff\x10", 1),
    (PACKET, b"\x47\x01\x00\x00\xff\x10", 2),
    (PACKET, b"\x47\x01\x00\x30\xff\xff", 3),
    (SECTION, b"", 1),
    (SECTION, b"\x00\xbf", 1),
    (SECTION, b"\x00\xbf\xff", 2),
    (SECTION, b"\x70\x7f\xfe", 2),
    (SECTION, b"\x70\x7f\xfd", 1),
    (SECTION, b"\x00\xb0\x08", 2),
    (SECTION, b"\x00\xb0\x09", 1),
    (SECTION, b"\x70\x70\x05\xc0\x79\x12\x45", 1),
    // A PAT with another last byte at the end.
    (
        SECTION,
        b"\x00\xb0\x0d\x00\x01\xc1\x00\x00\x00\x01\xf0\x00\x2a\xb1\x04\xb3",
        3,
    ),
    // Two at once: cut and with a wrong check word, a section_length of 4,094 in three bytes, of 8 in the long form
    // before a wrong check word, and the same in two bytes.
    (
        SECTION,
        b"\x00\xb0\x0d\x00\x01\xc1\x00\x00\x00\x01\xf0\x00\x2a\xb1\x00",
        1,
    ),
    (SECTION, b"\x00\xbf\xfe", 2),
    (
        SECTION,
        b"\x00\xb0\x08\x00\x01\xc1\x00\x00\x00\x01\xf0\x00\x2a\xb1\x04\x00",
        2,
    ),
    (SECTION, b"\x00\xb0", 1),
    (SECTION, PAT, 116),
];

/// The readers of tables.
pub static READERS: [u8; 6] = [0x00, 0x02, 0x40, 0x42, 0x4e, 0x70];

/// Sections, and the number of the refusal by the reader of their table_id, 0 if they are read. The last three have the
/// short form.
pub static TABLES: [(&[u8], u8); 15] = [
    (PAT, 0),
    (PMT, 0),
    (FFMPEG_SDT, 0),
    (STATION_SDT, 0),
    (NIT, 0),
    (SDT, 0),
    (EIT, 0),
    (EMPTY_EIT, 0),
    (TDT, 0),
    (CUT_PAT, 5),
    (CUT_PMT, 5),
    (CUT_PROGRAM_INFO, 5),
    (b"\x40\x70\x00", 4),
    (b"\x42\x70\x00", 4),
    (b"\x4e\x70\x00", 4),
];

/// Readers of PAT and PMT, sizes of a PAT's body of 0xFF, and the numbers of the refusals.
pub static LONG_TABLES: [(u8, usize, u8); 5] = [
    (0x00, 1013, 2),
    (0x00, 1012, 0),
    (0x00, 1011, 5),
    (0x02, 1013, 4),
    (0x02, 1011, 4),
];

/// Readers, bytes, the offset of the changed bytes, and their number.
pub static DAMAGED: [(u8, &[u8], usize, usize); 21] = [
    (HEADER, PTS_HEADER, 0, 14),
    (HEADER, PTS_DTS_HEADER, 0, 19),
    (PACKET, b"\x47\x41\x00\x10", 0, 188),
    (PACKET, b"\x47\x41\x00\x30\x00", 0, 188),
    (PACKET, b"\x47\x41\x00\x30\x01\x00", 0, 188),
    (PACKET, b"\x47\x01\x00\x33\x91\x00", 0, 188),
    (PACKET, b"\x47\x1f\xff\x10", 0, 188),
    (PACKET, CLOCK, 0, 188),
    (PACKET, ALL_PARTS, 0, 188),
    (SECTION, PAT, 0, 16),
    (SECTION, PMT, 0, 32),
    (SECTION, FFMPEG_SDT, 0, 40),
    (SECTION, TDT, 0, 8),
    (SECTION, CUT_PAT, 0, 15),
    (SECTION, CUT_PMT, 0, 21),
    // Bodies of tables, the check word not looked at.
    (0x00, PAT, 8, 4),
    (0x02, PMT, 8, 20),
    (0x40, NIT, 8, 15),
    (0x42, SDT, 8, 16),
    (0x4e, EIT, 8, 29),
    (0x70, TDT, 3, 5),
];
