//! Worked PES headers, written and read.

use super::vectors::{PTS_DTS_HEADER, PTS_HEADER};
use pes_packet::{
    Marks, PesFlags, PesHeader, Stamps, fits_packet, greatest_size, has_flags, is_unit_id,
    read_header, write_header,
};

/// A base shortly before 2^33.
const BASE: u64 = 8_589_934_500;

/// stream_id, size, marks, PTS and DTS of units, and their headers: a DTS is written if the stamps differ on the wire.
/// The fourth is the header of a PES packet of teletext (EN 300 472, 4.2), the fifth of an aligned original of
/// subtitles, the sixth of a frame of audio description (TS 101 154, annex E).
static WRITTEN: [(u8, usize, Marks, u64, u64, &[u8]); 6] = [
    (192, 3, Marks::NONE, 90_000, 90_000, PTS_HEADER),
    (
        192,
        576,
        Marks::NONE,
        BASE + 3_400,
        BASE + 1_600,
        PTS_DTS_HEADER,
    ),
    (
        224,
        65_528,
        Marks::NONE,
        1 << 33,
        0,
        b"\x00\x00\x01\xe0\x00\x00\x80\x80\x05\x21\x00\x01\x00\x01",
    ),
    (189, 139, TELETEXT, 90_000, 90_000, TELETEXT_HEADER),
    (
        189,
        3,
        ALIGNED,
        90_000,
        90_000,
        b"\x00\x00\x01\xbd\x00\x0b\x85\x80\x05\x21\x00\x05\xbf\x21",
    ),
    (192, 3, DESCRIBED, 90_000, 90_000, DESCRIBED_HEADER),
];

/// An AD_descriptor: its length 8, AD_text_tag DTGAD, version 1, a fade of 16 and a pan of 32.
const AD_DESCRIPTOR: [u8; 16] = [
    0xf8, 0x44, 0x54, 0x47, 0x41, 0x44, 0x31, 0x10, 0x20, 0xff, 0xff, 0xff, 0xff, 0xff, 0xff, 0xff,
];

/// The marks of a frame of audio description.
const DESCRIBED: Marks = Marks {
    random_access: false,
    flags: PesFlags::NONE,
    long: false,
    private_data: Some(AD_DESCRIPTOR),
};

/// PTS_DTS_flags 10 and PES_extension_flag, 22 bytes of header data: the PTS, the flags of the extension,
/// PES_private_data.
const DESCRIBED_HEADER: &[u8] =
    b"\x00\x00\x01\xc0\x00\x1c\x80\x81\x16\x21\x00\x05\xbf\x21\x8e\xf8DTGAD1\x10\x20\xff\xff\xff\xff\xff\xff\xff";

/// The same after an ESCR of six bytes, without a PES_packet_length.
const CLOCKED_HEADER: &[u8] =
    b"\x00\x00\x01\xc0\x00\x00\x80\xa1\x1c\x21\x00\x05\xbf\x21\x01\x02\x03\x04\x05\x06\x8e\xf8DTGAD1\x10\x20\xff\xff\xff\xff\xff\xff\xff";

/// The marks of teletext and VBI data: aligned, with a header of 45 bytes.
const TELETEXT: Marks = Marks {
    random_access: false,
    flags: ALIGNED_ALONE,
    long: true,
    private_data: None,
};

/// The flags of teletext and VBI data.
const ALIGNED_ALONE: PesFlags = PesFlags {
    priority: false,
    aligned: true,
    copyright: false,
    original: false,
};

/// An aligned original.
const ALIGNED: Marks = Marks {
    random_access: false,
    flags: PesFlags {
        priority: false,
        aligned: true,
        copyright: false,
        original: true,
    },
    long: false,
    private_data: None,
};

/// A PTS of 90,000 and 31 stuffing bytes: with 139 bytes of data the PES packet has 184, and 178 after its length.
const TELETEXT_HEADER: &[u8] =
    b"\x00\x00\x01\xbd\x00\xb2\x84\x80\x24\x21\x00\x05\xbf\x21\xff\xff\xff\xff\xff\xff\xff\xff\xff\xff\xff\xff\xff\xff\xff\xff\xff\xff\xff\xff\xff\xff\xff\xff\xff\xff\xff\xff\xff\xff\xff";

fn is_written(id: u8, size: usize, marks: Marks, pts: u64, dts: u64, header: &[u8]) -> bool {
    fits_packet(id, size) && write_header(id, size, marks, pts, dts).as_slice() == header
}

#[test]
fn headers_are_written(rt: HostRuntime) {
    for (id, size, marks, pts, dts, header) in &WRITTEN {
        assert!(rt; is_written(*id, *size, *marks, *pts, *dts, header));
    }
}

/// Headers, their fields, and their sizes.
static READ: [(&[u8], PesHeader, usize); 6] = [
    (
        TELETEXT_HEADER,
        PesHeader {
            id: 189,
            len: 178,
            stamps: Stamps::Pts(90_000),
            flags: ALIGNED_ALONE,
            data_length: 36,
            private_data: None,
        },
        45,
    ),
    (
        DESCRIBED_HEADER,
        PesHeader {
            id: 192,
            len: 28,
            stamps: Stamps::Pts(90_000),
            flags: PesFlags::NONE,
            data_length: 22,
            private_data: Some(AD_DESCRIPTOR),
        },
        31,
    ),
    (
        CLOCKED_HEADER,
        PesHeader {
            id: 192,
            len: 0,
            stamps: Stamps::Pts(90_000),
            flags: PesFlags::NONE,
            data_length: 28,
            private_data: Some(AD_DESCRIPTOR),
        },
        37,
    ),
    (
        PTS_HEADER,
        PesHeader {
            id: 192,
            len: 11,
            stamps: Stamps::Pts(90_000),
            flags: PesFlags::NONE,
            data_length: 5,
            private_data: None,
        },
        14,
    ),
    (
        PTS_DTS_HEADER,
        PesHeader {
            id: 192,
            len: 589,
            stamps: Stamps::PtsDts {
                pts: 3_308,
                dts: 1_508,
            },
            flags: PesFlags::NONE,
            data_length: 10,
            private_data: None,
        },
        19,
    ),
    (
        &[0x00, 0x00, 0x01, 0xbe, 0x00, 0x02, 0xff, 0xff],
        PesHeader {
            id: 0xbe,
            len: 2,
            stamps: Stamps::Absent,
            flags: PesFlags::NONE,
            data_length: 0,
            private_data: None,
        },
        6,
    ),
];

#[test]
fn headers_are_read(rt: HostRuntime) {
    for (bytes, header, size) in &READ {
        assert!(rt; read_header(bytes) == Ok((*header, *size)));
    }
}

/// stream_ids and sizes of units: whether units have this stream_id, whether its headers have flag bytes, whether a
/// unit of this size may have it, and the greatest size.
static IDS: [(u8, usize, [bool; 3], usize); 9] = [
    (189, 1, [true, true, true], 65_522),
    (190, 1, [false, false, false], 65_522),
    (191, 1, [false, false, false], 65_522),
    (192, 65_522, [true, true, true], 65_522),
    (192, 65_523, [true, true, false], 65_522),
    (223, 65_522, [true, true, true], 65_522),
    (224, 0, [true, true, false], 4_000_000),
    (239, 4_000_000, [true, true, true], 4_000_000),
    (240, 1, [false, false, false], 65_522),
];

fn answers(id: u8, size: usize) -> ([bool; 3], usize) {
    (
        [is_unit_id(id), has_flags(id), fits_packet(id, size)],
        greatest_size(id),
    )
}

#[test]
fn stream_ids_are_known(rt: HostRuntime) {
    for (id, size, wanted, greatest) in &IDS {
        assert!(rt; answers(*id, *size) == (*wanted, *greatest));
    }
}
