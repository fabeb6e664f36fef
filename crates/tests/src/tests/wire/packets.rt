//! Packets by hand, read and written.
use super::packet_of;
use super::vectors::ALL_PARTS;
use clock27::{Pcr, Rate};
use ts_packet::{
    Adaptation, AdaptationField, ClockReference, Header, Packet, fits, read_packet, write_packet,
    write_pcr,
};

/// The header of a payload alone.
const PLAIN: Header = Header {
    transport_error_indicator: false,
    payload_unit_start_indicator: true,
    transport_priority: false,
    pid: 256,
    transport_scrambling_control: 0,
    continuity_counter: 7,
};

/// The header of an adaptation field without payload.
const FIELD_ALONE: Header = Header {
    payload_unit_start_indicator: false,
    continuity_counter: 0,
    ..PLAIN
};

/// The header of `ALL_PARTS`.
const MARKED: Header = Header {
    transport_error_indicator: true,
    payload_unit_start_indicator: true,
    transport_priority: true,
    pid: 0x123,
    transport_scrambling_control: 3,
    continuity_counter: 5,
};

/// Returns whether the adaptation field of `ALL_PARTS` is read with each of its parts.
fn has_parts(parts: &AdaptationField<'_>) -> bool {
    let last = ClockReference {
        base: (1 << 33) - 1,
        extension: 299,
    };
    let first = ClockReference {
        base: 1,
        extension: 2,
    };
    [
        parts.discontinuity_indicator,
        !parts.random_access_indicator,
        !parts.elementary_stream_priority_indicator,
        parts.pcr == Some(last),
        parts.opcr == Some(first),
        parts.splice_countdown == Some(-3),
        parts.private_data == Some(b"\xaa\xbb".as_slice()),
        parts.extension == Some(b"\xcc".as_slice()),
        parts.stuffing == b"\xff\xff\xff\xff".as_slice(),
    ] == [true; 9]
}

/// Returns the header of a packet whose adaptation field is absent, has each part, or is empty without a payload, and
/// the size of its payload.
fn read_of(front: &[u8]) -> Option<(Header, usize)> {
    match read_packet(&packet_of(front)) {
        Ok(
            Packet {
                header,
                adaptation: None,
                payload: Some(payload),
            },
        ) => Some((header, payload.len())),
        Ok(
            Packet {
                header,
                adaptation: Some(Adaptation::Flagged(parts)),
                payload: Some(payload),
            },
        ) if has_parts(&parts) => Some((header, payload.len())),
        Ok(
            Packet {
                header,
                adaptation: Some(Adaptation::Empty),
                payload: None,
            },
        ) => Some((header, 0)),
        _ => None,
    }
}

/// First bytes of packets, their headers, and the sizes of their payloads.
static READ: [(&[u8], Header, usize); 3] = [
    (b"\x47\x41\x00\x17", PLAIN, 184),
    (ALL_PARTS, MARKED, 160),
    // The bytes after an adaptation field without payload are not read.
    (b"\x47\x01\x00\x20\x00\x12", FIELD_ALONE, 0),
];

#[test]
fn packets_are_read(rt: HostRuntime) {
    for (front, header, size) in &READ {
        assert!(rt; read_of(front) == Some((*header, *size)));
    }
}

/// Returns whether the reference of slot 1 is written, and one whose base passed 2^33 - 1.
fn are_references_written(rate: Rate) -> [bool; 2] {
    let first = write_pcr(257, Pcr::at(rate, 0, 198));
    let late = write_pcr(257, Pcr::at(rate, 8_589_934_500, 198));
    [
        first == packet_of(b"\x47\x01\x01\x2f\xb7\x10\x00\x00\x00\x2f\x7e\xec"),
        late == packet_of(b"\x47\x01\x01\x2f\xb7\x10\x00\x00\x00\x01\x7e\xec"),
    ]
}

#[test]
fn references_are_written(rt: HostRuntime) {
    if let Ok(rate) = Rate::new(1_504_000) {
        assert!(rt; are_references_written(rate) == [true; 2]);
    }
}

const HEADER: Header = Header {
    transport_error_indicator: false,
    payload_unit_start_indicator: true,
    transport_priority: true,
    pid: 0x1abc,
    transport_scrambling_control: 2,
    continuity_counter: 9,
};

/// An adaptation field with an OPCR and a splice_countdown.
const PARTS: AdaptationField<'static> = AdaptationField {
    discontinuity_indicator: true,
    random_access_indicator: true,
    elementary_stream_priority_indicator: false,
    pcr: None,
    opcr: Some(ClockReference {
        base: 1 << 32,
        extension: 256,
    }),
    splice_countdown: Some(-1),
    private_data: None,
    extension: None,
    stuffing: &[0xff; 2],
};

/// Returns whether a packet with these parts is written as its bytes, and read again.
fn writes(field: &Adaptation<'_>, payload: &[u8; 173]) -> bool {
    if !fits(HEADER, Some(field), Some(payload)) {
        return false;
    }
    let packet = write_packet(HEADER, Some(field), Some(payload));
    let front = b"\x47\x7a\xbc\xb9\x0a\xcc\x80\x00\x00\x00\x7f\x00\xff\xff\xff";
    packet.starts_with(front) && packet.ends_with(payload) && read_packet(&packet).is_ok()
}

#[test]
fn each_field_is_written(rt: HostRuntime) {
    assert!(rt; writes(&Adaptation::Flagged(PARTS), &[0x5a; 173]));
}

/// Headers, whether each fits with a payload of 184 bytes and no adaptation field.
static HEADERS: [(Header, bool); 4] = [
    (HEADER, true),
    (
        Header {
            pid: 0x2000,
            ..HEADER
        },
        false,
    ),
    (
        Header {
            transport_scrambling_control: 4,
            ..HEADER
        },
        false,
    ),
    (
        Header {
            continuity_counter: 16,
            ..HEADER
        },
        false,
    ),
];

/// Bases and extensions of an OPCR, the last byte of stuffing, and whether an adaptation field with these fits without
/// a payload.
static FIELDS: [(u64, u16, u8, bool); 4] = [
    (1 << 32, 256, 0xff, true),
    (1 << 32, 256, 0xfe, false),
    (1 << 33, 0, 0xff, false),
    (0, 512, 0xff, false),
];

fn fits_field(base: u64, extension: u16, last: u8) -> bool {
    let mut stuffing = [0xff; 175];
    stuffing[174] = last;
    let parts = AdaptationField {
        opcr: Some(ClockReference { base, extension }),
        stuffing: &stuffing,
        ..PARTS
    };
    fits(HEADER, Some(&Adaptation::Flagged(parts)), None)
}

/// Returns whether each of five packets fits: the first, with an empty adaptation field, does; the rest are too long or
/// too short.
fn sizes(payload: &[u8; 184]) -> [bool; 5] {
    let parts = AdaptationField {
        stuffing: &[0xff; 175],
        ..PARTS
    };
    let empty = Some(&Adaptation::Empty);
    [
        fits(HEADER, empty, Some(&payload[..183])),
        fits(HEADER, None, Some(&payload[..183])),
        fits(HEADER, empty, Some(payload)),
        fits(HEADER, None, None),
        fits(HEADER, Some(&Adaptation::Flagged(parts)), Some(&[])),
    ]
}

#[test]
fn what_fits(rt: HostRuntime) {
    for (header, wanted) in &HEADERS {
        assert!(rt; fits(*header, None, Some(&[0x5a; 184])) == *wanted);
    }
    for (base, extension, last, wanted) in &FIELDS {
        assert!(rt; fits_field(*base, *extension, *last) == *wanted);
    }
    assert!(rt; sizes(&[0x5a; 184]) == [true, false, false, false, false]);
}
