//! Sections and the check word.

use super::vectors::{FFMPEG_SDT, PAT, PMT, TDT};
use arrayvec::ArrayVec;
use bit_fields::append;
use psi_tables::{LongHeader, Section, SectionError, SectionHeader, WriteError, check_word};
use std::alloc::Global;
use std::test::Fail;

/// Bytes with their check words.
static CHECKED: [(&[u8], u32); 6] = [
    (b"123456789", 0x0376_e6e7),
    (b"", 0xffff_ffff),
    (
        b"\x00\xb0\x0d\x00\x01\xc1\x00\x00\x00\x01\xf0\x00",
        0x2ab1_04b2,
    ),
    (PAT, 0),
    (PMT, 0),
    (FFMPEG_SDT, 0),
];

#[test]
fn check_words(rt: HostRuntime) {
    for (bytes, word) in &CHECKED {
        assert!(rt; check_word(bytes) == *word);
    }
}

/// The fields of the long form of a table that is one section.
pub const SINGLE: LongHeader = LongHeader {
    table_id_extension: 1,
    version_number: 0,
    current_next: true,
    section_number: 0,
    last_section_number: 0,
};

const PAT_HEADER: SectionHeader = SectionHeader {
    table_id: 0,
    private_indicator: false,
    long: Some(SINGLE),
};

const PMT_HEADER: SectionHeader = SectionHeader {
    table_id: 2,
    ..PAT_HEADER
};

const SDT_HEADER: SectionHeader = SectionHeader {
    table_id: 0x42,
    private_indicator: true,
    long: Some(SINGLE),
};

const TDT_HEADER: SectionHeader = SectionHeader {
    table_id: 0x70,
    private_indicator: true,
    long: None,
};

/// Sections, their headers, where their bodies begin and end.
static READ: [(&[u8], SectionHeader, usize, usize); 4] = [
    (PAT, PAT_HEADER, 8, 12),
    (PMT, PMT_HEADER, 8, 28),
    (FFMPEG_SDT, SDT_HEADER, 8, 36),
    (TDT, TDT_HEADER, 3, 8),
];

/// Returns whether a section is read whole with this header and body, and written again as the same bytes.
fn is_read(
    alloc: Global,
    bytes: &[u8],
    header: SectionHeader,
    body: &[u8],
) -> Result<bool, WriteError> {
    match Section::read(bytes) {
        Ok((section, size)) => {
            let written = section.write(alloc)?;
            Ok(
                [
                    section.header == header,
                    section.body == body,
                    size == bytes.len(),
                    written.as_slice() == bytes,
                ] == [true; 4],
            )
        }
        Err(_) => Ok(false),
    }
}

#[test]
fn sections_are_read(rt: HostRuntime) -> Result<(), Fail> {
    for (bytes, header, from, to) in &READ {
        let body = bytes.get(*from..*to).unwrap_or(&[]);
        assert!(rt; is_read(rt.alloc(), bytes, *header, body)?);
    }
    Ok(())
}

/// Sizes of bodies of the short form, the number of the refusal, and the bytes in an output that had three: 4,093 are
/// the most.
static LONG_BODIES: [(usize, u8, usize); 2] = [(4093, 0, 4096), (4094, 6, 3)];

fn written(body: &[u8]) -> (u8, usize) {
    let section = Section {
        header: TDT_HEADER,
        body,
    };
    let mut out = ArrayVec::new();
    append(&mut out, &[1, 2, 3]);
    let code = match section.write_to(&mut out) {
        Ok(()) => 0,
        Err(refusal) => refusal.code(),
    };
    (code, out.len())
}

#[test]
fn long_bodies_are_refused(rt: HostRuntime) -> Result<(), Fail> {
    let bytes = vec![in rt.alloc(); 0_u8; 4094]?;
    for (size, code, left) in &LONG_BODIES {
        assert!(rt; written(bytes.get(..*size).unwrap_or(&[])) == (*code, *left));
    }
    let section = Section {
        header: TDT_HEADER,
        body: &bytes,
    };
    let refused = Some(WriteError::Refused(SectionError::TooLong));
    assert!(rt; section.write(rt.alloc()).err() == refused);
    Ok(())
}
