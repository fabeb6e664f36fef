//! The answer of each reader, as a number: 100 and the bytes that are read, or the number of the refusal.

use crate::tests::wire::packet_of;
use dvb_tables::{EitPf, Nit, Sdt, Tdt};
use pes_packet::read_header;
use psi_tables::{LongHeader, Pat, Pmt, Section, SectionHeader};
use ts_packet::read_packet;

/// The reader of PES headers. Readers of tables are named by their table_id.
pub const HEADER: u8 = 0xfd;
/// The reader of packets, over bytes and 0xFF after them.
pub const PACKET: u8 = 0xfe;
/// The reader of sections.
pub const SECTION: u8 = 0xff;

pub fn answer(reader: u8, bytes: &[u8]) -> usize {
    match reader {
        HEADER => header_answer(bytes),
        PACKET => packet_answer(bytes),
        SECTION => section_answer(bytes),
        table_id => table_code(table_id, &section_over(table_id, bytes)) as usize,
    }
}

fn header_answer(bytes: &[u8]) -> usize {
    match read_header(bytes) {
        Ok((_, size)) => size.saturating_add(100),
        Err(refusal) => refusal.code() as usize,
    }
}

fn packet_answer(bytes: &[u8]) -> usize {
    match read_packet(&packet_of(bytes)) {
        Ok(_) => 288,
        Err(refusal) => refusal.code() as usize,
    }
}

fn section_answer(bytes: &[u8]) -> usize {
    match Section::read(bytes) {
        Ok((_, size)) => size.saturating_add(100),
        Err(refusal) => refusal.code() as usize,
    }
}

/// Returns a table's section over this body.
pub fn section_over(table_id: u8, body: &[u8]) -> Section<'_> {
    let long = LongHeader::single(1, 0);
    Section {
        header: SectionHeader {
            table_id,
            private_indicator: false,
            long: if table_id == 0x70 { None } else { Some(long) },
        },
        body,
    }
}

/// Returns the number of the refusal of a section by the reader of a table, 0 if it is read.
pub fn table_code(table_id: u8, section: &Section<'_>) -> u8 {
    let refusal = match table_id {
        0x00 => Pat::read(section).err(),
        0x02 => Pmt::read(section).err(),
        0x40 => Nit::read(section).err(),
        0x42 => Sdt::read(section).err(),
        0x4e => EitPf::read(section).err(),
        _ => Tdt::read(section).err(),
    };
    match refusal {
        None => 0,
        Some(refusal) => refusal.code(),
    }
}
