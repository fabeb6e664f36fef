//! The answers of the readers: refusals by hand, and each beginning and each changed byte of worked inputs, compared
//! with a plain reading.

mod plain;
mod readers;
mod rows;

use super::packet_of;
use psi_tables::Section;
use readers::{answer, section_over, table_code};
use rows::{DAMAGED, LONG_TABLES, READERS, REFUSED, TABLES};

#[test]
fn bytes_are_refused(rt: HostRuntime) {
    for (reader, bytes, wanted) in &REFUSED {
        assert!(rt; answer(*reader, bytes) == *wanted);
    }
}

/// Returns the number of a reader's refusal of a section's bytes, 99 if they are no section.
fn code_of_bytes(reader: u8, bytes: &[u8]) -> u8 {
    match Section::read(bytes) {
        Ok((section, _)) => table_code(reader, &section),
        Err(_) => 99,
    }
}

/// Returns whether each reader refuses the section of another table, and the table's own reader gives this number.
fn are_refused(bytes: &[u8], code: u8) -> bool {
    for reader in &READERS {
        let wanted = if bytes.first() == Some(reader) {
            code
        } else {
            4
        };
        if code_of_bytes(*reader, bytes) != wanted {
            return false;
        }
    }
    true
}

#[test]
fn tables_are_refused(rt: HostRuntime) {
    for (bytes, code) in &TABLES {
        assert!(rt; are_refused(bytes, *code));
    }
}

/// A table with two refusals is answered the first in the order Syntax, Length, Body.
#[test]
fn long_tables_are_refused(rt: HostRuntime) {
    for (reader, size, code) in &LONG_TABLES {
        let mut section = section_over(*reader, [0xff; 1013].get(..*size).unwrap_or(&[]));
        section.header.table_id = 0;
        assert!(rt; table_code(*reader, &section) == *code);
    }
}

/// Returns whether bytes are answered as the plain reading says.
fn is_plain(reader: u8, bytes: &[u8]) -> bool {
    answer(reader, bytes) == plain::answer(reader, bytes)
}

/// Returns whether the bytes, with the byte at `at` changed to each of four values, are answered as the plain reading
/// says.
fn are_changes_plain(reader: u8, bytes: &mut [u8], at: usize) -> bool {
    for value in [0x00, 0x7f, 0x80, 0xff] {
        if let Some(byte) = bytes.get_mut(at) {
            *byte = value;
        }
        if !is_plain(reader, bytes) {
            return false;
        }
    }
    true
}

/// Returns whether the bytes before `at` are answered as the plain reading says, and the first `size` bytes with the
/// byte at `at` changed.
fn is_plain_at(reader: u8, bytes: &[u8], size: usize, at: usize) -> bool {
    let mut changed = packet_of(bytes);
    match changed.get_mut(..size) {
        Some(changed) => {
            is_plain(reader, bytes.get(..at).unwrap_or(bytes))
                && are_changes_plain(reader, changed, at)
        }
        None => false,
    }
}

fn is_all_plain(reader: u8, bytes: &[u8], size: usize) -> bool {
    for at in 0..size {
        if !is_plain_at(reader, bytes, size, at) {
            return false;
        }
    }
    true
}

#[test]
fn damage_is_answered(rt: HostRuntime) {
    for (reader, bytes, from, size) in &DAMAGED {
        assert!(rt; is_all_plain(*reader, bytes.get(*from..).unwrap_or(&[]), *size));
    }
}
