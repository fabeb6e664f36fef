//! The answers by a plain reading of the standards: each cause of a refusal, in order, and the check word bit by bit.

use super::readers::{HEADER, PACKET, SECTION};
use crate::tests::wire::packet_of;

pub fn answer(reader: u8, bytes: &[u8]) -> usize {
    match reader {
        HEADER => header(bytes),
        PACKET => packet(&packet_of(bytes)),
        SECTION => section(bytes),
        table_id => table(table_id, bytes),
    }
}

/// Returns the byte at a place, 255 if there is none.
fn byte(bytes: &[u8], at: usize) -> u8 {
    match bytes.get(at) {
        Some(byte) => *byte,
        None => 255,
    }
}

/// Returns the number of 12 bits at a place: past the end of all these inputs if they have none.
fn count(bytes: &[u8], at: usize) -> usize {
    let next = at.saturating_add(1);
    (byte(bytes, at) as usize % 16) * 256 + byte(bytes, next) as usize
}

/// Returns the number of the first cause that holds; otherwise `other`.
fn first(causes: &[(bool, usize)], other: usize) -> usize {
    for (holds, number) in causes {
        if *holds {
            return *number;
        }
    }
    other
}

const PREFIX: [u8; 3] = [0x00, 0x00, 0x01];

/// The stream_ids without flag bytes.
const NO_FLAGS: [u8; 8] = [0xbc, 0xbe, 0xbf, 0xf0, 0xf1, 0xf2, 0xf8, 0xff];

fn header(bytes: &[u8]) -> usize {
    let data = byte(bytes, 8) as usize;
    let length = byte(bytes, 4) as usize * 256 + byte(bytes, 5) as usize;
    let flags = byte(bytes, 7) / 64;
    let stamps = [0, 5, 5, 10][flags as usize % 4];
    first(
        &[
            (!PREFIX.starts_with(bytes.get(..3).unwrap_or(bytes)), 2),
            (bytes.len() < 6, 1),
            (NO_FLAGS.contains(&byte(bytes, 3)), 106),
            (bytes.len() < 9 + data, 1),
            (byte(bytes, 6) / 64 != 2 || flags == 1, 3),
            ((length != 0 && length < 3 + data) || data < stamps, 5),
            (lacks_a_marker(bytes, stamps), 4),
        ],
        109 + data,
    )
}

/// Returns whether a marker bit is 0 in the first `stamps` bytes of the time stamps.
fn lacks_a_marker(bytes: &[u8], stamps: usize) -> bool {
    for at in [0, 2, 4, 5, 7, 9] {
        if at < stamps && byte(bytes, 9 + at) % 2 == 0 {
            return true;
        }
    }
    false
}

fn packet(bytes: &[u8]) -> usize {
    let control = byte(bytes, 3) & 0x30;
    let length = byte(bytes, 4) as usize;
    let most = if control == 0x20 { 183 } else { 182 };
    first(
        &[
            (byte(bytes, 0) != 0x47, 1),
            (control == 0, 2),
            (control == 0x10, 288),
            (length > most, 3),
            (length > 0 && after_parts(bytes) > 5 + length, 4),
        ],
        288,
    )
}

/// Returns the place after the flagged parts of an adaptation field, each with its length if it has one.
fn after_parts(bytes: &[u8]) -> usize {
    let flags = byte(bytes, 5);
    let mut place = 6_usize;
    for (flag, size) in [(0x10, 6), (0x08, 6), (0x04, 1), (0x02, 0), (0x01, 0)] {
        if flags & flag != 0 {
            let counted = if size == 0 {
                1 + byte(bytes, place) as usize
            } else {
                size
            };
            place = place.saturating_add(counted);
        }
    }
    place
}

/// Returns the check word, a bit at a time.
fn check_word(bytes: &[u8]) -> u32 {
    let mut register = 0xffff_ffff_u32;
    for byte in bytes {
        let mut rest = *byte;
        for _ in 0..8 {
            let differs = (register >= 0x8000_0000) != (rest >= 0x80);
            register = register.wrapping_mul(2);
            rest = rest.wrapping_mul(2);
            if differs {
                register ^= 0x04c1_1db7;
            }
        }
    }
    register
}

fn section(bytes: &[u8]) -> usize {
    let is_long = byte(bytes, 1) >= 0x80;
    let length = count(bytes, 1);
    let size = length.saturating_add(3);
    let whole = bytes.get(..size).unwrap_or(bytes);
    first(
        &[
            (bytes.len() < 3, 1),
            (length > 4093 || (is_long && length < 9), 2),
            (bytes.len() < size, 1),
            (is_long && check_word(whole) != 0, 3),
        ],
        size.saturating_add(100),
    )
}

/// Returns whether entries with heads of this size, from a place on, end where the bytes end.
fn ends(bytes: &[u8], from: usize, head: usize) -> bool {
    let mut at = from;
    for _ in 0..bytes.len() {
        if at < bytes.len() {
            at = at.saturating_add(head);
            at = at.saturating_add(count(bytes, at.saturating_sub(2)));
        }
    }
    at == bytes.len()
}

/// Returns the place after a length and as many bytes.
fn after(bytes: &[u8], at: usize) -> usize {
    count(bytes, at).saturating_add(at).saturating_add(2)
}

/// Returns whether a body is the body of its table: its lengths end where they have to.
fn table(table_id: u8, body: &[u8]) -> usize {
    let network = after(body, 0);
    let is_whole = match table_id {
        0x00 => body.len() % 4 == 0,
        0x02 => ends(body, after(body, 2), 5),
        0x40 => after(body, network) == body.len() && ends(body, network.saturating_add(2), 6),
        0x42 => ends(body, 3, 5),
        0x4e => ends(body, 6, 12),
        _ => body.len() == 5,
    };
    if is_whole { 0 } else { 5 }
}
