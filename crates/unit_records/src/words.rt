//! The word of a record: a byte of marks and a size of three bytes.

ghost use Rattle.std.specs.Prelude.{◌≡◌, ◌≤◌, ◌<◌, ◌/◌, ◌^◌, drop};
ghost use Rattle.unit_records.specs.Records.{bytes_in, least_size, marks_byte, marks_in, private_size, size_in, word_of};

use pes_packet::{Marks, PesFlags, first_sixteen};
use std::alloc::Allocator;

/// The number of sizes that three bytes name.
const SIZES: u32 = 1 << 24;

/// Gives the byte of marks of a record: 0x40 the random_access_indicator, 0x20 PES_private_data, 0x10 a PES header of
/// 45 bytes, the four flags as in the first flag byte of a PES header.
pub fn marks_byte(marks: Marks) -> u8
    ensures value { result ≡ marks_byte marks }
    ensures below { result < 128 }
{
    let flags = marks.flags.bits();
    let header = if marks.long { 16 + flags } else { flags };
    let private = if marks.private_data.is_some() {
        32 + header
    } else {
        header
    };
    if marks.random_access {
        64 + private
    } else {
        private
    }
}

/// Gives the number of bytes that PES_private_data has in a record.
pub(crate) fn private_size(marks: Marks) -> usize
    ensures value { result ≡ private_size marks }
    ensures most { result ≤ 16 }
{
    if marks.private_data.is_some() { 16 } else { 0 }
}

/// Gives the word of a unit of this size with these marks. A size that three bytes do not name fills it, and no reader
/// takes it.
pub(crate) fn word_of(marks: Marks, size: u64) -> u32
    ensures { result ≡ word_of marks size }
{
    if size < 1 << 24 {
        u32::from(marks_byte(marks)) * SIZES + size as u32
    } else {
        u32::MAX
    }
}

/// Returns the size in a word, or the word itself if a set bit of its highest byte has no meaning, or if a unit
/// without bytes has marks: then it is over each size that is read.
#[tactic(auto, unfolding(crate::specs::Records::size_in))]
pub fn size_in(word: u32) -> usize
    ensures { result ≡ size_in word }
{
    let size = word % SIZES;
    let byte = word / SIZES;
    if byte < 128 && least_size(byte as u8) <= size {
        size as usize
    } else {
        word as usize
    }
}

// Returns the least number of bytes behind the head of a record with these marks.
fn least_size(byte: u8) -> u32
    ensures { result ≡ least_size byte }
{
    if byte >> 5 & 1 == 1 { 17 } else { 1 }
}

/// Gives the byte of marks in a word.
pub(crate) fn byte_in(word: u32) -> u8
    ensures { result ≡ word / 2 ^ 24 }
{
    (word / SIZES) as u8
}

// Drops the first 16 bytes.
fn drop_sixteen<A: Allocator>(bytes: &mut Vec<u8, A>)
    ensures { bytes.new.items ≡ drop 16 bytes.old.items }
{
    let size = bytes.len().min(16);
    bytes.rotate_left(size);
    bytes.truncate(bytes.len() - size);
}

/// Gives the marks that a byte names, with the bytes behind the head of a record, and the bytes of the unit among them.
#[tactic(auto, unfolding(crate::specs::Records::marks_in))]
pub(crate) fn parted<A: Allocator>(byte: u8, bytes: Vec<u8, A>) -> (Marks, Vec<u8, A>)
    ensures marks { result.0 ≡ marks_in byte bytes.items }
    ensures bytes { result.1.items ≡ bytes_in byte bytes.items }
{
    let mut bytes = bytes;
    let marks = Marks {
        random_access: byte >> 6 & 1 == 1,
        flags: PesFlags::from_bits(byte),
        long: byte >> 4 & 1 == 1,
        private_data: None,
    };
    if byte >> 5 & 1 == 1 {
        let private_data = first_sixteen(&bytes);
        drop_sixteen(&mut bytes);
        let marks = Marks {
            private_data,
            ..marks
        };
        return (marks, bytes);
    }
    (marks, bytes)
}
