//! The check word CRC_32 of ISO/IEC 13818-1, Annex A: polynomial 0x04C11DB7, all bits 1 at the
//! beginning, the highest bit first, no exclusive or at the end.

mod crc_table;

ghost use Rattle.std.specs.Prelude.{◌≡◌};
ghost use Rattle.psi_tables.specs.CheckWord.{after_byte, check_word};

use crc_table::CRC_TABLE;

/// Returns the check word of a message. Over a section with its CRC_32 it is 0.
///
/// One look-up a byte; the definition takes the message bit by bit.
#[tactic(auto, unfolding(crate::specs::CheckWord::check_word, crate::specs::CheckWord::after_bytes))]
pub fn check_word(bytes: &[u8]) -> u32
    ensures { result ≡ check_word bytes.now }
{
    let mut register = 0xffff_ffff;
    for byte in bytes {
        register = step(register, *byte);
    }
    register
}

/// Returns the register after one byte more.
fn step(register: u32, byte: u8) -> u32
    ensures { result ≡ after_byte register byte }
{
    let high = (register >> 24) as u8;
    register << 8 ^ crc_table_entry(high ^ byte)
}

/// Returns the entry of the table for a byte.
fn crc_table_entry(byte: u8) -> u32
    ensures { result ≡ after_byte 0 byte }
{
    CRC_TABLE[byte as usize]
}
