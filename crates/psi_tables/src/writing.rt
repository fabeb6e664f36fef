//! Writing a section into a vector of fixed capacity: what precedes the body, the body, and
//! what follows it. The writers of tables are made of these parts.

ghost use Rattle.std.specs.Prelude.{◌≡◌, ◌+◌, ◌≤◌, ◌<◌, IfOk, IfErr};
ghost use Rattle.arrayvec.specs.ArrayVec.{array_vec_len};
ghost use Rattle.psi_tables.specs.declared.writing.TheConstants.{GREATEST_LENGTH};
ghost use Rattle.psi_tables.specs.Encoding.{check_word_bytes, start_bytes, long_header_bytes, section_length};
ghost use Rattle.psi_tables.specs.Encoding.{front_length, crc_length, header_bytes, with_crc, HeaderFits};

use crate::crc::check_word;
use crate::error::WriteError;
use crate::section::{LongHeader, SectionHeader};
use arrayvec::ArrayVec;
use bit_fields::append;
use std::alloc::{AllocError, Allocator};

/// Returns a vector of these bytes.
pub fn to_vec<A: Allocator>(alloc: A, bytes: &[u8]) -> Result<Vec<u8, A>, WriteError>
    ensures ok { IfOk result (λ made. made.items ≡ bytes.now) }
    ensures memory { IfErr result (λ e. e ≡ WriteError.Memory) }
{
    match bytes.to_vec(alloc) {
        Ok(made) => Ok(made),
        Err(AllocError) => Err(WriteError::Memory),
    }
}

/// The greatest section_length of a private section (ISO/IEC 13818-1, 2.4.4.11).
pub const GREATEST_LENGTH: usize = 4093;

/// The greatest section_length of PAT and PMT, and of NIT and SDT (ISO/IEC 13818-1, 2.4.4.5 and
/// 2.4.4.9; EN 300 468, 5.2).
pub const GREATEST_TABLE_LENGTH: usize = 1021;

/// Begins a section: leaves in `out` what precedes a body of `body_length` bytes, and nothing
/// else. The body is to be appended, and then `end_section` called with the same header.
#[tactic(auto, unfolding(crate::specs::Encoding::header_bytes, crate::specs::Encoding::front_bytes))]
pub fn begin_section(out: &mut ArrayVec<u8, 4096>, header: SectionHeader, body_length: usize)
    requires fits { HeaderFits header }
    requires room { section_length header.long body_length ≤ GREATEST_LENGTH }
    ensures items { out.new.items ≡ header_bytes header body_length }
    ensures len { array_vec_len out.new ≡ front_length header.long }
{
    out.clear();
    match header.long {
        None => {
            append(
                out,
                &start_bytes(
                    header.table_id,
                    false,
                    header.private_indicator,
                    body_length,
                ),
            );
        }
        Some(long) => {
            let length = 9 + body_length;
            append(
                out,
                &start_bytes(header.table_id, true, header.private_indicator, length),
            );
            append(out, &long_header_bytes(long));
        }
    }
}

/// Ends a section: appends what follows the body, in the long form the check word over all
/// bytes in `out`.
#[tactic(auto, unfolding(crate::specs::Encoding::with_crc))]
pub fn end_section(out: &mut ArrayVec<u8, 4096>, header: SectionHeader)
    requires { array_vec_len out.old + crc_length header.long ≤ 4096 }
    ensures { out.new.items ≡ with_crc header.long out.old.items }
{
    match header.long {
        None => {}
        Some(_) => {
            let word = check_word(out.as_slice());
            append(out, &check_word_bytes(word));
        }
    }
}

#[tactic(auto, unfolding(crate::specs::Encoding::check_word_bytes))]
fn check_word_bytes(word: u32) -> [u8; 4]
    ensures { result ≡ check_word_bytes word }
{
    word.to_be_bytes()
}

#[tactic(auto, unfolding(crate::specs::Encoding::start_bytes))]
fn start_bytes(
    table_id: u8,
    is_long: bool,
    private_indicator: bool,
    section_length: usize,
) -> [u8; 3]
    requires { section_length ≤ GREATEST_LENGTH }
    ensures { result ≡ start_bytes table_id is_long private_indicator section_length }
{
    let form = if is_long { 0x80 } else { 0 };
    let private = if private_indicator { 0x40 } else { 0 };
    let high = (section_length >> 8) as u8;
    let low = (section_length & 0xff) as u8;
    [table_id, form + (private + (0x30 + high)), low]
}

#[tactic(auto, unfolding(crate::specs::Encoding::long_header_bytes))]
fn long_header_bytes(header: LongHeader) -> [u8; 5]
    requires { header.version_number < 32 }
    ensures { result ≡ long_header_bytes header }
{
    let [high, low] = header.table_id_extension.to_be_bytes();
    let version = header.version_number << 1;
    let current_next = if header.current_next { 1 } else { 0 };
    [
        high,
        low,
        0xc0 + (version + current_next),
        header.section_number,
        header.last_section_number,
    ]
}
