//! PES headers read (ISO/IEC 13818-1, 2.4.3.6, table 2-21).

ghost use Rattle.std.specs.Prelude.{◌≡◌, ◌≤◌, ℕ, IfOk, length};
ghost use Rattle.pes_packet.specs.Reading.{is_bad_flags, is_too_short, misses_prefix};
ghost use Rattle.pes_packet.specs.Reading.{data_at, flags_at, start_at, header_at};
ghost use Rattle.pes_packet.specs.HeaderMarks.{header_marks};
ghost use Rattle.pes_packet.specs.Syntax.{IsPesHeader};

use crate::marks::{Marks, PesFlags};
use crate::private_data::{exactly, private_at};
use crate::refusal::PesError;
use crate::stream_ids::has_flags;
use crate::time_stamps::{Stamps, stamps_at};

// packet_start_code_prefix.
const START_CODE_PREFIX: [u8; 3] = [0x00, 0x00, 0x01];

/// What the header of a PES packet says. Of the parts between the stamps and the first byte of the unit
/// (ESCR, CRC, extension, stuffing) PES_private_data alone is read.
#[derive(Clone, Copy, Debug, PartialEq, Eq)]
pub struct PesHeader {
    /// stream_id.
    pub id: u8,
    /// PES_packet_length: the bytes after it, or 0 if it does not count them.
    pub len: u16,
    /// The stamps, in units of 90 kHz modulo 2^33.
    pub stamps: Stamps,
    /// The flags in the first flag byte.
    pub flags: PesFlags,
    /// PES_header_data_length: the bytes of the header after it.
    pub data_length: u8,
    /// PES_private_data.
    pub private_data: Option<[u8; 16]>,
}

impl PesHeader {
    /// Gives the marks that the header says: its flags, whether it has 45 bytes, and PES_private_data; the
    /// random_access_indicator is its packet's.
    pub fn marks(&self, random_access: bool) -> Marks
        ensures { result ≡ header_marks random_access self.now }
    {
        Marks {
            random_access,
            flags: self.flags,
            long: self.data_length == 36,
            private_data: exactly(self.private_data),
        }
    }
}

/// Reads the header of a PES packet at the front of `bytes`, and says how many bytes it has.
///
/// The first refusal is given in the order `Prefix`, `Short`, `BadFlags`, `Length`, `Marker`, and
/// `Prefix` as soon as one byte at hand differs from 00 00 01. PES_packet_length 0 is accepted for each
/// stream_id, and the four bits before a stamp are not looked at.
pub fn read_header(bytes: &[u8]) -> Result<(PesHeader, usize), PesError>
    // The bytes encode this header by the standard's table of fields.
    ensures found { IfOk result (λ read. IsPesHeader bytes.now read.0 read.1) }
    // What the bytes say is read.
    ensures only { (header : PesHeader) (size : ℕ) → IsPesHeader bytes.now header size → result ≡ Ok (header, size) }
    // Which refusal it is, the first.
    ensures exact { result ≡ header_at bytes.now }
{
    header_at(bytes)
}

// Returns whether a byte at hand differs from packet_start_code_prefix.
fn misses_prefix(bytes: &[u8]) -> bool
    ensures { result ≡ misses_prefix bytes.now }
{
    START_CODE_PREFIX
        .iter()
        .zip(bytes)
        .any(|(wanted, byte)| wanted != byte)
}

#[tactic(auto, unfolding(crate::specs::Reading::header_at))]
fn header_at(bytes: &[u8]) -> Result<(PesHeader, usize), PesError>
    ensures { result ≡ header_at bytes.now }
{
    if misses_prefix(bytes) {
        return Err(PesError::Prefix);
    }
    start_at(bytes)
}

// Reads packet_start_code_prefix, stream_id, PES_packet_length.
#[tactic(auto, unfolding(crate::specs::Reading::start_at))]
fn start_at(bytes: &[u8]) -> Result<(PesHeader, usize), PesError>
    ensures { result ≡ start_at bytes.now }
{
    match bytes {
        [_, _, _, id, high, low, rest @ ..] => {
            let len = u16::from_be_bytes([*high, *low]);
            if has_flags(*id) {
                return flags_at(*id, len, rest);
            }
            Ok((
                PesHeader {
                    id: *id,
                    len,
                    stamps: Stamps::Absent,
                    flags: PesFlags::NONE,
                    data_length: 0,
                    private_data: None,
                },
                6,
            ))
        }
        _ => Err(PesError::Short),
    }
}

// Reads two flag bytes, PES_header_data_length, and that many bytes at hand.
#[tactic(auto, unfolding(crate::specs::Reading::flags_at))]
fn flags_at(id: u8, len: u16, bytes: &[u8]) -> Result<(PesHeader, usize), PesError>
    ensures { result ≡ flags_at id len bytes.now }
{
    match bytes {
        [first, second, size, rest @ ..] => {
            if rest.len() < *size as usize {
                return Err(PesError::Short);
            }
            data_at(id, len, *first, *second, *size, rest)
        }
        _ => Err(PesError::Short),
    }
}

// Returns whether the flag bytes do not begin with bits 10, or PTS_DTS_flags are 01.
fn is_bad_flags(first: u8, second: u8) -> bool
    ensures { result ≡ is_bad_flags first second }
{
    first >> 6 != 2 || second >> 6 == 1
}

// Returns whether PES_packet_length is not 0 and counts less than the rest of the header.
fn is_too_short(len: u16, size: u8) -> bool
    ensures { result ≡ is_too_short len size }
{
    len != 0 && len < 3 + size as u16
}

// Reads the header data, all at hand, after flags and lengths.
#[tactic(auto, unfolding(crate::specs::Reading::data_at))]
fn data_at(
    id: u8,
    len: u16,
    first: u8,
    second: u8,
    size: u8,
    bytes: &[u8],
) -> Result<(PesHeader, usize), PesError>
    requires { size ≤ length bytes.now }
    ensures { result ≡ data_at id len first second size bytes.now }
{
    if is_bad_flags(first, second) {
        return Err(PesError::BadFlags);
    }
    if is_too_short(len, size) {
        return Err(PesError::Length);
    }
    let (data, _) = bytes.split_at(size as usize);
    let stamps = stamps_at(second >> 6, data)?;
    let header = PesHeader {
        id,
        len,
        stamps,
        flags: PesFlags::from_bits(first),
        data_length: size,
        private_data: private_at(second, data),
    };
    Ok((header, 9 + size as usize))
}
