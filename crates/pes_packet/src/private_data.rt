//! PES_private_data in the PES extension of a header (ISO/IEC 13818-1, 2.4.3.6 and 2.4.3.7).

ghost use Rattle.std.specs.Prelude.{◌≡◌, ◌≤◌, ◌*◌, is_some, option_map, if◌then◌else◌};
ghost use Rattle.arrayvec.specs.ArrayVec.{array_vec_len};
ghost use Rattle.bit_fields.specs.Fields.{bit};
ghost use Rattle.pes_packet.specs.Marks.{extension, first_sixteen, sixteen};
ghost use Rattle.pes_packet.specs.PrivateData.{before_extension, private_at, private_in};

use arrayvec::ArrayVec;
use bit_fields::append;

/// PES_private_data_flag, no other part, the three reserved bits, no second extension flag.
const EXTENSION_FLAGS: u8 = 0x8e;

/// Returns the first 16 bytes, if there are at least 16.
#[tactic(auto, unfolding(crate::specs::Marks::first_sixteen))]
pub fn first_sixteen(bytes: &[u8]) -> Option<[u8; 16]>
    ensures { result ≡ first_sixteen bytes.now }
{
    match bytes.first_chunk::<16>() {
        Some(first) => Some(*first),
        None => None,
    }
}

/// Returns a PES extension of PES_private_data alone, or nothing.
#[tactic(auto, using(crate::proofs::Sixteen::sixteen_is))]
pub(crate) fn extension(private_data: Option<[u8; 16]>) -> ArrayVec<u8, 17>
    ensures items { result.items ≡ extension private_data }
    ensures len { array_vec_len result ≡ (if is_some private_data then 17 else 0) }
{
    let mut extension = ArrayVec::new();
    match private_data {
        Some(bytes) => {
            append(&mut extension, &[EXTENSION_FLAGS]);
            append(&mut extension, &bytes);
            extension
        }
        None => extension,
    }
}

/// Returns PES_private_data as it is: 16 bytes, as its type says.
#[tactic(auto, using(crate::proofs::Sixteen::sixteen_is))]
pub(crate) fn exactly(private_data: Option<[u8; 16]>) -> Option<[u8; 16]>
    ensures { result ≡ option_map sixteen private_data }
{
    match private_data {
        Some(bytes) => Some(bytes),
        None => None,
    }
}

// Returns the size of a part of header data, 0 if its flag is not set.
fn part_size(is_there: bool, size: usize) -> usize
    requires { size ≤ 6 }
    ensures value { result ≡ bit is_there * size }
    ensures most { result ≤ size }
{
    if is_there { size } else { 0 }
}

// Returns the number of bytes of header data before a PES extension, by the second flag byte.
fn before_extension(flags: u8) -> usize
    ensures { result ≡ before_extension flags }
{
    let stamps = part_size(flags >> 7 & 1 == 1, 5) + part_size(flags >> 6 & 1 == 1, 5);
    let clocks = part_size(flags >> 5 & 1 == 1, 6) + part_size(flags >> 4 & 1 == 1, 3);
    let modes = part_size(flags >> 3 & 1 == 1, 1) + part_size(flags >> 2 & 1 == 1, 1);
    stamps + clocks + modes + part_size(flags >> 1 & 1 == 1, 2)
}

// Returns PES_private_data of a PES extension.
#[tactic(auto, unfolding(crate::specs::PrivateData::private_in))]
fn private_in(extension: &[u8]) -> Option<[u8; 16]>
    ensures { result ≡ private_in extension.now }
{
    match extension {
        [] => None,
        [flags, bytes @ ..] => {
            if flags >> 7 & 1 == 1 {
                first_sixteen(bytes)
            } else {
                None
            }
        }
    }
}

/// Reads PES_private_data among the header data after this second flag byte.
#[tactic(auto, unfolding(crate::specs::PrivateData::private_at), using(std::proofs::lemmas::List::drop_min))]
pub(crate) fn private_at(flags: u8, bytes: &[u8]) -> Option<[u8; 16]>
    ensures { result ≡ private_at flags bytes.now }
{
    if flags & 1 == 1 {
        let (_, extension) = bytes.split_at(before_extension(flags).min(bytes.len()));
        private_in(extension)
    } else {
        None
    }
}
