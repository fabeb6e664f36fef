//! PES headers written (ISO/IEC 13818-1, 2.4.3.6, table 2-21).

ghost use Rattle.std.specs.Prelude.{◌≡◌, ◌<◌, ◌≤◌, ◌+◌, ◌++◌, ◌^◌, ℕ, length, replicate, IsTrue};
ghost use Rattle.arrayvec.specs.ArrayVec.{array_vec_len};
ghost use Rattle.pes_packet.specs.StreamIds.{fits_packet};
ghost use Rattle.pes_packet.specs.Encoding.{on_wire, pes_start_bytes, packet_length, header_with, pts_header, pts_dts_header};
ghost use Rattle.pes_packet.specs.Encoding.{pes_header_bytes, pes_packet_bytes};

use crate::access_unit::Unit;
use crate::laws::header_sizes;
use crate::marks::{Marks, bit};
use crate::private_data::extension;
use crate::time_stamps::stamp_bytes;
use arrayvec::ArrayVec;
use bit_fields::append;
use clock27::STAMP_MODULUS;
use std::alloc::Allocator;

/// Returns a stamp on the wire, in units of 90 kHz: moved by the clock's first value, in 33 bits.
pub fn on_wire(base0: u64, stamp: u64) -> u64
    ensures { result ≡ on_wire (stamp + base0) }
{
    ((u128::from(stamp) + u128::from(base0)) % u128::from(STAMP_MODULUS)) as u64
}

/// Returns the size in bytes of the PES packet of a unit, header and all, which its stream_id does not change.
#[tactic(auto, unfolding(crate::specs::Encoding::pes_packet_bytes))]
pub fn packet_size<A: Allocator>(base0: u64, unit: &Unit<A>) -> u64
    ensures size { (id : ℕ) → result ≡ length (pes_packet_bytes id base0 unit.now) }
    ensures least { 14 ≤ result }
    ensures most { result < 2 ^ 63 + 45 }
{
    header_sizes();
    let size = unit.bytes.len() as u64;
    if unit.marks.long {
        return 45 + size;
    }
    let header = if on_wire(base0, unit.pts) == on_wire(base0, unit.dts) {
        14
    } else {
        19
    };
    header + unit.marks.extension_size() as u64 + size
}

/// Writes the header of a PES packet: stream_id `id`, a unit of `size` bytes with its marks, its stamps in units of 90
/// kHz, each modulo 2^33. A DTS is written exactly if the two stamps on the wire differ, so the header has 14 bytes
/// or 19, and 17 more with PES_private_data, or 45 if the marks ask for a long one. PES_packet_length is 0 if 16
/// bits do not count the packet: if the unit and what its marks take have at most 65,522 bytes, they do. `fits_packet`
/// tests the requirements.
#[tactic(auto, unfolding(crate::specs::Encoding::pes_header_bytes))]
pub fn write_header(id: u8, size: usize, marks: Marks, pts: u64, dts: u64) -> ArrayVec<u8, 45>
    requires { IsTrue (fits_packet id size) }
    ensures { result.items ≡ pes_header_bytes id size marks pts dts }
{
    let pts = pts % STAMP_MODULUS;
    let dts = dts % STAMP_MODULUS;
    if pts == dts {
        pts_header(id, size, marks, pts)
    } else {
        pts_dts_header(id, size, marks, pts, dts)
    }
}

// Returns PES_packet_length of a number of bytes, 0 if 16 bits can't count them.
#[tactic(auto, unfolding(crate::specs::Encoding::packet_length))]
fn packet_length(count: usize) -> u16
    ensures { result ≡ packet_length count }
{
    u16::try_from(count).unwrap_or(0)
}

// Returns packet_start_code_prefix, stream_id, PES_packet_length.
#[tactic(auto, unfolding(crate::specs::Encoding::pes_start_bytes))]
fn pes_start_bytes(id: u8, len: u16) -> [u8; 6]
    ensures { result ≡ pes_start_bytes id len }
{
    let [high, low] = len.to_be_bytes();
    [0x00, 0x00, 0x01, id, high, low]
}

// Stuffing bytes of any number that a header has.
const STUFFING: [u8; 31] = [0xff; 31];

// Appends stuffing bytes.
fn append_stuffing(header: &mut ArrayVec<u8, 45>, count: usize)
    requires room { array_vec_len header.old + count ≤ 45 }
    requires most { count ≤ 31 }
    ensures items { header.new.items ≡ header.old.items ++ replicate count 0xFF }
    ensures len { array_vec_len header.new ≡ array_vec_len header.old + count }
{
    append(header, &STUFFING[..count]);
}

// Returns a header with these bytes of stamps and the PES extension; if it is long, with the stuffing after them.
#[tactic(auto, unfolding(crate::specs::Encoding::header_with))]
fn header_with(id: u8, size: usize, marks: Marks, second: u8, stamps: &[u8]) -> ArrayVec<u8, 45>
    requires size { size ≤ 4_000_000 }
    requires second { second < 255 }
    requires lower { 5 ≤ length stamps.now }
    requires upper { length stamps.now ≤ 10 }
    ensures { result.items ≡ header_with id size marks second stamps.now }
{
    let first = 0x80 + marks.flags.bits();
    let second = second + bit(marks.private_data.is_some());
    let extension = extension(marks.private_data);
    let data = stamps.len() + extension.len();
    let mut header = ArrayVec::new();
    if marks.long {
        append(&mut header, &pes_start_bytes(id, packet_length(39 + size)));
        append(&mut header, &[first, second, 36]);
        append(&mut header, stamps);
        append(&mut header, extension.as_slice());
        append_stuffing(&mut header, 36 - data);
        return header;
    }
    append(
        &mut header,
        &pes_start_bytes(id, packet_length(3 + data + size)),
    );
    append(&mut header, &[first, second, data as u8]);
    append(&mut header, stamps);
    append(&mut header, extension.as_slice());
    header
}

// Returns a header with a PTS alone.
#[tactic(auto, unfolding(crate::specs::Encoding::pts_header, crate::specs::Encoding::stamp_bytes))]
fn pts_header(id: u8, size: usize, marks: Marks, pts: u64) -> ArrayVec<u8, 45>
    requires size { size ≤ 4_000_000 }
    requires pts { pts < 2 ^ 33 }
    ensures { result.items ≡ pts_header id size marks pts }
{
    let stamps = stamp_bytes(0b0010, pts);
    header_with(id, size, marks, 0x80, &stamps)
}

// Returns a header with a PTS and a DTS.
#[tactic(auto, unfolding(crate::specs::Encoding::pts_dts_header, crate::specs::Encoding::stamp_bytes))]
fn pts_dts_header(id: u8, size: usize, marks: Marks, pts: u64, dts: u64) -> ArrayVec<u8, 45>
    requires size { size ≤ 4_000_000 }
    requires pts { pts < 2 ^ 33 }
    requires dts { dts < 2 ^ 33 }
    ensures { result.items ≡ pts_dts_header id size marks pts dts }
{
    let mut stamps = ArrayVec::<u8, 10>::new();
    append(&mut stamps, &stamp_bytes(0b0011, pts));
    append(&mut stamps, &stamp_bytes(0b0001, dts));
    header_with(id, size, marks, 0xc0, stamps.as_slice())
}
