//! The record of an access unit.

ghost use Rattle.std.specs.Prelude.{◌≡◌, ◌≤◌, ◌++◌, length};
ghost use Rattle.arrayvec.specs.ArrayVec.{array_vec_len};
ghost use Rattle.unit_records.specs.Records.{private_bytes, record_head};

use crate::words::{private_size, word_of};
use arrayvec::ArrayVec;
use bit_fields::append;
use pes_packet::Unit;
use std::alloc::Allocator;

/// The greatest number of bytes of a record in front of its unit.
const HEAD: usize = 37;

/// Returns the record of a unit before its bytes: the number of its stream (1 byte), its marks (1) and its size (3),
/// DTS and PTS (8 each), the highest byte first, and PES_private_data, which counts in the size. A unit over 4,000,000
/// bytes has a record that no reader takes, and so has a unit with marks and no bytes.
#[tactic(auto, unfolding(crate::specs::Records::record_head))]
pub fn record_head<B: Allocator>(stream: u8, unit: &Unit<B>) -> ArrayVec<u8, HEAD>
    ensures { result.items ≡ record_head stream unit.now.marks (length unit.now.bytes) unit.now.dts unit.now.pts }
{
    let size = private_size(unit.marks) + unit.bytes.len();
    let [a, b, c, d] = word_of(unit.marks, size as u64).to_be_bytes();
    let mut head = ArrayVec::new();
    append(&mut head, &[stream, a, b, c, d]);
    append(&mut head, &unit.dts.to_be_bytes());
    append(&mut head, &unit.pts.to_be_bytes());
    append_private_data(&mut head, unit.marks.private_data);
    head
}

// Appends PES_private_data, if there is any.
#[tactic(auto, using(pes_packet::proofs::Sixteen::sixteen_is))]
fn append_private_data(head: &mut ArrayVec<u8, HEAD>, private_data: Option<[u8; 16]>)
    requires { array_vec_len head.old ≤ 21 }
    ensures { head.new.items ≡ head.old.items ++ private_bytes private_data }
{
    if let Some(bytes) = private_data {
        append(head, &bytes);
    }
}
