//! One access unit with its time stamps and its marks.

use crate::marks::Marks;
use std::alloc::{Allocator, Global};
use std::marker::Model;

/// One access unit of an elementary stream. Its stamps count 90 kHz units from the start of the run,
/// without bound: on the wire they are taken modulo 2^33.
#[derive(Drop)]
pub struct Unit<A: Allocator = Global> {
    /// When the unit is decoded.
    pub dts: u64,
    /// When the unit is presented.
    pub pts: u64,
    /// The marks that its packets carry in addition to the stamps.
    pub marks: Marks,
    /// The coded bytes.
    pub bytes: Vec<u8, A>,
}

// A contract sees the stamps, the marks and the list of bytes, and not where the bytes are kept.
impl<A: Allocator> Model for Unit<A> {
    ghost use Rattle.pes_packet.specs.AccessUnits.{AccessUnit};

    ghost Value = { AccessUnit };

    ghost view = { λ unit. record { dts = unit.dts; pts = unit.pts; marks = unit.marks; bytes = unit.bytes.items } };
}
