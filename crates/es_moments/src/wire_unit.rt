//! Units with the stamps and marks that they have on the wire.

use crate::unit_bytes::{LentBytes, UnitBytes};
use pes_packet::Marks;
use std::alloc::Global;
use std::marker::Model;

/// A unit as a stream carries it, its stamps as its header has them, modulo 2^33.
#[derive(Drop)]
pub struct WireUnit<B: UnitBytes = Vec<u8>> {
    /// The packet where its PES packet begins.
    pub packet: u64,
    /// stream_id of its PES packet.
    pub stream_id: u8,
    pub dts: u64,
    pub pts: u64,
    /// The fields of its first PES packet besides the stamps.
    pub marks: Marks,
    pub bytes: B,
}

/// A unit whose first PES packet's body stays in its finding.
pub type FoundUnit<'f, A = Global> = WireUnit<LentBytes<'f, A>>;

// A contract sees its values, and not where its bytes are kept.
impl<B: UnitBytes> Model for WireUnit<B> {
    ghost use Rattle.es_moments.specs.WireUnits.{CarriedUnit, unit_with};

    ghost Value = { CarriedUnit };

    ghost view = { λ u. unit_with u.packet u.stream_id u.dts u.pts u.marks (B.bytes u.bytes) };
}
