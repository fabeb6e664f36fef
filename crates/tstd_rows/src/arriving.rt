//! Packets as buffers see them.

use crate::unit_seen::DueTime;

/// A packet of a stream, as its buffers see it.
#[derive(Clone, Copy)]
pub struct Arriving {
    /// Its place among all packets.
    pub index: u64,
    /// The size of its payload in bytes; at most 184 are used.
    pub size: u64,
    /// When the unit is due that begins with its payload, if any.
    pub begins: Option<DueTime>,
    /// Whether its payload continues to the main buffer.
    pub enters: bool,
}

/// The bytes of an access unit that begins within the payload of a packet, as far as they are in that payload.
#[derive(Clone, Copy)]
pub struct UnitPart {
    /// The index of the first of these bytes in the transport stream.
    pub byte: u64,
    /// The number of these bytes; at most 188 are used.
    pub size: u64,
    /// When the access unit is due.
    pub due: DueTime,
}
