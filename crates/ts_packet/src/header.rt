//! The header of a packet.

/// The fields of the first four bytes of a packet (ISO/IEC 13818-1, 2.4.3.2), without `sync_byte`, which is 0x47, and
/// `adaptation_field_control`, which follows from the adaptation field and the payload.
#[derive(Clone, Copy, Debug, PartialEq, Eq)]
pub struct Header {
    /// A bit of the packet is known to be wrong.
    pub transport_error_indicator: bool,
    /// A PES packet or a section begins in the payload.
    pub payload_unit_start_indicator: bool,
    pub transport_priority: bool,
    /// Packet identifier, 13 bits.
    pub pid: u16,
    /// 2 bits: 0 is a payload in the clear.
    pub transport_scrambling_control: u8,
    /// 4 bits.
    pub continuity_counter: u8,
}
