//! Faults of packets and of sections, as plain data.

/// Why a packet is refused.
#[derive(Clone, Copy)]
pub enum RefusalCause {
    /// It does not begin with 0x47.
    SyncByte,
    /// Its header or its adaptation field can't be read.
    Header,
    /// Its transport_error_indicator is 1.
    TransportError,
}

/// A packet that is refused.
#[derive(Clone, Copy)]
pub struct RefusedPacket {
    pub packet: u64,
    pub cause: RefusalCause,
}

/// A packet whose continuity_counter does not follow: the counter that was expected, and the counter found.
#[derive(Clone, Copy)]
pub struct CounterFault {
    pub pid: u16,
    pub packet: u64,
    pub expected: u8,
    pub found: u8,
}

/// A section whose check word (CRC_32) is wrong, and the packet that ends it.
#[derive(Clone, Copy)]
pub struct CheckWordFault {
    pub pid: u16,
    pub packet: u64,
}
