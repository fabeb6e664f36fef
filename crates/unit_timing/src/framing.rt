//! A stream's declaration of the access units of a PES packet (ISO/IEC 13818-1, 2.4.2.3).

/// The access units of a PES packet that holds several, by the greatest of them.
#[derive(Clone, Copy, PartialEq, Eq)]
pub struct Framing {
    /// The most access units of a packet.
    pub frames: u8,
    /// The time from one access unit to the next, in units of 90 kHz.
    pub frame: u32,
    /// The greatest access unit but the first of a packet, which has the header too, in bytes.
    pub frame_size: u32,
}

/// The most bytes of the last access units of a packet that has more.
#[derive(Clone, Copy)]
pub enum LastBytes {
    /// Each access unit has at most this many.
    Each(u32),
    /// The last 1, 2, .. 63 access units together have at most these.
    Sums([u32; 63]),
}

/// The access units of PES packets that hold several: each is removed from the main buffer at its own decoding time.
#[derive(Clone, Copy)]
pub struct FrameDeclaration {
    /// The most access units of a packet.
    pub frames: u8,
    /// The time from one access unit of a packet to the next, in units of 90 kHz.
    pub frame: u32,
    /// The least time from the last access unit of a packet to the next packet, in units of 90 kHz.
    pub rest: u32,
    /// The most bytes of the last access units of a packet.
    pub left: LastBytes,
}
