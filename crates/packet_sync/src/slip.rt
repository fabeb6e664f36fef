//! Places where the step of packets is lost.

/// Bytes that are in no packet: the packets after them are in another step than the packets before.
#[derive(Clone, Copy)]
pub struct Slip {
    /// The number of packets before them.
    pub packet: usize,
    /// The place of the first byte that is left out.
    pub start: usize,
    /// The number of bytes that are left out.
    pub size: usize,
}
