//! Packets put together from their first and last bytes.

use std::alloc::{AllocError, Global};

/// A packet: its first bytes, the byte that fills it, and its last bytes.
pub type Packet = (&'static [u8], u8, &'static [u8]);

/// Returns the bytes of a packet.
pub fn packet_of(packet: &Packet) -> [u8; 188] {
    let (first, rest, last) = *packet;
    let mut bytes = [rest; 188];
    let front = first.len().min(188);
    let back = last.len().min(188);
    bytes[..front].copy_from_slice(&first[..front]);
    bytes[188 - back..].copy_from_slice(&last[..back]);
    bytes
}

/// Returns the packets of a stream.
pub fn stream_of(alloc: Global, packets: &[Packet]) -> Result<Vec<u8>, AllocError> {
    let mut bytes = Vec::new(alloc);
    for packet in packets {
        bytes.extend_from_slice(&packet_of(packet))?;
    }
    Ok(bytes)
}
