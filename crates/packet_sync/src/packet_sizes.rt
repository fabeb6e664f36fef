//! Packets that are not of 188 bytes.

ghost use Rattle.std.specs.Prelude.{◌≡◌, ◌≤◌, ◌+◌, ◌++◌, List, ℕ, length};
ghost use Rattle.packet_sync.specs.OtherPackets as spec;

use crate::sync_bytes::{PACKET_SIZE, are_apart};

/// The first bytes of a stream that show its packets' size: the bytes up to the third sync byte of packets of 204
/// bytes.
pub const FRONT: usize = 409;

/// What other packets a stream has.
#[derive(Clone, Copy, PartialEq, Eq)]
pub enum OtherPackets {
    /// Packets of 192 bytes: 4 bytes with a time of arrival, and then 188 of a packet.
    Timed,
    /// Packets of 204 bytes: 188 of a packet, and 16 for the correction of errors (EN 300 429).
    Corrected,
}

// Returns which packets, if not packets of 188 bytes, are at the front.
#[tactic(auto, unfolding(crate::specs::OtherPackets::other_packets))]
fn packets_at_front(bytes: &[u8]) -> Option<OtherPackets>
    ensures { result ≡ spec.other_packets bytes.now }
{
    if are_apart(bytes, 0, PACKET_SIZE) {
        return None;
    }
    if are_apart(bytes, 4, 192) {
        return Some(OtherPackets::Timed);
    }
    if are_apart(bytes, 0, 204) {
        return Some(OtherPackets::Corrected);
    }
    None
}

/// Returns which packets of another size than 188 bytes are at the front of a stream, if any.
pub fn other_packets(bytes: &[u8]) -> Option<OtherPackets>
    ensures value { result ≡ spec.other_packets bytes.now }
    ensures front { (more : List ℕ) → 409 ≤ length bytes.now → result ≡ spec.other_packets (bytes.now ++ more) }
{
    packets_at_front(bytes)
}

/// Returns the bytes from one packet to the next.
#[tactic(auto, unfolding(crate::specs::OtherPackets::size_of))]
pub fn bytes_apart(other: OtherPackets) -> usize
    ensures value { result ≡ spec.size_of other }
    ensures least { 192 ≤ result }
    ensures most { result ≤ 204 }
{
    match other {
        OtherPackets::Timed => 192,
        OtherPackets::Corrected => 204,
    }
}

/// Returns the number of bytes before the 188 bytes of a packet.
#[tactic(auto, unfolding(crate::specs::OtherPackets::front_of, crate::specs::OtherPackets::size_of))]
pub fn bytes_before(other: OtherPackets) -> usize
    ensures value { result ≡ spec.front_of other }
    ensures within { result + 188 ≤ spec.size_of other }
    ensures most { result ≤ 4 }
{
    match other {
        OtherPackets::Timed => 4,
        OtherPackets::Corrected => 0,
    }
}
