//! The bytes of a program clock reference in a packet (ISO/IEC 13818-1, 2.4.3.3 and 2.4.3.4).
ghost use Rattle.std.specs.Prelude.{◌≡◌, true};
ghost use Rattle.std.specs.Str.{bytes_eq};
ghost use Rattle.ts_packet.specs.PcrBytes as pcr_bytes;
ghost use Rattle.ts_packet.specs.Views.{packet_view};

use crate::adaptation::Adaptation;
use crate::packet::Packet;

/// The number of bytes before a program clock reference: the header, adaptation_field_length and the flags.
const OFFSET: usize = 6;

/// The number of its bytes.
const SIZE: usize = 6;

/// Returns whether a packet has a program clock reference.
pub fn has_pcr(packet: &Packet<'_>) -> bool
    ensures { result ≡ pcr_bytes.has_pcr (packet_view packet.now).adaptation }
{
    match packet.adaptation {
        Some(Adaptation::Flagged(parts)) => parts.pcr.is_some(),
        _ => false,
    }
}

/// Returns whether two packets, each with or without a program clock reference, have the same bytes apart from
/// it: the bytes that a duplicate repeats.
#[tactic(auto, unfolding(crate::specs::PcrBytes::without_pcr), using(crate::proofs::PcrBytes::forms_differ))]
pub fn is_same_without_pcr(
    bytes: &[u8; 188],
    has_pcr: bool,
    other: &[u8; 188],
    other_has_pcr: bool,
) -> bool
    ensures { result ≡ bytes_eq (pcr_bytes.without_pcr has_pcr bytes.now)
        (pcr_bytes.without_pcr other_has_pcr other.now) }
{
    match (has_pcr, other_has_pcr) {
        (true, true) => is_same_around(bytes, other),
        (false, false) => is_same(bytes, other),
        _ => false,
    }
}

fn is_same(bytes: &[u8], other: &[u8]) -> bool
    ensures { result ≡ bytes_eq bytes.now other.now }
{
    bytes == other
}

// Returns whether two packets are equal before and after a program clock reference.
#[tactic(auto, unfolding(crate::specs::PcrBytes::without_pcr), using(crate::proofs::PcrBytes::pcr_apart))]
fn is_same_around(bytes: &[u8; 188], other: &[u8; 188]) -> bool
    ensures { result ≡ bytes_eq (pcr_bytes.without_pcr true bytes.now) (pcr_bytes.without_pcr true other.now) }
{
    let (front, _) = bytes.split_at(OFFSET);
    let (other_front, _) = other.split_at(OFFSET);
    if !is_same(front, other_front) {
        return false;
    }
    let (_, rest) = bytes.split_at(OFFSET + SIZE);
    let (_, other_rest) = other.split_at(OFFSET + SIZE);
    is_same(rest, other_rest)
}
