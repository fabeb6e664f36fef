//! The packets of a stream, whatever their size, while its bytes arrive.

ghost use Rattle.std.specs.Prelude.{◌≡◌, ◌<◌, ◌≤◌, ◌+◌, ◌++◌, IfOk, List, OnOk, ℕ, true, length};
ghost use Rattle.packet_sync.specs.PacketBytes.{AreInner, packets_in};
ghost use Rattle.es_feed.specs.StreamPackets as spec;

use packet_sync::{InnerBytes, OtherPackets, inner_bytes, other_packets};
use std::alloc::{AllocError, Global};
use std::marker::Model;

/// The first bytes of a stream that show the size of its packets.
const FRONT: usize = 409;

/// A stream whose bytes arrive piece by piece, as packets of 188 bytes. It holds fewer than 1,228 bytes.
#[derive(Drop)]
pub(crate) struct StreamPackets {
    alloc: Global,
    known: bool,
    other: Option<OtherPackets>,
    held: Vec<u8>,
}

// A contract sees the held bytes as a list.
impl Model for StreamPackets {
    ghost use Rattle.es_feed.specs.StreamPackets.{PacketsView};

    ghost Value = { PacketsView };

    ghost view = { λ s. record { known = s.known; other = s.other; held = s.held.items } };
}

// Returns whether so few first bytes do not show which packets the stream has.
fn is_early(known: bool, held: &[u8]) -> bool
    ensures value { result ≡ spec.is_early known held.now }
    ensures few { result ≡ true → length held.now < 409 }
{
    !known && held.len() < FRONT
}

// Returns which packets the stream has.
#[tactic(auto, unfolding(crate::specs::StreamPackets::other_by))]
fn other_by(known: bool, other: Option<OtherPackets>, held: &[u8]) -> Option<OtherPackets>
    ensures { result ≡ spec.other_by known other held.now }
{
    if known { other } else { other_packets(held) }
}

// Returns the packets of the bytes, as far as these decide, and how many bytes of the stream they are; `ended`: whether
// no more bytes follow.
fn packets_of(
    alloc: Global,
    other: Option<OtherPackets>,
    bytes: &[u8],
    ended: bool,
) -> Result<InnerBytes, AllocError>
    ensures packets { IfOk result (λ r. AreInner other bytes.now ended r.packets.items r.used) }
    ensures within { IfOk result (λ r. r.used ≤ length bytes.now) }
    ensures last { IfOk result (λ r. ended ≡ true → r.used ≡ length bytes.now) }
    ensures few { IfOk result (λ r. length bytes.now < r.used + 1228) }
{
    match other {
        None => Ok(InnerBytes {
            packets: Vec::from_slice(alloc, bytes)?,
            used: bytes.len(),
        }),
        Some(size) => inner_bytes(alloc, size, bytes, ended),
    }
}

impl StreamPackets {
    /// Returns the state before the first byte.
    pub(crate) fn new(alloc: Global) -> StreamPackets
        ensures { result ≡ spec.no_bytes }
    {
        StreamPackets {
            alloc,
            known: false,
            other: None,
            held: Vec::new(alloc),
        }
    }

    /// Takes the next bytes, and returns the packets that they decide.
    pub(crate) fn take(&mut self, piece: &[u8]) -> Result<Vec<u8>, AllocError>
        ensures packets { (bytes packets : List ℕ) → spec.ArePackets bytes packets self.old →
            IfOk result (λ next. spec.ArePackets (bytes ++ piece.now) (packets ++ next.items) self.new) }
        ensures held { OnOk result (length self.new.held < 1228) }
    {
        let mut bytes = Vec::from_slice(self.alloc, &self.held)?;
        bytes.extend_from_slice(piece)?;
        if is_early(self.known, &bytes) {
            self.held = bytes;
            return Ok(Vec::new(self.alloc));
        }
        let other = other_by(self.known, self.other, &bytes);
        let inner = packets_of(self.alloc, other, &bytes, false)?;
        let (_, left) = bytes.split_at(inner.used);
        let held = Vec::from_slice(self.alloc, left)?;
        self.known = true;
        self.other = other;
        self.held = held;
        Ok(inner.packets)
    }

    /// Ends the stream, and returns the packets that are left.
    pub(crate) fn finish(self) -> Result<Vec<u8>, AllocError>
        ensures { (bytes packets : List ℕ) → spec.ArePackets bytes packets self →
            IfOk result (λ last. packets ++ last.items ≡ packets_in bytes) }
    {
        let other = other_by(self.known, self.other, &self.held);
        let inner = packets_of(self.alloc, other, &self.held, true)?;
        Ok(inner.packets)
    }
}
