//! A stream of bytes, in pieces of any size.

ghost use Rattle.std.specs.Prelude.{◌≡◌, ◌<◌, ◌≤◌, ◌-◌, ◌++◌, IfOk, OnOk, List, ℕ, true, false, length, drop};
ghost use Rattle.fed_streams.specs.Feeding.{Fed, FeedView};
ghost use Rattle.es_feed.specs.StreamFeeding as spec;

use crate::packet_feed::PacketFeed;
use crate::unit_feed::UnitFeed;
use fed_streams::FeedFault;
use packet_sync::next_stretch;
use pes_packet::Unit;
use std::alloc::{AllocError, Global};
use std::marker::Model;

/// A stream whose bytes arrive piece by piece. It holds at most 1,127 bytes of the stream beside the bytes of the
/// demultiplexer and of the current units.
#[derive(Drop)]
pub struct StreamFeed {
    alloc: Global,
    held: Vec<u8>,
    packets: PacketFeed,
}

// A contract sees the bytes that are held, and what was taken.
impl Model for StreamFeed {
    ghost use Rattle.es_feed.specs.StreamFeeding.{StreamFeedView};

    ghost Value = { StreamFeedView };

    ghost view = { λ s. record { held = s.held.items; packets = s.packets } };
}

// Takes the packets of the bytes that are decided, and returns the number of these bytes: all, except a packet that
// the stream's end cuts.
fn take_decided(
    alloc: &Global,
    packets: &mut PacketFeed,
    bytes: &[u8],
    ended: bool,
    fed: &mut Vec<(u8, Result<Unit, FeedFault>)>,
) -> Result<usize, AllocError>
    ensures taken { (first : FeedView) (stream : List ℕ) (gone : List Fed) →
        spec.IsFedBy first stream ended (record { held = bytes.now; packets = packets.old }) (gone ++ fed.old.items) →
        IfOk result (λ at. spec.IsFedBy first stream ended (record { held = drop at bytes.now; packets = packets.new })
        (gone ++ fed.new.items)) }
    ensures within { IfOk result (λ at. at ≤ length bytes.now) }
    ensures last { IfOk result (λ at. ended ≡ true → length bytes.now - at < 188) }
    ensures short { IfOk result (λ at. ended ≡ false → length bytes.now - at < 1128) }
{
    let mut at = 0;
    while at < bytes.len() {
        let (_, rest) = bytes.split_at(at);
        let stretch = next_stretch(rest, ended);
        if stretch.in_step + stretch.slipped == 0 {
            return Ok(at);
        }
        let taken = packets.take_all(alloc, &rest[..stretch.in_step], fed)?;
        if taken < stretch.in_step {
            return Ok(at + taken);
        }
        at += stretch.in_step + stretch.slipped;
    }
    Ok(at)
}

impl StreamFeed {
    /// Returns a stream before its first byte.
    pub fn new(alloc: Global, feed: UnitFeed) -> StreamFeed
        ensures { result ≡ spec.at_first feed }
    {
        StreamFeed {
            alloc,
            held: Vec::new(alloc),
            packets: PacketFeed::new(alloc, feed),
        }
    }

    /// Takes a piece of the stream, of any size; each unit that is whole then goes to `fed`, at its moment with the
    /// number of its stream, or why it can't have one, and so do ticks, losses, changes and jumps. The caller may take
    /// these away at any time: `gone` went before.
    ///
    /// After an `AllocError` drop the feed and `fed`: nothing is promised of their contents.
    pub fn push(
        &mut self,
        piece: &[u8],
        fed: &mut Vec<(u8, Result<Unit, FeedFault>)>,
    ) -> Result<(), AllocError>
        ensures taken { (first : FeedView) (stream : List ℕ) (gone : List Fed) →
            spec.IsFedBy first stream false self.old (gone ++ fed.old.items) →
            OnOk result (spec.IsFedBy first (stream ++ piece.now) false self.new (gone ++ fed.new.items)) }
        ensures held { OnOk result (length self.new.held < 1128) }
    {
        self.held.extend_from_slice(piece)?;
        let alloc = self.alloc;
        let at = take_decided(&alloc, &mut self.packets, self.held.as_slice(), false, fed)?;
        let (_, rest) = self.held.as_slice().split_at(at);
        let held = Vec::from_slice(alloc, rest)?;
        self.held = held;
        Ok(())
    }

    /// Ends the stream: feeds what the end decides, and then the last unit of each stream, in the order of the streams.
    ///
    /// After an `AllocError` drop `fed`: nothing is promised of its contents.
    pub fn finish(self, fed: &mut Vec<(u8, Result<Unit, FeedFault>)>) -> Result<(), AllocError>
        ensures { (first : FeedView) (stream : List ℕ) (gone : List Fed) →
            spec.IsFedBy first stream false self (gone ++ fed.old.items) →
            OnOk result (gone ++ fed.new.items ≡ spec.fed_of first stream) }
    {
        let alloc = self.alloc;
        let mut packets = self.packets;
        let at = take_decided(&alloc, &mut packets, self.held.as_slice(), true, fed)?;
        let (_, rest) = self.held.as_slice().split_at(at);
        packets.finish(&alloc, rest, fed)?;
        Ok(())
    }
}
