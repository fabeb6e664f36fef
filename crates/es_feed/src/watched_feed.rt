//! A stream and its slips.

ghost use Rattle.std.specs.Prelude.{◌≡◌, ◌++◌, [], List, OnOk, false, ℕ};
ghost use Rattle.fed_streams.specs.Feeding.{Fed, FeedView};
ghost use Rattle.es_feed.specs.Watching as spec;

use crate::slip_watch::SlipWatch;
use crate::stream_feed::StreamFeed;
use crate::stream_packets::StreamPackets;
use crate::unit_feed::{NO_STREAM, UnitFeed};
use fed_streams::FeedFault;
use fed_streams::feed_fault::SlippedBytes;
use packet_sync::Slip;
use pes_packet::Unit;
use std::alloc::{AllocError, Global};
use std::marker::Model;

/// A stream whose bytes arrive piece by piece, with packets of 188, 192 or 204 bytes, and the bytes of it that are in no
/// packet.
#[derive(Drop)]
pub struct WatchedFeed {
    alloc: Global,
    packets: StreamPackets,
    stream: StreamFeed,
    watch: SlipWatch,
}

// A contract sees all three.
impl Model for WatchedFeed {
    ghost use Rattle.es_feed.specs.Watching.{WatchedView};

    ghost Value = { WatchedView };

    ghost view = { λ w. record { packets = w.packets; stream = w.stream; watch = w.watch } };
}

// Appends the reports on slips.
fn push_slips(
    fed: &mut Vec<(u8, Result<Unit, FeedFault>)>,
    found: &[Slip],
) -> Result<(), AllocError>
    ensures { OnOk result (fed.new.items ≡ fed.old.items ++ spec.slips_fed found.now) }
{
    for slip in found {
        let Slip { packet, size, .. } = *slip;
        let reported = FeedFault::Slipped(SlippedBytes { packet, size });
        fed.push((NO_STREAM, Err(reported)))?;
    }
    Ok(())
}

impl WatchedFeed {
    /// Returns a stream before its first byte.
    pub fn new(alloc: Global, feed: UnitFeed) -> WatchedFeed
        ensures { result ≡ spec.watched_first feed }
    {
        WatchedFeed {
            alloc,
            packets: StreamPackets::new(alloc),
            stream: StreamFeed::new(alloc, feed),
            watch: SlipWatch::new(alloc),
        }
    }

    /// Takes a piece of the stream, of any size: what its packets feed goes to `fed`, where nothing is, and then its
    /// slips.
    ///
    /// After an `AllocError` drop the feed and `fed`: nothing is promised of their contents.
    pub fn push(
        &mut self,
        piece: &[u8],
        fed: &mut Vec<(u8, Result<Unit, FeedFault>)>,
    ) -> Result<(), AllocError>
        requires { fed.old.items ≡ [] }
        ensures taken { (first : FeedView) (stream : List ℕ) (before : List Fed) →
            spec.IsWatchedBy first stream false self.old before →
            OnOk result (spec.IsWatchedBy first (stream ++ piece.now) false self.new (before ++ fed.new.items)) }
        ensures held { OnOk result (spec.HoldsFew self.new) }
    {
        let packets = self.packets.take(piece)?;
        self.stream.push(&packets, fed)?;
        let mut found = Vec::new(self.alloc);
        self.watch.push(&packets, &mut found)?;
        push_slips(fed, &found)?;
        Ok(())
    }

    /// Ends the stream: what the end feeds goes to `fed`, where nothing is, and then the slips that it decides.
    ///
    /// After an `AllocError` drop `fed`: nothing is promised of its contents.
    pub fn finish(self, fed: &mut Vec<(u8, Result<Unit, FeedFault>)>) -> Result<(), AllocError>
        requires { fed.old.items ≡ [] }
        ensures { (first : FeedView) (stream : List ℕ) (before : List Fed) →
            spec.IsWatchedBy first stream false self before →
            OnOk result (spec.IsWatchedOf first stream (before ++ fed.new.items)) }
    {
        let mut found = Vec::new(self.alloc);
        let packets = self.packets.finish()?;
        let mut stream = self.stream;
        stream.push(&packets, fed)?;
        stream.finish(fed)?;
        let mut watch = self.watch;
        watch.push(&packets, &mut found)?;
        watch.finish(&mut found)?;
        push_slips(fed, &found)?;
        Ok(())
    }
}
