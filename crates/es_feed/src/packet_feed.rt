//! A stream packet by packet.

ghost use Rattle.std.specs.Prelude.{◌≡◌, ◌<◌, ◌++◌, [], false, true, IfOk, OnOk, length};
ghost use Rattle.demux.specs.Stream.{found_in, taken};
ghost use Rattle.es_feed.specs.StreamFeeding as spec;
ghost use Rattle.packet_pcr.specs.PacketPcr.{pcr_at};
ghost use Rattle.fed_streams.specs.Ticks as ticks;

use crate::packet_ends::{take_ends, take_held};
use crate::unit_feed::UnitFeed;
use demux::Demux;
use fed_streams::FeedFault;
use packet_pcr::{FoundPcr, found_pcr};
use pes_packet::Unit;
use std::alloc::{AllocError, Global};
use std::marker::Model;
use ts_packet::read_packet;

/// A stream whose packets come one after another: each is demultiplexed, its findings are marked and fed, and then its
/// clock reference. A packet that only continues an open unit is not read: nothing is found there, and it has
/// no reference. Bodies of open PES packets on PIDs of no stream are dropped again and again, since they feed nothing.
#[derive(Drop)]
pub(crate) struct PacketFeed {
    demux: Demux,
    packets: u64,
    feed: UnitFeed,
}

// After each such number of packets the bodies that no stream has are left out.
const PACKETS: u64 = 4_096;

// A contract sees what was taken.
impl Model for PacketFeed {
    ghost use Rattle.std.specs.Prelude.{◌≡◌, [], true};
    ghost use Rattle.demux.specs.Stream.{is_aligned};
    ghost use Rattle.es_feed.specs.StreamFeeding.{PacketFeedView};

    ghost Value = { PacketFeedView };

    ghost view = { λ p. record { demux = p.demux; feed = p.feed } };

    ghost invariant = { λ p. (is_aligned p.demux ≡ true) × (p.packets ≡ p.demux.packets) × (p.demux.found ≡ []) };
}

impl PacketFeed {
    /// Returns a stream before its first packet.
    pub fn new(alloc: Global, feed: UnitFeed) -> PacketFeed
        ensures { result ≡ spec.no_packets feed }
    {
        PacketFeed {
            demux: Demux::new(alloc),
            packets: 0,
            feed,
        }
    }

    // Takes a clock reference, if there is one.
    #[tactic(auto, unfolding(fed_streams::specs::Ticks::after_pcr, fed_streams::specs::Ticks::fed_pcr))]
    fn take_pcr(
        &mut self,
        alloc: &Global,
        pcr: Option<FoundPcr>,
        fed: &mut Vec<(u8, Result<Unit, FeedFault>)>,
    ) -> Result<(), AllocError>
        ensures packets { OnOk result (self.new ≡ record self.old { feed = ticks.after_pcr self.old.feed pcr }) }
        ensures fed { OnOk result (fed.new.items ≡ fed.old.items ++ ticks.fed_pcr self.old.feed pcr) }
    {
        match pcr {
            None => Ok(()),
            Some(pcr) => self.feed.take_pcr(alloc, pcr, fed),
        }
    }

    // Takes a packet without findings and without a clock reference, and returns whether its first bytes show that it
    // is such a packet; otherwise nothing changes.
    #[tactic(auto, unfolding(demux::specs::Stream::taken), using(crate::proofs::PlainPackets::plain_after, crate::proofs::PlainPackets::plain_fed))]
    fn go_on(&mut self, bytes: &[u8; 188]) -> bool
        ensures demux { result ≡ true → self.new.demux ≡ taken self.old.demux bytes.now }
        ensures feed { result ≡ true → self.new.feed ≡ ticks.after_packet self.old.feed
            (found_in self.old.demux bytes.now) (pcr_at self.old.demux.packets bytes.now) }
        ensures none { result ≡ true → ticks.fed_packet self.old.feed
            (found_in self.old.demux bytes.now) (pcr_at self.old.demux.packets bytes.now) ≡ [] }
        ensures stays { result ≡ false → self.new ≡ self.old }
    {
        if !self.demux.go_on(bytes) {
            return false;
        }
        self.packets = self.packets.saturating_add(1);
        true
    }

    // Reads and takes a packet. It stays a call of its own: few packets need it, and the result of a read would
    // otherwise be made ready for each.
    #[tactic(auto, unfolding(demux::specs::Stream::taken))]
    #[inline(never)]
    fn read_next(
        &mut self,
        alloc: &Global,
        bytes: &[u8; 188],
        fed: &mut Vec<(u8, Result<Unit, FeedFault>)>,
    ) -> Result<(), AllocError>
        ensures { OnOk result (spec.TakesPacket self.old self.new bytes.now fed.old.items fed.new.items) }
    {
        let index = self.packets;
        let read = read_packet(bytes);
        let mut found = Vec::new(*alloc);
        let Ok(()) = self.demux.take_read(bytes, &read, &mut found) else {
            return Err(AllocError);
        };
        self.packets = index.saturating_add(1);
        self.feed.mark(&mut found);
        self.feed.take_all(alloc, found.as_slice(), fed)?;
        self.take_pcr(alloc, found_pcr(index, &read), fed)
    }

    // Takes a packet.
    fn take(
        &mut self,
        alloc: &Global,
        bytes: &[u8; 188],
        fed: &mut Vec<(u8, Result<Unit, FeedFault>)>,
    ) -> Result<(), AllocError>
        ensures { OnOk result (spec.TakesPacket self.old self.new bytes.now fed.old.items fed.new.items) }
    {
        if self.go_on(bytes) {
            return Ok(());
        }
        self.read_next(alloc, bytes, fed)
    }

    // Leaves out the bodies of open PES packets whose PID no stream has, if it is time.
    fn leave_out(&mut self, alloc: &Global) -> Result<(), AllocError>
        ensures feed { self.new.feed ≡ self.old.feed }
        ensures demux { OnOk result (spec.AreAlike self.old.feed self.new.demux self.old.demux) }
    {
        if self.packets % PACKETS != 0 {
            return Ok(());
        }
        let pids = self.feed.pids(alloc)?;
        self.demux.leave_out_other_bodies(pids.as_slice());
        Ok(())
    }

    // Takes a packet, and leaves out then what no stream has.
    fn take_next(
        &mut self,
        alloc: &Global,
        bytes: &[u8; 188],
        fed: &mut Vec<(u8, Result<Unit, FeedFault>)>,
    ) -> Result<(), AllocError>
        ensures demux { OnOk result (spec.AreAlike self.old.feed self.new.demux (taken self.old.demux bytes.now)) }
        ensures feed { OnOk result (self.new.feed ≡ ticks.after_packet self.old.feed
            (found_in self.old.demux bytes.now) (pcr_at self.old.demux.packets bytes.now)) }
        ensures fed { OnOk result (fed.new.items ≡ fed.old.items ++ ticks.fed_packet self.old.feed
            (found_in self.old.demux bytes.now) (pcr_at self.old.demux.packets bytes.now)) }
    {
        self.take(alloc, bytes, fed)?;
        self.leave_out(alloc)
    }

    /// Takes the whole packets at the front of bytes, and returns how many bytes these have.
    ///
    /// After an `AllocError` drop the feed and `fed`: nothing is promised of their contents.
    pub fn take_all(
        &mut self,
        alloc: &Global,
        bytes: &[u8],
        fed: &mut Vec<(u8, Result<Unit, FeedFault>)>,
    ) -> Result<usize, AllocError>
        ensures { IfOk result (λ n. spec.TakesPackets self.old self.new bytes.now n fed.old.items fed.new.items) }
    {
        let mut at = 0;
        while at < bytes.len() {
            let (_, rest) = bytes.split_at(at);
            let Some(packet) = rest.first_chunk::<188>() else {
                return Ok(at);
            };
            self.take_next(alloc, packet, fed)?;
            at += 188;
        }
        Ok(at)
    }

    /// Ends the packets, with these bytes of the next one: feeds what the end decides, one PID after another, and then
    /// the last unit of each stream, in the order of the streams.
    ///
    /// After an `AllocError` drop `fed`: nothing is promised of its contents.
    pub fn finish(
        self,
        alloc: &Global,
        rest: &[u8],
        fed: &mut Vec<(u8, Result<Unit, FeedFault>)>,
    ) -> Result<(), AllocError>
        requires { length rest.now < 188 }
        ensures { OnOk result (fed.new.items ≡ fed.old.items ++ spec.fed_rest self.demux self.feed rest.now) }
    {
        let mut demux = self.demux;
        let mut feed = self.feed;
        let Ok(()) = demux.push(rest) else {
            return Err(AllocError);
        };
        take_held(alloc, &demux, &mut feed, fed)?;
        take_ends(alloc, &demux, &mut feed, fed)?;
        feed.finish(fed)?;
        Ok(())
    }
}
