//! A demultiplexer of headers alone, for callers who read no body of a PES packet.
ghost use Rattle.std.specs.Prelude.{◌≡◌, ◌<◌, ℕ, [], false, true, Ok, Some, OnOk, length, map, slice_get};
ghost use Rattle.bit_fields.specs.Reading.{Gives};
ghost use Rattle.ts_packet.specs.Packets.{null_packet};
ghost use Rattle.ts_packet.specs.Reading.{packet_at};
ghost use Rattle.ts_packet.specs.Views.{packet_view};
ghost use Rattle.pid_findings.specs.Bodies.{all_without_body};
ghost use Rattle.demux.specs.StreamBodies.{AddsHeaders, headers_pushed, headers_taken};
ghost use Rattle.pid_findings.specs.Findings.{ended};
ghost use Rattle.pid_findings.specs.GoingOn.{plain_view};
ghost use Rattle.pid_findings.specs.Machine.{PidState};
ghost use Rattle.pid_findings.specs.Shown.{finding_view, with_pid};
ghost use Rattle.demux.specs.Stream as stream;

use crate::demultiplexer::Demux;
use pid_findings::Finding;
use std::alloc::{AllocError, Allocator, Global};
use std::marker::Model;
use ts_packet::{Packet, PacketError};

// After this number of packets the bodies of the open PES packets are left out.
const PACKETS: u32 = 1_024;

/// A stream as `Demux` takes it, but the bodies of open PES packets are left out again and again: memory goes with
/// the number of PIDs, and not with the PES packets that are open.
///
/// A contract sees the stream without bodies: the findings are the findings of `Demux` without the bytes of bodies and
/// of truncated units. The number of these bytes is kept.
#[derive(Drop)]
pub struct HeaderDemux<A: Allocator = Global> {
    demux: Demux<A>,
    // packets since bodies were last left out
    since: u32,
}

impl<A: Allocator> Model for HeaderDemux<A> {
    ghost use Rattle.demux.specs.StreamBodies.{without_bodies};
    ghost use Rattle.demux.specs.Stream.{StreamState};

    ghost Value = { StreamState };

    ghost view = { λ h. without_bodies h.demux };
}

impl<A: Allocator + Copy> HeaderDemux<A> {
    /// Returns the state before the first byte.
    pub fn new(alloc: A) -> HeaderDemux<A>
        ensures { result ≡ stream.start }
    {
        HeaderDemux {
            demux: Demux::new(alloc),
            since: 0,
        }
    }

    // Counts packets, and leaves out bodies after some.
    fn count(&mut self, packets: u32)
        ensures { self.new ≡ self.old }
    {
        self.since = self.since.saturating_add(packets);
        if self.since >= PACKETS {
            self.demux.leave_out_bodies();
            self.since = 0;
        }
    }

    /// Takes a packet without a finding as `Demux::go_on` does. Returns whether it took the packet.
    pub fn go_on(&mut self, bytes: &[u8; 188]) -> bool
        requires { stream.is_aligned self.old ≡ true }
        ensures taken { result ≡ true → self.new ≡ headers_taken self.old bytes.now }
        ensures none { result ≡ true → stream.found_in self.old bytes.now ≡ [] }
        ensures plain { result ≡ true → packet_at bytes.now ≡ Ok (plain_view bytes.now) }
        ensures stays { result ≡ false → self.new ≡ self.old }
        ensures aligned { stream.is_aligned self.new ≡ true }
    {
        if !self.demux.go_on(bytes) {
            return false;
        }
        self.count(1);
        true
    }

    /// Takes a packet as `Demux::take_read` does; `read` is what `read_packet` gives of its bytes.
    ///
    /// After an `AllocError` drop the state and `found`: nothing is promised of their contents.
    pub fn take_read<'a>(
        &mut self,
        bytes: &'a [u8; 188],
        read: &Result<Packet<'a>, PacketError>,
        found: &mut Vec<Finding<'a, A>, A>,
    ) -> Result<(), AllocError>
        requires aligned { stream.is_aligned self.old ≡ true }
        requires read { Gives packet_view read.now (packet_at bytes.now) }
        ensures ok { OnOk result (self.new ≡ headers_taken self.old bytes.now) }
        ensures found { OnOk result (AddsHeaders (map finding_view found.old.items) (map finding_view found.new.items)
            (stream.found_in self.old bytes.now)) }
        ensures aligned { stream.is_aligned self.new ≡ true }
    {
        let Ok(()) = self.demux.take_read(bytes, read, found) else {
            return Err(AllocError);
        };
        self.count(1);
        Ok(())
    }

    /// Counts a packet without a finding as `Demux::skip` does.
    pub fn skip(&mut self)
        requires aligned { stream.is_aligned self.old ≡ true }
        ensures taken { self.new ≡ headers_taken self.old null_packet }
        ensures none { stream.found_in self.old null_packet ≡ [] }
    {
        self.demux.skip();
    }

    /// Takes a piece of the stream, of any size, and adds what it finds to the findings.
    ///
    /// After an `AllocError` drop the state: nothing is promised of its contents.
    pub fn push(&mut self, piece: &[u8]) -> Result<(), AllocError>
        ensures { OnOk result (self.new ≡ headers_pushed self.old piece.now) }
    {
        let Ok(()) = self.demux.push(piece) else {
            return Err(AllocError);
        };
        self.count(PACKETS);
        Ok(())
    }

    /// Returns what was found by `push` and not forgotten since.
    pub fn findings(&self) -> &[Finding<'static, A>]
        ensures { all_without_body (map finding_view result.now) ≡ self.now.found }
    {
        self.demux.findings()
    }

    /// Forgets these findings. Nothing else changes.
    pub fn forget_findings(&mut self)
        ensures { self.new ≡ record self.old { found = [] } }
    {
        self.demux.forget_findings();
    }

    /// Appends what the end of the stream decides of the bytes of a packet that is not whole.
    ///
    /// After an `AllocError` drop `found`: nothing is promised of its contents.
    pub fn end_of_packet(
        &self,
        alloc: A,
        found: &mut Vec<Finding<'static, A>, A>,
    ) -> Result<(), AllocError>
        ensures { OnOk result (AddsHeaders (map finding_view found.old.items) (map finding_view found.new.items)
            (stream.held_found self.now.packets self.now.held)) }
    {
        self.demux.end_of_packet(alloc, found)
    }

    /// Returns the number of PIDs of the stream so far, without the null packets' PID.
    pub fn pids(&self) -> usize
        ensures { result ≡ length self.now.states }
    {
        self.demux.pids()
    }

    /// Appends what the end of the stream decides of the PID at an index, in the order of each PID's first packet.
    /// Nothing changes. The bodies of one PID are written as zeros, until the finding is dropped.
    ///
    /// After an `AllocError` drop `found`: nothing is promised of its contents.
    pub fn end_of_pid(
        &self,
        index: usize,
        found: &mut Vec<Finding<'static, A>, A>,
    ) -> Result<(), AllocError>
        requires { index < length self.now.states }
        ensures { (entry : ℕ × PidState) → slice_get self.now.states index ≡ Some entry →
            OnOk result (AddsHeaders (map finding_view found.old.items) (map finding_view found.new.items) (map
            (with_pid entry.0 self.now.packets) (ended true entry.1.open_unit))) }
    {
        self.demux.end_of_pid(index, found)
    }
}
