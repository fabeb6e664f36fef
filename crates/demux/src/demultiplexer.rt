//! The demultiplexer: a stream in pieces, or packet by packet.
ghost use Rattle.std.specs.Prelude.{◌≡◌, ◌<◌, ◌≤◌, ◌++◌, [], false, true, Ok, IfOk, IfErr, OnOk, OnErr, map, take};
ghost use Rattle.std.specs.Prelude.{ℕ, Some, length, slice_get};
ghost use Rattle.bit_fields.specs.Reading.{Gives};
ghost use Rattle.ts_packet.specs.Packets.{null_packet};
ghost use Rattle.ts_packet.specs.Reading.{packet_at};
ghost use Rattle.ts_packet.specs.Views.{packet_view};
ghost use Rattle.pid_findings.specs.GoingOn.{plain_view};
ghost use Rattle.demux.specs.StreamBodies.{bodies_left_out};
ghost use Rattle.demux.specs.KeptBodies.{bodies_left_out_but};
ghost use Rattle.pid_findings.specs.Findings.{ended};
ghost use Rattle.pid_findings.specs.Machine.{PidState};
ghost use Rattle.demux.specs.Stream as stream;
ghost use Rattle.std.specs.List.{list_any};
ghost use Rattle.pid_findings.specs.Shown.{KeepsFindings, Spans, AddsFindings, finding_view, is_span, with_pid};

use crate::error::DemuxError;
use crate::packets::{join, note_held, pass, take_borrowed, take_copied};
use crate::states::States;
use arrayvec::ArrayVec;
use pid_findings::Finding;
use std::alloc::{AllocError, Allocator, Global};
use std::marker::Model;
use ts_packet::{Packet, PacketError, read_packet};

/// The state of a transport stream: a state for each PID, and the at most 187 bytes of a packet that is not whole
/// yet.
///
/// The state of a PID has its last packet and its open unit: at most 8,388,608 bytes of a section or a PES packet; only
/// the header of a PES packet whose body was left out (`leave_out_bodies`), and at most 4,098 bytes of a section.
/// Packets are numbered from 0; the number stops at 2^64 - 1.
#[derive(Drop)]
pub struct Demux<A: Allocator = Global> {
    states: States<A>,
    packets: u64,
    held: ArrayVec<u8, 187>,
    found: Vec<Finding<'static, A>, A>,
    ended: bool,
}

impl<A: Allocator> Model for Demux<A> {
    ghost use Rattle.std.specs.Prelude.{◌≡◌, false, map};
    ghost use Rattle.std.specs.List.{list_any};
    ghost use Rattle.demux.specs.Stream.{StreamState};
    ghost use Rattle.pid_findings.specs.Shown.{finding_view, is_span};

    ghost Value = { StreamState };

    ghost view = { λ d. record {
      packets = d.packets;
      states = d.states;
      held = d.held.items;
      found = map finding_view d.found.items;
      ended = d.ended;
    } };

    ghost invariant = { λ d. list_any is_span d.found.items ≡ false };
}

impl<A: Allocator + Copy> Demux<A> {
    /// Returns the state before the first byte.
    pub fn new(alloc: A) -> Demux<A>
        ensures { result ≡ stream.start }
    {
        Demux {
            states: States::new(alloc),
            packets: 0,
            held: ArrayVec::new(),
            found: Vec::new(alloc),
            ended: false,
        }
    }

    /// Returns whether no part of a packet is held.
    pub fn aligned(&self) -> bool
        ensures { result ≡ stream.is_aligned self.now }
    {
        self.held.is_empty()
    }

    /// Returns what was found by `push` and `finish` and not forgotten since.
    pub fn findings(&self) -> &[Finding<'static, A>]
        ensures found { map finding_view result.now ≡ self.now.found }
        ensures joined { list_any is_span result.now ≡ false }
    {
        self.found.as_slice()
    }

    /// Forgets these findings. Nothing else changes.
    pub fn forget_findings(&mut self)
        ensures { self.new ≡ record self.old { found = [] } }
    {
        self.found.clear();
    }

    // Takes a packet without a finding, if its first bytes show this and there is memory for it. Returns whether it
    // took the packet; if not, nothing changes.
    #[tactic(auto, unfolding(crate::specs::Stream::taken, crate::specs::Stream::found_in, crate::specs::Stream::within_in))]
    fn take_plain(&mut self, bytes: &[u8; 188]) -> bool
        ensures taken { result ≡ true → self.new ≡ stream.taken self.old bytes.now }
        ensures none { result ≡ true → stream.found_in self.old bytes.now ≡ [] }
        ensures within { result ≡ true → stream.within_in self.old bytes.now ≡ [] }
        ensures plain { result ≡ true → packet_at bytes.now ≡ Ok (plain_view bytes.now) }
        ensures stays { result ≡ false → self.new ≡ self.old }
        ensures held { self.new.held ≡ self.old.held }
    {
        if !pass(&mut self.states, self.packets, bytes) {
            return false;
        }
        self.packets = self.packets.saturating_add(1);
        true
    }

    // Takes a packet whose bytes findings copy; none are held after it.
    #[tactic(auto, unfolding(crate::specs::Stream::taken, crate::specs::Stream::found_in), using(crate::proofs::PushedBytes::plain_pushed))]
    fn push_packet(&mut self, bytes: &[u8; 188]) -> Result<(), AllocError>
        ensures ok { OnOk result (self.new ≡ stream.packet_pushed self.old bytes.now) }
        ensures err { OnErr result (self.new ≡ self.old) }
    {
        if self.take_plain(bytes) {
            self.held.clear();
            return Ok(());
        }
        take_copied(&mut self.states, self.packets, bytes, &mut self.found)?;
        self.packets = self.packets.saturating_add(1);
        self.held.clear();
        Ok(())
    }

    // Holds bytes up to the end of a packet, and takes the packet that they make whole.
    fn hold(&mut self, piece: &[u8]) -> Result<usize, AllocError>
        requires { 0 < length piece.now }
        ensures some { IfOk result (λ n. 0 < n) }
        ensures within { IfOk result (λ n. n ≤ length piece.now) }
        ensures whole { IfOk result (λ n. n < length piece.now → length self.new.held ≡ 0) }
        ensures pushed { IfOk result (λ n. self.new ≡ stream.pushed self.old (take n piece.now)) }
        ensures err { OnErr result (self.new ≡ self.old) }
    {
        let missing = 188 - self.held.len();
        if piece.len() < missing {
            let Ok(()) = self.held.try_extend_from_slice(piece) else {
                unreachable!()
            };
            return Ok(piece.len());
        }
        let (front, _) = piece.split_at(missing);
        let bytes = join(&self.held, front);
        self.push_packet(&bytes)?;
        Ok(missing)
    }

    // Takes bytes up to the end of a packet at most.
    fn advance(&mut self, piece: &[u8]) -> Result<usize, AllocError>
        requires { 0 < length piece.now }
        ensures some { IfOk result (λ n. 0 < n) }
        ensures within { IfOk result (λ n. n ≤ length piece.now) }
        ensures whole { IfOk result (λ n. n < length piece.now → length self.new.held ≡ 0) }
        ensures pushed { IfOk result (λ n. self.new ≡ stream.pushed self.old (take n piece.now)) }
        ensures err { OnErr result (self.new ≡ self.old) }
    {
        if !self.held.is_empty() {
            return self.hold(piece);
        }
        match piece.first_chunk::<188>() {
            None => self.hold(piece),
            Some(bytes) => {
                self.push_packet(bytes)?;
                Ok(188)
            }
        }
    }

    /// Takes a piece of the stream, of any size, and adds what it finds to the findings.
    ///
    /// Out of memory: the bytes before the packet that needed more are taken, and the rest may be given again.
    pub fn push(&mut self, piece: &[u8]) -> Result<(), DemuxError>
        ensures ok { OnOk result (self.new ≡ stream.pushed self.old piece.now) }
        ensures open { OnOk result (self.old.ended ≡ false) }
        ensures refused { IfErr result (λ error. stream.PushRefused self.old self.new piece.now error) }
    {
        if self.ended {
            return Err(DemuxError::Ended);
        }
        let mut taken = 0;
        while taken < piece.len() {
            let (_, rest) = piece.split_at(taken);
            match self.advance(rest) {
                Ok(n) => taken += n,
                Err(_) => return Err(DemuxError::Memory { taken }),
            }
        }
        Ok(())
    }

    /// Takes a packet without a finding, between whole packets, if its first four bytes show that it is one: a null
    /// packet, or a payload alone that continues an open section or PES packet and does not end it. Returns whether it
    /// took the packet; if not, nothing changes: it is another packet, memory is short, or the stream has ended.
    pub fn go_on(&mut self, bytes: &[u8; 188]) -> bool
        requires { stream.is_aligned self.old ≡ true }
        ensures taken { result ≡ true → self.new ≡ stream.taken self.old bytes.now }
        ensures none { result ≡ true → stream.found_in self.old bytes.now ≡ [] }
        ensures within { result ≡ true → stream.within_in self.old bytes.now ≡ [] }
        ensures plain { result ≡ true → packet_at bytes.now ≡ Ok (plain_view bytes.now) }
        ensures open { result ≡ true → self.old.ended ≡ false }
        ensures stays { result ≡ false → self.new ≡ self.old }
        ensures aligned { stream.is_aligned self.new ≡ true }
    {
        if self.ended {
            return false;
        }
        self.take_plain(bytes)
    }

    /// Takes a packet, between whole packets. Findings go to `found`; a finding points into the packet if it lies in
    /// the packet whole.
    pub fn take<'a>(
        &mut self,
        bytes: &'a [u8; 188],
        found: &mut Vec<Finding<'a, A>, A>,
    ) -> Result<(), DemuxError>
        requires { stream.is_aligned self.old ≡ true }
        ensures ok { OnOk result (self.new ≡ stream.taken self.old bytes.now) }
        ensures found { OnOk result (AddsFindings found.old.items found.new.items
            (stream.found_in self.old bytes.now)) }
        ensures spans { OnOk result (Spans found.old.items found.new.items (stream.within_in self.old bytes.now)) }
        ensures open { OnOk result (self.old.ended ≡ false) }
        ensures aligned { stream.is_aligned self.new ≡ true }
        ensures refused { IfErr result (λ error. stream.TakeRefused self.old self.new error) }
        ensures none { OnErr result (KeepsFindings found.old.items found.new.items) }
    {
        if self.go_on(bytes) {
            return Ok(());
        }
        self.take_read(bytes, &read_packet(bytes), found)
    }

    /// Takes a packet as `take` does; `read` is what `read_packet` gives of its bytes.
    #[tactic(auto, unfolding(crate::specs::Stream::taken, crate::specs::Stream::found_in, crate::specs::Stream::within_in))]
    pub fn take_read<'a>(
        &mut self,
        bytes: &'a [u8; 188],
        read: &Result<Packet<'a>, PacketError>,
        found: &mut Vec<Finding<'a, A>, A>,
    ) -> Result<(), DemuxError>
        requires aligned { stream.is_aligned self.old ≡ true }
        requires read { Gives packet_view read.now (packet_at bytes.now) }
        ensures ok { OnOk result (self.new ≡ stream.taken self.old bytes.now) }
        ensures found { OnOk result (AddsFindings found.old.items found.new.items
            (stream.found_in self.old bytes.now)) }
        ensures spans { OnOk result (Spans found.old.items found.new.items (stream.within_in self.old bytes.now)) }
        ensures open { OnOk result (self.old.ended ≡ false) }
        ensures aligned { stream.is_aligned self.new ≡ true }
        ensures refused { IfErr result (λ error. stream.TakeRefused self.old self.new error) }
        ensures none { OnErr result (KeepsFindings found.old.items found.new.items) }
    {
        if self.ended {
            return Err(DemuxError::Ended);
        }
        if self.take_plain(bytes) {
            return Ok(());
        }
        match take_borrowed(&mut self.states, self.packets, bytes, read, found) {
            Ok(()) => {
                self.packets = self.packets.saturating_add(1);
                Ok(())
            }
            Err(_) => Err(DemuxError::Memory { taken: 0 }),
        }
    }

    // Counts a packet.
    fn count(&mut self)
        ensures { self.new ≡ record self.old { packets = stream.next_packet self.old.packets } }
    {
        self.packets = self.packets.saturating_add(1);
    }

    /// Counts a packet without a finding, such as a null packet; nothing else changes. It does not look whether the
    /// stream has ended.
    #[tactic(auto, using(crate::proofs::NullPackets::null_found))]
    pub fn skip(&mut self)
        requires aligned { stream.is_aligned self.old ≡ true }
        ensures taken { self.new ≡ stream.taken self.old null_packet }
        ensures none { stream.found_in self.old null_packet ≡ [] }
    {
        self.count();
    }

    /// Leaves out the bodies of the open PES packets whose headers can be read: the bytes are given back, and the
    /// number of bytes of each body is kept. They are then read as zeros. A caller who reads no bodies leaves them out
    /// again and again, so that memory goes with the number of PIDs (`headers_alone`).
    pub fn leave_out_bodies(&mut self)
        ensures { self.new ≡ bodies_left_out self.old }
    {
        self.states.leave_out_bodies();
    }

    /// Leaves out the bodies of the open PES packets as `leave_out_bodies` does, except on these PIDs. The findings of
    /// these PIDs stay the same (`others_decide_nothing`).
    pub fn leave_out_other_bodies(&mut self, kept: &[u16])
        ensures { self.new ≡ bodies_left_out_but kept.now self.old }
    {
        self.states.leave_out_other_bodies(kept);
    }

    /// Returns the number of PIDs of the stream so far, without the null packets' PID.
    pub fn pids(&self) -> usize
        ensures { result ≡ length self.now.states }
    {
        self.states.len()
    }

    /// Appends what the end of the stream decides of the bytes of a packet that is not whole. Nothing changes.
    ///
    /// After an `AllocError` drop `found`: nothing is promised of its contents.
    pub fn end_of_packet(
        &self,
        alloc: A,
        found: &mut Vec<Finding<'static, A>, A>,
    ) -> Result<(), AllocError>
        ensures { OnOk result (AddsFindings found.old.items found.new.items
            (stream.held_found self.now.packets self.now.held)) }
    {
        note_held(&alloc, self.packets, &self.held, found)
    }

    /// Appends what the end of the stream decides of the PID at an index, in the order of each PID's first packet.
    /// Nothing changes: `finish` notes the end of all PIDs at once.
    ///
    /// After an `AllocError` drop `found`: nothing is promised of its contents.
    pub fn end_of_pid(
        &self,
        index: usize,
        found: &mut Vec<Finding<'static, A>, A>,
    ) -> Result<(), AllocError>
        requires { index < length self.now.states }
        ensures { (entry : ℕ × PidState) → slice_get self.now.states index ≡ Some entry →
            OnOk result (AddsFindings found.old.items found.new.items (map
            (with_pid entry.0 self.now.packets) (ended true entry.1.open_unit))) }
    {
        self.states.end_at(index, self.packets, found)
    }

    // Returns the findings of the end of the stream.
    #[tactic(auto, unfolding(crate::specs::Stream::held_found))]
    fn ends(&self) -> Result<Vec<Finding<'static, A>, A>, AllocError>
        ensures found { IfOk result (λ found. map finding_view found.items
            ≡ stream.held_found self.now.packets self.now.held ++ stream.ended_found self.now.packets self.now.states) }
        ensures joined { IfOk result (λ found. list_any is_span found.items ≡ false) }
    {
        let alloc = *self.states.allocator();
        let mut found = Vec::new(alloc);
        note_held(&alloc, self.packets, &self.held, &mut found)?;
        self.states.end(self.packets, &mut found)?;
        Ok(found)
    }

    /// Ends the stream, and adds what the end decides to the findings. A second end adds nothing.
    pub fn finish(&mut self) -> Result<(), DemuxError>
        ensures ok { OnOk result (self.new ≡ stream.finished self.old) }
        ensures again { self.old.ended ≡ true → result ≡ Ok tt }
        ensures memory { IfErr result (λ error. error ≡ DemuxError.Memory 0) }
        ensures err { OnErr result (self.new ≡ self.old) }
    {
        if self.ended {
            return Ok(());
        }
        let Ok(mut found) = self.ends() else {
            return Err(DemuxError::Memory { taken: 0 });
        };
        if self.found.append(&mut found).is_err() {
            return Err(DemuxError::Memory { taken: 0 });
        }
        self.held.clear();
        self.ended = true;
        Ok(())
    }

    /// Returns what was found by `push` and `finish` and not forgotten since; the rest is dropped.
    pub fn into_findings(self) -> Vec<Finding<'static, A>, A>
        ensures found { map finding_view result.items ≡ self.found }
        ensures joined { list_any is_span result.items ≡ false }
    {
        self.found
    }
}

/// Returns the findings of a whole stream, with its end. Every part of a finding is joined.
pub fn whole<A: Allocator + Copy>(
    alloc: A,
    bytes: &[u8],
) -> Result<Vec<Finding<'static, A>, A>, DemuxError>
    ensures ok { IfOk result (λ found. map finding_view found.items ≡
        (stream.finished (stream.pushed stream.start bytes.now)).found) }
    ensures joined { IfOk result (λ found. list_any is_span found.items ≡ false) }
    ensures err { IfErr result (λ error. error ≡ DemuxError.Memory 0) }
{
    let mut demux = Demux::new(alloc);
    let Ok(()) = demux.push(bytes) else {
        return Err(DemuxError::Memory { taken: 0 });
    };
    let Ok(()) = demux.finish() else {
        return Err(DemuxError::Memory { taken: 0 });
    };
    Ok(demux.into_findings())
}
