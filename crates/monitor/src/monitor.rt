//! A stream packet by packet.
ghost use Rattle.std.specs.Prelude.{◌≡◌, ◌<◌, ◌^◌, ◌∷◌, [], false, true, IfOk, OnOk, length, map};
ghost use Rattle.demux.specs.Stream.{ended_found, is_aligned};
ghost use Rattle.monitor.specs.Taken.{HasTaken, ReportsTaken, Takes};
ghost use Rattle.monitor.specs.FindingStates.{all_noted};
ghost use Rattle.monitor.specs.MonitorStates.{found_to_end, packet_taken, stream_ended};
ghost use Rattle.monitor.specs.InOrder.{in_order};
ghost use Rattle.monitor.specs.ReportOf.{stream_report};
ghost use Rattle.monitor.specs.Reports.{grouped_faults, pid_counts, report_of};

use crate::counts::{FindingCountsByPid, PacketCountsByPid, finding_counts_so_far};
use crate::fault::{Rule, StreamFault};
use crate::finding_watch::FindingWatch;
use crate::packet_watch::PacketWatch;
use crate::reports::{PidCounts, Report, ReportError, append_late, in_order};
use clock27::Rate;
use demux::HeaderDemux;
use pid_findings::Finding;
use std::alloc::{AllocError, Allocator, Global};
use std::marker::Model;
use ts_packet::read_packet;

/// A monitor that takes a stream packet by packet: a state for each PID, and the faults so far. Of a PID its last
/// packet is kept, of its open section at most 4,098 bytes, and of its open PES packet the header.
///
/// After an `AllocError` its state describes no stream: drop it.
#[derive(Drop)]
pub struct Monitor<A: Allocator = Global> {
    alloc: A,
    demux: HeaderDemux<A>,
    packets: u64,
    seen: PacketWatch<A>,
    found: FindingWatch<A>,
}

impl<A: Allocator> Model for Monitor<A> {
    ghost use Rattle.std.specs.Prelude.{◌≡◌, true};
    ghost use Rattle.demux.specs.Stream.{is_aligned};
    ghost use Rattle.monitor.specs.MonitorStates.{MonitorState};

    ghost Value = { MonitorState };

    ghost view = { λ w. record { demux = w.demux; packets = w.packets; seen = w.seen; found = w.found } };

    ghost invariant = { λ w. is_aligned w.demux ≡ true };
}

// Returns all faults, in the order of the rules' groups.
#[tactic(auto, unfolding(crate::specs::Reports::grouped_faults))]
fn faults_of<A: Allocator + Copy>(
    alloc: A,
    packets: u64,
    seen: &PacketWatch<A>,
    found: &FindingWatch<A>,
) -> Result<Vec<StreamFault, A>, AllocError>
    ensures { IfOk result (λ faults. faults.items ≡ grouped_faults packets seen.now found.now) }
{
    let mut faults = Vec::new(alloc);
    faults.extend_from_slice(seen.faults.as_slice())?;
    append_late(&mut faults, Rule::Pcr, seen.pcr.late())?;
    found.append_faults(packets, &mut faults)?;
    Ok(faults)
}

// Returns all faults in order.
fn ordered_faults<A: Allocator + Copy>(
    alloc: A,
    packets: u64,
    seen: &PacketWatch<A>,
    found: &FindingWatch<A>,
) -> Result<Vec<StreamFault, A>, AllocError>
    ensures { IfOk result (λ faults. faults.items ≡ in_order (grouped_faults packets seen.now found.now)) }
{
    let faults = faults_of(alloc, packets, seen, found)?;
    Ok(in_order(faults))
}

// Notes what the end of the stream decides, PID by PID.
fn note_ends<A: Allocator + Copy>(
    alloc: A,
    demux: &HeaderDemux<A>,
    found: &mut FindingWatch<A>,
) -> Result<(), AllocError>
    ensures { OnOk result (found.new ≡ all_noted found.old (ended_found demux.now.packets demux.now.states)) }
{
    for i in 0..demux.pids() {
        let mut ends: Vec<Finding<'static, A>, A> = Vec::new(alloc);
        demux.end_of_pid(i, &mut ends)?;
        found.note_all(ends.as_slice())?;
    }
    Ok(())
}

// Returns the counts of the PIDs.
fn counts_of<A: Allocator + Copy>(
    alloc: A,
    packet_counts: &PacketCountsByPid<A>,
    finding_counts: &FindingCountsByPid<A>,
) -> Result<Vec<PidCounts, A>, AllocError>
    ensures { IfOk result
        (λ counts. counts.items ≡ map (pid_counts finding_counts.now.entries) packet_counts.now.entries) }
{
    let mut counts = Vec::new(alloc);
    for (pid, of_packets) in packet_counts {
        let of_findings = finding_counts_so_far(finding_counts, *pid);
        counts.push(PidCounts {
            pid: *pid,
            packets: of_packets.packets,
            starts: of_packets.starts,
            duplicates: of_findings.duplicates,
            scrambled: of_findings.scrambled,
        })?;
    }
    Ok(counts)
}

impl<A: Allocator + Copy> Monitor<A> {
    /// Returns the state before the first packet, at a rate in bits a second. The greatest gap of program clock
    /// references is in milliseconds.
    #[tactic(auto, unfolding(crate::specs::MonitorStates::packets_taken))]
    pub fn new(alloc: A, rate: Rate, pcr_limit: u32) -> Result<Monitor<A>, AllocError>
        ensures { IfOk result (λ monitor. HasTaken rate pcr_limit [] monitor) }
    {
        let bits = rate.bits_per_second();
        let found = FindingWatch::new(alloc, bits)?;
        Ok(Monitor {
            alloc,
            demux: HeaderDemux::new(alloc),
            packets: 0,
            seen: PacketWatch::new(alloc, pcr_limit as u64 * bits),
            found,
        })
    }

    // Takes the next packet if its first bytes show that nothing is found in it, and returns whether it is taken;
    // otherwise nothing changes.
    #[tactic(auto, using(crate::proofs::PlainPackets::plain_taken))]
    fn go_on(&mut self, bytes: &[u8; 188]) -> Result<bool, AllocError>
        ensures taken { IfOk result (λ went. went ≡ true → self.new ≡ packet_taken self.old bytes.now) }
        ensures stays { IfOk result (λ went. went ≡ false → self.new ≡ self.old) }
    {
        if !self.demux.go_on(bytes) {
            return Ok(false);
        }
        self.seen.go_on(bytes)?;
        self.packets = self.packets.saturating_add(1);
        Ok(true)
    }

    // Reads the next packet and notes its findings; `found` is their room, which calls share. It is not inlined: few
    // packets need it, and inlined it would slow all packets down.
    #[inline(never)]
    #[tactic(auto, using(crate::proofs::HeaderFindings::noted_in))]
    fn read_next<'a>(
        &mut self,
        bytes: &'a [u8; 188],
        found: &mut Vec<Finding<'a, A>, A>,
    ) -> Result<(), AllocError>
        ensures { OnOk result (self.new ≡ packet_taken self.old bytes.now) }
    {
        let read = read_packet(bytes);
        found.clear();
        self.demux.take_read(bytes, &read, found)?;
        self.found.note_all(found.as_slice())?;
        self.seen.take(self.packets, &read)?;
        self.packets = self.packets.saturating_add(1);
        Ok(())
    }

    // Takes the next packet.
    fn take_next<'a>(
        &mut self,
        bytes: &'a [u8; 188],
        found: &mut Vec<Finding<'a, A>, A>,
    ) -> Result<(), AllocError>
        ensures { OnOk result (self.new ≡ packet_taken self.old bytes.now) }
    {
        if self.go_on(bytes)? {
            return Ok(());
        }
        self.read_next(bytes, found)
    }

    /// Takes the next packet.
    pub fn take(&mut self, bytes: &[u8; 188]) -> Result<(), AllocError>
        ensures { OnOk result (Takes (bytes.now ∷ []) self.old self.new) }
    {
        let mut found = Vec::new(self.alloc);
        self.take_next(bytes, &mut found)
    }

    /// Takes the next packets.
    #[tactic(auto, unfolding(crate::specs::MonitorStates::packets_taken))]
    pub fn take_all(&mut self, packets: &[[u8; 188]]) -> Result<(), AllocError>
        ensures { OnOk result (Takes packets.now self.old self.new) }
    {
        let mut found = Vec::new(self.alloc);
        for packet in packets {
            self.take_next(packet, &mut found)?;
        }
        Ok(())
    }

    // Notes the findings at the end of the stream, and the last gap of the program association table.
    #[tactic(auto, unfolding(crate::specs::MonitorStates::found_to_end))]
    fn end_findings(&mut self) -> Result<(), AllocError>
        ensures { OnOk result (self.new ≡ record self.old {
          found = found_to_end self.old.found self.old.packets self.old.demux;
        }) }
    {
        note_ends(self.alloc, &self.demux, &mut self.found)?;
        self.found.end_pat(self.packets)
    }

    // Returns the report of the stream so far.
    #[tactic(auto, unfolding(crate::specs::Reports::report_of, crate::specs::Reports::all_counts, crate::specs::Reports::all_faults))]
    fn report(&self) -> Result<Report<A>, AllocError>
        ensures { IfOk result (λ report. report ≡ report_of self.now) }
    {
        let pids = counts_of(self.alloc, self.seen.counts(), self.found.counts())?;
        let faults = ordered_faults(self.alloc, self.packets, &self.seen, &self.found)?;
        Ok(Report::new(self.packets, pids, faults))
    }

    // Returns the report of the stream, which ends here: after a whole packet, or within one (`cut`).
    #[tactic(auto, unfolding(crate::specs::MonitorStates::stream_ended, crate::specs::MonitorStates::seen_to_end))]
    fn end_report(&mut self, cut: bool) -> Result<Report<A>, AllocError>
        ensures { IfOk result (λ report. report ≡ report_of (stream_ended self.old cut)) }
    {
        self.end_findings()?;
        if cut {
            self.seen.fail(self.packets, Rule::Cut)?;
        }
        self.report()
    }

    /// Returns the report of the stream that was taken, which ends here: after a whole packet, or within one (`cut`).
    pub fn finish(mut self, cut: bool) -> Result<Report<A>, AllocError>
        ensures { IfOk result (λ report. ReportsTaken self cut report) }
    {
        let report = self.end_report(cut);
        // By a call: at the end of a function the drop of each part would be a step of its proof.
        drop(self);
        report
    }
}

// Returns the report of a whole stream.
fn watch<A: Allocator + Copy>(
    alloc: A,
    rate: Rate,
    pcr_limit: u32,
    bytes: &[u8],
) -> Result<Report<A>, AllocError>
    ensures { IfOk result (λ report. length bytes.now < 2 ^ 64 → report ≡ stream_report rate pcr_limit bytes.now) }
{
    let mut monitor = Monitor::new(alloc, rate, pcr_limit)?;
    let (packets, _) = bytes.as_chunks::<188>();
    match monitor.take_all(packets) {
        Ok(()) => monitor.finish(bytes.len() % 188 != 0),
        Err(error) => {
            // By a call: at the end of a function the drop of each part would be a step of its proof.
            drop(monitor);
            Err(error)
        }
    }
}

/// Returns the report of a whole stream, which is cut by 188 from its first byte.
///
/// `rate` is in bits a second; `pcr_limit`, the greatest gap between program clock references, in milliseconds.
#[tactic(auto, using(crate::proofs::TakenPackets::with_room))]
pub fn report<A: Allocator + Copy>(
    alloc: A,
    rate: Rate,
    pcr_limit: u32,
    bytes: &[u8],
) -> Result<Report<A>, ReportError>
    ensures { IfOk result (λ report. report ≡ stream_report rate pcr_limit bytes.now) }
{
    match watch(alloc, rate, pcr_limit, bytes) {
        Ok(report) => Ok(report),
        Err(_) => Err(ReportError::Memory),
    }
}
