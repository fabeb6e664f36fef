//! Findings of a stream's PIDs: counters, sections, and where tables and PES packets begin.
ghost use Rattle.std.specs.Prelude.{◌≡◌, ◌≤◌, ◌++◌, ◌∷◌, [], IfOk, OnOk, Some, map};
ghost use Rattle.pid_findings.specs.Shown.{finding_view, what_view};
ghost use Rattle.monitor.specs.Reports.{found_faults};
ghost use Rattle.monitor.specs.MonitorStates.{pat_marked};
ghost use Rattle.monitor.specs.FindingStates.{all_noted, begun_noted, finding_noted, none_noted, section_noted};
ghost use Rattle.monitor.specs.FindingStates.{what_noted};

use crate::counts::{FindingCountsByPid, count_duplicate, count_scrambled};
use crate::fault::{Rule, StreamFault};
use crate::program_maps::ProgramMapWatch;
use crate::recurrence::RecurrenceWatch;
use crate::reports::append_late;
use crate::table_watch::TableWatch;
use indexmap::IndexMap;
use pid_findings::{Finding, Kind, What};
use psi_tables::SectionError;
use std::alloc::{AllocError, Allocator};
use std::marker::Model;

/// The faults of single findings, the counts, and where what has to recur has begun.
#[derive(Drop)]
pub(crate) struct FindingWatch<A: Allocator> {
    pub faults: Vec<StreamFault, A>,
    finding_counts: FindingCountsByPid<A>,
    pub pat: TableWatch<A>,
    pub pmt: ProgramMapWatch<A>,
    pub nit: TableWatch<A>,
    pub sdt: TableWatch<A>,
    pub eit: TableWatch<A>,
    pub tdt: TableWatch<A>,
    pub pts: RecurrenceWatch<A>,
}

impl<A: Allocator> Model for FindingWatch<A> {
    ghost use Rattle.monitor.specs.FindingStates.{FindingState};

    ghost Value = { FindingState };

    ghost view = { λ w. record {
      faults = w.faults.items;
      finding_counts = w.finding_counts.entries;
      pat = w.pat;
      pmt = w.pmt;
      nit = w.nit;
      sdt = w.sdt;
      eit = w.eit;
      tdt = w.tdt;
      pts = w.pts;
    } };
}

impl<A: Allocator + Copy> FindingWatch<A> {
    /// Returns the state before the first packet, at a rate in bits a second.
    pub fn new(alloc: A, rate: u64) -> Result<FindingWatch<A>, AllocError>
        requires { rate ≤ 100000000 }
        ensures { IfOk result (λ watch. watch ≡ none_noted rate) }
    {
        let mut pat = TableWatch::new(alloc, 0x00, 0x00, 500 * rate);
        pat.mark(0)?;
        Ok(FindingWatch {
            faults: Vec::new(alloc),
            finding_counts: IndexMap::new(alloc),
            pat,
            pmt: ProgramMapWatch::new(alloc, 500 * rate),
            nit: TableWatch::new(alloc, 0x10, 0x40, 10_000 * rate),
            sdt: TableWatch::new(alloc, 0x11, 0x42, 2_000 * rate),
            eit: TableWatch::new(alloc, 0x12, 0x4E, 2_000 * rate),
            tdt: TableWatch::new(alloc, 0x14, 0x70, 30_000 * rate),
            pts: RecurrenceWatch::new(alloc, 700 * rate),
        })
    }

    /// Returns the counts of each PID.
    pub fn counts(&self) -> &FindingCountsByPid<A>
        ensures { result.now.entries ≡ self.now.finding_counts }
    {
        &self.finding_counts
    }

    // Notes that a section found at a packet began on a PID.
    fn begin_section(
        &mut self,
        pid: u16,
        found: u64,
        packet: u64,
        table_id: u8,
    ) -> Result<(), AllocError>
        ensures { OnOk result (self.new ≡ section_noted self.old pid found packet table_id) }
    {
        self.pat.begin(pid, table_id, packet)?;
        self.nit.begin(pid, table_id, packet)?;
        self.sdt.begin(pid, table_id, packet)?;
        self.eit.begin(pid, table_id, packet)?;
        self.tdt.begin(pid, table_id, packet)?;
        if table_id == 0x02 {
            self.pmt.begin(pid, found, packet)?;
        }
        Ok(())
    }

    // Notes that a section or a PES packet found at a packet began on a PID.
    #[tactic(auto, unfolding(crate::specs::FindingStates::begun_noted))]
    fn begin(&mut self, pid: u16, found: u64, packet: u64, kind: Kind) -> Result<(), AllocError>
        ensures { OnOk result (self.new ≡ begun_noted self.old pid found packet kind) }
    {
        match kind {
            Kind::Table(table_id) => self.begin_section(pid, found, packet, table_id),
            Kind::Pes { stamped: true, .. } => self.pts.mark(pid, packet),
            Kind::Pes { stamped: false, .. } => Ok(()),
        }
    }

    fn fail(&mut self, packet: u64, rule: Rule, pid: u16) -> Result<(), AllocError>
        ensures { OnOk result (self.new ≡ record self.old {
          faults = self.old.faults ++
              (record { packet = packet; rule = rule; pid = Some pid }) ∷ [];
        }) }
    {
        self.faults.push(StreamFault {
            packet,
            rule,
            pid: Some(pid),
        })?;
        Ok(())
    }

    // Notes a finding of a PID at a packet.
    #[tactic(auto, unfolding(crate::specs::FindingStates::what_noted))]
    fn note_what(&mut self, pid: u16, packet: u64, what: &What<'_, A>) -> Result<(), AllocError>
        ensures { OnOk result (self.new ≡ what_noted self.old pid packet (what_view what.now)) }
    {
        match what {
            What::Duplicate => count_duplicate(&mut self.finding_counts, pid),
            What::CounterBreak { .. } => self.fail(packet, Rule::Counter, pid),
            What::Scrambled => count_scrambled(&mut self.finding_counts, pid),
            What::Truncated(_) => Ok(()),
            What::Section(part) => {
                if pid == 0 {
                    self.pmt.read(part.bytes(), packet)
                } else {
                    Ok(())
                }
            }
            What::BadSection(SectionError::CheckWord) => self.fail(packet, Rule::Crc, pid),
            What::BadSection(_) => self.fail(packet, Rule::Section, pid),
            What::Pes { .. } => Ok(()),
            What::BadPes(_) => Ok(()),
            What::BadPacket(_) => Ok(()),
            What::Errored => Ok(()),
            What::Stray(_) => Ok(()),
        }
    }

    // Notes a finding.
    #[tactic(auto, unfolding(crate::specs::FindingStates::noted_from, crate::specs::FindingStates::begun_by))]
    fn note(&mut self, finding: &Finding<'_, A>) -> Result<(), AllocError>
        ensures { OnOk result (self.new ≡ finding_noted self.old (finding_view finding.now)) }
    {
        match finding.pid {
            None => Ok(()),
            Some(pid) => {
                if let Some((packet, kind)) = finding.begun {
                    self.begin(pid, finding.packet, packet, kind)?;
                }
                self.note_what(pid, finding.packet, &finding.what)
            }
        }
    }

    /// Notes the findings in turn.
    #[tactic(auto, unfolding(crate::specs::FindingStates::all_noted))]
    pub fn note_all(&mut self, found: &[Finding<'_, A>]) -> Result<(), AllocError>
        ensures { OnOk result (self.new ≡ all_noted self.old (map finding_view found.now)) }
    {
        for finding in found {
            self.note(finding)?;
        }
        Ok(())
    }

    /// Ends the last gap of the program association table with the stream, which has `packets` packets.
    #[tactic(auto, unfolding(crate::specs::MonitorStates::pat_marked))]
    pub fn end_pat(&mut self, packets: u64) -> Result<(), AllocError>
        ensures { OnOk result (self.new ≡ pat_marked self.old packets) }
    {
        self.pat.mark(packets)
    }

    /// Appends the faults, at the end of a stream of `packets` packets.
    pub fn append_faults(
        &self,
        packets: u64,
        faults: &mut Vec<StreamFault, A>,
    ) -> Result<(), AllocError>
        ensures { OnOk result (faults.new.items ≡ faults.old.items ++ found_faults packets self.now) }
    {
        faults.extend_from_slice(self.faults.as_slice())?;
        append_late(faults, Rule::Pat, self.pat.late())?;
        append_late(faults, Rule::Pmt, self.pmt.late())?;
        self.pmt.append_ended(packets, faults)?;
        append_late(faults, Rule::Nit, self.nit.late())?;
        append_late(faults, Rule::Sdt, self.sdt.late())?;
        append_late(faults, Rule::Eit, self.eit.late())?;
        append_late(faults, Rule::Tdt, self.tdt.late())?;
        append_late(faults, Rule::Pts, self.pts.late())
    }
}
