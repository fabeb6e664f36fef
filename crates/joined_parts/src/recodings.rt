//! PIDs whose coding changes within a recording.

ghost use Rattle.std.specs.Prelude.{◌≡◌, ◌<◌, [], IfOk, OnOk, nat_eq, map, option_map};
ghost use Rattle.std.specs.Map.{lookup};
ghost use Rattle.psi_tables.specs.ProgramMap.{pmt_view, stream_view, streams_of};
ghost use Rattle.pid_findings.specs.Shown.{finding_view};
ghost use Rattle.stream_programs.specs.FreePids.{least_free};
ghost use Rattle.joined_parts.specs.Recodings as spec;

use indexmap::IndexMap;
use pid_findings::Finding;
use program_tables::{any_map, program_found};
use psi_tables::{Pmt, Program, Stream, Streams};
use std::alloc::{AllocError, Global};
use std::hash::{BuildHasherDefault, FoldHasher};
use std::marker::Model;
use stream_coding::{Coding, coding_of};
use stream_programs::PidList;

// The most changes of a recording.
const MAX_RECODINGS: usize = 256;

/// A change of the coding of a PID.
#[derive(Clone, Copy)]
pub struct Recoding {
    pub pid: u16,
    /// The PID that carries what the PID carries before the change.
    pub to: u16,
    /// The packet that ends the first map with the new coding.
    pub packet: u64,
}

/// By program and PID: the coding that the last map names.
type Codings = IndexMap<u64, u16, BuildHasherDefault<FoldHasher>, Global>;

/// The codings of PIDs up to a packet, and their changes.
#[derive(Drop)]
struct CodingChanges {
    codings: Codings,
    taken: PidList<Global>,
    recodings: Vec<Recoding>,
}

// A contract sees lists.
impl Model for CodingChanges {
    ghost use Rattle.joined_parts.specs.Recodings.{CodingsView};

    ghost Value = { CodingsView };

    ghost view = { λ c. record {
      codings = c.codings.entries;
      taken = c.taken;
      recodings = c.recodings.items;
    } };
}

// The kind of private data.
#[tactic(auto, unfolding(crate::specs::Recodings::kind_of))]
fn kind_of(coding: Coding) -> u16
    ensures value { result ≡ spec.kind_of coding }
    ensures range { result < 8 }
{
    match coding {
        Coding::Ac3 => 1,
        Coding::Subtitles => 2,
        Coding::Teletext => 3,
        Coding::Pcm(_) => 4,
        _ => 0,
    }
}

// How a stream is coded, as a number.
fn coding_number(stream: Stream<'_>) -> u16
    ensures { result ≡ spec.coding_number (stream_view stream.entry) }
{
    u16::from(stream.stream_type) * 8
        + kind_of(coding_of(stream.stream_type, stream.descriptors, &[]))
}

// Adds a PID, unless it is there.
#[tactic(auto, unfolding(crate::specs::Recodings::with_pid))]
fn add_pid(pids: &mut PidList<Global>, pid: u16) -> Result<(), AllocError>
    ensures { OnOk result (pids.new ≡ spec.with_pid pids.old pid) }
{
    if pids.has(pid) {
        return Ok(());
    }
    pids.add(pid)
}

// Adds the PIDs of streams.
#[tactic(auto, unfolding(crate::specs::Recodings::with_stream_pids))]
fn add_stream_pids(pids: &mut PidList<Global>, streams: Streams<'_>) -> Result<(), AllocError>
    ensures { OnOk result (pids.new ≡ spec.with_stream_pids pids.old (streams_of streams.entry)) }
{
    for stream in streams {
        add_pid(pids, stream.elementary_pid)?;
    }
    Ok(())
}

// Adds the PIDs that a map names, if there is one.
#[tactic(auto, unfolding(crate::specs::Recodings::with_map_pids))]
fn add_map_pids(pids: &mut PidList<Global>, pmt: Option<Pmt<'_>>) -> Result<(), AllocError>
    ensures { OnOk result (pids.new ≡ spec.with_map_pids pids.old (option_map pmt_view pmt.entry)) }
{
    match pmt {
        None => Ok(()),
        Some(pmt) => {
            add_pid(pids, pmt.pcr_pid)?;
            add_stream_pids(pids, pmt.streams)
        }
    }
}

// Adds a PID, if there is one.
#[tactic(auto, unfolding(crate::specs::Recodings::with_pid_if))]
fn add_pid_if(pids: &mut PidList<Global>, pid: Option<u16>) -> Result<(), AllocError>
    ensures { OnOk result (pids.new ≡ spec.with_pid_if pids.old pid) }
{
    match pid {
        None => Ok(()),
        Some(pid) => add_pid(pids, pid),
    }
}

// Adds the PIDs of a finding.
fn add_pids_of(pids: &mut PidList<Global>, finding: &Finding<'_>) -> Result<(), AllocError>
    ensures { OnOk result (pids.new ≡ spec.with_pids_of pids.old (finding_view finding.now)) }
{
    add_pid_if(pids, finding.pid)?;
    add_map_pids(pids, any_map(finding))
}

// The PIDs of findings.
fn pids_in(alloc: Global, findings: &[Finding<'_>]) -> Result<PidList<Global>, AllocError>
    ensures { IfOk result (λ pids. pids ≡ spec.pids_after [] (map finding_view findings.now)) }
{
    let mut pids = PidList::new(alloc);
    for finding in findings {
        add_pids_of(&mut pids, finding)?;
    }
    Ok(pids)
}

// Whether a coding is other than the one before, if there is one.
#[tactic(auto, unfolding(crate::specs::Recodings::is_other_coding))]
fn is_other_coding(before: Option<u16>, coding: u16) -> bool
    ensures { result ≡ spec.is_other_coding before coding }
{
    match before {
        None => false,
        Some(before) => before != coding,
    }
}

impl CodingChanges {
    // The coding under a key.
    fn coding_under(&self, key: u64) -> Option<u16>
        ensures { result ≡ lookup (nat_eq key) self.now.codings }
    {
        self.codings.get(&key).copied()
    }

    // Gives what a PID carries before a packet the next PID that is free, if there is one.
    #[tactic(auto, unfolding(crate::specs::Recodings::with_recoding))]
    fn add_recoding(&mut self, pid: u16, packet: u64) -> Result<(), AllocError>
        ensures { OnOk result (self.new ≡ spec.with_recoding self.old pid packet (least_free pid self.old.taken)) }
    {
        let Some(to) = self.taken.free_from(pid) else {
            return Ok(());
        };
        self.taken.add(to)?;
        self.recodings.push(Recoding { pid, to, packet })?;
        Ok(())
    }

    // Takes a change of a coding, if it is one.
    #[tactic(auto, unfolding(crate::specs::Recodings::with_change))]
    fn take_change(&mut self, pid: u16, packet: u64, changes: bool) -> Result<(), AllocError>
        ensures { OnOk result (self.new ≡ spec.with_change self.old pid packet changes) }
    {
        if changes && self.recodings.len() < MAX_RECODINGS {
            return self.add_recoding(pid, packet);
        }
        Ok(())
    }

    // Notes the coding under a key.
    #[tactic(auto, unfolding(crate::specs::Recodings::with_coding))]
    fn note(&mut self, key: u64, coding: u16) -> Result<(), AllocError>
        ensures { OnOk result (self.new ≡ spec.with_coding self.old key coding) }
    {
        self.codings.insert(key, coding)?;
        Ok(())
    }

    // Takes the coding of a PID under a key, as a map in a packet names it.
    fn take_coding(
        &mut self,
        key: u64,
        pid: u16,
        coding: u16,
        packet: u64,
    ) -> Result<(), AllocError>
        ensures { OnOk result (self.new ≡ spec.coded_after self.old key pid coding packet) }
    {
        let changes = is_other_coding(self.coding_under(key), coding);
        self.take_change(pid, packet, changes)?;
        self.note(key, coding)
    }

    // Takes a stream of a map.
    fn take_stream(&mut self, key: u32, packet: u64, stream: Stream<'_>) -> Result<(), AllocError>
        ensures { OnOk result (self.new ≡ spec.with_stream_coding self.old key packet (stream_view stream.entry)) }
    {
        let pid = stream.elementary_pid;
        self.take_coding(
            u64::from(key) * 65_536 + u64::from(pid),
            pid,
            coding_number(stream),
            packet,
        )
    }

    // Takes the streams of a map.
    #[tactic(auto, unfolding(crate::specs::Recodings::with_codings))]
    fn take_streams(
        &mut self,
        key: u32,
        packet: u64,
        streams: Streams<'_>,
    ) -> Result<(), AllocError>
        ensures { OnOk result (self.new ≡ spec.with_codings self.old key packet (streams_of streams.entry)) }
    {
        for stream in streams {
            self.take_stream(key, packet, stream)?;
        }
        Ok(())
    }

    // Takes a map, if there is one.
    #[tactic(auto, unfolding(crate::specs::Recodings::with_map_codings))]
    fn take_map(
        &mut self,
        packet: u64,
        program: Option<Program>,
        pmt: Option<Pmt<'_>>,
    ) -> Result<(), AllocError>
        ensures { OnOk result (self.new
            ≡ spec.with_map_codings self.old packet program (option_map pmt_view pmt.entry)) }
    {
        match (program, pmt) {
            (Some(program), Some(pmt)) => self.take_streams(
                u32::from(program.program_number),
                packet,
                pmt.streams,
            ),
            _ => Ok(()),
        }
    }

    // Takes the map of a finding.
    fn take(&mut self, finding: &Finding<'_>) -> Result<(), AllocError>
        ensures { OnOk result (self.new ≡ spec.with_codings_of self.old (finding_view finding.now)) }
    {
        self.take_map(finding.packet, program_found(finding), any_map(finding))
    }

    // Takes the maps of findings.
    fn take_all(&mut self, findings: &[Finding<'_>]) -> Result<(), AllocError>
        ensures { OnOk result (self.new ≡ spec.codings_after self.old (map finding_view findings.now)) }
    {
        for finding in findings {
            self.take(finding)?;
        }
        Ok(())
    }
}

/// Returns the changes of codings in a recording with these findings, in the order of their packets.
pub fn recodings_in(alloc: Global, findings: &[Finding<'_>]) -> Result<Vec<Recoding>, AllocError>
    ensures { IfOk result (λ rs. rs.items ≡ spec.recodings_in (map finding_view findings.now)) }
{
    let mut changes = CodingChanges {
        codings: IndexMap::new(alloc),
        taken: pids_in(alloc, findings)?,
        recodings: Vec::new(alloc),
    };
    changes.take_all(findings)?;
    Ok(changes.recodings)
}
