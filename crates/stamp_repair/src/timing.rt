//! Findings with the moments of teletext that has no stamps.

ghost use Rattle.std.specs.Prelude.{◌≡◌, ◌==◌, [], IfOk, find, map, option_map};
ghost use Rattle.pid_findings.specs.Shown.{finding_view, what_view};
ghost use Rattle.program_tables.specs.Association.{association};
ghost use Rattle.stamp_repair.specs.DataTimes as spec;

use crate::clock_line::{ClockLine, ShownClocks};
use crate::seen_stamps::{PRIVATE_STREAM, SeenStamps, seen_in};
use descriptor_loops::has_tag;
use packet_pcr::FoundPcr;
use pes_packet::{PesHeader, Stamps};
use pid_findings::{Finding, Kind, What};
use program_tables::named_programs;
use std::alloc::{AllocError, Global};
use std::collections::VecDeque;
use std::marker::Model;
use stream_programs::{FoundProgram, FoundPrograms, FoundStream, found_programs};

// Tag of a teletext_descriptor (EN 300 468, table 12).
const TELETEXT: u8 = 0x56;

// The first of some programs that has a number.
fn program_of(programs: &[FoundProgram], number: u16) -> Option<&FoundProgram>
    ensures { option_map (λ p. p.now) result ≡ find (λ p. p.number == number) programs.now }
{
    programs.iter().find(|program| program.number == number)
}

/// Returns the first of some streams that has a PID.
pub fn stream_on(streams: &[FoundStream], pid: u16) -> Option<&FoundStream>
    ensures { option_map (λ s. s.now) result ≡ find (λ s. s.pid == pid) streams.now }
{
    streams.iter().find(|stream| stream.pid == pid)
}

/// Returns the PID of the references of a program's clock (ISO/IEC 13818-1, 2.4.4.9).
#[tactic(auto, unfolding(crate::specs::DataTimes::pcr_if))]
pub fn pcr_of(programs: &[FoundProgram], number: u16) -> Option<u16>
    ensures { result ≡ spec.pcr_if (find (λ p. p.number == number) programs.now) }
{
    match program_of(programs, number) {
        Some(program) => Some(program.pcr_pid),
        None => None,
    }
}

// Returns the PID of the clock references of a stream's program, if the stream is teletext.
#[tactic(auto, unfolding(crate::specs::DataTimes::clock_of))]
fn clock_of(found: &FoundPrograms, stream: &FoundStream) -> Option<u16>
    ensures { result ≡ spec.clock_of found.now stream.now }
{
    if !has_tag(TELETEXT, &stream.descriptors) {
        return None;
    }
    pcr_of(&found.programs, stream.program)
}

// Returns the PID of the clock references of the teletext on a PID.
#[tactic(auto, unfolding(crate::specs::DataTimes::clock_on, crate::specs::DataTimes::clock_if))]
fn clock_on(found: &FoundPrograms, pid: u16) -> Option<u16>
    ensures { result ≡ spec.clock_on found.now pid }
{
    match stream_on(&found.streams, pid) {
        Some(stream) => clock_of(found, stream),
        None => None,
    }
}

// A header with this PTS.
fn with_pts(moment: u64, header: PesHeader) -> PesHeader
    ensures { result ≡ spec.with_pts moment header }
{
    PesHeader {
        id: header.id,
        len: header.len,
        stamps: Stamps::Pts(moment),
        flags: header.flags,
        data_length: header.data_length,
        private_data: header.private_data,
    }
}

// Returns what a finding has, at this moment if it is a PES packet of private_stream_1.
#[tactic(auto, unfolding(crate::specs::DataTimes::timed_what))]
fn timed_what<'a>(moment: u64, what: What<'a>) -> What<'a>
    ensures { what_view result ≡ spec.timed_what moment (what_view what.entry) }
{
    match what {
        What::Pes {
            header,
            unended,
            body,
        } => {
            let header = if header.id == PRIVATE_STREAM {
                with_pts(moment, header)
            } else {
                header
            };
            What::Pes {
                header,
                unended,
                body,
            }
        }
        other => other,
    }
}

// Returns what begins, as a PES packet that continues no unit.
#[tactic(auto, unfolding(crate::specs::DataTimes::as_first))]
fn as_first(begun: Option<(u64, Kind)>) -> Option<(u64, Kind)>
    ensures { result ≡ spec.as_first begun }
{
    match begun {
        None => None,
        Some((packet, Kind::Table(id))) => Some((packet, Kind::Table(id))),
        Some((packet, Kind::Pes { access, .. })) => Some((
            packet,
            Kind::Pes {
                stamped: true,
                access,
            },
        )),
    }
}

// A finding at its moment, if it has one.
#[tactic(auto, unfolding(crate::specs::DataTimes::timed_finding))]
fn timed_finding<'a>(moment: Option<u64>, finding: Finding<'a>) -> Finding<'a>
    ensures { finding_view result ≡ spec.timed_finding moment (finding_view finding.entry) }
{
    let Some(moment) = moment else {
        return finding;
    };
    Finding {
        packet: finding.packet,
        pid: finding.pid,
        begun: as_first(finding.begun),
        what: timed_what(moment, finding.what),
    }
}

/// Returns the programs that the tables in findings name.
#[tactic(auto, unfolding(crate::specs::DataTimes::programs_by))]
pub fn programs_in(alloc: Global, findings: &[Finding<'_>]) -> Result<FoundPrograms, AllocError>
    ensures { IfOk result (λ found. found
        ≡ spec.programs_by (association (map finding_view findings.now)) (map finding_view findings.now)) }
{
    match named_programs(alloc, findings)? {
        None => found_programs(alloc, &[], findings),
        Some(association) => found_programs(alloc, &association.programs, findings),
    }
}

// What clocks with these references show first.
fn first_shown(alloc: Global, references: &[FoundPcr]) -> Result<ShownClocks, AllocError>
    ensures { IfOk result (λ clocks. clocks ≡ spec.first_shown [] references.now) }
{
    let mut clocks = ShownClocks::new(alloc);
    clocks.show_first(references)?;
    Ok(clocks)
}

/// The teletext of a stream without stamps, and the clocks that give it moments.
#[derive(Drop)]
pub struct TextTimes {
    programs: FoundPrograms,
    seen: SeenStamps,
    first: ShownClocks,
}

// A contract sees its parts.
impl Model for TextTimes {
    ghost use Rattle.stamp_repair.specs.DataTimes.{TimesView};

    ghost Value = { TimesView };

    ghost view = { λ t. record { programs = t.programs; seen = t.seen; first = t.first } };
}

/// Returns the teletext without stamps in the findings of a stream with these clock references.
pub fn text_times(
    alloc: Global,
    references: &[FoundPcr],
    findings: &[Finding<'_>],
) -> Result<TextTimes, AllocError>
    ensures { IfOk result (λ t. t ≡ spec.times_of references.now (map finding_view findings.now)) }
{
    let programs = programs_in(alloc, findings)?;
    let seen = seen_in(alloc, findings)?;
    let first = first_shown(alloc, references)?;
    Ok(TextTimes {
        programs,
        seen,
        first,
    })
}

impl TextTimes {
    // What the clock of a PID shows, if the PID has teletext without stamps.
    #[tactic(auto, unfolding(crate::specs::DataTimes::moment_of))]
    fn moment_of(&self, clocks: &ShownClocks, pid: u16) -> Option<u64>
        ensures { result ≡ spec.moment_of self.now clocks.now pid }
    {
        if !self.seen.is_unstamped(pid) {
            return None;
        }
        let clock = clock_on(&self.programs, pid)?;
        clocks.of(clock)
    }

    // The moment of a PID's finding.
    #[tactic(auto, unfolding(crate::specs::DataTimes::moment_on))]
    fn moment_on(&self, clocks: &ShownClocks, pid: Option<u16>) -> Option<u64>
        ensures { result ≡ spec.moment_on self.now clocks.now pid }
    {
        match pid {
            None => None,
            Some(pid) => self.moment_of(clocks, pid),
        }
    }

    /// Returns whether a PID has teletext without stamps that has moments.
    pub fn is_timed(&self, pid: u16) -> bool
        ensures { result ≡ spec.is_timed self.now pid }
    {
        self.moment_of(&self.first, pid).is_some()
    }

    // The findings with their moments, from a place on the line of the clocks.
    fn timed_from(
        &self,
        alloc: Global,
        line: ClockLine<'_>,
        findings: Vec<Finding<'static>>,
    ) -> Result<Vec<Finding<'static>>, AllocError>
        ensures { IfOk result (λ timed. map finding_view timed.items
            ≡ spec.timed_from self.now line.entry (map finding_view findings.entry.items)) }
    {
        let mut timed = Vec::with_capacity(alloc, findings.len())?;
        let mut line = line;
        let mut left = VecDeque::from(findings);
        while let Some(finding) = left.pop_front() {
            line.pass(finding.packet)?;
            let moment = self.moment_on(&line.clocks, finding.pid);
            timed.push(timed_finding(moment, finding))?;
        }
        Ok(timed)
    }

    /// Returns the findings of a stream with these clock references, which are in the order of their packets. Each PES
    /// packet of teletext (EN 300 472) on a PID where none has a PTS gets one: the moment that its program's clock
    /// showed last when it was found, in units of 90 kHz modulo 2^33. All else stays as it is.
    pub fn time_all(
        &self,
        alloc: Global,
        references: &[FoundPcr],
        findings: Vec<Finding<'static>>,
    ) -> Result<Vec<Finding<'static>>, AllocError>
        ensures { IfOk result (λ timed. map finding_view timed.items
            ≡ spec.timed_by self.now references.now (map finding_view findings.entry.items)) }
    {
        let clocks = first_shown(alloc, references)?;
        let line = ClockLine {
            clocks,
            later: references,
        };
        self.timed_from(alloc, line, findings)
    }
}
