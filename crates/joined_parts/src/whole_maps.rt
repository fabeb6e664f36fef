//! A recording that was joined from several, with the tables and the clock of one.

ghost use Rattle.std.specs.Prelude.{◌≡◌, ◌<◌, IfOk, OnOk, map, option_map};
ghost use Rattle.psi_tables.specs.ProgramMap.{pmt_view, streams_of};
ghost use Rattle.pid_findings.specs.Shown.{finding_view, what_view};
ghost use Rattle.joined_parts.specs.WholeMaps as spec;

use crate::known_maps::RecordingMaps;
use crate::map_streams::{KnownMap, all_streams, is_named};
use arrayvec::ArrayVec;
use packet_pcr::FoundPcr;
use pid_findings::{Finding, Part, What};
use program_tables::{any_map, program_found};
use psi_tables::{LongHeader, Pmt, Streams};
use std::alloc::{AllocError, Global};

/// The PID that a map names where its program has no clock references (ISO/IEC 13818-1, 2.4.4.9).
const NO_CLOCK_REFERENCES: u16 = 0x1fff;

// Whether a map names all of these streams.
#[tactic(auto, unfolding(crate::specs::WholeMaps::names_all))]
fn names_all(named: Streams<'_>, streams: Streams<'_>) -> bool
    ensures { result ≡ spec.names_all (streams_of named.entry) (streams_of streams.entry) }
{
    for stream in streams {
        if !is_named(named, stream.elementary_pid) {
            return false;
        }
    }
    true
}

// The section of a map, if its numbers and its descriptors have room.
#[tactic(auto, unfolding(crate::specs::WholeMaps::written_map))]
fn written_map(alloc: Global, pmt: Pmt<'_>) -> Result<Option<Vec<u8>>, AllocError>
    ensures { IfOk result (λ bytes. option_map (λ b. b.items) bytes ≡ spec.written_map (pmt_view pmt.entry)) }
{
    if pmt.header.version_number >= 32 {
        return Ok(None);
    }
    if pmt.pcr_pid >= 8192 {
        return Ok(None);
    }
    let mut section = ArrayVec::new();
    match pmt.write_to(&mut section) {
        Ok(()) => {
            let bytes = section.as_slice().to_vec(alloc)?;
            Ok(Some(bytes))
        }
        Err(_) => Ok(None),
    }
}

/// Returns the section of a map with other streams, if its numbers and its descriptors have room.
pub(crate) fn section_with<'a>(
    alloc: Global,
    header: LongHeader,
    pcr_pid: u16,
    program_info: &'a [u8],
    streams: Streams<'a>,
) -> Result<Option<Vec<u8>>, AllocError>
    ensures { IfOk result (λ bytes. option_map (λ b. b.items) bytes
        ≡ spec.section_with header pcr_pid program_info.now (streams_of streams.entry)) }
{
    let pmt = Pmt {
        header,
        pcr_pid,
        program_info,
        streams,
    };
    written_map(alloc, pmt)
}

// The section of a map with these streams after its own.
fn written_with(
    alloc: Global,
    pmt: &Pmt<'_>,
    streams: Streams<'_>,
) -> Result<Option<Vec<u8>>, AllocError>
    ensures { IfOk result (λ bytes. option_map (λ b. b.items) bytes
        ≡ spec.whole_bytes (pmt_view pmt.now) (streams_of streams.entry)) }
{
    let all = all_streams(pmt.streams, streams);
    section_with(
        alloc,
        pmt.header,
        pmt.pcr_pid,
        pmt.program_info,
        all.streams(),
    )
}

// The section of a map with the streams of all maps of its program, unless it names them all.
#[tactic(auto, unfolding(crate::specs::WholeMaps::whole_section))]
fn whole_section(
    alloc: Global,
    pmt: Option<Pmt<'_>>,
    known: Option<&KnownMap>,
) -> Result<Option<Vec<u8>>, AllocError>
    ensures { IfOk result (λ bytes. option_map (λ b. b.items) bytes
        ≡ spec.whole_section (option_map pmt_view pmt.entry) (option_map (λ m. m.now) known.entry)) }
{
    let (Some(pmt), Some(known)) = (pmt, known) else {
        return Ok(None);
    };
    if names_all(pmt.streams, known.streams.streams()) {
        return Ok(None);
    }
    written_with(alloc, &pmt, known.streams.streams())
}

/// Replaces the section of a finding by another section, if there is one.
#[tactic(auto, unfolding(crate::specs::WholeMaps::with_section))]
pub(crate) fn put_section(finding: &mut Finding<'_>, bytes: Option<Vec<u8>>)
    ensures packet { finding.new.packet ≡ finding.old.packet }
    ensures pid { finding.new.pid ≡ finding.old.pid }
    ensures begun { finding.new.begun ≡ finding.old.begun }
    ensures what { what_view finding.new.what
        ≡ spec.with_section (option_map (λ b. b.items) bytes) (what_view finding.old.what) }
{
    if let Some(bytes) = bytes {
        finding.what = What::Section(Part::Joined(bytes));
    }
}

// The PID of a program's clock references, if it has them.
#[tactic(auto, unfolding(crate::specs::WholeMaps::clock_with))]
fn clock_with(pid: u16, known: Option<&KnownMap>) -> u16
    ensures { result ≡ spec.clock_with pid (option_map (λ m. m.now) known.entry) }
{
    match known {
        None => pid,
        Some(known) => {
            if known.pcr_pid == NO_CLOCK_REFERENCES {
                pid
            } else {
                known.pcr_pid
            }
        }
    }
}

// A clock reference on the PID that the last map of its program names.
fn with_clock(maps: &RecordingMaps, reference: FoundPcr) -> FoundPcr
    ensures { result ≡ spec.with_clock maps.now reference }
{
    FoundPcr {
        packet: reference.packet,
        pid: clock_with(reference.pid, maps.clocked(reference.pid)),
        base: reference.base,
        discontinuity: reference.discontinuity,
    }
}

/// Returns the clock references of a recording with these maps, each on the PID that the last map of its program names.
pub(crate) fn with_clocks(
    alloc: Global,
    maps: &RecordingMaps,
    references: &[FoundPcr],
) -> Result<Vec<FoundPcr>, AllocError>
    ensures { IfOk result (λ all. all.items ≡ map (spec.with_clock maps.now) references.now) }
{
    references
        .iter()
        .map(|reference| with_clock(maps, *reference))
        .collect(alloc)
}

// Gives the map of a finding the streams of all maps of its program.
fn complete_map(
    alloc: Global,
    maps: &RecordingMaps,
    finding: &mut Finding<'_>,
) -> Result<(), AllocError>
    ensures { OnOk result (finding_view finding.new ≡ spec.with_whole_map maps.now (finding_view finding.old)) }
{
    let known = maps.known_if(program_found(finding));
    let section = whole_section(alloc, any_map(finding), known)?;
    put_section(finding, section);
    Ok(())
}

/// Gives each map of a recording the streams of all maps of its program, after its own.
pub(crate) fn complete_maps(
    alloc: Global,
    maps: &RecordingMaps,
    findings: &mut [Finding<'_>],
) -> Result<(), AllocError>
    ensures { OnOk result (map finding_view findings.new
        ≡ map (spec.with_whole_map maps.now) (map finding_view findings.old)) }
{
    for finding in findings.iter_mut() {
        complete_map(alloc, maps, finding)?;
    }
    Ok(())
}
