//! The program map table of a program (ISO/IEC 13818-1, 2.4.4.8).

ghost use Rattle.std.specs.Prelude.{◌≡◌, map, option_map};
ghost use Rattle.psi_tables.specs.ProgramMap.{pmt_at, pmt_view, stream_view, streams_of};
ghost use Rattle.psi_tables.specs.Views.{section_view};
ghost use Rattle.pid_findings.specs.Shown.{finding_view};
ghost use Rattle.program_tables.specs.ProgramMaps as spec;

use crate::map_descriptors::keeps_descriptors;
use crate::sections::{is_on, section_in, section_on};
use pid_findings::Finding;
use psi_tables::{Pmt, Program, Section, Stream, Streams};
use std::alloc::Allocator;

/// In what a program map table may be other than the last one.
#[derive(Clone, Copy)]
pub enum MapPart {
    /// It names other streams, by stream_type and PID.
    NamedStreams,
    /// The program, or a stream that both name, has a descriptor that it has not in the last one.
    Descriptors,
}

// Returns a table that is in force now.
#[tactic(auto, unfolding(crate::specs::ProgramMaps::now_in_force))]
fn map_of_section<'f>(section: &Section<'f>) -> Option<Pmt<'f>>
    ensures { option_map pmt_view result ≡ spec.now_in_force (pmt_at (section_view section.now)) }
{
    match Pmt::read(section) {
        Err(_) => None,
        Ok(pmt) => {
            if pmt.header.current_next {
                Some(pmt)
            } else {
                None
            }
        }
    }
}

#[tactic(auto, unfolding(crate::specs::ProgramMaps::map_in, crate::specs::ProgramMaps::map_of_section))]
fn map_in(bytes: &[u8]) -> Option<Pmt<'_>>
    ensures { option_map pmt_view result ≡ spec.map_in bytes.now }
{
    match Section::read(bytes) {
        Err(_) => None,
        Ok((section, _)) => map_of_section(&section),
    }
}

/// Returns the table in force that a finding has, of whatever program.
#[tactic(auto, unfolding(crate::specs::ProgramMaps::any_map))]
pub fn any_map<'f, A: Allocator>(finding: &'f Finding<'_, A>) -> Option<Pmt<'f>>
    ensures { option_map pmt_view result ≡ spec.any_map (finding_view finding.now) }
{
    match section_in(finding) {
        None => None,
        Some(bytes) => map_in(bytes),
    }
}

// Returns a table, if it is of this program.
#[tactic(auto, unfolding(crate::specs::ProgramMaps::numbered))]
fn numbered(number: u16, found: Option<Pmt<'_>>) -> Option<Pmt<'_>>
    ensures { option_map pmt_view result ≡ spec.numbered number (option_map pmt_view found.entry) }
{
    match found {
        None => None,
        Some(pmt) => {
            if pmt.header.table_id_extension == number {
                Some(pmt)
            } else {
                None
            }
        }
    }
}

fn pmt_in(number: u16, bytes: &[u8]) -> Option<Pmt<'_>>
    ensures { option_map pmt_view result ≡ spec.pmt_in number bytes.now }
{
    numbered(number, map_in(bytes))
}

/// Returns the table of a program that a finding has.
#[tactic(auto, unfolding(crate::specs::ProgramMaps::pmt_found))]
pub(crate) fn pmt_found<'f, A: Allocator>(
    program: Program,
    finding: &'f Finding<'_, A>,
) -> Option<Pmt<'f>>
    ensures { option_map pmt_view result ≡ spec.pmt_found program (finding_view finding.now) }
{
    match section_on(program.pid, finding) {
        None => None,
        Some(bytes) => pmt_in(program.program_number, bytes),
    }
}

/// Returns the program map table of a program: the last one in force that is found on its PID and has its number.
pub fn last_program_map<'f, A: Allocator>(
    program: Program,
    findings: &'f [Finding<'_, A>],
) -> Option<Pmt<'f>>
    ensures { option_map pmt_view result ≡ spec.program_map program (map finding_view findings.now) }
{
    let mut last = None;
    for finding in findings {
        if !is_on(program.pid, finding) {
            continue;
        }
        last = pmt_found(program, finding).or(last);
    }
    last
}

// Returns whether two streams have one stream_type and PID.
#[tactic(auto, unfolding(crate::specs::ProgramMaps::is_same_stream))]
pub(crate) fn is_same_stream(one: Stream<'_>, other: Stream<'_>) -> bool
    ensures { result ≡ spec.is_same_stream (stream_view one.entry) (stream_view other.entry) }
{
    one.stream_type == other.stream_type && one.elementary_pid == other.elementary_pid
}

// Returns whether `streams` has a stream with the same stream_type and PID.
#[tactic(auto, unfolding(crate::specs::ProgramMaps::has_stream))]
fn has_stream(streams: Streams<'_>, stream: Stream<'_>) -> bool
    ensures { result ≡ spec.has_stream (streams_of streams.entry) (stream_view stream.entry) }
{
    for other in streams {
        if is_same_stream(other, stream) {
            return true;
        }
    }
    false
}

// Returns whether `streams` has all streams in `others`.
#[tactic(auto, unfolding(crate::specs::ProgramMaps::has_streams))]
fn has_streams(streams: Streams<'_>, others: Streams<'_>) -> bool
    ensures { result ≡ spec.has_streams (streams_of streams.entry) (streams_of others.entry) }
{
    for other in others {
        if !has_stream(streams, other) {
            return false;
        }
    }
    true
}

#[tactic(auto, unfolding(crate::specs::ProgramMaps::names_same))]
fn names_same(one: Streams<'_>, other: Streams<'_>) -> bool
    ensures { result ≡ spec.names_same (streams_of one.entry) (streams_of other.entry) }
{
    has_streams(one, other) && has_streams(other, one)
}

/// Returns whether a finding has a table of the program that is other than the last one in this part.
#[tactic(auto, unfolding(crate::specs::ProgramMaps::differs))]
pub(crate) fn differs<A: Allocator>(
    part: MapPart,
    program: Program,
    last: &Pmt<'_>,
    finding: &Finding<'_, A>,
) -> bool
    ensures { result ≡ spec.differs part (pmt_view last.now) (spec.pmt_found program (finding_view finding.now)) }
{
    match pmt_found(program, finding) {
        None => false,
        Some(pmt) => match part {
            MapPart::NamedStreams => !names_same(last.streams, pmt.streams),
            MapPart::Descriptors => !keeps_descriptors(last, &pmt),
        },
    }
}
