//! The sections of a PID that do not change.

ghost use Rattle.std.specs.Prelude.{◌≡◌, ◌++◌, [], IfOk, OnOk, None, map, option_map, option_to_list, slice_index};
ghost use Rattle.std.specs.List.{list_any, list_all};
ghost use Rattle.pid_findings.specs.Shown.{finding_view};
ghost use Rattle.other_tables.specs.SteadySections as spec;

use pid_findings::{Finding, What};
use std::alloc::{AllocError, Global};
use std::marker::Model;

/// Sections of a PID that do not change: 1 to 8, and each recurs.
#[derive(Drop)]
pub struct SteadySections {
    /// Their bytes, in the order of their first packets.
    pub sections: Vec<Vec<u8>>,
    /// The greatest number of packets from one start of a section to its next.
    pub gap: u64,
}

// A contract sees bytes as lists.
impl Model for SteadySections {
    ghost use Rattle.std.specs.Prelude.{map};
    ghost use Rattle.other_tables.specs.SteadySections.{SteadySectionsView};

    ghost Value = { SteadySectionsView };

    ghost view = { λ s. record { sections = map (λ b. b.items) s.sections.items; gap = s.gap } };
}

/// A section that is found on a PID.
#[derive(Clone, Copy)]
pub(crate) struct FoundSection<'f> {
    /// The packet where it begins.
    pub begun: u64,
    pub bytes: &'f [u8],
}

// Returns the packet where a finding begins.
#[tactic(auto, unfolding(crate::specs::SteadySections::begun_by))]
fn begun_at(finding: &Finding<'_>) -> u64
    ensures { result ≡ spec.begun_at (finding_view finding.now) }
{
    match finding.begun {
        None => finding.packet,
        Some((packet, _)) => packet,
    }
}

// Returns whether a section is a splice command (ANSI/SCTE 35), but not a splice_null without descriptors.
#[tactic(auto, unfolding(crate::specs::SteadySections::is_splice_command))]
fn is_splice_command(bytes: &[u8]) -> bool
    ensures { result ≡ spec.is_splice_command bytes.now }
{
    byte_at(bytes, 0) == 0xFC
        && !(byte_at(bytes, 13) == 0 && byte_at(bytes, 14) == 0 && byte_at(bytes, 15) == 0)
}

// Returns whether a section has its own time: stream descriptors of DSM-CC (ISO/IEC 13818-6), or a splice command.
#[tactic(auto, unfolding(crate::specs::SteadySections::is_timed))]
fn is_timed(bytes: &[u8]) -> bool
    ensures { result ≡ spec.is_timed bytes.now }
{
    byte_at(bytes, 0) == 0x3D || is_splice_command(bytes)
}

// Returns a section, unless it has its own time.
#[tactic(auto, unfolding(crate::specs::SteadySections::section_of))]
fn section_of<'f>(begun: u64, bytes: &'f [u8]) -> Option<Option<FoundSection<'f>>>
    ensures { option_map (λ one. map spec.section_view (option_to_list one)) result
        ≡ spec.section_of begun bytes.now }
{
    if is_timed(bytes) {
        return None;
    }
    Some(Some(FoundSection { begun, bytes }))
}

// Returns the section that a finding adds to its PID in a stream of `count` whole packets, or no section; `None` if the
// PID carries anything but whole sections that may be repeated.
#[tactic(auto, unfolding(crate::specs::SteadySections::section_by))]
fn section_at<'f>(count: u64, finding: &'f Finding<'_>) -> Option<Option<FoundSection<'f>>>
    ensures { option_map (λ one. map spec.section_view (option_to_list one)) result
        ≡ spec.section_at count (finding_view finding.now) }
{
    match &finding.what {
        What::Section(part) => section_of(begun_at(finding), part.bytes()),
        What::Duplicate => Some(None),
        What::Stray(_) => Some(None),
        What::Truncated(_) => {
            if count <= finding.packet {
                Some(None)
            } else {
                None
            }
        }
        _ => None,
    }
}

// Returns the section that a finding adds to a PID; a finding of another PID adds none.
#[tactic(auto, unfolding(crate::specs::SteadySections::section_on))]
fn section_on<'f>(
    count: u64,
    pid: u16,
    finding: &'f Finding<'_>,
) -> Option<Option<FoundSection<'f>>>
    ensures { option_map (λ one. map spec.section_view (option_to_list one)) result
        ≡ spec.section_on count pid (finding_view finding.now) }
{
    if finding.pid == Some(pid) {
        section_at(count, finding)
    } else {
        Some(None)
    }
}

// Appends a section, if there is one.
fn push_if<'f>(
    one: Option<FoundSection<'f>>,
    sections: &mut Vec<FoundSection<'f>>,
) -> Result<(), AllocError>
    ensures { OnOk result (sections.new.items ≡ sections.old.items ++ option_to_list one.entry) }
{
    if let Some(section) = one {
        sections.push(section)?;
    }
    Ok(())
}

// Returns the sections of a PID, if nothing else is found on it.
fn sections_on<'f>(
    alloc: Global,
    count: u64,
    pid: u16,
    findings: &'f [Finding<'_>],
) -> Result<Option<Vec<FoundSection<'f>>>, AllocError>
    ensures { IfOk result (λ found. option_map (λ sections. map spec.section_view sections.items) found
        ≡ spec.sections_on count pid [] (map finding_view findings.now)) }
{
    let mut sections = Vec::new(alloc);
    for finding in findings {
        let Some(one) = section_on(count, pid, finding) else {
            return Ok(None);
        };
        push_if(one, &mut sections)?;
    }
    Ok(Some(sections))
}

// Returns whether a section has the same bytes as a known section.
fn is_known(known: &[FoundSection<'_>], section: &FoundSection<'_>) -> bool
    ensures { result ≡ spec.is_known (map spec.section_view known.now) (spec.section_view section.now) }
{
    known.iter().any(|other| other.bytes == section.bytes)
}

// Appends a section, unless it is known or there are nine.
#[tactic(auto, unfolding(crate::specs::SteadySections::with_new))]
fn push_new<'f>(
    section: FoundSection<'f>,
    known: &mut Vec<FoundSection<'f>>,
) -> Result<(), AllocError>
    ensures { OnOk result (map spec.section_view known.new.items
        ≡ spec.with_new (map spec.section_view known.old.items) (spec.section_view section.entry)) }
{
    if known.len() < 9 && !is_known(known, &section) {
        known.push(section)?;
    }
    Ok(())
}

// Returns each different section once, at most nine.
fn distinct_sections<'f>(
    alloc: Global,
    all: &[FoundSection<'f>],
) -> Result<Vec<FoundSection<'f>>, AllocError>
    ensures { IfOk result (λ known. map spec.section_view known.items
        ≡ spec.distinct_sections [] (map spec.section_view all.now)) }
{
    let mut known = Vec::new(alloc);
    for section in all {
        push_new(*section, &mut known)?;
    }
    Ok(known)
}

// Returns the packets since the last start, if there is one.
#[tactic(auto, unfolding(crate::specs::SteadySections::distance_from))]
fn distance_from(last: Option<u64>, begun: u64) -> u64
    ensures { result ≡ spec.distance_from last begun }
{
    match last {
        None => 0,
        Some(last) => begun.saturating_sub(last),
    }
}

// Returns the greatest number of packets from one start of a section to the next.
fn greatest_gap(bytes: &[u8], all: &[FoundSection<'_>]) -> u64
    ensures { result ≡ spec.greatest_gap bytes.now None (map spec.section_view all.now) }
{
    let mut last = None;
    let mut gap = 0;
    for section in all {
        if bytes == section.bytes {
            gap = distance_from(last, section.begun).max(gap);
            last = Some(section.begun);
        }
    }
    gap
}

// Returns whether each known section recurs.
fn all_come_again(all: &[FoundSection<'_>], known: &[FoundSection<'_>]) -> bool
    ensures { result ≡ list_all (spec.comes_again (map spec.section_view all.now)) (map spec.section_view known.now) }
{
    known
        .iter()
        .all(|section| greatest_gap(section.bytes, all) > 0)
}

// Returns whether both are the same section of the same table.
#[tactic(auto, unfolding(crate::specs::SteadySections::is_same_section))]
fn is_same_section(one: &FoundSection<'_>, other: &FoundSection<'_>) -> bool
    ensures { result ≡ spec.is_same_section (spec.section_view one.now) (spec.section_view other.now) }
{
    byte_at(one.bytes, 0) == byte_at(other.bytes, 0)
        && extension_of(one.bytes) == extension_of(other.bytes)
        && number_of(one.bytes) == number_of(other.bytes)
}

// Returns the byte at a place; 0 past the end.
fn byte_at(bytes: &[u8], at: usize) -> u8
    ensures { result ≡ slice_index bytes.now at }
{
    match bytes.get(at) {
        Some(byte) => *byte,
        None => 0,
    }
}

// Returns table_id_extension of the long form.
#[tactic(auto, unfolding(crate::specs::SteadySections::extension_of))]
fn extension_of(bytes: &[u8]) -> u16
    ensures { result ≡ spec.extension_of bytes.now }
{
    if byte_at(bytes, 1) >= 0x80 {
        u16::from(byte_at(bytes, 3)) * 256 + u16::from(byte_at(bytes, 4))
    } else {
        0
    }
}

// Returns section_number of the long form.
#[tactic(auto, unfolding(crate::specs::SteadySections::number_of))]
fn number_of(bytes: &[u8]) -> u8
    ensures { result ≡ spec.number_of bytes.now }
{
    if byte_at(bytes, 1) >= 0x80 {
        byte_at(bytes, 6)
    } else {
        0
    }
}

// Returns whether no two of these are the same section of the same table.
fn none_changes(known: &[FoundSection<'_>]) -> bool
    ensures { result ≡ spec.none_changes (map spec.section_view known.now) }
{
    for at in 0..known.len() {
        if has_same(&known[at + 1..], &known[at]) {
            return false;
        }
    }
    true
}

#[tactic(auto)]
fn has_same(others: &[FoundSection<'_>], section: &FoundSection<'_>) -> bool
    ensures { result ≡ list_any (spec.is_same_section (spec.section_view section.now))
        (map spec.section_view others.now) }
{
    others.iter().any(|other| is_same_section(section, other))
}

// Returns the greatest number of packets from one start of any section to its next start.
fn widest_gap(all: &[FoundSection<'_>], known: &[FoundSection<'_>]) -> u64
    ensures { result ≡ spec.widest_gap (map spec.section_view all.now) (map spec.section_view known.now) }
{
    let mut widest = 0;
    for section in known {
        widest = greatest_gap(section.bytes, all).max(widest);
    }
    widest
}

// Returns whether there are 1 to 8 known sections, each recurs and none changes.
#[tactic(auto, unfolding(crate::specs::SteadySections::are_steady))]
fn are_steady(all: &[FoundSection<'_>], known: &[FoundSection<'_>]) -> bool
    ensures { result ≡ spec.are_steady (map spec.section_view all.now) (map spec.section_view known.now) }
{
    known.len() >= 1 && known.len() <= 8 && all_come_again(all, known) && none_changes(known)
}

// Returns the bytes of each section.
fn bytes_of(alloc: Global, known: &[FoundSection<'_>]) -> Result<Vec<Vec<u8>>, AllocError>
    ensures { IfOk result (λ sections. map (λ b. b.items) sections.items
        ≡ map (λ s. s.bytes) (map spec.section_view known.now)) }
{
    let mut sections = Vec::new(alloc);
    for section in known {
        let bytes = Vec::from_slice(alloc, section.bytes)?;
        sections.push(bytes)?;
    }
    Ok(sections)
}

// Returns the known sections, if all sections are steady.
#[tactic(auto, unfolding(crate::specs::SteadySections::steady_if))]
fn steady_if(
    alloc: Global,
    all: &[FoundSection<'_>],
    known: &[FoundSection<'_>],
) -> Result<Option<SteadySections>, AllocError>
    ensures { IfOk result (λ r. r ≡ spec.steady_if (map spec.section_view all.now) (map spec.section_view known.now)) }
{
    if !are_steady(all, known) {
        return Ok(None);
    }
    Ok(Some(SteadySections {
        sections: bytes_of(alloc, known)?,
        gap: widest_gap(all, known),
    }))
}

/// Returns the sections of a PID in a stream of `count` whole packets, if the PID has only whole sections, at most 8
/// different ones, and each section recurs with the same bytes.
#[tactic(auto, unfolding(crate::specs::SteadySections::steady_sections))]
pub fn steady_sections(
    alloc: Global,
    count: u64,
    pid: u16,
    findings: &[Finding<'_>],
) -> Result<Option<SteadySections>, AllocError>
    ensures { IfOk result (λ r. r ≡ spec.steady_sections count pid (map finding_view findings.now)) }
{
    let Some(all) = sections_on(alloc, count, pid, findings)? else {
        return Ok(None);
    };
    let known = distinct_sections(alloc, &all)?;
    steady_if(alloc, &all, &known)
}
