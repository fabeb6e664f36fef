//! Where sections begin, by the findings of a stream.
ghost use Rattle.std.specs.Prelude.{◌≡◌, option_map};
ghost use Rattle.pid_findings.specs.Shown.{finding_view, what_view};
ghost use Rattle.tr101290.specs.Sections as spec;

use crate::distances::WholeSection;
use crate::intervals::SectionBegin;
use crate::parts::{byte_at, part_of};
use pid_findings::{Finding, Kind, What};
use std::alloc::Allocator;

#[tactic(auto, unfolding(crate::specs::Sections::begin_of))]
fn begin_of<A: Allocator>(
    pid: u16,
    packet: u64,
    kind: Kind,
    what: &What<'_, A>,
) -> Option<SectionBegin>
    ensures { result ≡ spec.begin_of pid packet kind (what_view what.now) }
{
    match kind {
        Kind::Table(table_id) => Some(SectionBegin {
            pid,
            table_id,
            part: part_of(pid, table_id, what),
            packet,
            place: packet,
        }),
        Kind::Pes { .. } => None,
    }
}

/// Returns where the section of a finding begins, whether or not it became whole; `None` for a finding without a
/// section. Its place is its packet.
#[tactic(auto, unfolding(crate::specs::Sections::section_by))]
pub fn section_begin<A: Allocator>(finding: &Finding<'_, A>) -> Option<SectionBegin>
    ensures { result ≡ spec.section_begin (finding_view finding.now) }
{
    match (finding.pid, finding.begun) {
        (Some(pid), Some((packet, kind))) => begin_of(pid, packet, kind, &finding.what),
        _ => None,
    }
}

// Returns table_id_extension of a section, if it has one, otherwise 0.
fn extension_in(bytes: &[u8]) -> u16
    ensures { result ≡ spec.extension_in bytes.now }
{
    if byte_at(bytes, 1) < 128 {
        0
    } else {
        u16::from(byte_at(bytes, 3)) * 256 + u16::from(byte_at(bytes, 4))
    }
}

#[tactic(auto, unfolding(crate::specs::Sections::extension_of))]
fn extension_of<A: Allocator>(what: &What<'_, A>) -> Option<u16>
    ensures { result ≡ spec.extension_of (what_view what.now) }
{
    match what {
        What::Section(part) => Some(extension_in(part.bytes())),
        _ => None,
    }
}

/// Returns the section of a finding, if it is whole; `None` for any other finding. Its places are its packets.
#[tactic(auto, unfolding(crate::specs::Sections::whole_by))]
pub fn whole_section<A: Allocator>(finding: &Finding<'_, A>) -> Option<WholeSection>
    ensures { result ≡ spec.whole_section (finding_view finding.now) }
{
    match (section_begin(finding), extension_of(&finding.what)) {
        (Some(begin), Some(extension)) => Some(WholeSection {
            begin,
            extension,
            end: finding.packet,
        }),
        _ => None,
    }
}
