//! The sections of a PID in the findings of a stream.

ghost use Rattle.std.specs.Prelude.{◌≡◌, false, None, option_map};
ghost use Rattle.pid_findings.specs.Shown.{finding_view};
ghost use Rattle.program_tables.specs.Sections as spec;

use pid_findings::{Finding, What};
use std::alloc::Allocator;

/// Returns the bytes of a section that is found.
#[tactic(auto, unfolding(crate::specs::Sections::section_bytes))]
pub(crate) fn section_in<'f, A: Allocator>(finding: &'f Finding<'_, A>) -> Option<&'f [u8]>
    ensures { option_map (λ bytes. bytes.now) result ≡ spec.section_bytes (finding_view finding.now).what }
{
    match &finding.what {
        What::Section(part) => Some(part.bytes()),
        _ => None,
    }
}

/// Returns the bytes of a section that is found on a PID.
#[tactic(auto, unfolding(crate::specs::Sections::section_on))]
pub fn section_on<'f, A: Allocator>(pid: u16, finding: &'f Finding<'_, A>) -> Option<&'f [u8]>
    ensures { option_map (λ bytes. bytes.now) result ≡ spec.section_on pid (finding_view finding.now) }
{
    if finding.pid != Some(pid) {
        return None;
    }
    section_in(finding)
}

/// Returns whether a finding is of a PID. A finding of another PID has no section of it.
#[tactic(auto, unfolding(crate::specs::Sections::section_on))]
pub fn is_on<A: Allocator>(pid: u16, finding: &Finding<'_, A>) -> bool
    ensures { result ≡ false → spec.section_on pid (finding_view finding.now) ≡ None }
{
    finding.pid == Some(pid)
}
