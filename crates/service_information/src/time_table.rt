//! The time of a stream, in its time and date table (EN 300 468, 5.2.5).

ghost use Rattle.std.specs.Prelude.{◌≡◌, map};
ghost use Rattle.psi_tables.specs.Views.{section_view};
ghost use Rattle.pid_findings.specs.Shown.{finding_view};
ghost use Rattle.dvb_tables.specs.TimeAndDate.{tdt_at};
ghost use Rattle.service_information.specs.StreamTime as spec;

use crate::coded_times::moment_in;
use crate::table_sections::has_table_id;
use dvb_tables::{TDT_TABLE_ID, Tdt};
use pid_findings::Finding;
use program_tables::section_on;
use psi_tables::Section;

// The PID of time and date sections.
const TDT_PID: u16 = 0x14;

#[tactic(auto, unfolding(crate::specs::StreamTime::of_table))]
fn of_section(section: &Section<'_>) -> Option<u32>
    ensures { result ≡ spec.of_table (tdt_at (section_view section.now)) }
{
    match Tdt::read(section) {
        Err(_) => None,
        Ok(tdt) => moment_in(tdt.utc_time),
    }
}

#[tactic(auto, unfolding(crate::specs::StreamTime::time_in, crate::specs::StreamTime::of_section))]
fn time_in(bytes: &[u8]) -> Option<u32>
    ensures { result ≡ spec.time_in bytes.now }
{
    match Section::read(bytes) {
        Err(_) => None,
        Ok((section, _)) => of_section(&section),
    }
}

// Returns the time that a finding says.
#[tactic(auto, unfolding(crate::specs::StreamTime::time_found))]
fn time_found(finding: &Finding<'_>) -> Option<u32>
    ensures { result ≡ spec.time_found (finding_view finding.now) }
{
    match section_on(TDT_PID, finding) {
        None => None,
        Some(bytes) => time_in(bytes),
    }
}

/// Returns the time of the first time and date section with a time from 1970 to 2037, in seconds since 1 January 1970
/// UTC.
pub fn stream_time(findings: &[Finding<'_>]) -> Option<u32>
    ensures { result ≡ spec.stream_time (map finding_view findings.now) }
{
    for finding in findings {
        if let Some(time) = time_found(finding) {
            return Some(time);
        }
    }
    None
}

#[tactic(auto, unfolding(crate::specs::StreamTime::is_surplus))]
fn is_surplus(finding: &Finding<'_>) -> bool
    ensures { result ≡ spec.is_surplus (finding_view finding.now) }
{
    has_table_id(TDT_TABLE_ID, &finding.what) && time_found(finding).is_none()
}

/// Returns the packet where the first section with table_id 0x70 ends that has no time or is on another PID.
pub(crate) fn time_surplus(findings: &[Finding<'_>]) -> Option<u64>
    ensures { result ≡ spec.time_surplus (map finding_view findings.now) }
{
    for finding in findings {
        if is_surplus(finding) {
            return Some(finding.packet);
        }
    }
    None
}
