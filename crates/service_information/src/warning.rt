//! Warnings about service information that is not taken unchanged.

ghost use Rattle.std.specs.Prelude.{◌≡◌, ◌++◌, IfOk, OnOk, map, flat_map, option_to_list};
ghost use Rattle.pid_findings.specs.Shown.{finding_view, what_view};
ghost use Rattle.service_information.specs.Events.{stream_events};
ghost use Rattle.service_information.specs.EventSurplus.{event_surplus};
ghost use Rattle.service_information.specs.FirstFindings.{first_packet};
ghost use Rattle.service_information.specs.StreamTime.{time_surplus};
ghost use Rattle.service_information.specs.Warnings as spec;
ghost use Rattle.service_information.specs.declared.warning.InformationWarning.TheVariants.{EventSurplus, TimeSurplus};

use crate::event_surplus::event_surplus;
use crate::events::{FoundEvent, stream_events};
use crate::time_table::time_surplus;
use pid_findings::{Finding, What};
use std::alloc::{AllocError, Global};

/// The PIDs of NIT, SDT and BAT, EIT, and TDT and TOT (EN 300 468, table 1).
const INFORMATION_PIDS: [u16; 4] = [0x10, 0x11, 0x12, 0x14];

/// A warning: what of the service information of a stream is left out.
#[derive(Clone, Copy)]
pub enum InformationWarning {
    /// A section of present and following events of the stream itself ends in this packet and is not carried unchanged:
    /// not in force, not readable, or with an event that is not taken.
    EventSurplus { packet: u64 },
    /// A time and date section ends in this packet that says no time of 1970 to 2037, or is on another PID.
    TimeSurplus { packet: u64 },
    /// A section on a PID of service information can't be read: its check word, its length or its place is wrong.
    BadSection { pid: u16, packet: u64 },
}

// Returns whether a finding is a section that can't be read.
#[tactic(auto, unfolding(crate::specs::Warnings::is_bad))]
fn is_bad(what: &What<'_>) -> bool
    ensures { result ≡ spec.is_bad (what_view what.now) }
{
    match what {
        What::BadSection(_) => true,
        _ => false,
    }
}

#[tactic(auto, unfolding(crate::specs::Warnings::is_bad_on))]
fn is_bad_on(pid: u16, finding: &Finding<'_>) -> bool
    ensures { result ≡ spec.is_bad_on pid (finding_view finding.now) }
{
    finding.pid == Some(pid) && is_bad(&finding.what)
}

// Returns the packet of the first section of a PID that can't be read.
fn first_bad(pid: u16, findings: &[Finding<'_>]) -> Option<u64>
    ensures { result ≡ first_packet (spec.is_bad_on pid) (map finding_view findings.now) }
{
    for finding in findings {
        if is_bad_on(pid, finding) {
            return Some(finding.packet);
        }
    }
    None
}

// Appends the warning about the first section of a PID that can't be read.
fn push_bad(
    pid: u16,
    findings: &[Finding<'_>],
    warnings: &mut Vec<InformationWarning>,
) -> Result<(), AllocError>
    ensures { OnOk result (warnings.new.items ≡ warnings.old.items
        ++ spec.bad_section (map finding_view findings.now) pid) }
{
    if let Some(packet) = first_bad(pid, findings) {
        warnings.push(InformationWarning::BadSection { pid, packet })?;
    }
    Ok(())
}

fn push_bad_sections(
    pids: &[u16],
    findings: &[Finding<'_>],
    warnings: &mut Vec<InformationWarning>,
) -> Result<(), AllocError>
    ensures { OnOk result (warnings.new.items ≡ warnings.old.items
        ++ flat_map (spec.bad_section (map finding_view findings.now)) pids.now) }
{
    for pid in pids {
        push_bad(*pid, findings, warnings)?;
    }
    Ok(())
}

fn push_time_surplus(
    findings: &[Finding<'_>],
    warnings: &mut Vec<InformationWarning>,
) -> Result<(), AllocError>
    ensures { OnOk result (warnings.new.items ≡ warnings.old.items
        ++ map TimeSurplus (option_to_list (time_surplus (map finding_view findings.now)))) }
{
    if let Some(packet) = time_surplus(findings) {
        warnings.push(InformationWarning::TimeSurplus { packet })?;
    }
    Ok(())
}

fn push_event_surplus(
    numbers: &[u16],
    taken: &[FoundEvent<'_>],
    findings: &[Finding<'_>],
    warnings: &mut Vec<InformationWarning>,
) -> Result<(), AllocError>
    ensures { OnOk result (warnings.new.items ≡ warnings.old.items
        ++ map EventSurplus (option_to_list (event_surplus numbers.now taken.now (map finding_view findings.now)))) }
{
    if let Some(packet) = event_surplus(numbers, taken, findings) {
        warnings.push(InformationWarning::EventSurplus { packet })?;
    }
    Ok(())
}

/// Returns the warnings about service information: the first section that can't be read of each of its PIDs (0x10,
/// 0x11, 0x12 and 0x14), the first time and date section that says no time, the first section with table_id 0x4E that
/// has an event of these programs that is not among the `stream_events`.
#[tactic(auto, unfolding(crate::specs::Warnings::information_warnings))]
pub fn information_warnings(
    alloc: Global,
    numbers: &[u16],
    findings: &[Finding<'_>],
) -> Result<Vec<InformationWarning>, AllocError>
    ensures { IfOk result (λ warnings. warnings.items
        ≡ spec.information_warnings numbers.now (map finding_view findings.now)) }
{
    let mut warnings = Vec::new(alloc);
    push_bad_sections(&INFORMATION_PIDS, findings, &mut warnings)?;
    push_time_surplus(findings, &mut warnings)?;
    let taken = stream_events(alloc, numbers, findings)?;
    push_event_surplus(numbers, &taken, findings, &mut warnings)?;
    Ok(warnings)
}
