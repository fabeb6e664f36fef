//! The warnings about the packets and the streams of a job.

ghost use Rattle.std.specs.Prelude.{◌≡◌, ◌++◌, ◌∷◌, [], IfOk, OnOk, List, length, map, flat_map, option_to_list};
ghost use Rattle.es_units.specs.PidPlaces.{AreLinks, pids_in};
ghost use Rattle.pid_findings.specs.Shown.{finding_view};
ghost use Rattle.pid_findings.specs.Views.{FindingView};
ghost use Rattle.program_tables.specs.MapPlaces.{AreChanges};
ghost use Rattle.stream_programs.specs.PesCounts.{AreCounts};
ghost use Rattle.job_programs.specs.Warnings as spec;
ghost use Rattle.job_programs.specs.declared.warning.Warning.TheVariants.{Table, Units};

use crate::job_options::JobOptions;
use crate::job_stream::WireStream;
use crate::later_programs::program_loss;
use crate::warning::{PacketWarning, Warning};
use es_units::{PidLinks, UnitWarning, unit_warnings};
use pid_findings::{Finding, What};
use program_tables::{Association, MapChanges, MapPart, association_change, map_changes};
use psi_tables::Program;
use std::alloc::{AllocError, Global};
use stream_programs::{TableOmission, found_programs, mapped_pids, pes_counts, stray_pids};

// Returns the warning about a finding on no PID.
#[tactic(auto, unfolding(crate::specs::Warnings::packet_warning, crate::specs::Warnings::packet_warning_of))]
fn packet_warning(finding: &Finding<'_>) -> Option<Warning>
    ensures { option_to_list result ≡ spec.packet_warning (finding_view finding.now) }
{
    if finding.pid.is_some() {
        return None;
    }
    let packet = finding.packet;
    match &finding.what {
        What::BadPacket(_) => Some(Warning::Packet {
            packet,
            what: PacketWarning::Bad,
        }),
        What::Errored => Some(Warning::Packet {
            packet,
            what: PacketWarning::Errored,
        }),
        What::Truncated(part) => Some(Warning::TrailingBytes {
            size: part.bytes().len(),
        }),
        _ => None,
    }
}

// Appends the warning about a finding on no PID.
fn push_packet_warning(finding: &Finding<'_>, warnings: &mut Vec<Warning>) -> Result<(), AllocError>
    ensures { OnOk result (warnings.new.items ≡ warnings.old.items ++ spec.packet_warning (finding_view finding.now)) }
{
    if let Some(warning) = packet_warning(finding) {
        warnings.push(warning)?;
    }
    Ok(())
}

/// Appends the warnings about packets that could not be read.
pub fn push_packet_warnings(
    findings: &[Finding<'_>],
    warnings: &mut Vec<Warning>,
) -> Result<(), AllocError>
    ensures { OnOk result (warnings.new.items ≡ warnings.old.items
        ++ spec.packet_warnings (map finding_view findings.now)) }
{
    for finding in findings {
        push_packet_warning(finding, warnings)?;
    }
    Ok(())
}

// Appends the warning that programs are lost.
fn push_loss_warning(
    options: &JobOptions<'_>,
    association: &Association,
    findings: &[Finding<'_>],
    warnings: &mut Vec<Warning>,
) -> Result<(), AllocError>
    ensures { OnOk result (warnings.new.items ≡ warnings.old.items
        ++ spec.loss_warnings options.now association.now (map finding_view findings.now)) }
{
    if let Some(packet) = program_loss(options, &association.programs, findings) {
        warnings.push(Warning::Packet {
            packet,
            what: PacketWarning::ProgramLoss,
        })?;
    }
    Ok(())
}

// Appends the warning that the PAT changes.
fn push_change_warning(
    association: &Association,
    findings: &[Finding<'_>],
    warnings: &mut Vec<Warning>,
) -> Result<(), AllocError>
    ensures { OnOk result (warnings.new.items ≡ warnings.old.items
        ++ spec.association_change_warnings association.now (map finding_view findings.now)) }
{
    if let Some(packet) = association_change(association, findings) {
        warnings.push(Warning::Packet {
            packet,
            what: PacketWarning::AssociationChanges,
        })?;
    }
    Ok(())
}

/// Appends the warnings that the PAT changes, and that programs are lost.
pub fn push_association_warnings(
    options: &JobOptions<'_>,
    association: &Association,
    findings: &[Finding<'_>],
    warnings: &mut Vec<Warning>,
) -> Result<(), AllocError>
    ensures { OnOk result (warnings.new.items ≡ warnings.old.items
        ++ spec.association_warnings options.now association.now (map finding_view findings.now)) }
{
    push_change_warning(association, findings, warnings)?;
    push_loss_warning(options, association, findings, warnings)
}

// Appends the warning that the map of a program changes.
#[tactic(auto, unfolding(crate::specs::Warnings::map_warnings))]
fn push_map_warning(
    part: MapPart,
    program: Program,
    changes: &MapChanges,
    warnings: &mut Vec<Warning>,
) -> Result<(), AllocError>
    ensures { (findings : List FindingView) → AreChanges part findings changes.now →
        OnOk result (warnings.new.items ≡ warnings.old.items ++ spec.map_warnings part findings program) }
{
    if let Some(packet) = changes.packet(program) {
        warnings.push(Warning::Map {
            program: program.program_number,
            packet,
            part,
        })?;
    }
    Ok(())
}

// Appends the warnings that the maps of programs change.
fn push_each_map_warning(
    part: MapPart,
    programs: &[Program],
    changes: &MapChanges,
    warnings: &mut Vec<Warning>,
) -> Result<(), AllocError>
    ensures { (findings : List FindingView) → AreChanges part findings changes.now →
        OnOk result (warnings.new.items ≡ warnings.old.items ++ spec.all_map_warnings part findings programs.now) }
{
    for program in programs {
        push_map_warning(part, *program, changes, warnings)?;
    }
    Ok(())
}

/// Appends the warnings that the maps of programs change in a part.
pub fn push_map_warnings(
    alloc: Global,
    part: MapPart,
    programs: &[Program],
    findings: &[Finding<'_>],
    warnings: &mut Vec<Warning>,
) -> Result<(), AllocError>
    ensures { OnOk result (warnings.new.items ≡ warnings.old.items
        ++ spec.all_map_warnings part (map finding_view findings.now) programs.now) }
{
    let changes = map_changes(alloc, part, findings)?;
    push_each_map_warning(part, programs, &changes, warnings)
}

/// Appends a warning for each item of the tables that is left out.
pub fn push_table_warnings(
    found: &[TableOmission],
    warnings: &mut Vec<Warning>,
) -> Result<(), AllocError>
    ensures { OnOk result (warnings.new.items ≡ warnings.old.items ++ map Table found.now) }
{
    for left_out in found {
        warnings.push(Warning::Table(*left_out))?;
    }
    Ok(())
}

// Returns the PIDs in the PMTs of an association, and the PIDs that an option leaves out.
fn known_pids(
    alloc: Global,
    without: &[u16],
    association: &Association,
    findings: &[Finding<'_>],
) -> Result<Vec<u16>, AllocError>
    ensures { IfOk result (λ pids. pids.items
        ≡ spec.known_pids without.now association.now (map finding_view findings.now)) }
{
    let mapped = found_programs(alloc, &association.programs, findings)?;
    let mut pids = mapped_pids(alloc, &mapped)?;
    pids.extend_from_slice(without)?;
    Ok(pids)
}

// Appends the warning about PES packets of a PID.
#[tactic(auto, unfolding(crate::specs::Warnings::stray_warning))]
fn push_stray(pid: u16, counts: &[usize], warnings: &mut Vec<Warning>) -> Result<(), AllocError>
    requires { length counts.now ≡ 65_536 }
    ensures { (findings : List FindingView) → AreCounts counts.now findings →
        OnOk result (warnings.new.items ≡ warnings.old.items ++ spec.stray_warning findings pid ∷ []) }
{
    warnings.push(Warning::StrayPes {
        pid,
        count: counts[pid as usize],
    })?;
    Ok(())
}

// Appends the warnings about PES packets of these PIDs.
fn push_strays(
    pids: &[u16],
    counts: &[usize],
    warnings: &mut Vec<Warning>,
) -> Result<(), AllocError>
    requires { length counts.now ≡ 65_536 }
    ensures { (findings : List FindingView) → AreCounts counts.now findings →
        OnOk result (warnings.new.items ≡ warnings.old.items ++ map (spec.stray_warning findings) pids.now) }
{
    for pid in pids {
        push_stray(*pid, counts, warnings)?;
    }
    Ok(())
}

/// Appends the warnings about PES packets of no program.
#[tactic(auto, unfolding(crate::specs::Warnings::stray_warnings))]
pub fn push_stray_warnings(
    alloc: Global,
    without: &[u16],
    association: &Association,
    findings: &[Finding<'_>],
    warnings: &mut Vec<Warning>,
) -> Result<(), AllocError>
    ensures { OnOk result (warnings.new.items ≡ warnings.old.items
        ++ spec.stray_warnings without.now association.now (map finding_view findings.now)) }
{
    let known = known_pids(alloc, without, association, findings)?;
    let strays = stray_pids(alloc, &known, findings)?;
    let counts = pes_counts(alloc, findings)?;
    push_strays(&strays, &counts, warnings)
}

// Appends the warnings about the units of a PID.
fn push_unit_warnings(
    pid: u16,
    found: &[UnitWarning],
    warnings: &mut Vec<Warning>,
) -> Result<(), AllocError>
    ensures { OnOk result (warnings.new.items ≡ warnings.old.items ++ map (Units pid) found.now) }
{
    for warning in found {
        warnings.push(Warning::Units {
            pid,
            warning: *warning,
        })?;
    }
    Ok(())
}

/// Appends the warnings about the units of a PID.
#[tactic(auto, unfolding(crate::specs::Warnings::pid_warnings))]
pub fn push_pid_warnings(
    alloc: Global,
    pid: u16,
    count: u64,
    findings: &[Finding<'_>],
    links: &PidLinks<Global>,
    warnings: &mut Vec<Warning>,
) -> Result<(), AllocError>
    requires links { AreLinks links.now (pids_in (map finding_view findings.now)) }
    ensures { OnOk result (warnings.new.items ≡ warnings.old.items
        ++ spec.pid_warnings count (map finding_view findings.now) pid) }
{
    push_unit_warnings(
        pid,
        &unit_warnings(alloc, pid, count, findings, links)?,
        warnings,
    )
}

/// Appends the warnings about the units of streams.
pub fn push_stream_warnings(
    alloc: Global,
    count: u64,
    streams: &[WireStream<'_>],
    findings: &[Finding<'_>],
    links: &PidLinks<Global>,
    warnings: &mut Vec<Warning>,
) -> Result<(), AllocError>
    requires links { AreLinks links.now (pids_in (map finding_view findings.now)) }
    ensures { OnOk result (warnings.new.items ≡ warnings.old.items
        ++ flat_map (λ s. spec.pid_warnings count (map finding_view findings.now) s.pid) streams.now) }
{
    for stream in streams {
        push_pid_warnings(alloc, stream.pid, count, findings, links, warnings)?;
    }
    Ok(())
}
