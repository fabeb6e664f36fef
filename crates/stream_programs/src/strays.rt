//! PIDs with PES packets that no program has.

ghost use Rattle.std.specs.Prelude.{◌≡◌, ◌++◌, [], IfOk, OnOk, flat_map, map, option_to_list};
ghost use Rattle.pid_findings.specs.Shown.{finding_view};
ghost use Rattle.stream_programs.specs.StrayPids as spec;

use crate::omission::TableOmission;
use crate::pid_counts::is_pes;
use crate::pid_list::PidList;
use crate::programs::FoundPrograms;
use crate::streams::FoundStream;
use pid_findings::Finding;
use std::alloc::{AllocError, Allocator};

// Appends the PIDs of streams.
fn push_streams<A: Allocator>(
    streams: &[FoundStream<A>],
    pids: &mut Vec<u16, A>,
) -> Result<(), AllocError>
    ensures { OnOk result (pids.new.items ≡ pids.old.items ++ map (λ s. s.pid) streams.now) }
{
    for stream in streams {
        pids.push(stream.pid)?;
    }
    Ok(())
}

// Returns the PID of a stream that is left out.
#[tactic(auto, unfolding(crate::specs::StrayPids::omitted_pid))]
fn omitted_pid(omission: TableOmission) -> Option<u16>
    ensures { option_to_list result ≡ spec.omitted_pid omission }
{
    match omission {
        TableOmission::NoPes { pid, .. } => Some(pid),
        TableOmission::Reserved { pid, .. } => Some(pid),
        TableOmission::Taken { pid, .. } => Some(pid),
        TableOmission::SharedOtherwise { .. } => None,
        TableOmission::NoMap { .. } => None,
        TableOmission::ConditionalAccess { .. } => None,
        TableOmission::Multiplex { .. } => None,
        TableOmission::NoStream { .. } => None,
    }
}

// Appends the PID of a stream that is left out.
fn push_omission<A: Allocator>(
    omission: TableOmission,
    pids: &mut Vec<u16, A>,
) -> Result<(), AllocError>
    ensures { OnOk result (pids.new.items ≡ pids.old.items ++ spec.omitted_pid omission) }
{
    if let Some(pid) = omitted_pid(omission) {
        pids.push(pid)?;
    }
    Ok(())
}

// Appends the PIDs of streams that are left out.
fn push_omissions<A: Allocator>(
    left_out: &[TableOmission],
    pids: &mut Vec<u16, A>,
) -> Result<(), AllocError>
    ensures { OnOk result (pids.new.items ≡ pids.old.items ++ flat_map spec.omitted_pid left_out.now) }
{
    for omission in left_out {
        push_omission(*omission, pids)?;
    }
    Ok(())
}

/// Returns the PIDs of the streams of programs, also of streams that are left out.
pub fn mapped_pids<A: Allocator>(
    alloc: A,
    found: &FoundPrograms<A>,
) -> Result<Vec<u16, A>, AllocError>
    ensures { IfOk result (λ pids. pids.items ≡ spec.mapped_pids found.now) }
{
    let mut pids = Vec::new(alloc);
    push_streams(&found.streams, &mut pids)?;
    push_omissions(&found.left_out, &mut pids)?;
    Ok(pids)
}

// Returns the PID of a PES packet, if it is neither known nor already found.
#[tactic(auto, unfolding(crate::specs::StrayPids::stray_pid, crate::specs::StrayPids::unknown_pid))]
fn stray_pid<A: Allocator>(
    known: &PidList<A>,
    found: &PidList<A>,
    finding: &Finding<'_, A>,
) -> Option<u16>
    ensures { option_to_list result ≡ spec.stray_pid known.now found.now (finding_view finding.now) }
{
    if !is_pes(&finding.what) {
        return None;
    }
    let pid = finding.pid?;
    if known.has(pid) {
        return None;
    }
    if found.has(pid) {
        return None;
    }
    Some(pid)
}

// Appends the PID of a PES packet, if it is neither known nor already found.
fn push_stray<A: Allocator>(
    known: &PidList<A>,
    finding: &Finding<'_, A>,
    found: &mut PidList<A>,
) -> Result<(), AllocError>
    ensures { OnOk result (found.new ≡ found.old ++ spec.stray_pid known.now found.old (finding_view finding.now)) }
{
    if let Some(pid) = stray_pid(known, found, finding) {
        found.add(pid)?;
    }
    Ok(())
}

// Appends the PIDs of PES packets that are not known, each once.
fn push_strays<A: Allocator>(
    known: &PidList<A>,
    findings: &[Finding<'_, A>],
    found: &mut PidList<A>,
) -> Result<(), AllocError>
    ensures { OnOk result (found.new ≡ spec.stray_pids known.now found.old (map finding_view findings.now)) }
{
    for finding in findings {
        push_stray(known, finding, found)?;
    }
    Ok(())
}

/// Returns the PIDs with PES packets that are not known, each once, in the order of their first PES packet.
pub fn stray_pids<A: Allocator + Copy>(
    alloc: A,
    known: &[u16],
    findings: &[Finding<'_, A>],
) -> Result<Vec<u16, A>, AllocError>
    ensures { IfOk result (λ found. found.items ≡ spec.stray_pids known.now [] (map finding_view findings.now)) }
{
    let listed = PidList::of(alloc, known)?;
    let mut found = PidList::new(alloc);
    push_strays(&listed, findings, &mut found)?;
    Ok(found.into_pids())
}
