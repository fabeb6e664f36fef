//! The PID of each program's maps in a recording.

ghost use Rattle.std.specs.Prelude.{◌≡◌, [], IfOk, OnOk, map};
ghost use Rattle.pid_findings.specs.Shown.{finding_view};
ghost use Rattle.joined_parts.specs.MapPids as spec;

use indexmap::IndexMap;
use pid_findings::Finding;
use program_tables::{Association, named_programs, program_found};
use psi_tables::Program;
use std::alloc::{AllocError, Global};
use std::hash::{BuildHasherDefault, FoldHasher};

/// The PID of each program's maps, by program_number.
type MapPids = IndexMap<u16, u16, BuildHasherDefault<FoldHasher>, Global>;

// Returns the PID of the maps of each program.
#[tactic(auto, unfolding(crate::specs::MapPids::pids_after))]
fn pids_of(alloc: Global, programs: &[Program]) -> Result<MapPids, AllocError>
    ensures { IfOk result (λ pids. pids.entries ≡ spec.pids_after [] programs.now) }
{
    let mut pids = IndexMap::new(alloc);
    for program in programs {
        pids.insert(program.program_number, program.pid)?;
    }
    Ok(pids)
}

// Returns the PID of the maps of each program of an association, if there is one.
#[tactic(auto, unfolding(crate::specs::MapPids::map_pids))]
fn map_pids(alloc: Global, association: &Option<Association>) -> Result<MapPids, AllocError>
    ensures { IfOk result (λ pids. pids.entries ≡ spec.map_pids association.now) }
{
    match association {
        None => Ok(IndexMap::new(alloc)),
        Some(association) => pids_of(alloc, &association.programs),
    }
}

// Returns the PID of a finding; if it has the map of one of these programs, the PID of the program's maps.
#[tactic(auto, unfolding(crate::specs::MapPids::own_pid))]
fn own_pid(pids: &MapPids, program: Option<Program>, pid: Option<u16>) -> Option<u16>
    ensures { result ≡ spec.own_pid pids.now.entries program pid }
{
    match program {
        None => pid,
        Some(program) => pids.get(&program.program_number).copied().or(pid),
    }
}

// Puts a finding on the PID of its program's maps, if it has a map.
fn put_on_own(pids: &MapPids, finding: &mut Finding<'_>)
    ensures { finding_view finding.new ≡ spec.with_own_pid pids.now.entries (finding_view finding.old) }
{
    let pid = own_pid(pids, program_found(finding), finding.pid);
    finding.pid = pid;
}

// Puts each map on the PID of its program's maps.
fn put_all(pids: &MapPids, findings: &mut [Finding<'_>])
    ensures { map finding_view findings.new
        ≡ map (spec.with_own_pid pids.now.entries) (map finding_view findings.old) }
{
    for finding in findings.iter_mut() {
        put_on_own(pids, finding);
    }
}

/// Puts the maps of each program of a recording on one PID, which the first association table names.
pub(crate) fn one_pid_each(alloc: Global, findings: &mut [Finding<'_>]) -> Result<(), AllocError>
    ensures { OnOk result (map finding_view findings.new ≡ spec.one_pid_each (map finding_view findings.old)) }
{
    let association = named_programs(alloc, findings)?;
    let pids = map_pids(alloc, &association)?;
    put_all(&pids, findings);
    Ok(())
}
