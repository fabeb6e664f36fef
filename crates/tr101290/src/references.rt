//! The PIDs that tables name.
ghost use Rattle.std.specs.Prelude.{◌≡◌, ◌++◌, IfOk, OnOk, flat_map, map, option_map, option_to_list};
ghost use Rattle.psi_tables.specs.ProgramMap.{pmt_view};
ghost use Rattle.pid_findings.specs.Shown.{finding_view};
ghost use Rattle.program_tables.specs.MapPlaces.{places_in};
ghost use Rattle.tr101290.specs.References as spec;

use pid_findings::Finding;
use program_tables::map_places::{MapPlaces, map_at, map_places};
use program_tables::{Association, named_programs};
use psi_tables::{Pmt, Program};
use std::alloc::{AllocError, Global};
use stream_programs::{FoundPrograms, mapped_pids};
use ts_tables::NamedStreams;

// Appends the PIDs of the maps of programs.
fn push_maps(programs: &[Program], pids: &mut Vec<u16>) -> Result<(), AllocError>
    ensures { OnOk result (pids.new.items ≡ pids.old.items ++ map (λ p. p.pid) programs.now) }
{
    for program in programs {
        pids.push(program.pid)?;
    }
    Ok(())
}

// Returns the PID of the clock references that a map names, if it names one.
#[tactic(auto, unfolding(crate::specs::References::clock_pid))]
fn clock_pid(pmt: Option<Pmt<'_>>) -> Option<u16>
    ensures { option_to_list result ≡ spec.clock_pid (option_map pmt_view pmt.entry) }
{
    match pmt {
        None => None,
        Some(pmt) => {
            if pmt.pcr_pid == 8191 {
                None
            } else {
                Some(pmt.pcr_pid)
            }
        }
    }
}

// Appends the PID of the clock references of a program, by its map.
fn push_clock(
    program: Program,
    places: &MapPlaces<Global>,
    findings: &[Finding<'_>],
    pids: &mut Vec<u16>,
) -> Result<(), AllocError>
    requires { places.now.entries ≡ places_in (map finding_view findings.now) }
    ensures { OnOk result (pids.new.items
        ≡ pids.old.items ++ spec.program_clock (map finding_view findings.now) program) }
{
    if let Some(pid) = clock_pid(map_at(places, program, findings)) {
        pids.push(pid)?;
    }
    Ok(())
}

// Appends the PIDs of the clock references of programs, by their maps.
fn push_clocks(
    programs: &[Program],
    places: &MapPlaces<Global>,
    findings: &[Finding<'_>],
    pids: &mut Vec<u16>,
) -> Result<(), AllocError>
    requires { places.now.entries ≡ places_in (map finding_view findings.now) }
    ensures { OnOk result (pids.new.items
        ≡ pids.old.items ++ flat_map (spec.program_clock (map finding_view findings.now)) programs.now) }
{
    for program in programs {
        push_clock(*program, places, findings, pids)?;
    }
    Ok(())
}

// Appends the PIDs of the clock references of the programs that a program association table names.
#[tactic(auto, unfolding(crate::specs::References::clock_pids))]
fn push_table_clocks(
    alloc: Global,
    table: &Option<Association>,
    findings: &[Finding<'_>],
    pids: &mut Vec<u16>,
) -> Result<(), AllocError>
    ensures { OnOk result (pids.new.items
        ≡ pids.old.items ++ spec.clock_pids (map finding_view findings.now) table.now) }
{
    let Some(table) = table else {
        return Ok(());
    };
    let places = map_places(alloc, findings)?;
    push_clocks(&table.programs, &places, findings, pids)
}

// Appends the PIDs of the maps that a program association table names.
#[tactic(auto, unfolding(crate::specs::References::map_pids))]
fn push_table(table: &Option<Association>, pids: &mut Vec<u16>) -> Result<(), AllocError>
    ensures { OnOk result (pids.new.items ≡ pids.old.items ++ spec.map_pids table.now) }
{
    match table {
        None => Ok(()),
        Some(table) => push_maps(&table.programs, pids),
    }
}

fn pids_of(
    alloc: Global,
    findings: &[Finding<'_>],
    table: &Option<Association>,
    found: &FoundPrograms,
) -> Result<Vec<u16>, AllocError>
    ensures { IfOk result (λ pids. pids.items ≡ spec.pids_of (map finding_view findings.now) table.now found.now) }
{
    let mut pids = mapped_pids(alloc, found)?;
    push_table_clocks(alloc, table, findings, &mut pids)?;
    push_table(table, &mut pids)?;
    Ok(pids)
}

/// Returns the PIDs that the first tables name: of streams, whatever their stream_type, of clock references, and of
/// maps. None while these tables have not come.
#[tactic(auto, unfolding(crate::specs::References::referenced_by))]
pub fn referenced_pids(alloc: Global, named: &NamedStreams) -> Result<Option<Vec<u16>>, AllocError>
    ensures { IfOk result (λ pids. option_map (λ p. p.items) pids ≡ spec.referenced_pids named.now) }
{
    let Some(found) = named.found() else {
        return Ok(None);
    };
    let findings = named.findings();
    let table = named_programs(alloc, findings)?;
    Ok(Some(pids_of(alloc, findings, &table, found)?))
}
