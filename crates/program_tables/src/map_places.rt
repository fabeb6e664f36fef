//! The last map of each program among findings, found in one pass.

ghost use Rattle.std.specs.Prelude.{◌≡◌, ◌<◌, IfOk, OnOk, nat_eq, map, option_map};
ghost use Rattle.std.specs.Map.{lookup};
ghost use Rattle.psi_tables.specs.ProgramMap.{pmt_view};
ghost use Rattle.pid_findings.specs.Shown.{finding_view};
ghost use Rattle.program_tables.specs.MapPlaces as spec;
ghost use Rattle.program_tables.specs.ProgramMaps.{program_map};

use crate::program_map::{any_map, pmt_found};
use indexmap::IndexMap;
use pid_findings::Finding;
use psi_tables::{Pmt, Program};
use std::alloc::{AllocError, Allocator};
use std::hash::{BuildHasherDefault, FoldHasher};

/// By `map_key`: the place of the last finding with a table of the program.
pub type MapPlaces<A> = IndexMap<u32, usize, BuildHasherDefault<FoldHasher>, A>;

/// Returns the key of a program, which no other program has.
pub fn map_key(program: Program) -> u32
    ensures value { result ≡ spec.map_key program }
    ensures number { program.program_number < 65_536 }
{
    u32::from(program.pid) * 65_536 + u32::from(program.program_number)
}

// Returns the number of the program of a table.
fn number_of(pmt: &Pmt<'_>) -> u16
    ensures value { result ≡ (pmt_view pmt.now).header.table_id_extension }
    ensures range { result < 65_536 }
{
    pmt.header.table_id_extension
}

/// Returns the program whose table a finding has.
#[tactic(auto, unfolding(crate::specs::MapPlaces::program_on, crate::specs::MapPlaces::numbered_program))]
pub fn program_found<A: Allocator>(finding: &Finding<'_, A>) -> Option<Program>
    ensures { result ≡ spec.program_found (finding_view finding.now) }
{
    let pid = finding.pid?;
    match any_map(finding) {
        None => None,
        Some(pmt) => Some(Program {
            program_number: number_of(&pmt),
            pid,
        }),
    }
}

/// Notes the place of a finding, if it has a table.
#[tactic(auto, unfolding(crate::specs::MapPlaces::places_with))]
pub(crate) fn note_place<A: Allocator + Copy>(
    places: &mut MapPlaces<A>,
    at: usize,
    finding: &Finding<'_, A>,
) -> Result<(), AllocError>
    ensures { OnOk result (places.new.entries
        ≡ spec.places_with places.old.entries (spec.program_found (finding_view finding.now)) at) }
{
    match program_found(finding) {
        None => Ok(()),
        Some(program) => {
            places.insert(map_key(program), at)?;
            Ok(())
        }
    }
}

/// Returns the places of the last maps among findings.
pub fn map_places<A: Allocator + Copy>(
    alloc: A,
    findings: &[Finding<'_, A>],
) -> Result<MapPlaces<A>, AllocError>
    ensures { IfOk result (λ places. places.entries ≡ spec.places_in (map finding_view findings.now)) }
{
    let mut places = IndexMap::new(alloc);
    for (at, finding) in findings.iter().enumerate() {
        note_place(&mut places, at, finding)?;
    }
    Ok(places)
}

// Returns the place of the last map of a program.
fn place_of<A: Allocator>(places: &MapPlaces<A>, program: Program) -> Option<usize>
    ensures value { result ≡ lookup (nat_eq (spec.map_key program)) places.now.entries }
    ensures number { program.program_number < 65_536 }
{
    match places.get(&map_key(program)) {
        None => None,
        Some(at) => Some(*at),
    }
}

// Returns the table of a program that the finding at a place has.
#[tactic(auto, unfolding(crate::specs::MapPlaces::map_there))]
fn map_there<'f, A: Allocator>(
    program: Program,
    at: Option<usize>,
    findings: &'f [Finding<'_, A>],
) -> Option<Pmt<'f>>
    ensures { option_map pmt_view result ≡ spec.map_there program at (map finding_view findings.now) }
{
    match findings.get(at?) {
        None => None,
        Some(finding) => pmt_found(program, finding),
    }
}

/// Returns the map of a program: it is at its place.
pub fn map_at<'f, A: Allocator>(
    places: &MapPlaces<A>,
    program: Program,
    findings: &'f [Finding<'_, A>],
) -> Option<Pmt<'f>>
    requires { places.now.entries ≡ spec.places_in (map finding_view findings.now) }
    ensures { option_map pmt_view result ≡ program_map program (map finding_view findings.now) }
{
    map_there(program, place_of(places, program), findings)
}
