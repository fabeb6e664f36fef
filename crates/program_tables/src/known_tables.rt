//! What the tables among findings say, finding by finding.

ghost use Rattle.std.specs.Prelude.{◌≡◌, ◌≤◌, [], OnOk, is_some, length, map, take};
ghost use Rattle.pid_findings.specs.Shown.{finding_view};
ghost use Rattle.program_tables.specs.Association.{pat_found};
ghost use Rattle.program_tables.specs.KnownTables as spec;
ghost use Rattle.program_tables.specs.ProgramMaps.{program_map};

use crate::association::{add_version, pat_found};
use crate::map_places::{MapPlaces, map_at, note_place};
use crate::program_list::ProgramList;
use indexmap::IndexMap;
use pid_findings::Finding;
use psi_tables::Program;
use std::alloc::{AllocError, Allocator, Global};
use std::marker::Model;

/// The programs that the association tables among findings name so far, and the places of the maps.
#[derive(Drop)]
pub struct KnownTables<A: Allocator = Global> {
    // version_number of the first association table
    version: Option<u8>,
    programs: ProgramList<A>,
    places: MapPlaces<A>,
}

// A contract sees the version, the programs, and the places by key.
impl<A: Allocator> Model for KnownTables<A> {
    ghost use Rattle.program_tables.specs.KnownTables.{KnownView};

    ghost Value = { KnownView };

    ghost view = { λ t. record { version = t.version; programs = t.programs; places = t.places.entries } };
}

// Returns the version of the first association table, after another finding.
#[tactic(auto, unfolding(crate::specs::KnownTables::version_with))]
fn version_with<A: Allocator>(version: Option<u8>, finding: &Finding<'_, A>) -> Option<u8>
    ensures { result ≡ spec.version_with version (pat_found (finding_view finding.now)) }
{
    if version.is_some() {
        return version;
    }
    match pat_found(finding) {
        None => None,
        Some(pat) => Some(pat.header.version_number),
    }
}

// Adds the programs that another finding names in this version.
#[tactic(auto, unfolding(crate::specs::KnownTables::programs_with))]
fn add_programs<A: Allocator>(
    version: Option<u8>,
    finding: &Finding<'_, A>,
    programs: &mut ProgramList<A>,
) -> Result<(), AllocError>
    ensures { OnOk result (programs.new
        ≡ spec.programs_with version programs.old (pat_found (finding_view finding.now))) }
{
    match version {
        None => Ok(()),
        Some(version) => add_version(version, finding, programs),
    }
}

impl<A: Allocator + Copy> KnownTables<A> {
    /// Returns the state before the first finding: no table is known.
    #[tactic(auto, unfolding(crate::specs::KnownTables::known_from))]
    pub fn new(alloc: A) -> KnownTables<A>
        ensures { result ≡ spec.known_in [] }
    {
        KnownTables {
            version: None,
            programs: ProgramList::new(alloc),
            places: IndexMap::new(alloc),
        }
    }

    // Takes the finding at a place.
    fn take_one(&mut self, at: usize, finding: &Finding<'_, A>) -> Result<(), AllocError>
        ensures { OnOk result (self.new ≡ spec.known_with self.old at (finding_view finding.now)) }
    {
        let version = version_with(self.version, finding);
        self.version = version;
        add_programs(version, finding, &mut self.programs)?;
        note_place(&mut self.places, at, finding)
    }

    /// Takes the findings from the place `taken` on.
    pub fn take(&mut self, taken: usize, findings: &[Finding<'_, A>]) -> Result<(), AllocError>
        requires within { taken ≤ length findings.now }
        requires known { self.old ≡ spec.known_in (take taken (map finding_view findings.now)) }
        ensures { OnOk result (self.new ≡ spec.known_in (map finding_view findings.now)) }
    {
        for at in taken..findings.len() {
            self.take_one(at, &findings[at])?;
        }
        Ok(())
    }
}

impl<A: Allocator> KnownTables<A> {
    /// Returns whether an association table is found.
    pub fn has_association(&self) -> bool
        ensures { result ≡ is_some self.now.version }
    {
        self.version.is_some()
    }

    /// Returns the programs of the association, in the order of the tables.
    pub fn programs(&self) -> &[Program]
        ensures { result.now ≡ self.now.programs }
    {
        self.programs.programs()
    }

    /// Returns whether a program has a map among the findings.
    pub fn has_map(&self, program: Program, findings: &[Finding<'_, A>]) -> bool
        requires { self.now ≡ spec.known_in (map finding_view findings.now) }
        ensures { result ≡ is_some (program_map program (map finding_view findings.now)) }
    {
        map_at(&self.places, program, findings).is_some()
    }
}
