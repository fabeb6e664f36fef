//! The programs that the program association table names (ISO/IEC 13818-1, 2.4.4.3).

ghost use Rattle.std.specs.Prelude.{◌≡◌, true, IfOk, OnOk, map, option_map};
ghost use Rattle.std.specs.List.{list_all};
ghost use Rattle.psi_tables.specs.ProgramAssociation.{pat_at, pat_view, programs_of};
ghost use Rattle.psi_tables.specs.Views.{section_view};
ghost use Rattle.pid_findings.specs.Shown.{finding_view};
ghost use Rattle.program_tables.specs.Association as spec;

use crate::program_list::{PROGRAM_NUMBERS, ProgramList};
use crate::sections::section_on;
use pid_findings::Finding;
use psi_tables::{Pat, Program, Section};
use std::alloc::{AllocError, Allocator, Global};
use std::marker::Model;

/// The programs of a transport stream, each with the PID of its program map table.
#[derive(Drop)]
pub struct Association<A: Allocator = Global> {
    pub transport_stream_id: u16,
    /// Of the sections that name the programs: 5 bits. `association_change` says where another one comes.
    pub version_number: u8,
    /// In the order of the table, each program_number once; program 0, which names the network PID, is none.
    pub programs: Vec<Program, A>,
}

// A contract sees the programs as a list.
impl<A: Allocator> Model for Association<A> {
    ghost use Rattle.program_tables.specs.Association.{AssociationView};

    ghost Value = { AssociationView };

    ghost view = { λ a. record {
      transport_stream_id = a.transport_stream_id;
      version_number = a.version_number;
      programs = a.programs.items;
    } };
}

// Returns a table that is in force now.
#[tactic(auto, unfolding(crate::specs::Association::pat_of_section, crate::specs::Association::in_force))]
fn pat_of_section<'f>(section: &Section<'f>) -> Option<Pat<'f>>
    ensures { option_map pat_view result ≡ spec.in_force (pat_at (section_view section.now)) }
{
    match Pat::read(section) {
        Err(_) => None,
        Ok(pat) => {
            if pat.header.current_next {
                Some(pat)
            } else {
                None
            }
        }
    }
}

#[tactic(auto, unfolding(crate::specs::Association::pat_in, crate::specs::Association::pat_of_section))]
fn pat_in(bytes: &[u8]) -> Option<Pat<'_>>
    ensures { option_map pat_view result ≡ spec.pat_in bytes.now }
{
    match Section::read(bytes) {
        Err(_) => None,
        Ok((section, _)) => pat_of_section(&section),
    }
}

/// Returns the table that a finding has.
#[tactic(auto, unfolding(crate::specs::Association::pat_found))]
pub(crate) fn pat_found<'f, A: Allocator>(finding: &'f Finding<'_, A>) -> Option<Pat<'f>>
    ensures { option_map pat_view result ≡ spec.pat_found (finding_view finding.now) }
{
    match section_on(0, finding) {
        None => None,
        Some(bytes) => pat_in(bytes),
    }
}

// Returns the first table in force.
fn first_pat<'f, A: Allocator>(findings: &'f [Finding<'_, A>]) -> Option<Pat<'f>>
    ensures { option_map pat_view result ≡ spec.first_pat (map finding_view findings.now) }
{
    for finding in findings {
        if let Some(pat) = pat_found(finding) {
            return Some(pat);
        }
    }
    None
}

// Appends the entries of a table.
#[tactic(auto, unfolding(crate::specs::Association::with_programs))]
fn add_entries<A: Allocator>(pat: Pat<'_>, programs: &mut ProgramList<A>) -> Result<(), AllocError>
    ensures { OnOk result (programs.new ≡ spec.with_programs programs.old (programs_of pat.entry.programs)) }
{
    for program in pat.programs {
        programs.add(program)?;
    }
    Ok(())
}

/// Adds the entries of what a finding has, if it is of this version.
#[tactic(auto, unfolding(crate::specs::Association::with_programs, crate::specs::Association::entries_of))]
pub(crate) fn add_version<A: Allocator>(
    version: u8,
    finding: &Finding<'_, A>,
    programs: &mut ProgramList<A>,
) -> Result<(), AllocError>
    ensures { OnOk result (programs.new ≡ spec.with_programs programs.old
        (spec.entries_of version (spec.pat_found (finding_view finding.now)))) }
{
    match pat_found(finding) {
        None => Ok(()),
        Some(pat) => {
            if pat.header.version_number == version {
                add_entries(pat, programs)
            } else {
                Ok(())
            }
        }
    }
}

// Appends the entries of a version.
fn add_all<A: Allocator>(
    version: u8,
    findings: &[Finding<'_, A>],
    programs: &mut ProgramList<A>,
) -> Result<(), AllocError>
    ensures { OnOk result (programs.new ≡ spec.with_programs programs.old
        (spec.entries version (map finding_view findings.now))) }
{
    for finding in findings {
        add_version(version, finding, programs)?;
    }
    Ok(())
}

/// Returns the programs of a stream, by its findings: the programs that program association sections of the first
/// section's version name. `None` if no such section is in force.
#[tactic(auto, unfolding(crate::specs::Association::association))]
pub fn named_programs<A: Allocator>(
    alloc: A,
    findings: &[Finding<'_, A>],
) -> Result<Option<Association<A>>, AllocError>
    ensures { IfOk result (λ found. found ≡ spec.association (map finding_view findings.now)) }
{
    let Some(first) = first_pat(findings) else {
        return Ok(None);
    };
    let mut programs = ProgramList::new(alloc);
    add_all(first.header.version_number, findings, &mut programs)?;
    Ok(Some(Association {
        transport_stream_id: first.header.table_id_extension,
        version_number: first.header.version_number,
        programs: programs.into_programs(),
    }))
}

// Returns, by program_number, the place of the last program with this number; 0 if there is none.
fn places_of(programs: &[Program]) -> [u16; PROGRAM_NUMBERS] {
    let mut places = [0; PROGRAM_NUMBERS];
    for (place, program) in programs.iter().enumerate() {
        places[program.program_number as usize] = (place % PROGRAM_NUMBERS) as u16;
    }
    places
}

// Returns whether the program at a place is this one with the same PID.
#[tactic(auto, unfolding(crate::specs::Association::is_entry))]
fn is_at(place: u16, named: &[Program], program: Program) -> bool
    ensures { result ≡ true → spec.is_entry named.now program ≡ true }
{
    match named.get(place as usize) {
        None => false,
        Some(other) => other.program_number == program.program_number && other.pid == program.pid,
    }
}

// Returns whether `named` has a program with the same number and PID. It first looks at the place noted for the number.
#[tactic(auto, unfolding(crate::specs::Association::is_entry))]
fn is_entry(places: &[u16; PROGRAM_NUMBERS], named: &[Program], program: Program) -> bool
    ensures { result ≡ spec.is_entry named.now program }
{
    if is_at(places[program.program_number as usize], named, program) {
        return true;
    }
    named.iter().any(|other| {
        other.program_number == program.program_number && other.pid == program.pid
    })
}

// Returns whether an entry names the network PID, or a program in `named`.
#[tactic(auto, unfolding(crate::specs::Association::is_said))]
fn is_said(places: &[u16; PROGRAM_NUMBERS], named: &[Program], program: Program) -> bool
    ensures { result ≡ spec.is_said named.now program }
{
    program.program_number == 0 || is_entry(places, named, program)
}

// Returns whether each entry of a table names the network PID, or a program in `named`.
fn are_said(places: &[u16; PROGRAM_NUMBERS], named: &[Program], pat: Pat<'_>) -> bool
    ensures { result ≡ list_all (spec.is_said named.now) (programs_of pat.entry.programs) }
{
    for program in pat.programs {
        if !is_said(places, named, program) {
            return false;
        }
    }
    true
}

// Returns whether a table differs from the association.
#[tactic(auto, unfolding(crate::specs::Association::differs))]
fn differs<A: Allocator>(
    places: &[u16; PROGRAM_NUMBERS],
    association: &Association<A>,
    pat: Pat<'_>,
) -> bool
    ensures { result ≡ spec.differs association.now (pat_view pat.entry) }
{
    if pat.header.version_number != association.version_number {
        return true;
    }
    if pat.header.table_id_extension != association.transport_stream_id {
        return true;
    }
    !are_said(places, &association.programs, pat)
}

// Returns whether a finding has a table that differs from the association.
#[tactic(auto, unfolding(crate::specs::Association::is_other))]
fn is_other<A: Allocator>(
    places: &[u16; PROGRAM_NUMBERS],
    association: &Association<A>,
    finding: &Finding<'_, A>,
) -> bool
    ensures { result ≡ spec.is_other association.now (spec.pat_found (finding_view finding.now)) }
{
    match pat_found(finding) {
        None => false,
        Some(pat) => differs(places, association, pat),
    }
}

/// Returns the packet where the first program association section in force ends that differs from the association:
/// it has another version or transport_stream_id, or names a program's map on another PID.
pub fn association_change<A: Allocator>(
    association: &Association<A>,
    findings: &[Finding<'_, A>],
) -> Option<u64>
    ensures { result ≡ spec.association_change association.now (map finding_view findings.now) }
{
    let places = places_of(&association.programs);
    for finding in findings {
        if is_other(&places, association, finding) {
            return Some(finding.packet);
        }
    }
    None
}
