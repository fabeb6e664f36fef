//! Programs that a later PAT names, and the first one does not.

ghost use Rattle.std.specs.Prelude.{◌≡◌, true, map, option_map};
ghost use Rattle.std.specs.List.{list_all};
ghost use Rattle.psi_tables.specs.ProgramAssociation.{pat_at, pat_view, programs_of};
ghost use Rattle.psi_tables.specs.Views.{section_view};
ghost use Rattle.pid_findings.specs.Shown.{finding_view};
ghost use Rattle.program_tables.specs.Association as tables;
ghost use Rattle.job_programs.specs.LaterPrograms as spec;

use crate::job_options::{JobOptions, is_selected_program};
use pid_findings::Finding;
use program_tables::section_on;
use psi_tables::{Pat, Program, Section};

/// How many program_numbers there are.
const PROGRAM_NUMBERS: usize = 65_536;

// Returns a PAT that is in force.
#[tactic(auto, unfolding(program_tables::specs::Association::pat_of_section, program_tables::specs::Association::in_force))]
fn pat_of_section<'f>(section: &Section<'f>) -> Option<Pat<'f>>
    ensures { option_map pat_view result ≡ tables.in_force (pat_at (section_view section.now)) }
{
    match Pat::read(section) {
        Err(_) => None,
        Ok(pat) => {
            if pat.header.current_next {
                Some(pat)
            } else {
                None
            }
        }
    }
}

#[tactic(auto, unfolding(program_tables::specs::Association::pat_in, program_tables::specs::Association::pat_of_section))]
fn pat_in(bytes: &[u8]) -> Option<Pat<'_>>
    ensures { option_map pat_view result ≡ tables.pat_in bytes.now }
{
    match Section::read(bytes) {
        Err(_) => None,
        Ok((section, _)) => pat_of_section(&section),
    }
}

// Returns the PAT that a finding has.
#[tactic(auto, unfolding(program_tables::specs::Association::pat_found))]
fn pat_found<'f>(finding: &'f Finding<'_>) -> Option<Pat<'f>>
    ensures { option_map pat_view result ≡ tables.pat_found (finding_view finding.now) }
{
    match section_on(0, finding) {
        None => None,
        Some(bytes) => pat_in(bytes),
    }
}

// Returns, by program_number, the place of the last program with this number; 0 if there is none.
fn places_of(programs: &[Program]) -> [u16; PROGRAM_NUMBERS] {
    let mut places = [0; PROGRAM_NUMBERS];
    for (place, program) in programs.iter().enumerate() {
        places[program.program_number as usize] = (place % PROGRAM_NUMBERS) as u16;
    }
    places
}

// Returns whether the maps of an entry are read because of the program at a place.
#[tactic(auto, unfolding(crate::specs::LaterPrograms::is_read))]
fn is_at(joined: bool, place: u16, named: &[Program], program: Program) -> bool
    ensures { result ≡ true → spec.is_read joined named.now program ≡ true }
{
    match named.get(place as usize) {
        None => false,
        Some(other) => {
            other.program_number == program.program_number && (joined || other.pid == program.pid)
        }
    }
}

// Returns whether the maps of an entry are read. It first looks at the place noted for the number.
#[tactic(auto, unfolding(crate::specs::LaterPrograms::is_read))]
fn is_read(
    joined: bool,
    places: &[u16; PROGRAM_NUMBERS],
    named: &[Program],
    program: Program,
) -> bool
    ensures { result ≡ spec.is_read joined named.now program }
{
    if is_at(
        joined,
        places[program.program_number as usize],
        named,
        program,
    ) {
        return true;
    }
    named.iter().any(|other| {
        other.program_number == program.program_number && (joined || other.pid == program.pid)
    })
}

// Returns whether nothing is lost by an entry.
#[tactic(auto, unfolding(crate::specs::LaterPrograms::is_kept))]
fn is_kept(
    options: &JobOptions<'_>,
    places: &[u16; PROGRAM_NUMBERS],
    named: &[Program],
    program: Program,
) -> bool
    ensures { result ≡ spec.is_kept options.now named.now program }
{
    program.program_number == 0
        || !is_selected_program(options.programs, &program)
        || is_read(options.joined, places, named, program)
}

// Returns whether nothing is lost by the entries of a PAT.
fn are_kept(
    options: &JobOptions<'_>,
    places: &[u16; PROGRAM_NUMBERS],
    named: &[Program],
    pat: Pat<'_>,
) -> bool
    ensures { result ≡ list_all (spec.is_kept options.now named.now) (programs_of pat.entry.programs) }
{
    for program in pat.programs {
        if !is_kept(options, places, named, program) {
            return false;
        }
    }
    true
}

// Returns whether a finding has a PAT with an entry by which something is lost.
#[tactic(auto, unfolding(crate::specs::LaterPrograms::loses, crate::specs::LaterPrograms::has_lost))]
fn loses(
    options: &JobOptions<'_>,
    places: &[u16; PROGRAM_NUMBERS],
    named: &[Program],
    finding: &Finding<'_>,
) -> bool
    ensures { result ≡ spec.loses options.now named.now (finding_view finding.now) }
{
    match pat_found(finding) {
        None => false,
        Some(pat) => !are_kept(options, places, named, pat),
    }
}

/// Returns the packet where the first PAT ends that names a program, or a PID of its maps, that is not among `named`.
/// Programs that are not asked for do not count, and in a joined recording no PIDs.
#[tactic(auto, unfolding(crate::specs::LaterPrograms::program_loss))]
pub(crate) fn program_loss(
    options: &JobOptions<'_>,
    named: &[Program],
    findings: &[Finding<'_>],
) -> Option<u64>
    ensures { result ≡ spec.program_loss options.now named.now (map finding_view findings.now) }
{
    let places = places_of(named);
    for finding in findings {
        if loses(options, &places, named, finding) {
            return Some(finding.packet);
        }
    }
    None
}
