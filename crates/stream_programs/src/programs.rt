//! The programs of a stream and their elementary streams.

ghost use Rattle.std.specs.Prelude.{◌≡◌, IfOk, map};
ghost use Rattle.psi_tables.specs.ProgramMap.{streams_of};
ghost use Rattle.pid_findings.specs.Shown.{finding_view};
ghost use Rattle.stream_programs.specs.Programs as spec;

use crate::gathered::Gathered;
use crate::omission::TableOmission;
use crate::streams::FoundStream;
use descriptor_loops::{has_ca, has_of_multiplex};
use pid_findings::Finding;
use program_tables::map_places::map_places;
use psi_tables::{Program, Streams};
use std::alloc::{AllocError, Allocator, Global};
use std::marker::Model;

/// A program that has a stream.
#[derive(Drop)]
pub struct FoundProgram<A: Allocator = Global> {
    pub number: u16,
    /// The PID of its program map table.
    pub map_pid: u16,
    /// As declared: 0x1FFF without a PCR.
    pub pcr_pid: u16,
    /// Its whole descriptors except descriptors of conditional access and of a multiplex.
    pub descriptors: Vec<u8, A>,
}

// A contract sees the descriptors as a list of bytes.
impl<A: Allocator> Model for FoundProgram<A> {
    ghost use Rattle.stream_programs.specs.Programs.{FoundProgramView};

    ghost Value = { FoundProgramView };

    ghost view = { λ p. record {
      number = p.number;
      map_pid = p.map_pid;
      pcr_pid = p.pcr_pid;
      descriptors = p.descriptors.items;
    } };
}

/// The programs of a stream.
#[derive(Drop)]
pub struct FoundPrograms<A: Allocator = Global> {
    /// In the order of the program association table.
    pub programs: Vec<FoundProgram<A>, A>,
    /// By program, then in the order of its program map table. No two have the same PID: a stream that several programs
    /// have belongs to the first.
    pub streams: Vec<FoundStream<A>, A>,
    /// Streams of sections, each on a PID that no stream and no earlier entry has.
    pub tables: Vec<FoundStream<A>, A>,
    /// The omissions, program by program; all streams of sections are left out.
    pub left_out: Vec<TableOmission, A>,
}

// A contract sees lists.
impl<A: Allocator> Model for FoundPrograms<A> {
    ghost use Rattle.stream_programs.specs.Programs.{FoundProgramsView};

    ghost Value = { FoundProgramsView };

    ghost view = { λ p. record {
      programs = p.programs.items;
      streams = p.streams.items;
      tables = p.tables.items;
      left_out = p.left_out.items;
    } };
}

/// Returns whether any stream has a CA descriptor.
#[tactic(auto, unfolding(crate::specs::Programs::any_ca))]
pub(crate) fn any_ca(streams: Streams<'_>) -> bool
    ensures { result ≡ spec.any_ca (streams_of streams.entry) }
{
    for stream in streams {
        if has_ca(stream.descriptors) {
            return true;
        }
    }
    false
}

/// Returns whether any stream has a descriptor about the multiplex.
#[tactic(auto, unfolding(crate::specs::Programs::any_of_multiplex))]
pub(crate) fn any_of_multiplex(streams: Streams<'_>) -> bool
    ensures { result ≡ spec.any_of_multiplex (streams_of streams.entry) }
{
    for stream in streams {
        if has_of_multiplex(stream.descriptors) {
            return true;
        }
    }
    false
}

/// Returns the programs of a stream, by its findings: the named programs with a program map table that has a stream,
/// each as its last table says. The first of streams with one PID is kept, and programs with its program's clock share
/// it.
#[tactic(auto, unfolding(crate::specs::Programs::programs_of))]
pub fn found_programs<A: Allocator + Copy>(
    alloc: A,
    named: &[Program],
    findings: &[Finding<'_, A>],
) -> Result<FoundPrograms<A>, AllocError>
    ensures { IfOk result (λ found. found ≡ spec.programs_of named.now (map finding_view findings.now)) }
{
    let places = map_places(alloc, findings)?;
    let mut gathered = Gathered::new(alloc);
    for program in named {
        gathered.note(alloc, *program, &places, findings)?;
    }
    Ok(gathered.into_found())
}
