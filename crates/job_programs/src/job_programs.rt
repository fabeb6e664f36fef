//! The programs of a job.

ghost use Rattle.std.specs.Prelude.{◌≡◌, ◌==◌, ◌++◌, ◌∷◌, [], find, option_map, IfOk, OnOk};
ghost use Rattle.std.specs.List.{list_any};
ghost use Rattle.job_programs.specs.JobPrograms as spec;
ghost use Rattle.job_programs.specs.JobStreams.{is_stream_of};

use crate::job_stream::{WireStream, is_stream_of};
use crate::program_clock::{ProgramClock, clock_by};
use crate::warning::{ProgramWarning, Warning};
use std::alloc::{AllocError, Global};
use std::marker::Model;
use stream_programs::{FoundProgram, ProgramPids};

/// A program, with the PIDs that its map and its clock references have in the new stream, and its clock in the one
/// before.
#[derive(Drop)]
pub struct JobProgram {
    pub number: u16,
    pub map_pid: u16,
    pub pcr_pid: u16,
    pub clock: ProgramClock,
    pub descriptors: Vec<u8>,
}

// A contract sees its descriptors as a list.
impl Model for JobProgram {
    ghost use Rattle.job_programs.specs.JobPrograms.{JobProgramView};

    ghost Value = { JobProgramView };

    ghost view = { λ p. record {
      number = p.number;
      map_pid = p.map_pid;
      pcr_pid = p.pcr_pid;
      clock = p.clock;
      descriptors = p.descriptors.items;
    } };
}

// Returns the first program with this number.
fn first_of(programs: &[JobProgram], number: u16) -> Option<&JobProgram>
    ensures { option_map (λ p. p.now) result ≡ find (λ p. p.number == number) programs.now }
{
    programs.iter().find(|program| program.number == number)
}

/// Returns the clock of the first of some programs that has a number.
#[tactic(auto, unfolding(crate::specs::JobPrograms::clock_in, crate::specs::JobPrograms::clock_if))]
pub fn clock_in(programs: &[JobProgram], number: u16) -> ProgramClock
    ensures { result ≡ spec.clock_in programs.now number }
{
    match first_of(programs, number) {
        Some(program) => program.clock,
        None => ProgramClock::Own(number),
    }
}

// Returns whether a program has a stream with units.
fn has_stream(streams: &[WireStream<'_>], number: u16) -> bool
    ensures { result ≡ list_any (is_stream_of number) streams.now }
{
    streams.iter().any(|stream| is_stream_of(number, stream))
}

// Appends the warning that a program has no stream, or that its map moves.
#[tactic(auto, unfolding(crate::specs::JobPrograms::program_warnings, crate::specs::JobPrograms::has_stream))]
fn push_program_warnings(
    streams: &[WireStream<'_>],
    program: &FoundProgram,
    assigned: ProgramPids,
    warnings: &mut Vec<Warning>,
) -> Result<(), AllocError>
    ensures { OnOk result (warnings.new.items ≡ warnings.old.items
        ++ spec.program_warnings streams.now (program.now, assigned)) }
{
    let (number, from, to) = (program.number, program.map_pid, assigned.map_pid);
    if !has_stream(streams, number) {
        warnings.push(Warning::Program {
            program: number,
            what: ProgramWarning::NoStream,
        })?;
    } else if from != to {
        warnings.push(Warning::MapMoved {
            program: number,
            from,
            to,
        })?;
    }
    Ok(())
}

// Returns a program with the PIDs that it is given.
#[tactic(auto, unfolding(crate::specs::JobPrograms::program_with_pids))]
fn program_with_pids(program: FoundProgram, assigned: ProgramPids) -> JobProgram
    ensures { result ≡ spec.program_with_pids (program, assigned) }
{
    JobProgram {
        number: program.number,
        map_pid: assigned.map_pid,
        pcr_pid: assigned.pcr_pid,
        clock: clock_by(program.number, program.pcr_pid),
        descriptors: program.descriptors,
    }
}

// Appends a program that has a stream, with the PIDs that it is given, and the warning about a program.
#[tactic(auto, unfolding(crate::specs::JobPrograms::has_stream))]
fn push_program(
    streams: &[WireStream<'_>],
    program: FoundProgram,
    assigned: ProgramPids,
    programs: &mut Vec<JobProgram>,
    warnings: &mut Vec<Warning>,
) -> Result<(), AllocError>
    ensures programs { OnOk result (programs.new.items ≡ programs.old.items
        ++ spec.job_programs streams.now (program ∷ []) (assigned ∷ [])) }
    ensures warnings { OnOk result (warnings.new.items ≡ warnings.old.items
        ++ spec.program_warnings streams.now (program, assigned)) }
{
    push_program_warnings(streams, &program, assigned, warnings)?;
    if has_stream(streams, program.number) {
        programs.push(program_with_pids(program, assigned))?;
    }
    Ok(())
}

/// Returns the programs with a stream that has units, each with the PIDs assigned to it, and the warnings about
/// programs without such a stream.
pub fn job_programs(
    alloc: Global,
    streams: &[WireStream<'_>],
    found: Vec<FoundProgram>,
    assigned: Vec<ProgramPids>,
    warnings: &mut Vec<Warning>,
) -> Result<Vec<JobProgram>, AllocError>
    ensures programs { IfOk result (λ programs. programs.items
        ≡ spec.job_programs streams.now found.items assigned.items) }
    ensures warnings { OnOk result (warnings.new.items ≡ warnings.old.items
        ++ spec.all_program_warnings streams.now found.items assigned.items) }
{
    let mut programs = Vec::new(alloc);
    let mut left = assigned.as_slice();
    for program in found {
        let Some((pids, later)) = left.split_first() else {
            return Ok(programs);
        };
        push_program(streams, program, *pids, &mut programs, warnings)?;
        left = later;
    }
    Ok(programs)
}
