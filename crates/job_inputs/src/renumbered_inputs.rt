//! An input of a job beside earlier inputs: its programs and PIDs have new numbers if earlier inputs have their
//! numbers.

ghost use Rattle.std.specs.Prelude.{◌≡◌, ◌++◌, IfOk, OnOk, map, option_map};
ghost use Rattle.job_inputs.specs.RenumberedInputs as spec;

use crate::input::JobInput;
use crate::job_tables::JobTable;
use crate::new_numbers::{NewNumber, all_become, becomes, new_numbers};
use job_programs::{JobEvent, JobInformation, JobProgram, TimedStream};
use std::alloc::{AllocError, Global};
use std::marker::Model;
use std::mem;

/// The least new number of a program, and the least new PID.
const LEAST_PROGRAM: u16 = 1;

const LEAST_PID: u16 = 32;

/// What the numbers of an input's programs and its PIDs become; inputs are numbered from 0 on.
#[derive(Drop)]
pub(crate) struct Renumbering {
    pub input: usize,
    pub programs: Vec<NewNumber>,
    pub pids: Vec<NewNumber>,
}

// A contract sees its numbers as lists.
impl Model for Renumbering {
    ghost use Rattle.job_inputs.specs.RenumberedInputs.{RenumberingView};

    ghost Value = { RenumberingView };

    ghost view = { λ r. record { input = r.input; programs = r.programs.items; pids = r.pids.items } };
}

/// Returns the numbers of an input's programs.
pub(crate) fn program_numbers(alloc: Global, input: &JobInput) -> Result<Vec<u16>, AllocError>
    ensures { IfOk result (λ numbers. numbers.items ≡ spec.program_numbers input.now) }
{
    let programs = &input.programs;
    programs.iter().map(|program| program.number).collect(alloc)
}

fn map_pids(alloc: Global, programs: &[JobProgram]) -> Result<Vec<u16>, AllocError>
    ensures { IfOk result (λ pids. pids.items ≡ map (λ p. p.map_pid) programs.now) }
{
    programs
        .iter()
        .map(|program| program.map_pid)
        .collect(alloc)
}

fn pcr_pids(alloc: Global, programs: &[JobProgram]) -> Result<Vec<u16>, AllocError>
    ensures { IfOk result (λ pids. pids.items ≡ map (λ p. p.pcr_pid) programs.now) }
{
    programs
        .iter()
        .map(|program| program.pcr_pid)
        .collect(alloc)
}

fn stream_pids(alloc: Global, streams: &[TimedStream]) -> Result<Vec<u16>, AllocError>
    ensures { IfOk result (λ pids. pids.items ≡ map (λ s. s.pid) streams.now) }
{
    streams.iter().map(|stream| stream.pid).collect(alloc)
}

fn table_pids(alloc: Global, tables: &[JobTable]) -> Result<Vec<u16>, AllocError>
    ensures { IfOk result (λ pids. pids.items ≡ map (λ t. t.pid) tables.now) }
{
    tables.iter().map(|table| table.pid).collect(alloc)
}

/// Returns the PIDs of its maps, its streams and its private sections.
pub(crate) fn found_pids(alloc: Global, input: &JobInput) -> Result<Vec<u16>, AllocError>
    ensures { IfOk result (λ pids. pids.items ≡ spec.found_pids input.now) }
{
    let mut pids = map_pids(alloc, &input.programs)?;
    let streams = stream_pids(alloc, &input.streams)?;
    pids.extend_from_slice(&streams)?;
    let tables = table_pids(alloc, &input.tables)?;
    pids.extend_from_slice(&tables)?;
    Ok(pids)
}

// Returns all PIDs of an input, also of its clock references.
fn all_pids(alloc: Global, input: &JobInput) -> Result<Vec<u16>, AllocError>
    ensures { IfOk result (λ pids. pids.items ≡ spec.all_pids input.now) }
{
    let mut pids = found_pids(alloc, input)?;
    let clocks = pcr_pids(alloc, &input.programs)?;
    pids.extend_from_slice(&clocks)?;
    Ok(pids)
}

// Returns the new program numbers of an input, beside the inputs before it.
fn new_programs(
    alloc: Global,
    before: &JobInput,
    input: &JobInput,
) -> Result<Option<Vec<NewNumber>>, AllocError>
    ensures { IfOk result (λ all. option_map (λ numbers. numbers.items) all
        ≡ spec.new_programs before.now input.now) }
{
    let taken = program_numbers(alloc, before)?;
    let own = program_numbers(alloc, input)?;
    new_numbers(alloc, LEAST_PROGRAM, &taken, &own)
}

// Returns the new PIDs of an input, beside the inputs before it.
fn new_pids(
    alloc: Global,
    before: &JobInput,
    input: &JobInput,
) -> Result<Option<Vec<NewNumber>>, AllocError>
    ensures { IfOk result (λ all. option_map (λ numbers. numbers.items) all ≡ spec.new_pids before.now input.now) }
{
    let taken = all_pids(alloc, before)?;
    let own = all_pids(alloc, input)?;
    new_numbers(alloc, LEAST_PID, &taken, &own)
}

/// Returns the new program numbers and PIDs of an input, beside the inputs before it; `None` if no number is free.
#[tactic(auto, unfolding(crate::specs::RenumberedInputs::renumbering_of, crate::specs::RenumberedInputs::renumbering_with))]
pub(crate) fn renumbering_of(
    alloc: Global,
    number: usize,
    before: &JobInput,
    input: &JobInput,
) -> Result<Option<Renumbering>, AllocError>
    ensures { IfOk result (λ r. r ≡ spec.renumbering_of number before.now input.now) }
{
    let Some(programs) = new_programs(alloc, before, input)? else {
        return Ok(None);
    };
    let Some(pids) = new_pids(alloc, before, input)? else {
        return Ok(None);
    };
    Ok(Some(Renumbering {
        input: number,
        programs,
        pids,
    }))
}

// Returns a program with its new numbers.
#[tactic(auto, unfolding(crate::specs::RenumberedInputs::program_with))]
fn program_with(numbers: &Renumbering, program: JobProgram) -> JobProgram
    ensures { result ≡ spec.program_with numbers.now program }
{
    JobProgram {
        number: becomes(&numbers.programs, program.number),
        map_pid: becomes(&numbers.pids, program.map_pid),
        pcr_pid: becomes(&numbers.pids, program.pcr_pid),
        clock: program.clock,
        descriptors: program.descriptors,
    }
}

// Returns a stream with its new numbers.
#[tactic(auto, unfolding(crate::specs::RenumberedInputs::stream_with))]
fn stream_with(
    alloc: Global,
    numbers: &Renumbering,
    stream: TimedStream,
) -> Result<TimedStream, AllocError>
    ensures { IfOk result (λ s. s ≡ spec.stream_with numbers.now stream) }
{
    let program = becomes(&numbers.programs, stream.program);
    let pid = becomes(&numbers.pids, stream.pid);
    let shared_with = all_become(alloc, &numbers.programs, &stream.shared_with)?;
    Ok(TimedStream {
        program,
        pid,
        shared_with,
        ..stream
    })
}

// Returns a private table with its new numbers.
#[tactic(auto, unfolding(crate::specs::RenumberedInputs::table_with))]
fn table_with(numbers: &Renumbering, table: JobTable) -> JobTable
    ensures { result ≡ spec.table_with numbers.now table }
{
    let program = becomes(&numbers.programs, table.program);
    let pid = becomes(&numbers.pids, table.pid);
    JobTable {
        program,
        pid,
        ..table
    }
}

// Returns an event with the new number of its program.
#[tactic(auto, unfolding(crate::specs::RenumberedInputs::event_with))]
fn event_with(numbers: &Renumbering, event: JobEvent) -> JobEvent
    ensures { result ≡ spec.event_with numbers.now event }
{
    let program = becomes(&numbers.programs, event.program);
    JobEvent { program, ..event }
}

// Appends these programs with their new numbers.
fn push_programs(
    numbers: &Renumbering,
    found: Vec<JobProgram>,
    programs: &mut Vec<JobProgram>,
) -> Result<(), AllocError>
    ensures { OnOk result (programs.new.items ≡ programs.old.items
        ++ map (spec.program_with numbers.now) found.items) }
{
    for program in found {
        programs.push(program_with(numbers, program))?;
    }
    Ok(())
}

// Appends these streams with theirs.
fn push_streams(
    alloc: Global,
    numbers: &Renumbering,
    found: Vec<TimedStream>,
    streams: &mut Vec<TimedStream>,
) -> Result<(), AllocError>
    ensures { OnOk result (streams.new.items ≡ streams.old.items ++ map (spec.stream_with numbers.now) found.items) }
{
    for stream in found {
        streams.push(stream_with(alloc, numbers, stream)?)?;
    }
    Ok(())
}

// Appends these tables with theirs.
fn push_tables(
    numbers: &Renumbering,
    found: Vec<JobTable>,
    tables: &mut Vec<JobTable>,
) -> Result<(), AllocError>
    ensures { OnOk result (tables.new.items ≡ tables.old.items ++ map (spec.table_with numbers.now) found.items) }
{
    for table in found {
        tables.push(table_with(numbers, table))?;
    }
    Ok(())
}

// Appends these events with theirs.
fn push_events(
    numbers: &Renumbering,
    found: Vec<JobEvent>,
    events: &mut Vec<JobEvent>,
) -> Result<(), AllocError>
    ensures { OnOk result (events.new.items ≡ events.old.items ++ map (spec.event_with numbers.now) found.items) }
{
    for event in found {
        events.push(event_with(numbers, event))?;
    }
    Ok(())
}

// Gives the events of a job's information the new program numbers.
#[tactic(auto, unfolding(crate::specs::RenumberedInputs::information_with))]
fn renumber_information(
    alloc: Global,
    numbers: &Renumbering,
    information: &mut JobInformation,
) -> Result<(), AllocError>
    ensures { OnOk result (information.new ≡ spec.information_with numbers.now information.old) }
{
    let found = mem::replace(&mut information.events, Vec::new(alloc));
    push_events(numbers, found, &mut information.events)
}

/// Gives an input its new numbers.
#[tactic(auto, unfolding(crate::specs::RenumberedInputs::renumbered))]
pub(crate) fn renumber(
    alloc: Global,
    numbers: &Renumbering,
    input: &mut JobInput,
) -> Result<(), AllocError>
    ensures { OnOk result (input.new ≡ spec.renumbered numbers.now input.old) }
{
    let programs = mem::replace(&mut input.programs, Vec::new(alloc));
    push_programs(numbers, programs, &mut input.programs)?;
    let tables = mem::replace(&mut input.tables, Vec::new(alloc));
    push_tables(numbers, tables, &mut input.tables)?;
    let streams = mem::replace(&mut input.streams, Vec::new(alloc));
    push_streams(alloc, numbers, streams, &mut input.streams)?;
    renumber_information(alloc, numbers, &mut input.information)
}
