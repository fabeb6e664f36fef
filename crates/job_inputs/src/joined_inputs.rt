//! The inputs of a job as one: their programs and streams one after another.

ghost use Rattle.std.specs.Prelude.{◌≡◌, ◌≤◌, ◌++◌, ◌∷◌, Bool, IfErr, IfOk, List, Ok, OnOk, length, map, option_map, take, ℕ};
ghost use Rattle.std.specs.List.{AllZip};
ghost use Rattle.pid_findings.specs.Views.{FindingView};
ghost use Rattle.job_programs.specs.Answers.{Answers, Refuses};
ghost use Rattle.job_programs.specs.OtherStreams.{is_same_stream};
ghost use Rattle.job_inputs.specs.JoinedInputs.{AreMadeOf, AreMovedByOne, AreStreamsIn, IsMovedIn};
ghost use Rattle.job_inputs.specs.JoinedInputs as spec;
ghost use Rattle.job_programs.specs.declared.program_clock.ProgramClock.{ProgramClock};

use crate::input::JobInput;
use crate::new_numbers::{NewNumber, others};
use crate::renumbered_inputs::{
    Renumbering, found_pids, program_numbers, renumber, renumbering_of,
};
use job_programs::job_programs::clock_in;
use job_programs::{
    JobError, JobEvent, JobInformation, JobNetwork, JobProgram, JobRefusal, ProgramClock,
    TimedStream,
};
use job_text::NetworkStreamPart;
use job_units::declarations::too_many;
use std::alloc::{AllocError, Global};
use std::collections::VecDeque;
use std::marker::Model;

/// The most events of a description.
const MOST_EVENTS: usize = 1_024;

/// Where a stream of a job was found: the number of an input, from 0 on, its PID there, and the clock of its stamps
/// there.
#[derive(Clone, Copy)]
pub struct Origin {
    pub input: usize,
    pub pid: u16,
    pub(crate) clock: ProgramClock,
}

/// A note about an input after the first.
#[derive(Clone, Copy)]
pub enum NoteCause {
    /// A program has a new number.
    Program(NewNumber),
    /// A map or a stream has a new PID.
    Pid(NewNumber),
    /// The input's network differs from the network of the first input, which the job has.
    Network,
    /// The input's time (TDT) is not used: the job has the time of the first input.
    Time,
    /// This number of events is over what a description may have.
    Events(usize),
}

/// A note, and the number of its input, from 0 on.
#[derive(Clone, Copy)]
pub struct InputNote {
    pub input: usize,
    pub cause: NoteCause,
}

/// The inputs of a job as one; where each stream was found; and the notes about the inputs after the first.
#[derive(Drop)]
pub struct JoinedInputs {
    pub input: JobInput,
    pub origins: Vec<Origin>,
    pub notes: Vec<InputNote>,
}

// A contract sees its parts as lists.
impl Model for JoinedInputs {
    ghost use Rattle.job_inputs.specs.JoinedInputs.{JoinedInputsView};

    ghost Value = { JoinedInputsView };

    ghost view = { λ j. record { input = j.input; origins = j.origins.items; notes = j.notes.items } };
}

// Appends the elements of another list, which has none then.
fn append<T: Drop>(all: &mut Vec<T>, more: &mut Vec<T>) -> Result<(), AllocError>
    ensures { OnOk result (all.new.items ≡ all.old.items ++ more.old.items) }
{
    all.append(more)
}

// Appends events, up to the most of a description.
fn append_events(all: &mut Vec<JobEvent>, more: &mut Vec<JobEvent>) -> Result<(), AllocError>
    ensures { OnOk result (all.new.items ≡ take spec.most_events (all.old.items ++ more.old.items)) }
{
    append(all, more)?;
    all.truncate(MOST_EVENTS);
    Ok(())
}

// Joins the services and events of a second input to the first; network and time stay those of the first input.
#[tactic(auto, unfolding(crate::specs::JoinedInputs::information_joined))]
fn join_information(one: &mut JobInformation, other: &mut JobInformation) -> Result<(), AllocError>
    ensures { OnOk result (one.new ≡ spec.information_joined one.old other.old) }
{
    one.sdt = one.sdt || other.sdt;
    append(&mut one.services, &mut other.services)?;
    append_events(&mut one.events, &mut other.events)
}

// Joins a second input to the first, whose clock stays.
#[tactic(auto, unfolding(crate::specs::JoinedInputs::joined))]
fn join(one: &mut JobInput, other: &mut JobInput) -> Result<(), AllocError>
    ensures { OnOk result (one.new ≡ spec.joined one.old other.old) }
{
    join_information(&mut one.information, &mut other.information)?;
    append(&mut one.programs, &mut other.programs)?;
    append(&mut one.tables, &mut other.tables)?;
    append(&mut one.streams, &mut other.streams)?;
    append(&mut one.unit_counts, &mut other.unit_counts)?;
    append(&mut one.choices, &mut other.choices)?;
    append(&mut one.warnings, &mut other.warnings)
}

// Returns whether two descriptor loops are one, or both networks have their names alone.
#[tactic(auto, unfolding(crate::specs::JoinedInputs::is_same_loop))]
fn is_same_loop(one: &Option<Vec<u8>>, other: &Option<Vec<u8>>) -> bool
    ensures { result ≡ spec.is_same_loop (option_map (λ b. b.items) one.now) (option_map (λ b. b.items) other.now) }
{
    match (one, other) {
        (None, None) => true,
        (Some(one), Some(other)) => one.as_slice() == other.as_slice(),
        _ => false,
    }
}

// Returns whether two transport streams have the same ids and descriptors.
fn is_same_stream(one: &NetworkStreamPart, other: &NetworkStreamPart) -> bool
    ensures { result ≡ is_same_stream one.now other.now }
{
    (other.transport_stream_id == one.transport_stream_id
        && other.original_network_id == one.original_network_id)
        && one.descriptors.as_slice() == other.descriptors.as_slice()
}

// Returns whether the transport streams of two networks are the same, in their order.
#[tactic(auto, unfolding(crate::specs::JoinedInputs::are_same_streams))]
fn are_same_streams(ones: &[NetworkStreamPart], others: &[NetworkStreamPart]) -> bool
    ensures { result ≡ spec.are_same_streams ones.now others.now }
{
    let mut left = ones;
    let mut rest = others;
    'streams: while let Some((one, later_ones)) = left.split_first() {
        let Some((other, later)) = rest.split_first() else {
            return false;
        };
        if !is_same_stream(one, other) {
            return false;
        }
        left = later_ones;
        rest = later;
    }
    rest.is_empty()
}

// Returns whether two networks, and this transport stream in them, have the same descriptors.
fn has_same_loops(one: &JobNetwork, other: &JobNetwork) -> bool
    ensures { result ≡ spec.has_same_loops one.now other.now }
{
    is_same_loop(&one.network_descriptors, &other.network_descriptors)
        && one.descriptors.as_slice() == other.descriptors.as_slice()
}

// Returns whether two networks are one.
#[tactic(auto, unfolding(crate::specs::JoinedInputs::is_same_network))]
fn is_same_network(one: &JobNetwork, other: &JobNetwork) -> bool
    ensures { result ≡ spec.is_same_network one.now other.now }
{
    one.id == other.id
        && (one.name.as_str() == other.name.as_str()
            && (has_same_loops(one, other) && are_same_streams(&one.streams, &other.streams)))
}

// Returns whether an input names a network that differs from the network of the job.
#[tactic(auto, unfolding(crate::specs::JoinedInputs::is_other_network))]
fn is_other_network(one: &Option<JobNetwork>, other: &Option<JobNetwork>) -> bool
    ensures { result ≡ spec.is_other_network one.now other.now }
{
    match (one, other) {
        (_, None) => false,
        (None, Some(_)) => true,
        (Some(one), Some(other)) => !is_same_network(one, other),
    }
}

// Appends the notes about new numbers of programs.
fn push_program_notes(
    input: usize,
    changed: &[NewNumber],
    notes: &mut Vec<InputNote>,
) -> Result<(), AllocError>
    ensures { OnOk result (notes.new.items ≡ notes.old.items ++ map (spec.program_note input) changed.now) }
{
    for number in changed {
        let cause = NoteCause::Program(*number);
        notes.push(InputNote { input, cause })?;
    }
    Ok(())
}

// Appends a note for each new PID.
fn push_pid_notes(
    input: usize,
    changed: &[NewNumber],
    notes: &mut Vec<InputNote>,
) -> Result<(), AllocError>
    ensures { OnOk result (notes.new.items ≡ notes.old.items ++ map (spec.pid_note input) changed.now) }
{
    for number in changed {
        let cause = NoteCause::Pid(*number);
        notes.push(InputNote { input, cause })?;
    }
    Ok(())
}

// Appends the notes about new numbers and new PIDs of an input.
#[tactic(auto, unfolding(crate::specs::JoinedInputs::number_notes))]
fn push_number_notes(
    alloc: Global,
    numbers: &Renumbering,
    input: &JobInput,
    notes: &mut Vec<InputNote>,
) -> Result<(), AllocError>
    ensures { OnOk result (notes.new.items ≡ notes.old.items ++ spec.number_notes numbers.now input.now) }
{
    let programs = others(alloc, &numbers.programs, &program_numbers(alloc, input)?)?;
    let pids = others(alloc, &numbers.pids, &found_pids(alloc, input)?)?;
    push_program_notes(numbers.input, &programs, notes)?;
    push_pid_notes(numbers.input, &pids, notes)
}

// Appends a note, if `is_so`.
#[tactic(auto, unfolding(crate::specs::JoinedInputs::note_if))]
fn push_if(
    is_so: bool,
    input: usize,
    cause: NoteCause,
    notes: &mut Vec<InputNote>,
) -> Result<(), AllocError>
    ensures { OnOk result (notes.new.items ≡ notes.old.items ++ spec.note_if is_so input cause) }
{
    if is_so {
        notes.push(InputNote { input, cause })?;
    }
    Ok(())
}

// Appends the notes about an input, beside the inputs before it.
#[tactic(auto, unfolding(crate::specs::JoinedInputs::input_notes))]
fn push_input_notes(
    alloc: Global,
    numbers: &Renumbering,
    before: &JobInput,
    input: &JobInput,
    notes: &mut Vec<InputNote>,
) -> Result<(), AllocError>
    ensures { OnOk result (notes.new.items ≡ notes.old.items ++ spec.input_notes numbers.now before.now input.now) }
{
    let number = numbers.input;
    let (old, new) = (&before.information, &input.information);
    let events = old.events.len().saturating_add(new.events.len());
    let surplus = events.saturating_sub(MOST_EVENTS);
    push_number_notes(alloc, numbers, input, notes)?;
    let is_other = is_other_network(&old.network, &new.network);
    push_if(is_other, number, NoteCause::Network, notes)?;
    push_if(new.tdt, number, NoteCause::Time, notes)?;
    push_if(surplus > 0, number, NoteCause::Events(surplus), notes)
}

// Returns where a stream of an input was found.
#[tactic(auto, unfolding(crate::specs::JoinedInputs::origin_in))]
fn origin_in(number: usize, programs: &[JobProgram], stream: &TimedStream) -> Origin
    ensures { result ≡ spec.origin_in number programs.now stream.now }
{
    Origin {
        input: number,
        pid: stream.pid,
        clock: clock_in(programs, stream.program),
    }
}

// Returns where each stream of an input was found.
fn origins_in(alloc: Global, number: usize, input: &JobInput) -> Result<Vec<Origin>, AllocError>
    ensures { IfOk result (λ origins. origins.items ≡ spec.origins_in number input.now) }
{
    let programs = input.programs.as_slice();
    let streams = &input.streams;
    streams
        .iter()
        .map(|stream| origin_in(number, programs, stream))
        .collect(alloc)
}

// Returns the first input alone, before any input is joined.
#[tactic(auto, unfolding(crate::specs::JoinedInputs::first_input))]
fn first_input(alloc: Global, input: JobInput) -> Result<JoinedInputs, AllocError>
    ensures { IfOk result (λ j. j ≡ spec.first_input input) }
{
    let origins = origins_in(alloc, 0, &input)?;
    Ok(JoinedInputs {
        input,
        origins,
        notes: Vec::new(alloc),
    })
}

// Joins an input, with its new numbers, to the inputs before it.
#[tactic(auto, unfolding(crate::specs::JoinedInputs::with_renumbered))]
fn add_renumbered(
    alloc: Global,
    all: &mut JoinedInputs,
    input: &mut JobInput,
    numbers: &Renumbering,
) -> Result<(), AllocError>
    ensures { OnOk result (all.new ≡ spec.with_renumbered all.old input.old numbers.now) }
{
    push_input_notes(alloc, numbers, &all.input, input, &mut all.notes)?;
    let mut origins = origins_in(alloc, numbers.input, input)?;
    append(&mut all.origins, &mut origins)?;
    renumber(alloc, numbers, input)?;
    join(&mut all.input, input)
}

// Joins an input to the inputs before it. Refuses more programs or streams than a description may have.
#[tactic(auto, unfolding(crate::specs::JoinedInputs::with_input, crate::specs::JoinedInputs::within_limits, job_programs::specs::Answers::unless, job_programs::specs::Answers::and_then, job_programs::specs::Answers::Refuses))]
fn add_input(
    alloc: Global,
    number: usize,
    all: &mut JoinedInputs,
    input: &mut JobInput,
) -> Result<(), JobError>
    ensures joined { OnOk result (spec.with_input number all.old input.old ≡ Ok all.new) }
    ensures refused { IfErr result (Refuses (spec.with_input number all.old input.old)) }
{
    let Some(numbers) = renumbering_of(alloc, number, &all.input, input)? else {
        return Err(JobError::Refused(JobRefusal::Pids));
    };
    add_renumbered(alloc, all, input, &numbers)?;
    match too_many(all.input.programs.len(), all.input.streams.len()) {
        Some(refusal) => Err(JobError::Refused(refusal)),
        None => Ok(()),
    }
}

// Joins all inputs, one after another.
#[tactic(auto, unfolding(job_programs::specs::Answers::Refuses))]
fn all_joined(alloc: Global, first: JobInput, more: Vec<JobInput>) -> Result<JoinedInputs, JobError>
    ensures joined { IfOk result (λ j. spec.joined_inputs first more.items ≡ Ok j) }
    ensures refused { IfErr result (Refuses (spec.joined_inputs first more.items)) }
{
    let mut all = first_input(alloc, first)?;
    let mut number: usize = 0;
    let mut left = VecDeque::from(more);
    'inputs: while let Some(mut input) = left.pop_front() {
        number = number.saturating_add(1);
        add_input(alloc, number, &mut all, &mut input)?;
    }
    Ok(all)
}

/// Returns the inputs of a job as one: the programs and streams of the first, and of each after it, with new numbers if
/// earlier inputs have their numbers. Refusals: no PID left for an input, or more programs or streams than a
/// description may have.
#[tactic(auto, unfolding(job_programs::specs::Answers::Answers))]
pub fn join_inputs(
    alloc: Global,
    first: JobInput,
    more: Vec<JobInput>,
) -> Result<JoinedInputs, JobError>
    ensures value { Answers (spec.joined_inputs first more.items) result }
    ensures few { length first.streams ≤ 254 → IfOk result (λ j. length j.input.streams ≤ 254) }
    ensures streams { (made : Bool) (inputs : List (List FindingView)) → AreMadeOf made inputs 0 (first ∷ more.items) →
        IfOk result (AreStreamsIn made inputs) }
    ensures constants { (made : Bool) (inputs : List (List FindingView)) (constant : ℕ → ProgramClock → ℕ) →
        AreMovedByOne made inputs constant 0 (first ∷ more.items) →
        IfOk result (λ j. AllZip (IsMovedIn made inputs constant) j.origins j.input.streams) }
{
    all_joined(alloc, first, more)
}
