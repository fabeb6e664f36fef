//! The input of a job: the programs and streams of a transport stream, and the declarations of their units.

ghost use Rattle.std.specs.Prelude.{◌≡◌, ◌≤◌, IfOk, All, length, map};
ghost use Rattle.pid_findings.specs.Shown.{finding_view};
ghost use Rattle.job_programs.specs.Answers.{Answers};
ghost use Rattle.job_inputs.specs.ClockConstants.{HasConstants, KeepDistances};
ghost use Rattle.job_inputs.specs.InputDrafts as drafts;
ghost use Rattle.job_units.specs.Moments as moments;
ghost use Rattle.job_inputs.specs.JobInput as spec;
ghost use Rattle.job_programs.specs.FoundUnits.{FitsQueue, IsMoved};
ghost use Rattle.job_inputs.specs.JobInput.{AreStreams};

use crate::input_draft::{InputDraft, input_draft};
use crate::job_tables::JobTable;
use job_programs::program_clock::is_clock_on;
use job_programs::{JobError, JobInformation, JobOptions, JobProgram, TimedStream, Warning};
use job_units::buffer_warnings::push_buffer_warnings;
use job_units::choices::choices;
use job_units::declarations::{count_units, too_long, too_many};
use job_units::stream_measures::all_measured;
use job_units::timed_streams::timed_streams;
use job_units::{StreamChoice, UnitCounts};
use pid_findings::Finding;
use std::alloc::Global;
use std::marker::Model;

/// What a job is made of.
#[derive(Drop)]
pub struct JobInput {
    pub information: JobInformation,
    pub base0: u64,
    pub programs: Vec<JobProgram>,
    pub streams: Vec<TimedStream>,
    pub unit_counts: Vec<UnitCounts>,
    pub choices: Vec<StreamChoice>,
    pub tables: Vec<JobTable>,
    /// The warnings about the stream.
    pub warnings: Vec<Warning>,
}

// A contract sees its parts as lists.
impl Model for JobInput {
    ghost use Rattle.job_inputs.specs.JobInput.{JobInputView};

    ghost Value = { JobInputView };

    ghost view = { λ i. record {
      information = i.information;
      base0 = i.base0;
      programs = i.programs.items;
      streams = i.streams.items;
      unit_counts = i.unit_counts.items;
      choices = i.choices.items;
      tables = i.tables.items;
      warnings = i.warnings.items;
    } };
}

impl JobInput {
    /// Returns whether a stream of this PID is carried.
    pub fn has_stream(&self, pid: u16) -> bool
        ensures { result ≡ spec.has_stream self.now pid }
    {
        self.streams.iter().any(|stream| stream.pid == pid)
    }

    /// Returns whether sections of this PID are carried.
    pub fn carries_table(&self, pid: u16) -> bool
        ensures { result ≡ spec.carries_table self.now pid }
    {
        self.tables.iter().any(|table| table.pid == pid)
    }

    /// Returns whether the clock of a program that is carried comes on this PID.
    pub fn has_clock(&self, pid: u16) -> bool
        ensures { result ≡ spec.has_clock self.now pid }
    {
        self.programs
            .iter()
            .any(|program| is_clock_on(pid, program.clock))
    }
}

// Adds the declarations of streams, whose units are already timed.
#[tactic(auto, unfolding(crate::specs::JobInput::with_moved, crate::specs::JobInput::with_unit_counts, job_programs::specs::Answers::unless, job_programs::specs::Answers::and_then, job_programs::specs::Answers::Answers, job_programs::specs::Answers::Refuses), using(job_programs::proofs::AndThen::then_refuses))]
fn with_moved(
    alloc: Global,
    options: &JobOptions<'_>,
    information: JobInformation,
    base0: u64,
    programs: Vec<JobProgram>,
    tables: Vec<JobTable>,
    warnings: Vec<Warning>,
    streams: Vec<TimedStream>,
) -> Result<JobInput, JobError>
    ensures value { Answers (spec.with_moved options.now information base0 programs.items tables.items
        warnings.items streams.items) result }
    ensures same { IfOk result (λ i. i.streams ≡ streams.items) }
    ensures fits { IfOk result (λ i. All FitsQueue i.streams) }
    ensures stream_count { IfOk result (λ i. length i.streams ≤ 254) }
{
    if let Some(refusal) = too_many(programs.len(), streams.len()) {
        return Err(JobError::Refused(refusal));
    }
    if let Some(refusal) = too_long(&streams) {
        return Err(JobError::Refused(refusal));
    }
    let measures = all_measured(alloc, &streams)?;
    let unit_counts = count_units(alloc, options.buffers, &measures)?;
    let choices = choices(
        alloc,
        options.declare_by,
        options.lead,
        &measures,
        &unit_counts,
    )?;
    let mut warnings = warnings;
    push_buffer_warnings(
        options.buffers,
        &measures,
        &unit_counts,
        &choices,
        &mut warnings,
    )?;
    Ok(JobInput {
        information,
        base0,
        programs,
        streams,
        unit_counts,
        choices,
        tables,
        warnings,
    })
}

// Adds the units of a draft, whose bodies are moved out of the findings.
#[tactic(auto, unfolding(crate::specs::InputDrafts::finished, job_programs::specs::Answers::Answers, job_programs::specs::Answers::Refuses))]
fn finished(
    alloc: Global,
    options: &JobOptions<'_>,
    draft: InputDraft,
    findings: &mut [Finding<'_>],
) -> Result<JobInput, JobError>
    ensures value { Answers (drafts.finished options.now (map finding_view findings.old) draft) result }
    ensures streams { All (IsMoved options.now.make_dts (map finding_view findings.old))
        (map (moments.timed_stream (map finding_view findings.old)) draft.streams) →
        IfOk result (AreStreams options.now.make_dts (map finding_view findings.old)) }
{
    let InputDraft {
        information,
        base0,
        programs,
        streams,
        tables,
        warnings,
    } = draft;
    let streams = timed_streams(alloc, streams, findings)?;
    with_moved(
        alloc,
        options,
        information,
        base0,
        programs,
        tables,
        warnings,
        streams,
    )
}

// Makes the input of a job of these findings, whose units' bodies are moved out of them.
#[tactic(auto, unfolding(job_programs::specs::Answers::Leads, job_programs::specs::Answers::Answers, job_programs::specs::Answers::Refuses))]
fn input_of(
    alloc: Global,
    options: &JobOptions<'_>,
    count: u64,
    findings: &mut [Finding<'_>],
) -> Result<JobInput, JobError>
    ensures value { Answers (spec.job_input options.now count (map finding_view findings.old)) result }
    ensures streams { IfOk result (AreStreams options.now.make_dts (map finding_view findings.old)) }
{
    let draft = input_draft(alloc, options, count, findings)?;
    finished(alloc, options, draft, findings)
}

/// Returns what a job of these findings is made of; `count` is the number of whole packets of the stream. The streams
/// of all programs on one clock are moved by one constant. A stream that a job can't carry is left out, with a warning.
/// Returns the first refusal that applies: more than half of the packets are none, no program association table, no
/// program with a map, no PID left; no stream, since none can be written, is clear, or can be carried; stamps that are
/// no moments; too many programs, streams, or units of a stream; a unit that is too large, and buffers where units
/// can't wait. The bodies of the units are moved out of the findings.
#[tactic(auto, using(crate::proofs::ClockConstants::constants_answered, crate::proofs::ClockConstants::distances_answered))]
pub fn job_input(
    alloc: Global,
    options: &JobOptions<'_>,
    count: u64,
    findings: Vec<Finding<'static>>,
) -> Result<JobInput, JobError>
    ensures value { Answers (spec.job_input options.now count (map finding_view findings.entry.items)) result }
    ensures streams { IfOk result (AreStreams options.now.make_dts (map finding_view findings.entry.items)) }
    ensures constants { IfOk result (HasConstants options.now (map finding_view findings.entry.items)) }
    ensures distances { IfOk result (KeepDistances options.now.make_dts (map finding_view findings.entry.items)) }
{
    let mut findings = findings;
    input_of(alloc, options, count, &mut findings)
}
