//! The outcome for streams in files by their names, as one job.

ghost use Rattle.std.specs.Prelude.{◌≡◌, ◌≤◌, ◌++◌, ◌||◌, All, IfErr, IfOk, List, Ok, OnOk, length, map, string_bytes};
ghost use Rattle.std.specs.List.{list_any};
ghost use Rattle.pid_findings.specs.Views.{FindingView};
ghost use Rattle.devices.specs.Devices.{writes};
ghost use Rattle.devices.specs.Files.{files_of};
ghost use Rattle.job_run.specs.InputLines.{are_lost, name_of, note_lines};
ghost use Rattle.job_programs.specs.Answers.{Answers};
ghost use Rattle.job_inputs.specs.JoinedInputs.{AreStreamsIn};
ghost use Rattle.job_run.specs.Outcomes.{Withholds, status_of, unless_quiet};
ghost use Rattle.job_run.specs.SeveralInputs.{GivesIn, all_joined, under};
ghost use Rattle.job_run.specs.StreamFiles as spec;
ghost use Rattle.job_run.specs.StreamFiles.{TakenView};

use crate::input_lines::{are_lost, write_input, write_notes};
use crate::job_arguments::JobArguments;
use crate::outcome::{JobOutcome, output_for, refused_outcome, status_of};
use crate::stream_files::{TakenStream, TakenStreams, named_inputs};
use crate::written::write_outcome;
use counted_io::Sink;
use devices::{Halt, NamedFiles, report_halt};
use job_inputs::{InputNote, JobInput, JoinedInputs, join_inputs};
use job_programs::{JobError, JobRefusal};
use std::alloc::{AllocError, Global};

// Lines under the number and the name of an input, if there are any.
#[tactic(auto, unfolding(crate::specs::SeveralInputs::under))]
fn write_under(number: usize, name: &str, lines: &str, text: &mut String) -> Result<(), AllocError>
    ensures { OnOk result (string_bytes text.new ≡ string_bytes text.old ++ under number name.now lines.now) }
{
    if lines.is_empty() {
        return Ok(());
    }
    write_input(number, name, text)?;
    text.push_str(lines)
}

// Returns the name of an input.
fn name_at<'a>(names: &[&'a str], number: usize) -> &'a str
    ensures { result.now ≡ name_of (map (λ s. s.now) names.now) number }
{
    match names.get(number) {
        Some(name) => *name,
        None => "",
    }
}

// Appends the lines about each stream taken, input by input.
fn write_taken(names: &[&str], taken: &[TakenStream], text: &mut String) -> Result<(), AllocError>
    ensures { OnOk result (string_bytes text.new
        ≡ string_bytes text.old ++ spec.taken_lines (map (λ s. s.now) names.now) 0 taken.now) }
{
    for (number, one) in taken.iter().enumerate() {
        write_under(number, name_at(names, number), one.lines.as_str(), text)?;
    }
    Ok(())
}

// Returns the lines about all streams taken.
fn taken_report(alloc: Global, names: &[&str], taken: &[TakenStream]) -> Result<String, AllocError>
    ensures { IfOk result (λ text. string_bytes text ≡ spec.taken_lines (map (λ s. s.now) names.now) 0 taken.now) }
{
    let mut text = String::new(alloc);
    write_taken(names, taken, &mut text)?;
    Ok(text)
}

// Returns whether any stream taken has lost something.
fn is_any_less(taken: &[TakenStream]) -> bool
    ensures { result ≡ list_any (λ t. t.less) taken.now }
{
    taken.iter().any(|one| one.less)
}

// Returns what a job takes of each stream.
fn inputs_of(alloc: Global, taken: Vec<TakenStream>) -> Result<Vec<JobInput>, AllocError>
    ensures { IfOk result (λ inputs. inputs.items ≡ map (λ t. t.input) taken.items) }
{
    let mut inputs = Vec::new(alloc);
    for one in taken {
        inputs.push(one.input)?;
    }
    Ok(inputs)
}

// Joins the inputs to one job.
#[tactic(auto, unfolding(crate::specs::SeveralInputs::all_joined, job_programs::specs::Answers::Answers, job_programs::specs::Answers::Refuses))]
fn join_all(alloc: Global, inputs: Vec<JobInput>) -> Result<JoinedInputs, JobError>
    requires { All (λ m. length m.streams ≤ 254) inputs.items }
    ensures value { Answers (all_joined inputs.items) result }
    ensures few { IfOk result (λ j. length j.input.streams ≤ 254) }
{
    let mut more = inputs;
    if more.is_empty() {
        return Err(JobError::Refused(JobRefusal::NoStream));
    }
    let first = more.remove(0);
    join_inputs(alloc, first, more)
}

// Appends a line for each note, unless nothing is to be reported.
fn write_reported_notes(
    quiet: bool,
    names: &[&str],
    notes: &[InputNote],
    text: &mut String,
) -> Result<(), AllocError>
    ensures { OnOk result (string_bytes text.new ≡ string_bytes text.old
        ++ unless_quiet quiet (note_lines (map (λ s. s.now) names.now) notes.now)) }
{
    if quiet {
        return Ok(());
    }
    write_notes(names, notes, text)
}

// Returns the outcome of joined streams; `lines` are the lines already written about each input, `names` their files.
fn joined_outcome(
    alloc: Global,
    arguments: &JobArguments<'_>,
    names: &[&str],
    lines: String,
    less: bool,
    joined: JoinedInputs,
) -> Result<JobOutcome, JobError>
    requires { length joined.input.streams ≤ 254 }
    ensures gives { (inputs : List (List FindingView)) → AreStreamsIn arguments.now.options.make_dts inputs joined →
        IfOk result (λ o. GivesIn arguments.now.subcommand arguments.now.options inputs joined o.output) }
    ensures report { IfOk result (λ o. o.report
        ≡ string_bytes lines
        ++ unless_quiet arguments.now.reporting.quiet (note_lines (map (λ s. s.now) names.now) joined.notes)) }
    ensures status { IfOk result (λ o. o.status
        ≡ status_of arguments.now.subcommand o.output (less || are_lost joined.notes)) }
    ensures withheld { IfErr result (Withholds arguments.now.subcommand arguments.now.options joined.input) }
{
    let mut report = lines;
    write_reported_notes(arguments.reporting.quiet, names, &joined.notes, &mut report)?;
    let less = less || are_lost(&joined.notes);
    let output = output_for(alloc, arguments, joined.input)?;
    let status = status_of(arguments.subcommand, &output, less);
    Ok(JobOutcome {
        output,
        report,
        status,
    })
}

// Joins the streams taken and returns their outcome.
#[tactic(auto, using(crate::proofs::StreamFiles::given_of, crate::proofs::StreamFiles::withheld_of))]
fn outcome_of(
    alloc: Global,
    arguments: &JobArguments<'_>,
    names: &[&str],
    lines: String,
    less: bool,
    joined: JoinedInputs,
) -> Result<JobOutcome, AllocError>
    requires { length joined.input.streams ≤ 254 }
    ensures { (taken : List TakenView) → string_bytes lines ≡ spec.taken_lines (map (λ s. s.now) names.now) 0 taken →
        less ≡ list_any (λ t. t.less) taken →
        IfOk result (spec.JoinedLeads arguments.now (map (λ s. s.now) names.now) taken (Ok joined)) }
{
    match joined_outcome(alloc, arguments, names, lines, less, joined) {
        Ok(outcome) => Ok(outcome),
        Err(error) => refused_outcome(alloc, error),
    }
}

// Returns the outcome for what was taken.
fn taken_outcome(
    alloc: Global,
    arguments: &JobArguments<'_>,
    names: &[&str],
    taken: TakenStreams,
) -> Result<JobOutcome, AllocError>
    requires { All (λ t. length t.input.streams ≤ 254) taken }
    ensures { IfOk result (spec.TakenLead arguments.now (map (λ s. s.now) names.now) taken) }
{
    let lines = taken_report(alloc, names, &taken.streams)?;
    let less = is_any_less(&taken.streams);
    let inputs = inputs_of(alloc, taken.streams)?;
    match join_all(alloc, inputs) {
        Ok(joined) => outcome_of(alloc, arguments, names, lines, less, joined),
        Err(error) => refused_outcome(alloc, error),
    }
}

// Returns the outcome for the streams in the files of these names.
fn named_outcome<F: NamedFiles>(
    alloc: Global,
    arguments: &JobArguments<'_>,
    files: &F,
    names: &[&str],
) -> Result<JobOutcome, AllocError>
    ensures { IfOk result (spec.FilesLead arguments.now
        (files_of (F.contents_of files.now) (F.opens files.now) F.never_fails) (map (λ s. s.now) names.now)) }
{
    match named_inputs(alloc, arguments, files, names)? {
        Ok(taken) => taken_outcome(alloc, arguments, names, taken),
        Err(outcome) => Ok(outcome),
    }
}

/// Writes the outcome for the streams in the files of these names, as one job, and returns the status.
pub fn perform_files<F: NamedFiles, W: Sink, E: Sink>(
    alloc: Global,
    arguments: &JobArguments<'_>,
    files: &F,
    names: &[&str],
    output: &mut W,
    faults: &mut E,
) -> u8
    ensures { spec.PerformsFiles arguments.now
        (files_of (F.contents_of files.now) (F.opens files.now) F.never_fails) (map (λ s. s.now) names.now)
        (writes W.Sink output.old output.new) (writes E.Sink faults.old faults.new) result }
{
    match named_outcome(alloc, arguments, files, names) {
        Ok(outcome) => write_outcome(&outcome, output, faults),
        Err(_) => report_halt(faults, Halt::Memory),
    }
}
