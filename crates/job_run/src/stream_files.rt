//! What a job takes of streams in files by their names.

ghost use Rattle.std.specs.Prelude.{◌≡◌, ◌++◌, IfOk, List, None, OnOk, ℕ, map, string_bytes};
ghost use Rattle.pid_findings.specs.Shown.{finding_view};
ghost use Rattle.pid_findings.specs.Views.{FindingView};
ghost use Rattle.devices.specs.Files.{files_of};
ghost use Rattle.other_tables.specs.OtherTables as tables;
ghost use Rattle.packet_sync.specs.NoStreams.{no_stream};
ghost use Rattle.job_run.specs.Outcomes.{reports_loss, reported_lines};
ghost use Rattle.job_run.specs.StreamFiles as spec;
ghost use Rattle.job_run.specs.Streams.{IsRead};

use crate::carried_stream::{PacketNotes, ReadStream};
use crate::input_lines::write_input;
use crate::job_arguments::JobArguments;
use crate::outcome::{JobOutcome, no_stream_outcome, only_text, refused_stream, reported_of};
use crate::reading::{StreamReading, read_stream};
use crate::timed_text::job_findings;
use devices::{Halt, NamedFiles};
use job_inputs::{JobInput, job_input, mark_as_asked};
use other_tables::{OtherTable, other_tables};
use pid_findings::Finding;
use std::alloc::{AllocError, Global};
use std::marker::Model;

/// What a job takes of a stream, the lines about it, and whether they report a loss.
#[derive(Drop)]
pub(crate) struct TakenStream {
    pub input: JobInput,
    pub lines: String,
    pub less: bool,
}

// A contract sees its lines as bytes.
impl Model for TakenStream {
    ghost use Rattle.std.specs.Prelude.{string_bytes};
    ghost use Rattle.job_run.specs.StreamFiles.{TakenView};

    ghost Value = { TakenView };

    ghost view = { λ t. record { input = t.input; lines = string_bytes t.lines; less = t.less } };
}

// Returns what a job takes of a stream, with these tables beside it.
fn taken(
    alloc: Global,
    arguments: &JobArguments<'_>,
    notes: &PacketNotes,
    others: &[OtherTable],
    input: JobInput,
) -> Result<TakenStream, AllocError>
    ensures input { IfOk result (λ t. t.input ≡ input) }
    ensures lines { (findings : List FindingView) → others.now ≡ tables.other_tables findings →
        IfOk result (λ t. t.lines ≡ reported_lines arguments.now.reporting notes.now findings input) }
    ensures less { (findings : List FindingView) → others.now ≡ tables.other_tables findings →
        IfOk result (λ t. t.less ≡ reports_loss arguments.now.reporting notes.now findings input) }
{
    let (lines, less) = reported_of(alloc, arguments.reporting, notes, others, &input)?;
    Ok(TakenStream { input, lines, less })
}

// Returns what a job takes of a stream, or the outcome of its refusal.
#[tactic(auto, using(crate::proofs::StreamFiles::is_taken_of, crate::proofs::StreamFiles::is_refusal_of))]
fn taken_or_refused(
    alloc: Global,
    arguments: &JobArguments<'_>,
    notes: &PacketNotes,
    count: u64,
    findings: Vec<Finding<'static>>,
) -> Result<Result<TakenStream, JobOutcome>, AllocError>
    ensures { IfOk result (spec.IsInputOf arguments.now notes.now count (map finding_view findings.entry.items)) }
{
    let others = other_tables(alloc, &findings)?;
    match job_input(alloc, &arguments.options(), count, findings) {
        Ok(input) => Ok(Ok(taken(alloc, arguments, notes, &others, input)?)),
        Err(error) => Ok(Err(refused_stream(alloc, &notes.falling, error)?)),
    }
}

// Returns what a job takes of a transport stream that was read.
#[tactic(auto, using(crate::proofs::StreamFiles::carried_is_input))]
fn carried_input(
    alloc: Global,
    arguments: &JobArguments<'_>,
    stream: StreamReading,
) -> Result<Result<TakenStream, JobOutcome>, AllocError>
    ensures { (bytes : List ℕ) → IsRead bytes stream → no_stream bytes ≡ None →
        IfOk result (spec.IsInput arguments.now bytes) }
{
    let ReadStream {
        notes,
        references,
        demux,
        size,
    } = stream.end()?;
    let count = size as u64 / 188;
    let options = arguments.options();
    let marked = mark_as_asked(alloc, &options, demux.into_findings())?;
    let (notes, findings) = job_findings(alloc, &options, references, notes, marked)?;
    let taken = taken_or_refused(alloc, arguments, &notes, count, findings)?;
    Ok(taken)
}

// Returns what a job takes of a stream that was read.
#[tactic(auto, using(crate::proofs::StreamFiles::form_is_input))]
fn read_input(
    alloc: Global,
    arguments: &JobArguments<'_>,
    stream: StreamReading,
) -> Result<Result<TakenStream, JobOutcome>, AllocError>
    ensures { (bytes : List ℕ) → IsRead bytes stream → IfOk result (spec.IsInput arguments.now bytes) }
{
    match stream.no_stream() {
        Some(form) => {
            // By a call: at the end of a function the drop of each part would be a step of its proof.
            drop(stream);
            Ok(Err(no_stream_outcome(alloc, form)?))
        }
        None => Ok(carried_input(alloc, arguments, stream)?),
    }
}

// Returns the outcome for a file that can't be opened.
fn unopened(alloc: Global) -> Result<JobOutcome, AllocError>
    ensures { IfOk result (λ o. o ≡ spec.stopped_by spec.open_line) }
{
    let mut report = String::new(alloc);
    report.push_str("can't be opened\n")?;
    Ok(stopped(alloc, report))
}

// Returns the outcome for a file that can't be read to its end.
fn unread(alloc: Global) -> Result<JobOutcome, AllocError>
    ensures { IfOk result (λ o. o ≡ spec.stopped_by spec.read_line) }
{
    let mut report = String::new(alloc);
    report.push_str("can't be read to its end\n")?;
    Ok(stopped(alloc, report))
}

// Returns the outcome of a device that failed, without output.
fn stopped(alloc: Global, report: String) -> JobOutcome
    ensures { result ≡ spec.stopped_by (string_bytes report) }
{
    JobOutcome {
        output: only_text(alloc, String::new(alloc)),
        report,
        status: 3,
    }
}

// Returns what a job takes of the stream in the file of a name.
fn named_input<F: NamedFiles>(
    alloc: Global,
    arguments: &JobArguments<'_>,
    files: &F,
    name: &str,
) -> Result<Result<TakenStream, JobOutcome>, AllocError>
    ensures { IfOk result (spec.IsNamedInput arguments.now
        (files_of (F.contents_of files.now) (F.opens files.now) F.never_fails) name.now) }
{
    let Some(mut file) = files.open_named(name) else {
        return Ok(Err(unopened(alloc)?));
    };
    match read_stream(alloc, &mut file) {
        Ok(stream) => read_input(alloc, arguments, stream),
        Err(Halt::Memory) => Err(AllocError),
        Err(_) => Ok(Err(unread(alloc)?)),
    }
}

// Puts the header line of an input above the report of its outcome.
fn headed_outcome(
    alloc: Global,
    number: usize,
    name: &str,
    outcome: JobOutcome,
) -> Result<JobOutcome, AllocError>
    ensures { IfOk result (λ o. o ≡ spec.headed_outcome number name.now outcome) }
{
    let mut report = String::new(alloc);
    write_input(number, name, &mut report)?;
    report.push_str(outcome.report.as_str())?;
    Ok(JobOutcome { report, ..outcome })
}

/// What a job takes of several streams.
#[derive(Drop)]
pub(crate) struct TakenStreams {
    pub streams: Vec<TakenStream>,
}

// A contract sees a list.
impl Model for TakenStreams {
    ghost use Rattle.std.specs.Prelude.{List};
    ghost use Rattle.job_run.specs.StreamFiles.{TakenView};

    ghost Value = { List TakenView };

    ghost view = { λ t. t.streams.items };
}

/// Returns what a job takes of the streams in the named files, or the outcome for the first file that gives nothing.
pub(crate) fn named_inputs<F: NamedFiles>(
    alloc: Global,
    arguments: &JobArguments<'_>,
    files: &F,
    names: &[&str],
) -> Result<Result<TakenStreams, JobOutcome>, AllocError>
    ensures { IfOk result (spec.AreNamedInputs arguments.now
        (files_of (F.contents_of files.now) (F.opens files.now) F.never_fails) (map (λ s. s.now) names.now)) }
{
    let mut streams = Vec::new(alloc);
    for (number, name) in names.iter().enumerate() {
        match named_input(alloc, arguments, files, name)? {
            Ok(stream) => streams.push(stream)?,
            Err(outcome) => return Ok(Err(headed_outcome(alloc, number, name, outcome)?)),
        }
    }
    Ok(Ok(TakenStreams { streams }))
}
