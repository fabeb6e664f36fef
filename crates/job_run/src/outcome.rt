//! The outcome for a stream, from its findings.

ghost use Rattle.std.specs.Prelude.{◌≡◌, ◌==◌, ◌&&◌, ◌≤◌, ◌++◌, IfErr, IfOk, List, None, Ok, ℕ, length, map};
ghost use Rattle.std.specs.Prelude.{string_bytes};
ghost use Rattle.pid_findings.specs.Shown.{finding_view};
ghost use Rattle.pid_findings.specs.Views.{FindingView};
ghost use Rattle.other_tables.specs.OtherTables as found;
ghost use Rattle.packet_sync.specs.NoStreams.{no_stream};
ghost use Rattle.slot_plan.specs.Planned.{plan_error};
ghost use Rattle.slot_plan.specs.Text.{plan_text};
ghost use Rattle.stream_jobs.specs.Jobs.{IsDescription};
ghost use Rattle.stream_jobs.specs.WhyNoJob.{IsWhyNoDescription, IsWhyNoJob};
ghost use Rattle.job_programs.specs.declared.refusal.JobError.TheVariants.{Memory};
ghost use Rattle.job_inputs.specs.JoinedInputs.{AreStreamsIn, JoinedInputsView};
ghost use Rattle.job_run.specs.Outcomes as spec;
ghost use Rattle.job_run.specs.GapLines.{gap_lines};
ghost use Rattle.job_run.specs.LeftOutCount.{count_line};
ghost use Rattle.job_run.specs.RecodingLines.{recodings_text};
ghost use Rattle.job_run.specs.SeveralInputs.{GivesIn, GivesJobIn};
ghost use Rattle.job_run.specs.Streams.{IsRead};
ghost use Rattle.devices.specs.Outcomes.{reported};
ghost use Rattle.job_run.specs.SlipLines.{no_stream_line};
ghost use Rattle.job_inputs.specs.JobInput.{AreStreams};

use crate::carried_stream::{PacketNotes, ReadStream};
use crate::field_lines::{are_needed, reported_fields, write_fields};
use crate::gap_lines::{any_gap, push_gaps};
use crate::job_arguments::{JobArguments, Subcommand};
use crate::left_out_count::push_count;
use crate::reading::StreamReading;
use crate::reason_output::reason_output;
use crate::recoding_lines::push_recodings;
use crate::refusal_line::{write_refusal, write_refusal_in};
use crate::reporting::Reporting;
use crate::slip_lines::{write_no_stream, write_slips};
use crate::table_lines::{are_missed, reported_tables, write_other_tables};
use crate::timed_text::job_findings;
use crate::warning_lines::{is_damaged, reported_warnings, write_warnings};
use job_inputs::{JobInput, job_input, mark_as_asked};
use job_programs::{JobError, JobOptions, Warning};
use other_tables::{OtherTable, other_tables};
use packet_sync::{FieldLeftOut, FileForm, Slip};
use pes_packet::Unit;
use pid_findings::Finding;
use slot_plan::Plan;
use std::alloc::{AllocError, Global};
use std::marker::Model;
use stream_jobs::{Job, describe, make_job, units};

/// The output, the lines for the second writer, and the status.
#[derive(Drop)]
pub struct JobOutcome {
    pub output: JobText,
    pub report: String,
    pub status: u8,
}

// A contract sees the output and the report as bytes.
impl Model for JobOutcome {
    ghost use Rattle.std.specs.Prelude.{string_bytes};
    ghost use Rattle.devices.specs.Outcomes.{Outcome};

    ghost Value = { Outcome };

    ghost view = { λ o. record { output = o.output; report = string_bytes o.report; status = o.status } };
}

/// A text, the text of a plan after it, and units, whose records come after these.
#[derive(Drop)]
pub struct JobText {
    pub text: String,
    pub plan: String,
    pub units: Vec<(u8, Unit)>,
}

// A contract sees the bytes that are written.
impl Model for JobText {
    ghost use Rattle.std.specs.Prelude.{ℕ, List, string_bytes};
    ghost use Rattle.es_feed.specs.Records.{written};

    ghost Value = { List ℕ };

    ghost view = { λ p. written (string_bytes p.text) (string_bytes p.plan) p.units.items };
}

/// Returns a text alone.
#[tactic(auto, using(crate::proofs::JobOutcomes::text_alone))]
pub fn only_text(alloc: Global, text: String) -> JobText
    ensures { result ≡ string_bytes text }
{
    JobText {
        text,
        plan: String::new(alloc),
        units: Vec::new(alloc),
    }
}

// Returns the text of a plan.
fn plan_text(alloc: Global, plan: &Plan) -> Result<String, AllocError>
    ensures text { IfOk result (λ text. string_bytes text ≡ plan_text plan.now) }
    ensures within { plan_error plan.now.slots plan.now.certificate ≡ None }
{
    let _slots = plan.slots();
    plan.write_text(alloc)
}

// Makes the whole job.
fn job_output(alloc: Global, options: &JobOptions<'_>, input: JobInput) -> Result<JobText, JobError>
    requires { length input.streams ≤ 254 }
    ensures given { (findings : List FindingView) → AreStreams options.now.make_dts findings input →
        IfOk result (λ p. spec.GivesJob options.now findings input p) }
    ensures given_in { (inputs : List (List FindingView)) (j : JoinedInputsView) → j.input ≡ input →
        AreStreamsIn options.now.make_dts inputs j → IfOk result (λ p. GivesJobIn options.now inputs j p) }
    ensures withheld { IfErr result (IsWhyNoJob options.now input) }
{
    let Job { text, plan, units } = make_job(alloc, options, input)?;
    let plan = plan_text(alloc, plan.plan())?;
    Ok(JobText { text, plan, units })
}

// Makes the description of a job.
fn description_output(
    alloc: Global,
    options: &JobOptions<'_>,
    input: &JobInput,
) -> Result<JobText, JobError>
    ensures given { IfOk result (λ p. IsDescription options.now input.now p) }
    ensures withheld { IfErr result (IsWhyNoDescription options.now.rate options.now input.now) }
{
    let text = describe(alloc, options, input)?;
    Ok(only_text(alloc, text))
}

// Makes the units of a job.
fn unit_output(alloc: Global, input: JobInput) -> Result<JobText, JobError>
    requires { length input.streams ≤ 254 }
    ensures given { IfOk result (λ p. spec.GivesUnits input p) }
    ensures withheld { IfErr result (λ error. error ≡ Memory) }
{
    let units = units(alloc, input)?;
    Ok(JobText {
        text: String::new(alloc),
        plan: String::new(alloc),
        units,
    })
}

// Returns the output of a subcommand.
pub(crate) fn output_for(
    alloc: Global,
    arguments: &JobArguments<'_>,
    input: JobInput,
) -> Result<JobText, JobError>
    requires { length input.streams ≤ 254 }
    ensures given { (findings : List FindingView) → AreStreams arguments.now.options.make_dts findings input →
        IfOk result (λ p. spec.Gives arguments.now.subcommand arguments.now.options findings input p) }
    ensures given_in { (inputs : List (List FindingView)) (j : JoinedInputsView) → j.input ≡ input →
        AreStreamsIn arguments.now.options.make_dts inputs j →
        IfOk result (λ p. GivesIn arguments.now.subcommand arguments.now.options inputs j p) }
    ensures withheld { IfErr result (spec.Withholds arguments.now.subcommand arguments.now.options input) }
{
    let options = arguments.options();
    match arguments.subcommand {
        Subcommand::Whole => job_output(alloc, &options, input),
        Subcommand::Describe => description_output(alloc, &options, &input),
        Subcommand::Units => unit_output(alloc, input),
        Subcommand::Why => reason_output(alloc, &options, &input),
    }
}

// Returns the lines about everything that the job does not carry.
#[tactic(auto, using(crate::proofs::JobOutcomes::four_texts))]
fn loss_report(
    alloc: Global,
    falling: &[u16],
    slips: &[Slip],
    fields: &[FieldLeftOut],
    tables: &[OtherTable],
    warnings: &[Warning],
) -> Result<String, AllocError>
    ensures { IfOk result (λ lines. string_bytes lines
        ≡ spec.loss_lines falling.now slips.now fields.now tables.now warnings.now) }
{
    let mut lines = String::new(alloc);
    write_slips(slips, &mut lines)?;
    write_fields(fields, &mut lines)?;
    write_other_tables(tables, &mut lines)?;
    write_warnings(falling, warnings, &mut lines)?;
    Ok(lines)
}

// Returns the lines about losses, about changes of codings, and about gaps of clocks, and the count of the
// streams that are left out; no line if `quiet`.
fn report_as_asked(
    alloc: Global,
    reporting: Reporting,
    input: &JobInput,
    notes: &PacketNotes,
    fields: &[FieldLeftOut],
    tables: &[OtherTable],
    warnings: &[Warning],
) -> Result<String, AllocError>
    ensures { IfOk result (λ lines. string_bytes lines
        ≡ spec.unless_quiet reporting.quiet (((spec.loss_lines notes.now.falling notes.now.slips fields.now tables.now
        warnings.now ++ recodings_text reporting.all notes.now.recodings) ++ gap_lines input.now notes.now.gaps)
        ++ count_line input.now)) }
{
    if reporting.quiet {
        return Ok(String::new(alloc));
    }
    let mut lines = loss_report(
        alloc,
        &notes.falling,
        &notes.slips,
        fields,
        tables,
        warnings,
    )?;
    push_recodings(reporting.all, &notes.recodings, &mut lines)?;
    push_gaps(input, &notes.gaps, &mut lines)?;
    push_count(input, &mut lines)?;
    Ok(lines)
}

// Returns whether any of these reports a loss.
fn is_lossy(
    slips: &[Slip],
    fields: &[FieldLeftOut],
    tables: &[OtherTable],
    warnings: &[Warning],
) -> bool
    ensures { result ≡ spec.is_lossy slips.now fields.now tables.now warnings.now }
{
    !slips.is_empty() || are_needed(fields) || are_missed(tables) || is_damaged(warnings)
}

// Returns whether all three hold.
fn are_all_empty(text: bool, plan: bool, units: bool) -> bool
    ensures { result ≡ (text && (plan && units)) }
{
    text && (plan && units)
}

// Returns whether nothing is to be written.
#[tactic(auto, using(crate::proofs::JobOutcomes::nothing_written))]
fn is_empty(output: &JobText) -> bool
    ensures { result ≡ (length output.now == 0) }
{
    let text = output.text.as_str();
    let plan = output.plan.as_str();
    let units = output.units.as_slice();
    are_all_empty(text.is_empty(), plan.is_empty(), units.is_empty())
}

// Returns the status for an output; `less`: something is lost.
pub(crate) fn status_of(subcommand: Subcommand, output: &JobText, less: bool) -> u8
    ensures { result ≡ spec.status_of subcommand output.now less }
{
    let bad = match subcommand {
        Subcommand::Why => !is_empty(output),
        Subcommand::Whole | Subcommand::Describe | Subcommand::Units => less,
    };
    if bad { 1 } else { 0 }
}

// Returns the lines about an input with its other tables, and whether any of them reports a loss.
pub(crate) fn reported_of(
    alloc: Global,
    reporting: Reporting,
    notes: &PacketNotes,
    others: &[OtherTable],
    input: &JobInput,
) -> Result<(String, bool), AllocError>
    ensures lines { (findings : List FindingView) → others.now ≡ found.other_tables findings →
        IfOk result (λ t. string_bytes t.0 ≡ spec.reported_lines reporting notes.now findings input.now) }
    ensures less { (findings : List FindingView) → others.now ≡ found.other_tables findings →
        IfOk result (λ t. t.1 ≡ spec.reports_loss reporting notes.now findings input.now) }
{
    let warnings = reported_warnings(alloc, reporting, &input.warnings)?;
    let fields = reported_fields(alloc, reporting.all, input, &notes.fields)?;
    let tables = reported_tables(alloc, reporting.all, input, others)?;
    let lines = report_as_asked(alloc, reporting, input, notes, &fields, &tables, &warnings)?;
    let less = is_lossy(&notes.slips, &fields, &tables, &warnings);
    let paused = any_gap(input, &notes.gaps);
    Ok((lines, paused || less))
}

// Returns the outcome for a stream that is not refused.
#[tactic(auto, using(crate::proofs::JobOutcomes::no_memory))]
fn job_outcome(
    alloc: Global,
    arguments: &JobArguments<'_>,
    notes: &PacketNotes,
    others: &[OtherTable],
    input: JobInput,
) -> Result<JobOutcome, JobError>
    requires { length input.streams ≤ 254 }
    ensures given { (findings : List FindingView) → AreStreams arguments.now.options.make_dts findings input →
        others.now ≡ found.other_tables findings →
        IfOk result (λ a. spec.IsGiven arguments.now notes.now findings input a) }
    ensures withheld { IfErr result (spec.Withholds arguments.now.subcommand arguments.now.options input) }
{
    let (report, less) = reported_of(alloc, arguments.reporting, notes, others, &input)?;
    let output = output_for(alloc, arguments, input)?;
    let status = status_of(arguments.subcommand, &output, less);
    Ok(JobOutcome {
        output,
        report,
        status,
    })
}

// Returns an outcome without output.
fn without_output(alloc: Global, report: String) -> JobOutcome
    ensures { result ≡ reported (string_bytes report) }
{
    JobOutcome {
        output: only_text(alloc, String::new(alloc)),
        report,
        status: 1,
    }
}

// Returns the outcome for a stream that is refused.
pub(crate) fn refused_outcome(alloc: Global, error: JobError) -> Result<JobOutcome, AllocError>
    ensures { IfOk result (λ a. spec.ReportsWhy error a) }
{
    let JobError::Refused(refusal) = error else {
        return Err(AllocError);
    };
    let mut report = String::new(alloc);
    write_refusal(refusal, &mut report)?;
    Ok(without_output(alloc, report))
}

/// Returns the outcome for a stream that is refused, with streams of these PIDs whose clocks go back.
pub(crate) fn refused_stream(
    alloc: Global,
    falling: &[u16],
    error: JobError,
) -> Result<JobOutcome, AllocError>
    ensures { IfOk result (λ a. spec.ReportsRefusal falling.now error a) }
{
    let JobError::Refused(refusal) = error else {
        return Err(AllocError);
    };
    let mut report = String::new(alloc);
    write_refusal_in(falling, refusal, &mut report)?;
    Ok(without_output(alloc, report))
}

// Returns the outcome for a stream of this input.
#[tactic(auto, using(crate::proofs::JobOutcomes::withheld))]
fn input_outcome(
    alloc: Global,
    arguments: &JobArguments<'_>,
    notes: &PacketNotes,
    others: &[OtherTable],
    input: JobInput,
) -> Result<JobOutcome, AllocError>
    requires { length input.streams ≤ 254 }
    ensures { (findings : List FindingView) → AreStreams arguments.now.options.make_dts findings input →
        others.now ≡ found.other_tables findings →
        IfOk result (λ a. spec.InputLeads arguments.now notes.now findings (Ok input) a) }
{
    match job_outcome(alloc, arguments, notes, others, input) {
        Ok(outcome) => Ok(outcome),
        Err(error) => refused_outcome(alloc, error),
    }
}

// Returns the outcome for a stream of `count` whole packets with these findings.
#[tactic(auto, using(crate::proofs::JobOutcomes::with_input, crate::proofs::JobOutcomes::without_input))]
fn findings_outcome(
    alloc: Global,
    arguments: &JobArguments<'_>,
    notes: &PacketNotes,
    count: u64,
    findings: Vec<Finding<'static>>,
) -> Result<JobOutcome, AllocError>
    ensures { IfOk result (λ a. spec.FindingsLead arguments.now notes.now count
        (map finding_view findings.entry.items) a) }
{
    let others = other_tables(alloc, &findings)?;
    match job_input(alloc, &arguments.options(), count, findings) {
        Ok(input) => input_outcome(alloc, arguments, notes, &others, input),
        Err(error) => refused_stream(alloc, &notes.falling, error),
    }
}

// Returns the outcome for an input that is no transport stream but of this form.
pub(crate) fn no_stream_outcome(alloc: Global, form: FileForm) -> Result<JobOutcome, AllocError>
    ensures { IfOk result (λ a. a ≡ reported (no_stream_line form)) }
{
    let mut report = String::new(alloc);
    write_no_stream(form, &mut report)?;
    Ok(without_output(alloc, report))
}

// Returns the outcome for a transport stream that was read.
#[tactic(auto, using(crate::proofs::JobOutcomes::carried_lead))]
fn carried_outcome(
    alloc: Global,
    arguments: &JobArguments<'_>,
    stream: StreamReading,
) -> Result<JobOutcome, AllocError>
    ensures { (bytes : List ℕ) → IsRead bytes stream → no_stream bytes ≡ None →
        IfOk result (λ a. spec.BytesLead arguments.now bytes None a) }
{
    let ReadStream {
        notes,
        references,
        demux,
        size,
    } = stream.end()?;
    let count = size as u64 / 188;
    let options = arguments.options();
    let marked = mark_as_asked(alloc, &options, demux.into_findings())?;
    let (notes, findings) = job_findings(alloc, &options, references, notes, marked)?;
    let outcome = findings_outcome(alloc, arguments, &notes, count, findings)?;
    Ok(outcome)
}

/// Returns the outcome for a stream that was read.
#[tactic(auto, using(crate::proofs::JobOutcomes::none_lead, crate::proofs::JobOutcomes::form_lead))]
pub(crate) fn stream_outcome(
    alloc: Global,
    arguments: &JobArguments<'_>,
    stream: StreamReading,
) -> Result<JobOutcome, AllocError>
    ensures { (bytes : List ℕ) → IsRead bytes stream → IfOk result (λ a. spec.Leads arguments.now bytes a) }
{
    match stream.no_stream() {
        Some(form) => {
            // By a call: at the end of a function the drop of each part would be a step of its proof.
            drop(stream);
            Ok(no_stream_outcome(alloc, form)?)
        }
        None => Ok(carried_outcome(alloc, arguments, stream)?),
    }
}
