//! A job: a description, a plan that serves it, and the units of its streams.

ghost use Rattle.std.specs.Prelude.{◌≡◌, ◌≤◌, All, Bool, IfErr, IfOk, List, None, length, map, string_bytes};
ghost use Rattle.std.specs.List.{AllZip};
ghost use Rattle.pid_findings.specs.Views.{FindingView};
ghost use Rattle.slot_plan.specs.Conditions.{IsServing};
ghost use Rattle.es_moments.specs.Merging.{AreMerged};
ghost use Rattle.stream_jobs.specs.Jobs.{AllAgree, AreUnits, IsDescription, IsJob, IsText, IsUnplanned};
ghost use Rattle.job_inputs.specs.JoinedInputs.{AreUnitsIn, IsFoundIn};
ghost use Rattle.job_inputs.specs.declared.joined_inputs.Origin.{Origin};
ghost use Rattle.stream_jobs.specs.Rates.{IsAskedOrFirst, IsPlanned, IsRate, IsServed, IsTried};
ghost use Rattle.stream_jobs.specs.WhyNoJob.{IsWhyNoDescription, IsWhyNoJob, IsWhyNoPlan, IsWhyNoReasons};
ghost use Rattle.job_programs.specs.declared.refusal.JobError.TheVariants.{Memory};
ghost use Rattle.job_programs.specs.FoundUnits.{FitsQueue};
ghost use Rattle.job_inputs.specs.JobInput.{AreStreams};

use crate::declaration_check::disagreeing;
use crate::description_draft::{DescriptionDraft, described};
use crate::rates::{PlannedDescription, first_plan, first_rate, plan_draft};
use description::Description;
use es_moments::merged;
use job_inputs::JobInput;
use job_programs::{JobError, JobOptions, JobRefusal, TimedStream};
use pes_packet::Unit;
use plan_checker::CheckedPlan;
use std::alloc::{AllocError, Global};
use std::collections::VecDeque;

/// A job.
#[derive(Drop)]
pub struct Job {
    /// The text of its description.
    pub text: String,
    /// The description that the text is read as, and a plan that serves it.
    pub plan: CheckedPlan,
    /// Its units by their DTS, each with the number of its stream.
    pub units: Vec<(u8, Unit)>,
}

// Returns the units of each stream.
fn queues_of(alloc: Global, streams: Vec<TimedStream>) -> Result<Vec<VecDeque<Unit>>, AllocError>
    ensures { IfOk result (λ queues. map (λ q. q.items) queues.items ≡ map (λ t. t.units) streams.items) }
{
    let mut queues = Vec::new(alloc);
    for stream in streams {
        queues.push(VecDeque::from(stream.units))?;
    }
    Ok(queues)
}

// Returns the units of all streams, each with the number of its stream.
fn merged_units(alloc: Global, streams: Vec<TimedStream>) -> Result<Vec<(u8, Unit)>, AllocError>
    requires { length streams.items ≤ 254 }
    ensures { IfOk result (λ units. AreMerged (map (λ t. t.units) streams.items) units.items) }
{
    merged(alloc, queues_of(alloc, streams)?)
}

// Returns a plan for the description, if the description agrees with the input.
fn agreed_plan(
    alloc: Global,
    options: &JobOptions<'_>,
    input: &JobInput,
) -> Result<PlannedDescription, JobError>
    ensures planned { IfOk result (λ p. IsPlanned options.now input.now p.rate
        p.plan.description (string_bytes p.text)) }
    ensures rate { IfOk result (λ p. IsRate options.now.rate options.now input.now
        p.rate) }
    ensures serving { IfOk result (λ p. IsServing p.plan.description p.plan.plan) }
    ensures agree { IfOk result (λ p. AllAgree options.now.clock p.plan.description input.now) }
    ensures refused { IfErr result (IsWhyNoJob options.now input.now) }
{
    let draft = DescriptionDraft { options, input };
    let planned = plan_draft(alloc, &draft)?;
    match disagreeing(alloc, options.clock, planned.plan.description(), input)? {
        Some(pid) => Err(JobError::Refused(JobRefusal::Declaration(pid))),
        None => Ok(planned),
    }
}

/// Returns the job of this input. Its units are the streams' units, wherever these were found: in one input, or in
/// several joined inputs.
pub fn make_job(alloc: Global, options: &JobOptions<'_>, input: JobInput) -> Result<Job, JobError>
    requires { length input.streams ≤ 254 }
    ensures job { IfOk result (λ j. IsJob options.now input j.plan.description
        (string_bytes j.text) j.units.items) }
    ensures text { IfOk result (λ j. IsText j.plan.description (string_bytes j.text)) }
    ensures units { (made : Bool) (findings : List FindingView) → AreStreams made findings input →
        IfOk result (λ j. AreUnits made findings j.plan.description j.units.items) }
    ensures units_in { (made : Bool) (inputs : List (List FindingView)) (origins : List Origin) →
        AllZip (IsFoundIn made inputs) origins input.streams → All FitsQueue input.streams →
        IfOk result (λ j. AreUnitsIn made inputs origins j.plan.description j.units.items) }
    ensures agree { IfOk result (λ j. AllAgree options.now.clock j.plan.description input) }
    ensures refused { IfErr result (IsWhyNoJob options.now input) }
{
    let planned = agreed_plan(alloc, options, &input)?;
    let units = merged_units(alloc, input.streams)?;
    Ok(Job {
        text: planned.text,
        plan: planned.plan,
        units,
    })
}

// Returns the text of a description that a plan serves.
fn served_text(planned: PlannedDescription) -> String
    ensures text { result ≡ planned.text }
    ensures serving { IsServing planned.plan.description planned.plan.plan }
{
    let _plan = planned.plan.plan();
    planned.text
}

// Returns the rate of a description that a plan serves.
fn served_rate(planned: PlannedDescription) -> u64
    ensures rate { result ≡ planned.rate }
    ensures serving { IsServing planned.plan.description planned.plan.plan }
{
    let _plan = planned.plan.plan();
    planned.rate
}

/// Returns the text of the description of a job, at the rate of the options, or otherwise at the least rate with a
/// plan.
pub fn describe(
    alloc: Global,
    options: &JobOptions<'_>,
    input: &JobInput,
) -> Result<String, JobError>
    ensures description { IfOk result (λ text. IsDescription options.now input.now
        (string_bytes text)) }
    ensures refused { IfErr result (IsWhyNoDescription options.now.rate options.now input.now) }
{
    let draft = DescriptionDraft { options, input };
    match options.rate {
        Some(rate) => Ok(draft.text(alloc, rate)?),
        None => Ok(served_text(plan_draft(alloc, &draft)?)),
    }
}

/// Returns the units of a job without its description, by their DTS, each with the number of its stream.
pub fn units(alloc: Global, input: JobInput) -> Result<Vec<(u8, Unit)>, JobError>
    requires { length input.streams ≤ 254 }
    ensures units { IfOk result (λ units. AreMerged (map (λ t. t.units) input.streams) units.items) }
    ensures refused { IfErr result (λ error. error ≡ Memory) }
{
    Ok(merged_units(alloc, input.streams)?)
}

// Returns the rate of the options, or otherwise the least rate at which every item has slots.
fn rate_of(alloc: Global, draft: &DescriptionDraft<'_>) -> Result<u64, JobError>
    ensures rate { IfOk result (IsAskedOrFirst draft.now.options.now.rate draft.now.options.now draft.now.input.now) }
    ensures refused { IfErr result
        (IsWhyNoReasons draft.now.options.now.rate draft.now.options.now draft.now.input.now) }
{
    let options = draft.options;
    match options.rate {
        Some(rate) => Ok(rate),
        None => first_rate(alloc, draft),
    }
}

/// Returns the description of a job at the rate of the options, or at the least rate that gives all streams slots,
/// whether or not a plan serves it.
pub fn unplanned_description(
    alloc: Global,
    options: &JobOptions<'_>,
    input: &JobInput,
) -> Result<Description, JobError>
    ensures described { IfOk result (IsUnplanned options.now input.now) }
    ensures refused { IfErr result (IsWhyNoReasons options.now.rate options.now input.now) }
{
    let draft = DescriptionDraft { options, input };
    let rate = rate_of(alloc, &draft)?;
    let text = draft.text(alloc, rate)?;
    described(alloc, &text)
}

/// Returns the least of the tried rates that has a plan, whatever the rate of the options.
pub fn found_rate(
    alloc: Global,
    options: &JobOptions<'_>,
    input: &JobInput,
) -> Result<u64, JobError>
    ensures tried { IfOk result (IsTried options.now input.now) }
    ensures served { IfOk result (IsServed options.now input.now) }
    ensures refused { IfErr result (IsWhyNoPlan None options.now input.now) }
{
    let draft = DescriptionDraft { options, input };
    Ok(served_rate(first_plan(alloc, &draft)?))
}
