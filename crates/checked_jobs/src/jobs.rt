//! A job: a description, the text of a plan that serves it, on request the text of a second plan that may follow the
//! first, and the bytes after these.
ghost use Rattle.std.specs.Prelude.{◌≡◌, ◌⊎◌, Err, Ok, IfOk, IfErr};
ghost use Rattle.plan_checker.specs.Refusals.{failed};
ghost use Rattle.checked_jobs.specs.JobFaults.{IsJob, IsJobAtFront};
ghost use Rattle.checked_jobs.specs.Jobs.{described, job_of, second_fault_of, with_plan, with_second};
ghost use Rattle.job_parts.specs.Parts.{planned};

use crate::job_fault::{JobFault, JobReadError};
use description::Description;
use description_keys::DescError;
use job_parts::{check_plan, parts_of, read_plan};
use plan_checker::{CheckedPlan, Refusal};
use slot_plan::{Plan, PlanTextError};
use std::alloc::Global;
use switch_checker::{CheckedSwitch, check_switch};

/// The plans of a job.
#[derive(Drop)]
pub enum JobPlans {
    One(CheckedPlan),
    /// with a second plan that may follow the first
    Two(CheckedSwitch),
}

/// A job whose plans serve its description.
#[derive(Drop)]
pub struct CheckedJob<'a> {
    pub plans: JobPlans,
    /// the bytes after the last plan
    pub rest: &'a [u8],
}

/// Returns the description in these bytes.
pub fn read_description(alloc: Global, bytes: &[u8]) -> Result<Description, DescError>
    ensures { (result ≡ Err DescError.Memory) ⊎ (result ≡ described bytes.now) }
{
    changed_texts::read_description(alloc, bytes)
}

/// Returns the two plans, checked as first and second; or the first condition that does not hold.
fn check_second(first: CheckedPlan, second: Plan) -> Result<CheckedSwitch, Refusal>
    ensures fault { failed result ≡ second_fault_of first.description first.plan second }
    ensures first { IfOk result (λ both. both.first ≡ first) }
    ensures second { IfOk result (λ both. both.second ≡ second) }
{
    match check_switch(first, second) {
        Ok(both) => Ok(both),
        Err((refusal, _, _)) => Err(refusal),
    }
}

/// Returns the job with the first plan, the text of a second plan, and the bytes after it.
fn read_second<'a>(
    alloc: Global,
    first: CheckedPlan,
    text: &'a [u8],
) -> Result<CheckedJob<'a>, JobReadError>
    ensures { IsJob (with_second first.description first.plan (planned text.entry.now)) result }
{
    match read_plan(alloc, text) {
        Err(PlanTextError::Line(line)) => Err(JobReadError::Fault(JobFault::SecondPlanLine(line))),
        Err(PlanTextError::Memory) => Err(JobReadError::Memory),
        Ok((second, rest)) => match check_second(first, second) {
            Err(refusal) => Err(JobReadError::Fault(JobFault::SecondRefused(refusal))),
            Ok(both) => Ok(CheckedJob {
                plans: JobPlans::Two(both),
                rest,
            }),
        },
    }
}

/// Returns the job with a description, the texts of its plans, and the bytes after these.
fn read_plans<'a>(
    alloc: Global,
    switch: bool,
    description: Description,
    text: &'a [u8],
) -> Result<CheckedJob<'a>, JobReadError>
    ensures { IsJob (with_plan switch description (planned text.entry.now)) result }
{
    match read_plan(alloc, text) {
        Err(PlanTextError::Line(line)) => Err(JobReadError::Fault(JobFault::PlanLine(line))),
        Err(PlanTextError::Memory) => Err(JobReadError::Memory),
        Ok((plan, rest)) => match check_plan(description, plan) {
            Err(refusal) => Err(JobReadError::Fault(JobFault::Refused(refusal))),
            Ok(first) => {
                if switch {
                    read_second(alloc, first, rest)
                } else {
                    Ok(CheckedJob {
                        plans: JobPlans::One(first),
                        rest,
                    })
                }
            }
        },
    }
}

/// Returns the job in these bytes, with or without a second plan.
#[tactic(auto, unfolding(crate::specs::Jobs::job_of))]
pub fn read_job<'a>(
    alloc: Global,
    switch: bool,
    bytes: &'a [u8],
) -> Result<CheckedJob<'a>, JobReadError>
    ensures { IsJob (job_of switch bytes.entry.now) result }
{
    let Some((description, plans)) = parts_of(bytes) else {
        return Err(JobReadError::Fault(JobFault::NoPlan));
    };
    match read_description(alloc, description) {
        Err(DescError::Refused(fault)) => Err(JobReadError::Fault(JobFault::Description(fault))),
        Err(DescError::Memory) => Err(JobReadError::Memory),
        Ok(description) => read_plans(alloc, switch, description, plans),
    }
}

/// Returns the plans at the front of bytes, and the offset after them.
pub fn plans_at_front(
    alloc: Global,
    switch: bool,
    bytes: &[u8],
) -> Result<(JobPlans, usize), JobReadError>
    ensures { IsJobAtFront (job_of switch bytes.now) bytes.now result }
{
    match read_job(alloc, switch, bytes) {
        Ok(CheckedJob { plans, rest }) => Ok((plans, bytes.len() - rest.len())),
        Err(error) => Err(error),
    }
}
