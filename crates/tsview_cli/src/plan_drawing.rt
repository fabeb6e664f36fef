//! A page of the plan in a job.
ghost use Rattle.std.specs.Prelude.{◌≡◌, ℕ, List, IfOk, false, map, string_bytes};
ghost use Rattle.devices.specs.Devices.{reads, writes};
ghost use Rattle.devices.specs.Runs.{Performs};
ghost use Rattle.checked_jobs.specs.Jobs.{job_of};
ghost use Rattle.checked_jobs.specs.JobFaults.{fault_view, plans_view};
ghost use Rattle.tsview_cli.specs.PlanDrawing as spec;

use checked_jobs::{CheckedJob, JobFault, JobPlans, JobReadError, read_job};
use counted_io::{Sink, Source};
use devices::{Halt, read_whole, report_halt, report_text, write_text};
use explained_jobs::fault_line;
use plan_page::write_plan_page;
use std::alloc::{AllocError, Global};

/// Returns whether the words are `--plan` alone.
#[tactic(auto, unfolding(crate::specs::PlanDrawing::is_plan))]
pub(crate) fn is_plan(words: &[&str]) -> bool
    ensures { result ≡ spec.is_plan (map (λ s. s.now) words.now) }
{
    match words {
        [word] => *word == "--plan",
        _ => false,
    }
}

// Returns the page of the first plan of a job.
fn page_of(alloc: Global, plans: &JobPlans) -> Result<String, AllocError>
    ensures { (rest : List ℕ) → IfOk result (λ text. string_bytes text ≡ spec.job_page (plans_view plans.now rest)) }
{
    let mut text = String::new(alloc);
    match plans {
        JobPlans::One(plan) => write_plan_page(alloc, plan, &mut text)?,
        JobPlans::Two(both) => write_plan_page(alloc, both.first(), &mut text)?,
    }
    Ok(text)
}

// Returns the page of the plan in these bytes.
fn drawn(alloc: Global, bytes: &[u8]) -> Result<String, JobReadError>
    ensures { spec.IsPlanPage (job_of false bytes.now) result }
{
    let CheckedJob { plans, .. } = read_job(alloc, false, bytes)?;
    let page = page_of(alloc, &plans);
    // By a call: at the end of a function the drop of each part would be a step of its proof.
    drop(plans);
    match page {
        Ok(text) => Ok(text),
        Err(_) => Err(JobReadError::Memory),
    }
}

// Reports the line of a fault of a job, and returns the status.
fn report_line<E: Sink>(alloc: Global, bytes: &[u8], fault: JobFault, faults: &mut E) -> u8
    ensures { spec.ReportsLine bytes.now (fault_view fault) (writes E.Sink faults.old faults.new) result }
{
    match fault_line(alloc, bytes, fault) {
        Ok(line) => {
            report_text(faults, line.as_str());
            1
        }
        Err(_) => report_halt(faults, Halt::Memory),
    }
}

/// Writes the page of the plan in the input, or why it is no plan that serves; and returns the status.
#[tactic(auto, using(crate::proofs::PlanDrawings::page_written, crate::proofs::PlanDrawings::page_unwritten, crate::proofs::PlanDrawings::fault_reported, crate::proofs::PlanDrawings::no_memory_left))]
pub(crate) fn draw_plan<R: Source, W: Sink, E: Sink>(
    alloc: Global,
    input: &mut R,
    output: &mut W,
    faults: &mut E,
) -> u8
    ensures { Performs spec.DrawsPlan (reads R.Source input.old input.new)
        (writes W.Sink output.old output.new) (writes E.Sink faults.old faults.new) result }
{
    let bytes = match read_whole(alloc, input) {
        Ok(bytes) => bytes,
        Err(halt) => return report_halt(faults, halt),
    };
    match drawn(alloc, &bytes) {
        Ok(text) => match write_text(&text, output) {
            Ok(()) => 0,
            Err(halt) => report_halt(faults, halt),
        },
        Err(JobReadError::Fault(fault)) => report_line(alloc, &bytes, fault, faults),
        Err(JobReadError::Memory) => report_halt(faults, Halt::Memory),
    }
}
