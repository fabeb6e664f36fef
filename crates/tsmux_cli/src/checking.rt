//! `check`: the first fault in a job.
ghost use Rattle.std.specs.Prelude.{◌≡◌, IfOk, option_map};
ghost use Rattle.tsmux_cli.specs.Checking.{Checks, verdict_of};
ghost use Rattle.devices.specs.Devices.{reads, writes};
ghost use Rattle.checked_jobs.specs.JobFaults.{fault_view};
ghost use Rattle.devices.specs.Lines.{Reports, WritesLine};
ghost use Rattle.devices.specs.Runs.{Performs};

use checked_jobs::{JobFault, find_fault, is_refusal, report_fault, write_fault};
use counted_io::{Sink, Source};
use devices::{Halt, report_halt, write_line};
use std::alloc::Global;

/// Writes the verdict on the plans to the output, if there is one: accepted, or the first condition that does not hold.
/// Returns the status.
#[tactic(auto, unfolding(crate::specs::Checking::verdict_of))]
fn write_verdict<W: Sink>(fault: Option<JobFault>, output: &mut W) -> Result<u8, Halt>
    ensures output { WritesLine (verdict_of (option_map fault_view fault)).output
        (writes W.Sink output.old output.new) result }
    ensures status { IfOk result (λ status. status ≡ (verdict_of (option_map fault_view fault)).status) }
{
    let Some(fault) = fault else {
        write_line(output, "accepted", &[])?;
        return Ok(0);
    };
    if is_refusal(fault) {
        write_fault(fault, output)?;
    }
    Ok(1)
}

/// Reports a fault that is no condition's.
#[tactic(auto, unfolding(crate::specs::Checking::verdict_of))]
fn report_other<E: Sink>(fault: Option<JobFault>, faults: &mut E)
    ensures { Reports (writes E.Sink faults.old faults.new) (verdict_of (option_map fault_view fault)).report }
{
    if let Some(fault) = fault {
        if !is_refusal(fault) {
            let _ = report_fault(fault, faults);
        }
    }
}

/// Writes the verdict on the job in the input, and returns the status.
pub fn check_job<R: Source, W: Sink, E: Sink>(
    alloc: Global,
    switch: bool,
    input: &mut R,
    output: &mut W,
    faults: &mut E,
) -> u8
    ensures { Performs (Checks switch) (reads R.Source input.old input.new)
        (writes W.Sink output.old output.new) (writes E.Sink faults.old faults.new) result }
{
    let fault = match find_fault(alloc, switch, input) {
        Ok(fault) => fault,
        Err(halt) => return report_halt(faults, halt),
    };
    match write_verdict(fault, output) {
        Ok(status) => {
            report_other(fault, faults);
            status
        }
        Err(halt) => report_halt(faults, halt),
    }
}
