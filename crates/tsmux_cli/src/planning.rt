//! `plan`: the text of a plan that serves a description.
ghost use Rattle.std.specs.Prelude.{◌≡◌, IfOk, IfErr, false, string_bytes};
ghost use Rattle.plan_maker.specs.PlainPlan.{plain_plan, serves};
ghost use Rattle.devices.specs.Devices.{reads, writes};
ghost use Rattle.devices.specs.Runs.{Performs};
ghost use Rattle.tsmux_cli.specs.Planning.{IsPlanText, ReportsUnread, MakesPlan};

use checked_jobs::{JobFault, read_description, report_fault, report_refusal};
use counted_io::{Sink, Source};
use description::Description;
use description_keys::DescError;
use devices::{Halt, read_whole, report_halt, write_text};
use plan_maker::{MakeError, make};
use std::alloc::Global;

/// Returns the text of a plan that serves the description.
fn text_for(alloc: Global, description: Description) -> Result<String, MakeError>
    ensures text { IfOk result (λ text. IsPlanText description (string_bytes text)) }
    ensures none { IfErr result
        (λ error. error ≡ MakeError.NotFound → serves description (plain_plan description) ≡ false) }
{
    match make(alloc, description) {
        Ok(checked) => match checked.plan().write_text(alloc) {
            Ok(text) => Ok(text),
            Err(_) => Err(MakeError::Memory),
        },
        Err((error, _)) => Err(error),
    }
}

/// Reports why the description can't be read, and returns the status.
fn report_unread<E: Sink>(error: DescError, faults: &mut E) -> u8
    ensures { ReportsUnread error (writes E.Sink faults.old faults.new) result }
{
    match error {
        DescError::Refused(fault) => report_fault(JobFault::Description(fault), faults),
        DescError::Memory => report_halt(faults, Halt::Memory),
    }
}

/// Writes the text of a plan that serves the description in the input, and returns the status.
pub fn make_plan<R: Source, W: Sink, E: Sink>(
    alloc: Global,
    input: &mut R,
    output: &mut W,
    faults: &mut E,
) -> u8
    ensures { Performs MakesPlan (reads R.Source input.old input.new)
        (writes W.Sink output.old output.new) (writes E.Sink faults.old faults.new) result }
{
    let bytes = match read_whole(alloc, input) {
        Ok(bytes) => bytes,
        Err(halt) => return report_halt(faults, halt),
    };
    let description = match read_description(alloc, &bytes) {
        Ok(description) => description,
        Err(error) => return report_unread(error, faults),
    };
    match text_for(alloc, description) {
        Ok(text) => match write_text(&text, output) {
            Ok(()) => 0,
            Err(halt) => report_halt(faults, halt),
        },
        Err(MakeError::NotFound) => report_refusal(faults, "no plan", &[]),
        Err(MakeError::Memory) => report_halt(faults, Halt::Memory),
    }
}
