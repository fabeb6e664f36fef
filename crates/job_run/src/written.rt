//! Writes an outcome: the output, and then the lines for the second writer.

ghost use Rattle.devices.specs.Devices.{reads, writes};
ghost use Rattle.job_run.specs.Outcomes as spec;

use crate::job_arguments::JobArguments;
use crate::outcome::{JobOutcome, JobText, stream_outcome};
use crate::reading::read_stream;
use counted_io::{Sink, Source};
use devices::{Halt, report_halt, report_text};
use es_feed::write_job;
use std::alloc::Global;
/// Writes an outcome, and returns the status.
pub fn write_outcome<W: Sink, E: Sink>(outcome: &JobOutcome, output: &mut W, faults: &mut E) -> u8
    ensures { spec.IsWritten outcome.now (writes W.Sink output.old output.new)
        (writes E.Sink faults.old faults.new) result }
{
    let JobText { text, plan, units } = &outcome.output;
    match write_job(output, text.as_bytes(), plan.as_bytes(), units) {
        Ok(()) => {
            report_text(faults, outcome.report.as_str());
            outcome.status
        }
        Err(halt) => report_halt(faults, halt),
    }
}

/// Writes the outcome for the stream in the input, and returns the status.
#[tactic(auto, using(crate::proofs::JobOutcomes::outcome_written, crate::proofs::JobOutcomes::no_memory_left))]
pub fn perform<R: Source, W: Sink, E: Sink>(
    alloc: Global,
    arguments: &JobArguments<'_>,
    input: &mut R,
    output: &mut W,
    faults: &mut E,
) -> u8
    ensures { spec.PerformsJob arguments.now (reads R.Source input.old input.new)
        (writes W.Sink output.old output.new) (writes E.Sink faults.old faults.new) result }
{
    let stream = match read_stream(alloc, input) {
        Ok(stream) => stream,
        Err(halt) => return report_halt(faults, halt),
    };
    match stream_outcome(alloc, arguments, stream) {
        Ok(outcome) => write_outcome(&outcome, output, faults),
        Err(_) => report_halt(faults, Halt::Memory),
    }
}
