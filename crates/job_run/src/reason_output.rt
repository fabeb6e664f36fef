//! Why no plan serves the description of a stream.

ghost use Rattle.std.specs.Prelude.{◌≡◌, ◌==◌, ◌++◌, IfErr, IfOk, OnOk, length, string_bytes};
ghost use Rattle.stream_jobs.specs.WhyNoJob.{IsWhyNoReasons};
ghost use Rattle.job_run.specs.Outcomes as spec;

use crate::outcome::{JobText, only_text};
use job_inputs::JobInput;
use job_programs::{JobError, JobOptions};
use plan_diagnosis::write_reasons;
use std::alloc::{AllocError, Global};
use std::fmt::Write;
use stream_jobs::{found_rate, unplanned_description};

// Tries rates and returns the first with a plan, if any has one.
fn tried_rate(
    alloc: Global,
    options: &JobOptions<'_>,
    input: &JobInput,
) -> Result<Option<u64>, AllocError>
    ensures { IfOk result (spec.IsFound options.now input.now) }
{
    match found_rate(alloc, options, input) {
        Ok(rate) => Ok(Some(rate)),
        Err(JobError::Refused(_)) => Ok(None),
        Err(JobError::Memory) => Err(AllocError),
    }
}

// Appends the line about the rate found.
#[tactic(auto, unfolding(crate::specs::Outcomes::found_line))]
fn write_rate(found: Option<u64>, lines: &mut String) -> Result<(), AllocError>
    ensures { OnOk result (string_bytes lines.new ≡ string_bytes lines.old ++ spec.found_line found) }
{
    match found {
        Some(rate) => write!(lines, "rate {rate} has a plan, the first found\n"),
        None => lines.push_str("no rate that was tried has a plan\n"),
    }
}

// Tries rates and appends a line with the result, if there are lines with reasons.
#[tactic(auto, using(crate::proofs::JobOutcomes::reported_nothing, crate::proofs::JobOutcomes::reported_found))]
fn write_found(
    alloc: Global,
    options: &JobOptions<'_>,
    input: &JobInput,
    lines: &mut String,
) -> Result<(), AllocError>
    ensures { OnOk result (spec.IsReasonOutput (length (string_bytes lines.old) == 0) options.now input.now
        (string_bytes lines.old) (string_bytes lines.new)) }
{
    if lines.as_str().is_empty() {
        return Ok(());
    }
    let found = tried_rate(alloc, options, input)?;
    write_rate(found, lines)
}

/// Returns why no plan serves the description of a stream.
pub(crate) fn reason_output(
    alloc: Global,
    options: &JobOptions<'_>,
    input: &JobInput,
) -> Result<JobText, JobError>
    ensures given { IfOk result (λ p. spec.GivesReasons options.now input.now p) }
    ensures withheld { IfErr result (IsWhyNoReasons options.now.rate options.now input.now) }
{
    let description = unplanned_description(alloc, options, input)?;
    let mut lines = String::new(alloc);
    write_reasons(alloc, &description, &mut lines)?;
    write_found(alloc, options, input, &mut lines)?;
    Ok(only_text(alloc, lines))
}
