//! The line that counts the elementary streams that a job leaves out.

ghost use Rattle.std.specs.Prelude.{◌≡◌, ◌++◌, OnOk, string_bytes};
ghost use Rattle.job_run.specs.LeftOutCount as spec;

use job_inputs::JobInput;
use job_programs::Warning;
use std::alloc::AllocError;
use std::fmt::Write;

// Returns whether a warning says that a stream is left out.
#[tactic(auto, unfolding(crate::specs::LeftOutCount::leaves_out))]
fn leaves_out(warning: &Warning) -> bool
    ensures { result ≡ spec.leaves_out warning.now }
{
    match warning {
        Warning::LeftOut { .. } | Warning::StreamId { .. } => true,
        _ => false,
    }
}

// Returns the number of streams that are left out.
fn left_out_count(warnings: &[Warning]) -> usize
    ensures { result ≡ spec.left_out_count warnings.now }
{
    let mut count = 0;
    for warning in warnings {
        if leaves_out(warning) {
            count += 1;
        }
    }
    count
}

// Appends the line for a number of streams, of all.
#[tactic(auto, unfolding(crate::specs::LeftOutCount::count_text))]
fn write_count(left_out: u128, all: u128, text: &mut String) -> Result<(), AllocError>
    ensures { OnOk result (string_bytes text.new ≡ string_bytes text.old ++ spec.count_text left_out all) }
{
    write!(text, "{left_out} of {all} streams left out\n")
}

// Appends the line, if any stream is left out.
fn write_line(left_out: usize, carried: usize, text: &mut String) -> Result<(), AllocError>
    ensures { OnOk result (string_bytes text.new ≡ string_bytes text.old ++ spec.line_if left_out carried) }
{
    if left_out == 0 {
        return Ok(());
    }
    let left_out = left_out as u128;
    write_count(left_out, left_out + carried as u128, text)
}

/// Appends the line that counts the streams that the job leaves out, if any is left out.
pub(crate) fn push_count(input: &JobInput, text: &mut String) -> Result<(), AllocError>
    ensures { OnOk result (string_bytes text.new ≡ string_bytes text.old ++ spec.count_line input.now) }
{
    write_line(left_out_count(&input.warnings), input.streams.len(), text)
}
