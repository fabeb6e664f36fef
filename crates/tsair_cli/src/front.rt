//! The front of the input: a description and its plans, as far as the last line `end`.

ghost use Rattle.std.specs.Prelude.{◌≡◌, ◌<◌, ◌≤◌, true, IfSome, length};
ghost use Rattle.devices.specs.Devices.{reads, writes};
ghost use Rattle.devices.specs.Lines.{Reports};
ghost use Rattle.tsair_cli.specs.Fronts as spec;

use checked_jobs::{CheckedJob, JobPlans, JobReadError, read_job};
use counted_io::{Sink, Source, read_part};
use devices::{Halt, report_halt, report_text};
use explained_jobs::fault_line;
use job_parts::parts_of;
use std::alloc::Global;

/// The maximum number of bytes of a front: the longest plan's text has half a million.
const MAX_FRONT: usize = 1 << 22;

/// The last line of a plan's text.
const LAST_PLAN_LINE: &[u8] = b"end\n";

/// Why a front is refused.
#[derive(Drop)]
pub enum FrontFault {
    /// The line of the first fault in the job that it is.
    Job(String),
    /// It does not end with the last line of its plans, within 4 MiB.
    Unended,
}

/// Why no front is read.
#[derive(Drop)]
pub enum FrontError {
    Fault(FrontFault),
    /// The reader failed, or out of memory.
    Stopped(Halt),
}

/// Reads the next line of the input to the end of a text, and returns whether the front may go on: it ends with the input,
/// and with a byte 0, which neither a description nor a plan has.
fn read_line<R: Source>(input: &mut R, text: &mut Vec<u8>) -> Result<bool, Halt>
    ensures { spec.ReadsLine (reads R.Source input.old input.new) text.old.items text.new.items result }
{
    let mut byte = [0u8];
    'bytes: while text.len() <= MAX_FRONT {
        match read_part(input, &mut byte) {
            Ok(0) => return Ok(false),
            Ok(_) => {}
            Err(_) => return Err(Halt::Read),
        }
        let next = byte[0];
        let Ok(()) = text.push(next) else {
            return Err(Halt::Memory);
        };
        if next == b'\n' {
            return Ok(true);
        }
        if next == 0 {
            return Ok(false);
        }
    }
    Ok(true)
}

/// Returns the number of lines `end` in bytes.
fn end_lines(bytes: &[u8]) -> usize
    ensures value { result ≡ spec.end_lines true bytes.now }
    ensures upper { result ≤ length bytes.now }
{
    let mut count = 0;
    let mut at_line = true;
    for (i, byte) in bytes.iter().enumerate() {
        if at_line && bytes[i..].starts_with(LAST_PLAN_LINE) {
            count += 1;
        }
        at_line = *byte == b'\n';
    }
    count
}

/// Returns the number of plans of a front.
fn plan_count(switch: bool) -> usize
    ensures { result ≡ spec.plan_count switch }
{
    if switch { 2 } else { 1 }
}

/// Returns the number of plans that have ended after more lines; none before the first line of a plan.
fn ended_after(ended: Option<usize>, lines: &[u8]) -> Option<usize>
    requires few { IfSome ended (λ n. n < 2) }
    ensures { result ≡ spec.ended_after ended lines.now }
{
    match ended {
        None => match parts_of(lines) {
            None => None,
            Some((_, plans)) => Some(end_lines(plans)),
        },
        Some(count) => Some(count + end_lines(lines)),
    }
}

/// Returns whether each plan of a front has ended.
fn have_ended(switch: bool, ended: Option<usize>) -> bool
    ensures { result ≡ spec.have_ended (spec.plan_count switch) ended }
{
    match ended {
        None => false,
        Some(count) => plan_count(switch) <= count,
    }
}

/// Returns the plans of a front that is all of a job before its records.
fn plans_of(alloc: Global, switch: bool, front: &[u8]) -> Result<JobPlans, FrontError>
    ensures { spec.IsFrontOf switch front.now result }
{
    match read_job(alloc, switch, front) {
        Ok(CheckedJob { plans, rest }) => {
            if rest.is_empty() {
                return Ok(plans);
            }
            // By a call: at the end of a function the drop of each part would be a step of its proof.
            drop(plans);
            Err(FrontError::Fault(FrontFault::Unended))
        }
        Err(JobReadError::Fault(fault)) => match fault_line(alloc, front, fault) {
            Ok(line) => Err(FrontError::Fault(FrontFault::Job(line))),
            Err(_) => Err(FrontError::Stopped(Halt::Memory)),
        },
        Err(JobReadError::Memory) => Err(FrontError::Stopped(Halt::Memory)),
    }
}

/// Reads the front of the input as far as the line that ends its last plan, and no byte after it. A byte 0 ends it as the
/// end of the input does: if there is no plan, the first record has one.
pub fn read_front<R: Source>(
    alloc: Global,
    switch: bool,
    input: &mut R,
) -> Result<JobPlans, FrontError>
    ensures { spec.ReadsFront switch (reads R.Source input.old input.new) result }
{
    let mut text = Vec::new(alloc);
    let mut ended = None;
    'lines: while text.len() <= MAX_FRONT {
        let from = text.len();
        match read_line(input, &mut text) {
            Ok(true) => {}
            Ok(false) => return plans_of(alloc, switch, &text),
            Err(halt) => return Err(FrontError::Stopped(halt)),
        }
        ended = ended_after(ended, &text[from..]);
        if have_ended(switch, ended) {
            return plans_of(alloc, switch, &text);
        }
    }
    Err(FrontError::Fault(FrontFault::Unended))
}

/// Reports why no front is read, and returns the status.
#[tactic(auto, unfolding(crate::specs::Fronts::front_outcome))]
pub fn report_front<E: Sink>(faults: &mut E, error: FrontError) -> u8
    ensures report { Reports (writes E.Sink faults.old faults.new) (spec.front_outcome error).report }
    ensures status { result ≡ (spec.front_outcome error).status }
{
    match error {
        FrontError::Fault(FrontFault::Job(line)) => {
            report_text(faults, line.as_str());
            1
        }
        FrontError::Fault(FrontFault::Unended) => {
            report_text(
                faults,
                "front: the last plan has no line end within 4 MiB: ( cat DESCRIPTION PLAN; FEEDER ) | tsair\n",
            );
            1
        }
        FrontError::Stopped(halt) => report_halt(faults, halt),
    }
}
