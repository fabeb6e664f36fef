//! The faults of a description, or of a plan after it, in the input.

ghost use Rattle.std.specs.Prelude.{◌≡◌, IfOk, map};
ghost use Rattle.devices.specs.Devices.{reads, writes};
ghost use Rattle.devices.specs.Files.{files_of};
ghost use Rattle.devices.specs.Runs.{Performs};
ghost use Rattle.tsjob_cli.specs.Explaining as spec;

use crate::read_files;
use counted_io::{Sink, Source};
use devices::{Halt, NamedFiles, read_whole, report_halt};
use explained_jobs::explain_job;
use job_run::{JobOutcome, only_text, write_outcome};
use std::alloc::{AllocError, Global};

/// Returns whether the words are `explain` alone.
#[tactic(auto, unfolding(crate::specs::Explaining::is_explain))]
pub(crate) fn is_explain(words: &[&str]) -> bool
    ensures { result ≡ spec.is_explain (map (λ s. s.now) words.now) }
{
    match words {
        [word] => *word == "explain",
        _ => false,
    }
}

// Returns the status for lines of faults.
fn status_of(lines: &str) -> u8
    ensures { result ≡ spec.status_of lines.now }
{
    if lines.is_empty() { 0 } else { 1 }
}

// Returns the outcome for the bytes of a description, and of a plan.
#[tactic(auto, using(crate::proofs::Explaining::leads))]
fn explained(alloc: Global, bytes: &[u8]) -> Result<JobOutcome, AllocError>
    ensures { IfOk result (λ o. spec.ExplainLeads bytes.now o) }
{
    let text = explain_job(alloc, bytes)?;
    let status = status_of(text.as_str());
    Ok(JobOutcome {
        output: only_text(alloc, text),
        report: String::new(alloc),
        status,
    })
}

/// Reads the named files one after another, writes which faults their description or plan has, and returns the status.
pub(crate) fn explain_files<F: NamedFiles, W: Sink, E: Sink>(
    alloc: Global,
    files: &F,
    names: &[&str],
    output: &mut W,
    faults: &mut E,
) -> u8
    ensures { spec.ExplainsFiles (files_of (F.contents_of files.now) (F.opens files.now) F.never_fails)
        (map (λ s. s.now) names.now) (writes W.Sink output.old output.new)
        (writes E.Sink faults.old faults.new) result }
{
    let bytes = match read_files(alloc, files, names, faults) {
        Ok(bytes) => bytes,
        Err(status) => return status,
    };
    match explained(alloc, &bytes) {
        Ok(outcome) => write_outcome(&outcome, output, faults),
        Err(_) => report_halt(faults, Halt::Memory),
    }
}

/// Reads the input, writes which faults its description or plan has, and returns the status.
#[tactic(auto, using(crate::proofs::Explaining::outcome_written, crate::proofs::Explaining::no_memory_left))]
pub(crate) fn explain_input<R: Source, W: Sink, E: Sink>(
    alloc: Global,
    input: &mut R,
    output: &mut W,
    faults: &mut E,
) -> u8
    ensures { Performs spec.ExplainLeads (reads R.Source input.old input.new)
        (writes W.Sink output.old output.new) (writes E.Sink faults.old faults.new) result }
{
    let bytes = match read_whole(alloc, input) {
        Ok(bytes) => bytes,
        Err(halt) => return report_halt(faults, halt),
    };
    match explained(alloc, &bytes) {
        Ok(outcome) => write_outcome(&outcome, output, faults),
        Err(_) => report_halt(faults, Halt::Memory),
    }
}
