//! The line of a fault in a job that a program has found.

ghost use Rattle.std.specs.Prelude.{◌≡◌, ◌++◌, ◌∷◌, [], IfOk, OnOk, string_bytes};
ghost use Rattle.checked_jobs.specs.JobFaults.{fault_view};
ghost use Rattle.explained_jobs.specs.FaultLines as spec;
ghost use Rattle.explained_jobs.specs.JobWords.{or_words};

use crate::explaining::explain_job;
use checked_jobs::JobFault;
use diagnosis::explain;
use std::alloc::{AllocError, Global};
use std::fmt::Write;

// Appends a name with a number.
fn write_numbered(name: &str, kind: &str, n: u32, text: &mut String) -> Result<(), AllocError>
    ensures { OnOk result (string_bytes text.new
        ≡ string_bytes text.old ++ spec.numbered_head name.now kind.now n) }
{
    write!(text, "{name} ({kind} {n}): ")
}

// Returns a name with a number.
fn numbered_head(alloc: Global, name: &str, kind: &str, n: u32) -> Result<String, AllocError>
    ensures { IfOk result (λ text. string_bytes text ≡ spec.numbered_head name.now kind.now n) }
{
    let mut text = String::new(alloc);
    write_numbered(name, kind, n, &mut text)?;
    Ok(text)
}

// Returns these words as a text.
fn text_of(alloc: Global, words: &str) -> Result<String, AllocError>
    ensures { IfOk result (λ text. string_bytes text ≡ words.now) }
{
    let mut text = String::new(alloc);
    text.push_str(words)?;
    Ok(text)
}

// Returns which fault it is.
#[tactic(auto, unfolding(crate::specs::FaultLines::fault_head))]
fn fault_head(alloc: Global, fault: JobFault) -> Result<String, AllocError>
    ensures { IfOk result (λ text. string_bytes text ≡ spec.fault_head (fault_view fault)) }
{
    match fault {
        JobFault::NoPlan => text_of(alloc, "job: "),
        JobFault::Description(fault) => {
            numbered_head(alloc, "description", "code", u32::from(fault.code()))
        }
        JobFault::PlanLine(line) => numbered_head(alloc, "plan", "line", line),
        JobFault::Refused(refusal) => {
            numbered_head(
                alloc,
                "refused",
                "code",
                u32::from(refusal.condition.code()),
            )
        }
        JobFault::SecondPlanLine(line) => numbered_head(alloc, "second plan", "line", line),
        JobFault::SecondRefused(refusal) => {
            let code = u32::from(refusal.condition.code());
            numbered_head(alloc, "second refused", "code", code)
        }
    }
}

// Returns words, or otherwise the end of a line.
#[tactic(auto, unfolding(crate::specs::JobWords::or_words))]
fn or_line_end(words: &str) -> &str
    ensures { result.now ≡ or_words words.now (10 ∷ []) }
{
    if words.is_empty() { "\n" } else { words }
}

// Returns the words for the description and the plan of a job, as whole lines.
fn explained(alloc: Global, bytes: &[u8]) -> Result<String, AllocError>
    ensures { IfOk result (λ text. spec.AreExplained bytes.now (string_bytes text)) }
{
    let words = explain(alloc, bytes)?;
    text_of(alloc, or_line_end(words.as_str()))
}

// Returns the words for a whole job, as whole lines.
fn job_explained(alloc: Global, bytes: &[u8]) -> Result<String, AllocError>
    ensures { IfOk result (λ text. spec.AreJobExplained bytes.now (string_bytes text)) }
{
    let words = explain_job(alloc, bytes)?;
    text_of(alloc, or_line_end(words.as_str()))
}

// Returns the words for a fault of a job.
fn words_for(alloc: Global, bytes: &[u8], fault: JobFault) -> Result<String, AllocError>
    ensures { IfOk result (λ text. spec.AreFaultWords bytes.now (fault_view fault) (string_bytes text)) }
{
    match fault {
        JobFault::NoPlan => text_of(
            alloc,
            "no line is tsplan 1, so there is no plan: tsmux plan < DESCRIPTION makes a plan\n",
        ),
        JobFault::PlanLine(_) => text_of(
            alloc,
            "not as a plan has it: tsmux plan < DESCRIPTION makes a plan\n",
        ),
        JobFault::SecondPlanLine(_) => {
            text_of(alloc, "not as a plan has it: --switch takes two plans\n")
        }
        JobFault::Description(_) | JobFault::Refused(_) => explained(alloc, bytes),
        JobFault::SecondRefused(_) => job_explained(alloc, bytes),
    }
}

/// Returns the line of a fault in the job that these bytes begin: the number of the fault, and words for it, on several
/// lines if there are several faults.
pub fn fault_line(alloc: Global, bytes: &[u8], fault: JobFault) -> Result<String, AllocError>
    ensures { IfOk result (λ text. spec.IsFaultLine bytes.now (fault_view fault) (string_bytes text)) }
{
    let mut line = fault_head(alloc, fault)?;
    let words = words_for(alloc, bytes, fault)?;
    line.push_str(words.as_str())?;
    Ok(line)
}
