//! The explanation of a whole job.

ghost use Rattle.std.specs.Prelude.{◌≡◌, ◌++◌, IfOk, OnOk, Ok, map, string_bytes, true, false};
ghost use Rattle.diagnosis.specs.Explained.{IsExplained};
ghost use Rattle.diagnosis.specs.TomlNotes.{TomlNoteView};
ghost use Rattle.job_parts.specs.Parts.{parts_of};
ghost use Rattle.checked_jobs.specs.MuxJobs.{mux_fault_view, mux_job_of, mux_job_view};
ghost use Rattle.checked_jobs.specs.Multiplexing.{cause_of};
ghost use Rattle.explained_jobs.specs.JobWords as spec;

use crate::fault_words::write_fault;
use crate::unit_words::write_refused;
use crate::whole_jobs::{description_of, mux_fault, whole_job};
use checked_jobs::{JobReadError, MuxFault, MuxJob, read_job};
use diagnosis::explain;
use job_parts::parts_of;
use mux_core::MuxError;
use std::alloc::{AllocError, Global};

/// The first line of a plan's text.
const FIRST_PLAN_LINE: &[u8] = b"tsplan 1\n";

// Returns the words for a fault.
fn fault_text(alloc: Global, fault: MuxFault) -> Result<String, AllocError>
    ensures { IfOk result (λ text. string_bytes text ≡ spec.fault_words (mux_fault_view fault)) }
{
    let mut text = String::new(alloc);
    write_fault(fault, &mut text)?;
    Ok(text)
}

// Returns the words about the error of a run.
#[tactic(auto, unfolding(crate::specs::JobWords::error_words))]
fn error_text(alloc: Global, job: &MuxJob, error: Option<MuxError>) -> Result<String, AllocError>
    ensures { IfOk result (λ text. string_bytes text ≡ spec.error_words (mux_job_view job.now) error) }
{
    let mut text = String::new(alloc);
    match error {
        Some(MuxError::Feed { index, cause }) => {
            let description = description_of(&job.plans);
            write_refused(description, &job.units, index, cause, &mut text)?
        }
        Some(_) | None => {}
    }
    Ok(text)
}

// Returns the words about the units of a job. A run consumes the job, so the job is read a second time.
#[tactic(auto, using(crate::proofs::Explained::units_of_fault))]
fn units_text(alloc: Global, switch: bool, bytes: &[u8]) -> Result<String, AllocError>
    ensures { IfOk result (λ text. string_bytes text ≡ spec.units_words switch (mux_job_of switch bytes.now)) }
{
    let job = match whole_job(alloc, switch, bytes)? {
        Ok(job) => job,
        Err(fault) => return fault_text(alloc, fault),
    };
    let error = mux_fault(alloc, switch, job)?;
    match whole_job(alloc, switch, bytes)? {
        Ok(job) => error_text(alloc, &job, error),
        Err(fault) => fault_text(alloc, fault),
    }
}

/// Returns the bytes before the first plan.
#[tactic(auto, unfolding(crate::specs::JobWords::description_part))]
pub(crate) fn description_part(bytes: &[u8]) -> &[u8]
    ensures { result.now ≡ spec.description_part bytes.now (parts_of bytes.now) }
{
    match parts_of(bytes) {
        None => bytes,
        Some((description, _)) => description,
    }
}

// Returns the description of a job with the plan in these bytes.
fn with_plan(alloc: Global, bytes: &[u8], rest: &[u8]) -> Result<Vec<u8>, AllocError>
    ensures { IfOk result (λ alone. alone.items ≡ spec.second_alone bytes.now rest.now) }
{
    let mut alone = Vec::new(alloc);
    alone.extend_from_slice(description_part(bytes))?;
    alone.extend_from_slice(rest)?;
    Ok(alone)
}

// Puts a head before the words about a second plan; empty words stay empty.
#[tactic(auto, unfolding(crate::specs::JobWords::headed))]
fn headed(alloc: Global, words: &str) -> Result<String, AllocError>
    ensures { IfOk result (λ text. string_bytes text ≡ spec.headed words.now) }
{
    let mut text = String::new(alloc);
    if words.is_empty() {
        return Ok(text);
    }
    text.push_str("the second plan:\n")?;
    text.push_str(words)?;
    Ok(text)
}

// Returns the words about a second plan by itself.
#[tactic(auto, using(crate::proofs::Explained::alone_words))]
fn second_alone(alloc: Global, bytes: &[u8], rest: &[u8]) -> Result<String, AllocError>
    ensures { IfOk result (λ text. spec.IsSecondAlone bytes.now rest.now (string_bytes text)) }
{
    let alone = with_plan(alloc, bytes, rest)?;
    let words = explain(alloc, &alone)?;
    headed(alloc, words.as_str())
}

// Returns the words about a second plan, or about the units after it.
#[tactic(auto, using(crate::proofs::Explained::second_first))]
fn second_text(alloc: Global, bytes: &[u8], rest: &[u8]) -> Result<String, AllocError>
    ensures { IfOk result (λ text. spec.IsSecondExplained bytes.now rest.now (string_bytes text)) }
{
    let words = second_alone(alloc, bytes, rest)?;
    if !words.is_empty() {
        return Ok(words);
    }
    let text = units_text(alloc, true, bytes)?;
    Ok(text)
}

// Returns whether the bytes begin with a plan.
fn begins_plan(rest: &[u8]) -> bool
    ensures { result ≡ spec.begins_plan rest.now }
{
    rest.starts_with(FIRST_PLAN_LINE)
}

// Returns the words about everything after a plan.
fn rest_text(alloc: Global, bytes: &[u8]) -> Result<String, AllocError>
    ensures { IfOk result (λ text. spec.IsRestExplained bytes.now (string_bytes text)) }
{
    let job = match read_job(alloc, false, bytes) {
        Ok(job) => job,
        Err(JobReadError::Fault(_)) => return Ok(String::new(alloc)),
        Err(JobReadError::Memory) => return Err(AllocError),
    };
    let rest = job.rest;
    if begins_plan(rest) {
        let text = second_text(alloc, bytes, rest)?;
        return Ok(text);
    }
    let text = units_text(alloc, false, bytes)?;
    Ok(text)
}

// Returns the words about the description and the plan, or about everything after them.
#[tactic(auto, using(crate::proofs::Explained::words_first, crate::proofs::Explained::words_after))]
fn parts_text(alloc: Global, bytes: &[u8]) -> Result<String, AllocError>
    ensures { IfOk result (λ text. spec.ArePartsExplained bytes.now (string_bytes text)) }
{
    let words = explain(alloc, bytes)?;
    if !words.is_empty() {
        return Ok(words);
    }
    rest_text(alloc, bytes)
}

// Returns whether records follow a description without a plan: no line is `tsplan 1`, and a byte is zero, as in each
// record and in no TOML text.
#[tactic(auto, unfolding(crate::specs::JobWords::lacks_plan))]
fn lacks_plan(bytes: &[u8]) -> bool
    ensures { result ≡ spec.lacks_plan bytes.now (parts_of bytes.now) }
{
    match parts_of(bytes) {
        None => bytes.contains(&0),
        Some(_) => false,
    }
}

// Returns the line that asks for a plan.
fn plan_line(alloc: Global) -> Result<String, AllocError>
    ensures { IfOk result (λ text. string_bytes text ≡ spec.plan_line) }
{
    let mut text = String::new(alloc);
    text.push_str(
        "expected a plan between the description and the records: no line is tsplan 1, and the input has zero bytes, as records have\n",
    )?;
    Ok(text)
}

/// Returns the first fault of a job in words: that it has records and no plan, or a fault of its description, its plan,
/// a second plan, its records or its units; an empty text if no fault is known.
#[tactic(auto, using(crate::proofs::Explained::asks_for_plan, crate::proofs::Explained::has_parts))]
pub fn explain_job(alloc: Global, bytes: &[u8]) -> Result<String, AllocError>
    ensures { IfOk result (λ text. spec.IsJobExplained bytes.now (string_bytes text)) }
{
    if lacks_plan(bytes) {
        let text = plan_line(alloc)?;
        return Ok(text);
    }
    let text = parts_text(alloc, bytes)?;
    Ok(text)
}
