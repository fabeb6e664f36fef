//! The explanation of a description, or of a description and a plan for it.

ghost use Rattle.std.specs.Prelude.{◌≡◌, ◌++◌, IfOk, OnOk, Ok, map, option_map, string_bytes};
ghost use Rattle.checked_jobs.specs.Jobs.{described};
ghost use Rattle.job_parts.specs.Parts.{planned};
ghost use Rattle.diagnosis.specs.Explained as spec;

use crate::fault_lines::write_fault;
use crate::key_places::lines_of;
use crate::toml_note::{TomlNote, note_of, write_note};
use crate::unknown_words::write_unknown;
use checked_jobs::read_description;
use description::Description;
use description_keys::{DescError, DescFault};
use job_parts::parts_of;
use plan_diagnosis::{write_conditions, write_reasons};
use slot_plan::{Plan, PlanTextError};
use std::alloc::{AllocError, Global};
use std::fmt::Write;
use std::str;

// Returns the lines of a text; bytes that are no UTF-8 have none.
fn text_lines(alloc: Global, bytes: &[u8]) -> Result<Vec<&str>, AllocError>
    ensures { IfOk result (λ lines. map (λ s. s.now) lines.items ≡ spec.text_lines bytes.entry.now) }
{
    match str::from_utf8(bytes) {
        Ok(text) => lines_of(alloc, text),
        Err(_) => Ok(Vec::new(alloc)),
    }
}

// Appends the number of a plan's line with a syntax error.
fn write_bad_line(line: u32, text: &mut String) -> Result<(), AllocError>
    ensures { OnOk result (string_bytes text.new ≡ string_bytes text.old ++ spec.bad_line_words line) }
{
    write!(text, "line {line} of the plan is not as a plan has it\n")
}

// Appends lines of conditions, and what to do if there are any.
#[tactic(auto, unfolding(crate::specs::Explained::with_remedy))]
fn write_remedied(lines: &str, text: &mut String) -> Result<(), AllocError>
    ensures { OnOk result (string_bytes text.new ≡ string_bytes text.old ++ spec.with_remedy lines.now) }
{
    if lines.is_empty() {
        return Ok(());
    }
    text.push_str(lines)?;
    text.push_str(
        "the plan is of another description, or it was changed: tsmux plan makes a plan for this one\n",
    )
}

// Appends the conditions that a plan does not keep.
fn write_served(
    alloc: Global,
    description: &Description,
    plan: &Plan,
    text: &mut String,
) -> Result<(), AllocError>
    ensures { OnOk result (string_bytes text.new
        ≡ string_bytes text.old ++ spec.served_words description.now plan.now) }
{
    let mut lines = String::new(alloc);
    write_conditions(alloc, description, plan, &mut lines)?;
    write_remedied(lines.as_str(), text)
}

// Appends the lines for a plan.
#[tactic(auto, unfolding(crate::specs::Explained::plan_words))]
fn write_plan(
    alloc: Global,
    description: Description,
    plan: &[u8],
    text: &mut String,
) -> Result<(), AllocError>
    ensures { OnOk result (string_bytes text.new
        ≡ string_bytes text.old ++ spec.plan_words description (planned plan.now)) }
{
    match Plan::read_text(alloc, plan) {
        Ok((plan, _)) => write_served(alloc, &description, &plan, text),
        Err(PlanTextError::Line(line)) => write_bad_line(line, text),
        Err(PlanTextError::Memory) => Err(AllocError),
    }
}

// Appends the lines for a description, and for its plan, if there is one.
#[tactic(auto, unfolding(crate::specs::Explained::with_description))]
fn write_description(
    alloc: Global,
    description: Description,
    plan: Option<&[u8]>,
    text: &mut String,
) -> Result<(), AllocError>
    ensures { OnOk result (string_bytes text.new
        ≡ string_bytes text.old ++ spec.with_description (option_map (λ s. s.now) plan.entry) description) }
{
    match plan {
        None => write_reasons(alloc, &description, text),
        Some(plan) => write_plan(alloc, description, plan, text),
    }
}

// Appends why a description is refused.
#[tactic(auto, unfolding(crate::specs::Explained::refusal_words))]
fn write_refusal(
    alloc: Global,
    note: &TomlNote,
    lines: &[&str],
    fault: DescFault,
    text: &mut String,
) -> Result<(), AllocError>
    ensures { OnOk result (string_bytes text.new ≡ string_bytes text.old
        ++ spec.refusal_words note.now (map (λ s. s.now) lines.now) fault) }
{
    match fault {
        DescFault::Text => write_note(lines, note, text),
        DescFault::UnknownKey => write_unknown(alloc, lines, text),
        fault => write_fault(lines, fault, text),
    }
}

// Appends the lines for the bytes of a description and of a plan.
#[tactic(auto, unfolding(crate::specs::Explained::description_words))]
fn write_parts(
    alloc: Global,
    note: &TomlNote,
    bytes: &[u8],
    plan: Option<&[u8]>,
    text: &mut String,
) -> Result<(), AllocError>
    ensures { OnOk result (string_bytes text.new ≡ string_bytes text.old
        ++ spec.description_words note.now bytes.now (option_map (λ s. s.now) plan.entry) (described bytes.now)) }
{
    match read_description(alloc, bytes) {
        Ok(description) => write_description(alloc, description, plan, text),
        Err(DescError::Refused(fault)) => {
            write_refusal(alloc, note, &text_lines(alloc, bytes)?, fault, text)
        }
        Err(DescError::Memory) => Err(AllocError),
    }
}

// Returns the description's bytes, from the bytes of a job.
fn description_part(bytes: &[u8]) -> &[u8] {
    match parts_of(bytes) {
        None => bytes,
        Some((description, _)) => description,
    }
}

// Returns the faults of a description, or of the plan after it, with the TOML reader's note on the description.
#[tactic(auto, unfolding(crate::specs::Explained::parts_words))]
fn explain_with(alloc: Global, note: &TomlNote, bytes: &[u8]) -> Result<String, AllocError>
    ensures { IfOk result (λ text. string_bytes text ≡ spec.explained note.now bytes.now) }
{
    let mut text = String::new(alloc);
    match parts_of(bytes) {
        None => write_parts(alloc, note, bytes, None, &mut text)?,
        Some((description, plan)) => {
            write_parts(alloc, note, description, Some(plan), &mut text)?
        }
    }
    Ok(text)
}

/// Returns the faults of a description, or of a plan after it, in words; an empty text if none is known.
pub fn explain(alloc: Global, bytes: &[u8]) -> Result<String, AllocError>
    ensures { IfOk result (λ text. spec.IsExplained bytes.now (string_bytes text)) }
{
    let note = note_of(alloc, description_part(bytes))?;
    explain_with(alloc, &note, bytes)
}
