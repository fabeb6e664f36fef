//! A line-up read from a record: a description and the plan that serves it.

ghost use Rattle.std.specs.Prelude.{◌≡◌};
ghost use Rattle.on_air.specs.LineUps.{CopiesTexts, ReadsDescription, ReadsLineUp, ReadsPlan, has_plan};

use crate::refusals::LineUpRefusal;
use changed_texts::read_description;
use description::Description;
use description_keys::DescError;
use job_parts::{check_plan, parts_of, read_plan};
use plan_checker::CheckedPlan;
use slot_plan::PlanTextError;
use std::alloc::Global;

/// Why a line-up does not come on air.
#[derive(Clone, Copy)]
pub(crate) enum LineUpError {
    Refused(LineUpRefusal),
    Memory,
}

/// A line-up, with a copy of its description for the texts.
#[derive(Drop)]
pub(crate) struct NewLineUp {
    pub(crate) plan: CheckedPlan,
    pub(crate) texts: Description,
}

/// Returns whether a plan begins in the bytes of a record.
pub(crate) fn has_plan(bytes: &[u8]) -> bool
    ensures { result ≡ has_plan bytes.now }
{
    parts_of(bytes).is_some()
}

// Returns the description in these bytes.
fn described(alloc: Global, bytes: &[u8]) -> Result<Description, LineUpError>
    ensures { ReadsDescription bytes.now result }
{
    match read_description(alloc, bytes) {
        Ok(description) => Ok(description),
        Err(DescError::Memory) => Err(LineUpError::Memory),
        Err(DescError::Refused(fault)) => {
            Err(LineUpError::Refused(LineUpRefusal::Unread(fault)))
        }
    }
}

// Returns a description with the plan at the front of a text, if the plan serves it.
fn planned(alloc: Global, description: Description, text: &[u8]) -> Result<CheckedPlan, LineUpError>
    ensures { ReadsPlan description text.now result }
{
    match read_plan(alloc, text) {
        Err(PlanTextError::Line(line)) => {
            drop(description);
            Err(LineUpError::Refused(LineUpRefusal::PlanLine(line)))
        }
        Err(PlanTextError::Memory) => {
            drop(description);
            Err(LineUpError::Memory)
        }
        Ok((plan, _)) => match check_plan(description, plan) {
            Ok(served) => Ok(served),
            Err(refusal) => Err(LineUpError::Refused(LineUpRefusal::Plan(refusal))),
        },
    }
}

// Returns a line-up with a copy of its description, which these bytes have.
fn with_texts(alloc: Global, plan: CheckedPlan, bytes: &[u8]) -> Result<NewLineUp, LineUpError>
    ensures { CopiesTexts bytes.now plan result }
{
    match described(alloc, bytes) {
        Ok(texts) => Ok(NewLineUp { plan, texts }),
        Err(error) => {
            drop(plan);
            Err(error)
        }
    }
}

/// Reads the line-up of a record.
pub(crate) fn read_line_up(alloc: Global, bytes: &[u8]) -> Result<NewLineUp, LineUpError>
    ensures { ReadsLineUp bytes.now result }
{
    let Some((description, text)) = parts_of(bytes) else {
        return Err(LineUpError::Refused(LineUpRefusal::PlanLine(1)));
    };
    match described(alloc, description) {
        Err(error) => Err(error),
        Ok(first) => match planned(alloc, first, text) {
            Err(error) => Err(error),
            Ok(plan) => with_texts(alloc, plan, description),
        },
    }
}
