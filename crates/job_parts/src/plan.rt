//! A plan read from its text, and checked against a description.
ghost use Rattle.std.specs.Prelude.{◌≡◌, Ok, IfOk, IfErr};
ghost use Rattle.plan_checker.specs.Refusals.{failed};
ghost use Rattle.job_parts.specs.Parts.{NamesLine, fault_of, planned};

use description::Description;
use plan_checker::{CheckedPlan, Refusal, check};
use slot_plan::{Plan, PlanTextError};
use std::alloc::Global;

/// Returns the plan at the front of a text, and the bytes after it.
pub fn read_plan(alloc: Global, text: &[u8]) -> Result<(Plan, &[u8]), PlanTextError>
    ensures read { IfOk result (λ read. planned text.entry.now ≡ Ok (read.0, read.1.now)) }
    ensures refused { IfErr result (NamesLine (planned text.entry.now)) }
{
    match Plan::read_text(alloc, text) {
        Ok((plan, size)) => Ok((plan, &text[size..])),
        Err(error) => Err(error),
    }
}

/// Returns the plan, checked against the description; or the first condition that does not hold.
pub fn check_plan(description: Description, plan: Plan) -> Result<CheckedPlan, Refusal>
    ensures fault { failed result ≡ fault_of description plan }
    ensures description { IfOk result (λ first. first.description ≡ description) }
    ensures plan { IfOk result (λ first. first.plan ≡ plan) }
{
    match check(description, plan) {
        Ok(first) => Ok(first),
        Err((refusal, _, _)) => Err(refusal),
    }
}
