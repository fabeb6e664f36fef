//! The faults of a job after a plan that serves its description, in words.

ghost use Rattle.std.specs.Prelude.{◌≡◌, ◌++◌, OnOk, string_bytes};
ghost use Rattle.checked_jobs.specs.JobFaults.{fault_view};
ghost use Rattle.plan_checker.specs.Refusals.{entry_of};
ghost use Rattle.checked_jobs.specs.MuxJobs.{mux_fault_view};
ghost use Rattle.explained_jobs.specs.JobWords as spec;

use checked_jobs::{JobFault, MuxFault};
use plan_checker::Refusal;
use std::alloc::AllocError;
use std::fmt::Write;
use unit_records::UnitFileError;

// Appends that the input ends inside a record.
fn write_cut(index: u64, text: &mut String) -> Result<(), AllocError>
    ensures { OnOk result (string_bytes text.new
        ≡ string_bytes text.old ++ spec.record_words index UnitFileError.Cut) }
{
    write!(text, "record {index}: the input ends inside it\n")
}

// Appends that a record has a wrong size.
fn write_oversize(index: u64, text: &mut String) -> Result<(), AllocError>
    ensures { OnOk result (string_bytes text.new
        ≡ string_bytes text.old ++ spec.record_words index UnitFileError.Size) }
{
    write!(
        text,
        "record {index}: its size is over 4000000 bytes, or its marks are unknown\n"
    )
}

// Appends why a record is none.
#[tactic(auto, unfolding(crate::specs::JobWords::record_words))]
fn write_record(index: u64, fault: UnitFileError, text: &mut String) -> Result<(), AllocError>
    ensures { OnOk result (string_bytes text.new ≡ string_bytes text.old ++ spec.record_words index fault) }
{
    match fault {
        UnitFileError::Cut => write_cut(index, text),
        UnitFileError::Size => write_oversize(index, text),
        UnitFileError::Device | UnitFileError::Memory => Ok(()),
    }
}

// Appends a condition on two plans.
#[tactic(auto, unfolding(crate::specs::JobWords::switch_words))]
fn write_switch(refusal: Refusal, text: &mut String) -> Result<(), AllocError>
    ensures { OnOk result (string_bytes text.new ≡ string_bytes text.old ++ spec.switch_words (entry_of refusal)) }
{
    text.push_str("the second plan can't follow: ")?;
    plan_diagnosis::write_switch(refusal, text)
}

// Appends a fault of plans.
#[tactic(auto, unfolding(crate::specs::JobWords::job_fault_words))]
fn write_job_fault(fault: JobFault, text: &mut String) -> Result<(), AllocError>
    ensures { OnOk result (string_bytes text.new
        ≡ string_bytes text.old ++ spec.job_fault_words (fault_view fault)) }
{
    match fault {
        JobFault::SecondRefused(refusal) => write_switch(refusal, text),
        JobFault::NoPlan
        | JobFault::Description(_)
        | JobFault::PlanLine(_)
        | JobFault::Refused(_)
        | JobFault::SecondPlanLine(_) => Ok(()),
    }
}

/// Appends a fault of plans or of a record.
#[tactic(auto, unfolding(crate::specs::JobWords::fault_words))]
pub fn write_fault(fault: MuxFault, text: &mut String) -> Result<(), AllocError>
    ensures { OnOk result (string_bytes text.new
        ≡ string_bytes text.old ++ spec.fault_words (mux_fault_view fault)) }
{
    match fault {
        MuxFault::Job(fault) => write_job_fault(fault, text),
        MuxFault::Record { index, fault } => write_record(index, fault, text),
    }
}
