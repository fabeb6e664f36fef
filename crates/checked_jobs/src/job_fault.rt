//! The first fault in a job.
ghost use Rattle.std.specs.Prelude.{◌≡◌, ◌≤◌, length};
ghost use Rattle.devices.specs.Devices.{writes};
ghost use Rattle.checked_jobs.specs.JobFaults.{fault_line, fault_name, fault_numbers, fault_view};
ghost use Rattle.checked_jobs.specs.JobFaults.{is_final, is_refusal};
ghost use Rattle.devices.specs.Lines.{Reports, WritesLine};

use crate::fault_lines::report_refusal;
use arrayvec::ArrayVec;
use counted_io::Sink;
use description_keys::DescFault;
use devices::{Halt, write_line};
use plan_checker::Refusal;

/// The first fault in a job.
#[derive(Clone, Copy)]
pub enum JobFault {
    /// no line is the first of a plan's text
    NoPlan,
    /// the description is refused
    Description(DescFault),
    /// a bad line in the plan
    PlanLine(u32),
    /// a condition that does not hold for the plan
    Refused(Refusal),
    /// a bad line in the second plan
    SecondPlanLine(u32),
    /// a condition that does not hold for the second plan, or for the two together
    SecondRefused(Refusal),
}

/// Why no job can be read.
#[derive(Clone, Copy)]
pub enum JobReadError {
    Fault(JobFault),
    Memory,
}

/// Returns whether the fault is a condition that does not hold.
pub fn is_refusal(fault: JobFault) -> bool
    ensures { result ≡ is_refusal (fault_view fault) }
{
    match fault {
        JobFault::Refused(_) | JobFault::SecondRefused(_) => true,
        JobFault::NoPlan
        | JobFault::Description(_)
        | JobFault::PlanLine(_)
        | JobFault::SecondPlanLine(_) => false,
    }
}

/// Returns whether more bytes after the job can't change the fault: they may go on with a text that is cut off.
pub fn is_final(fault: JobFault) -> bool
    ensures { result ≡ is_final (fault_view fault) }
{
    match fault {
        JobFault::Description(_) | JobFault::Refused(_) | JobFault::SecondRefused(_) => true,
        JobFault::NoPlan | JobFault::PlanLine(_) | JobFault::SecondPlanLine(_) => false,
    }
}

/// Returns the name of a fault's line.
fn name_of(fault: JobFault) -> &'static str
    ensures name { result.now ≡ fault_name (fault_view fault) }
    ensures short { length result.now ≤ 40 }
{
    match fault {
        JobFault::NoPlan => "job",
        JobFault::Description(_) => "description",
        JobFault::PlanLine(_) => "plan",
        JobFault::Refused(_) => "refused",
        JobFault::SecondPlanLine(_) => "second plan",
        JobFault::SecondRefused(_) => "second refused",
    }
}

/// Returns the numbers of a fault's line.
fn numbers_of(fault: JobFault) -> ArrayVec<u128, 5>
    ensures { result.items ≡ fault_numbers (fault_view fault) }
{
    let mut numbers = ArrayVec::new();
    match fault {
        JobFault::NoPlan => {}
        JobFault::Description(fault) => {
            numbers.push(u128::from(fault.code()));
            numbers.push(fault.item() as u128);
        }
        JobFault::PlanLine(line) | JobFault::SecondPlanLine(line) => numbers.push(u128::from(line)),
        JobFault::Refused(refusal) | JobFault::SecondRefused(refusal) => {
            numbers.push(u128::from(refusal.condition.code()));
            numbers.push(u128::from(refusal.part));
            numbers.push(u128::from(refusal.item));
            numbers.push(refusal.left);
            numbers.push(refusal.right);
        }
    }
    numbers
}

/// Writes the line of a fault.
pub fn write_fault<W: Sink>(fault: JobFault, to: &mut W) -> Result<(), Halt>
    ensures { WritesLine (fault_line (fault_view fault)) (writes W.Sink to.old to.new) result }
{
    write_line(to, name_of(fault), numbers_of(fault).as_slice())
}

/// Reports a fault, and returns the status.
pub fn report_fault<E: Sink>(fault: JobFault, faults: &mut E) -> u8
    ensures report { Reports (writes E.Sink faults.old faults.new) (fault_line (fault_view fault)) }
    ensures status { result ≡ 1 }
{
    report_refusal(faults, name_of(fault), numbers_of(fault).as_slice())
}
