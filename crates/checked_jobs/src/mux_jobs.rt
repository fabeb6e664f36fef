//! A job with its units: the input of `mux`.
ghost use Rattle.std.specs.Prelude.{◌≡◌, List, ℕ, Ok};
ghost use Rattle.devices.specs.Devices.{reads, writes};
ghost use Rattle.checked_jobs.specs.JobFaults.{plans_view};
ghost use Rattle.devices.specs.Lines.{Reports};
ghost use Rattle.checked_jobs.specs.MuxJobs.{IsMuxJob, ReadsMuxJob, mux_fault_line, mux_fault_view};
ghost use Rattle.checked_jobs.specs.MuxJobs.{with_records};
ghost use Rattle.checked_jobs.specs.UnitList.{TakesRecords};

use crate::fault_lines::report_record;
use crate::job_fault::{JobFault, JobReadError, report_fault};
use crate::job_taker::{JobTaker, PIECE};
use crate::jobs::JobPlans;
use crate::unit_list::{RecordFault, UnitList};
use counted_io::{Sink, Source};
use devices::{Halt, take_input};
use std::alloc::Global;
use unit_records::{Unit, UnitFileError};

/// Plans that serve their description, and the units of all records with the numbers of their streams.
#[derive(Drop)]
pub struct MuxJob {
    pub plans: JobPlans,
    pub units: Vec<(u8, Unit)>,
}

/// The first fault in a job and its records.
#[derive(Clone, Copy)]
pub enum MuxFault {
    Job(JobFault),
    /// the record of this index is faulty
    Record { index: u64, fault: UnitFileError },
}

/// Why no job with its units can be read.
#[derive(Clone, Copy)]
pub enum MuxJobError {
    Fault(MuxFault),
    /// the input was not read to its end
    Stopped(Halt),
}

/// Returns the job of these plans, with the units of the records after them.
fn with_units(plans: JobPlans, list: UnitList) -> Result<MuxJob, MuxFault>
    ensures { (after : List ℕ) → TakesRecords after list.units.items list.record list.fault
        → IsMuxJob (with_records (Ok (plans_view plans after))) result }
{
    match list.finish() {
        Ok(units) => Ok(MuxJob { plans, units }),
        Err(RecordFault { index, fault }) => {
            // By a call: at the end of a function the drop of each part would be a step of its proof.
            drop(plans);
            Err(MuxFault::Record { index, fault })
        }
    }
}

/// Returns the job in the input, with the units of the records after its plans. It is read to its end piece by piece,
/// and of a piece only the bytes of units are kept.
pub fn read_mux_job<R: Source>(
    alloc: Global,
    switch: bool,
    input: &mut R,
) -> Result<MuxJob, MuxJobError>
    ensures { ReadsMuxJob switch (reads R.Source input.old input.new) result }
{
    let mut taker = JobTaker::new(alloc, switch, UnitList::new(alloc));
    if let Err(halt) = take_input(alloc, input, PIECE, &mut taker) {
        return Err(MuxJobError::Stopped(halt));
    }
    match taker.finish() {
        Ok((plans, list)) => match with_units(plans, list) {
            Ok(job) => Ok(job),
            Err(fault) => Err(MuxJobError::Fault(fault)),
        },
        Err(JobReadError::Fault(fault)) => Err(MuxJobError::Fault(MuxFault::Job(fault))),
        Err(JobReadError::Memory) => Err(MuxJobError::Stopped(Halt::Memory)),
    }
}

/// Reports a fault, and returns the status.
pub fn report_mux_fault<E: Sink>(faults: &mut E, fault: MuxFault) -> u8
    ensures report { Reports (writes E.Sink faults.old faults.new) (mux_fault_line (mux_fault_view fault)) }
    ensures status { result ≡ 1 }
{
    match fault {
        MuxFault::Job(fault) => report_fault(fault, faults),
        MuxFault::Record { index, fault } => {
            // A device or memory is no fault of the job.
            let _ = report_record(faults, index, fault);
            1
        }
    }
}
