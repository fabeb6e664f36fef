//! Jobs in memory, and their first refused unit.

ghost use Rattle.std.specs.Prelude.{◌≡◌, [], IfOk};
ghost use Rattle.checked_jobs.specs.JobFaults.{plans_view};
ghost use Rattle.checked_jobs.specs.Multiplexing.{cause_of};
ghost use Rattle.checked_jobs.specs.MuxJobs.{IsMuxJob, mux_job_of, mux_job_view};
ghost use Rattle.explained_jobs.specs.JobWords.{dry};

use checked_jobs::{
    JobPlans, MuxFault, MuxJob, MuxJobError, MuxOptions, read_mux_job, write_packets,
};
use counted_io::Counted;
use description::Description;
use mux_core::MuxError;
use std::alloc::{AllocError, Global};

/// Returns the job in these bytes with its units, or its first fault.
#[tactic(auto, using(crate::proofs::Explained::job_read, crate::proofs::Explained::fault_read))]
pub fn whole_job(
    alloc: Global,
    switch: bool,
    bytes: &[u8],
) -> Result<Result<MuxJob, MuxFault>, AllocError>
    ensures { IfOk result (λ job. IsMuxJob (mux_job_of switch bytes.now) job) }
{
    let mut input = Counted::new(bytes);
    match read_mux_job(alloc, switch, &mut input) {
        Ok(job) => Ok(Ok(job)),
        Err(MuxJobError::Fault(fault)) => Ok(Err(fault)),
        Err(MuxJobError::Stopped(_)) => Err(AllocError),
    }
}

/// Returns the description of a job.
pub fn description_of(plans: &JobPlans) -> &Description
    ensures { result.now ≡ (plans_view plans.now []).description }
{
    match plans {
        JobPlans::One(plan) => plan.description(),
        JobPlans::Two(switch) => switch.first().description(),
    }
}

// Returns the options of a run of no slots.
fn dry(switch: bool) -> MuxOptions
    ensures { result ≡ dry switch }
{
    MuxOptions {
        hex: false,
        slots: Some(0),
        periods: if switch { Some(1) } else { None },
    }
}

/// Returns why no packet is written of a job: its first refused unit, if there is one.
pub fn mux_fault(alloc: Global, switch: bool, job: MuxJob) -> Result<Option<MuxError>, AllocError>
    ensures { IfOk result (λ cause. cause ≡ cause_of (dry switch) (mux_job_view job)) }
{
    let mut packets = Counted::new(Vec::new(alloc));
    match write_packets(alloc, dry(switch), job, &mut packets) {
        Ok(_) => Ok(None),
        Err(MuxError::Memory) | Err(MuxError::Device { .. }) => Err(AllocError),
        Err(MuxError::TooManySlots) => Ok(Some(MuxError::TooManySlots)),
        Err(MuxError::Periods) => Ok(Some(MuxError::Periods)),
        Err(MuxError::Feed { index, cause }) => Ok(Some(MuxError::Feed { index, cause })),
    }
}
