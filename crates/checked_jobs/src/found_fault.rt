//! The first fault in the job in an input.
ghost use Rattle.devices.specs.Devices.{reads};
ghost use Rattle.checked_jobs.specs.FoundFaults.{FindsFault};

use crate::job_fault::{JobFault, JobReadError};
use crate::job_taker::{JobTaker, PIECE};
use crate::rest_taker::Dropped;
use counted_io::Source;
use devices::{Halt, take_input};
use std::alloc::Global;

/// Reads the job in the input to its end, and returns its first fault, if it has one. Keeps nothing after the plans.
pub fn find_fault<R: Source>(
    alloc: Global,
    switch: bool,
    input: &mut R,
) -> Result<Option<JobFault>, Halt>
    ensures { FindsFault switch (reads R.Source input.old input.new) result }
{
    let mut taker = JobTaker::new(alloc, switch, Dropped {});
    take_input(alloc, input, PIECE, &mut taker)?;
    match taker.finish() {
        Ok((plans, _)) => {
            // By a call: at the end of a function the drop of each part would be a step of its proof.
            drop(plans);
            Ok(None)
        }
        Err(JobReadError::Fault(fault)) => Ok(Some(fault)),
        Err(JobReadError::Memory) => Err(Halt::Memory),
    }
}
