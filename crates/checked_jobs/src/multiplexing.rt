//! A job and its units to packets.
ghost use Rattle.std.specs.Prelude.{◌≡◌, ◌≤◌, [], unwrap_or};
ghost use Rattle.mux_core.specs.WholeJobs.{NamesWriter, OnWriting, Refuses, Writes};
ghost use Rattle.devices.specs.Devices.{reads, writes};
ghost use Rattle.checked_jobs.specs.JobFaults.{plans_view};
ghost use Rattle.devices.specs.Lines.{Reports};
ghost use Rattle.checked_jobs.specs.Multiplexing as spec;
ghost use Rattle.checked_jobs.specs.MuxJobs.{mux_job_view};
ghost use Rattle.devices.specs.Runs.{Performs};

use crate::default_slots::default_slots;
use crate::fault_lines::{report_refusal, report_unit};
use crate::jobs::JobPlans;
use crate::mux_jobs::{MuxJob, MuxJobError, read_mux_job, report_mux_fault};
use counted_io::{Sink, Source};
use devices::{Halt, report_halt};
use mux_core::{MuxError, multiplex_as, multiplex_switch_as};
use std::alloc::Global;

/// What a job's packets are asked for.
#[derive(Clone, Copy)]
pub struct MuxOptions {
    /// the packets are written as lines of hexadecimal digits, and not as bytes
    pub hex: bool,
    /// the number of packets; by default the slots up to the greatest DTS
    pub slots: Option<u64>,
    /// the number of periods of the first plan before the second; by default there is one plan
    pub periods: Option<u64>,
}

/// Returns the rate of a job's description, in bits a second.
pub fn rate_of(plans: &JobPlans) -> u64
    ensures rate { result ≡ (plans_view plans.now []).description.rate }
    ensures upper { result ≤ 100_000_000 }
{
    match plans {
        JobPlans::One(plan) => plan.description().rate().bits_per_second(),
        JobPlans::Two(switch) => switch.first().description().rate().bits_per_second(),
    }
}

/// Returns the number of slots of a job: the number in the options, or otherwise the slots up to the greatest DTS.
pub fn slots_of(options: MuxOptions, job: &MuxJob) -> u64
    ensures { result ≡ spec.slots_of options (mux_job_view job.now) }
{
    match options.slots {
        Some(slots) => slots,
        None => default_slots(rate_of(&job.plans), &job.units),
    }
}

/// Writes the packets of a job.
pub fn write_packets<W: Sink>(
    alloc: Global,
    options: MuxOptions,
    job: MuxJob,
    output: &mut W,
) -> Result<u64, MuxError>
    ensures refused { Refuses (spec.range_cause options (mux_job_view job))
        (spec.cause_of options (mux_job_view job)) result }
    ensures written { Writes (spec.packets_of options (mux_job_view job))
        (W.contents output.old) (W.contents output.new) result }
    ensures kept { OnWriting result (spec.IsKept options (mux_job_view job)) }
    ensures fault { NamesWriter result (W.fault_count output.old) (W.fault_count output.new) }
{
    let slots = slots_of(options, &job);
    let (hex, periods) = (options.hex, options.periods.unwrap_or(0));
    let MuxJob { plans, units } = job;
    match plans {
        JobPlans::One(plan) => multiplex_as(alloc, plan, units, slots, hex, output),
        JobPlans::Two(switch) => {
            multiplex_switch_as(alloc, switch, periods, units, slots, hex, output)
        }
    }
}

/// Reports why not all packets were written, and returns the status.
#[tactic(auto, unfolding(crate::specs::Multiplexing::error_outcome))]
pub fn report_error<E: Sink>(faults: &mut E, error: MuxError) -> u8
    ensures report { Reports (writes E.Sink faults.old faults.new) (spec.error_outcome error).report }
    ensures status { result ≡ (spec.error_outcome error).status }
{
    match error {
        MuxError::TooManySlots => report_refusal(faults, "slots", &[]),
        MuxError::Periods => report_refusal(faults, "periods", &[]),
        MuxError::Feed { index, cause } => report_unit(faults, index, cause),
        MuxError::Device { .. } => report_halt(faults, Halt::Write),
        MuxError::Memory => report_halt(faults, Halt::Memory),
    }
}

/// Writes the packets of the job in the input, and returns the status.
pub fn multiplex_job<R: Source, W: Sink, E: Sink>(
    alloc: Global,
    options: MuxOptions,
    input: &mut R,
    output: &mut W,
    faults: &mut E,
) -> u8
    ensures { Performs (spec.Muxes options) (reads R.Source input.old input.new)
        (writes W.Sink output.old output.new) (writes E.Sink faults.old faults.new) result }
{
    let job = match read_mux_job(alloc, options.periods.is_some(), input) {
        Ok(job) => job,
        Err(MuxJobError::Fault(fault)) => return report_mux_fault(faults, fault),
        Err(MuxJobError::Stopped(halt)) => return report_halt(faults, halt),
    };
    match write_packets(alloc, options, job, output) {
        Ok(_) => 0,
        Err(error) => report_error(faults, error),
    }
}
