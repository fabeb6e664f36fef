//! A job in memory to all its packets.
ghost use Rattle.std.specs.Prelude.{◌≡◌, IfOk};
ghost use Rattle.devices.specs.Devices.{reads, writes};
ghost use Rattle.checked_jobs.specs.MuxJobs.{mux_job_view};
ghost use Rattle.tsremux_cli.specs.Muxing as spec;

use crate::figures::Figures;
use crate::unkept_frames::unkept_frames;
use checked_jobs::{
    MuxJob, MuxJobError, MuxOptions, rate_of, read_mux_job, report_error, report_mux_fault,
    slots_of, write_packets,
};
use counted_io::{Counted, Sink, Source};
use devices::{Halt, report_halt};
use std::alloc::{AllocError, Global};

// Returns the figures of a job.
fn figures_of(alloc: Global, job: &MuxJob) -> Result<Figures, AllocError>
    ensures { IfOk result (λ figures. figures ≡ spec.figures_of (mux_job_view job.now)) }
{
    let plain = MuxOptions {
        hex: false,
        slots: None,
        periods: None,
    };
    let unkept = unkept_frames(alloc, job)?;
    Ok(Figures {
        rate: rate_of(&job.plans),
        packets: slots_of(plain, job),
        unkept,
    })
}

// Writes the packets of the job in the input, and returns their figures; or the status, if not all are written.
fn mux_job<R: Source, W: Sink, E: Sink>(
    alloc: Global,
    input: &mut R,
    output: &mut W,
    faults: &mut E,
) -> Result<Figures, u8>
    ensures { spec.IsMuxed (reads R.Source input.old input.new) (writes W.Sink output.old output.new)
        (writes E.Sink faults.old faults.new) result }
{
    let job = match read_mux_job(alloc, false, input) {
        Ok(job) => job,
        Err(MuxJobError::Fault(fault)) => return Err(report_mux_fault(faults, fault)),
        Err(MuxJobError::Stopped(halt)) => return Err(report_halt(faults, halt)),
    };
    let Ok(figures) = figures_of(alloc, &job) else {
        // By a call: at the end of a function the drop of each part would be a step of its proof.
        drop(job);
        return Err(report_halt(faults, Halt::Memory));
    };
    let plain = MuxOptions {
        hex: false,
        slots: None,
        periods: None,
    };
    match write_packets(alloc, plain, job, output) {
        Ok(_) => Ok(figures),
        Err(error) => Err(report_error(faults, error)),
    }
}

/// Writes the packets of the job in these bytes, and returns their figures; or the status, if not all are written.
pub(crate) fn mux_bytes<W: Sink, E: Sink>(
    alloc: Global,
    bytes: &[u8],
    output: &mut W,
    faults: &mut E,
) -> Result<Figures, u8>
    ensures { spec.MuxesBytes bytes.now (writes W.Sink output.old output.new)
        (writes E.Sink faults.old faults.new) result }
{
    let mut job = Counted::new(bytes);
    mux_job(alloc, &mut job, output, faults)
}
