//! `monitor`: the report on a stream, which is read piece by piece.
ghost use Rattle.std.specs.Prelude.{◌≡◌, IfErr, OnOk};
ghost use Rattle.devices.specs.Devices.{reads, writes};
ghost use Rattle.devices.specs.Runs.{Performs};
ghost use Rattle.monitor.specs.Taken.{Takes};
ghost use Rattle.ts_packet.specs.PidList.{cut_packets};
ghost use Rattle.tsmux_cli.specs.Monitoring.{Concludes, Monitors, ReportsOn, report_status};

use crate::request::MonitorOptions;
use counted_io::{Sink, Source};
use devices::{Halt, PieceTaker, report_halt, take_input, write_text};
use monitor::{Monitor, Report};
use std::alloc::Global;

/// The size of a piece in bytes: 1,395 packets, somewhat more than 256 KiB.
const PIECE: usize = 1_395 * 188;

/// Takes the packets of the next piece of a stream.
fn take_packets(piece: &[u8], monitor: &mut Monitor) -> Result<(), Halt>
    ensures taken { OnOk result (Takes (cut_packets piece.now) monitor.old monitor.new) }
    ensures memory { IfErr result (λ halt. halt ≡ Halt.Memory) }
{
    let (packets, _) = piece.as_chunks::<188>();
    match monitor.take_all(packets) {
        Ok(()) => Ok(()),
        Err(_) => Err(Halt::Memory),
    }
}

/// A monitor that takes a stream piece by piece, whole packets in each but the last.
#[derive(Drop)]
struct PacketTaker {
    monitor: Monitor,
}

impl PieceTaker for PacketTaker {
    ghost unit = { 188 };

    ghost has_taken = { λ first bytes now. Takes (cut_packets bytes) first.monitor now.monitor };

    fn take_piece(&mut self, piece: &[u8]) -> Result<(), Halt> {
        take_packets(piece, &mut self.monitor)
    }
}

/// Returns the report on a stream whose packets were taken.
fn conclude(monitor: Monitor, taken: Result<usize, Halt>) -> Result<Report, Halt>
    ensures { Concludes monitor taken result }
{
    match taken {
        Ok(size) => match monitor.finish(size % 188 != 0) {
            Ok(report) => Ok(report),
            Err(_) => Err(Halt::Memory),
        },
        Err(halt) => {
            // By a call: at the end of a function the drop of each part would be a step of its proof.
            drop(monitor);
            Err(halt)
        }
    }
}

/// Returns the report on the input.
fn report<R: Source>(alloc: Global, options: MonitorOptions, input: &mut R) -> Result<Report, Halt>
    ensures { ReportsOn options (reads R.Source input.old input.new) result }
{
    let Ok(monitor) = Monitor::new(alloc, options.rate, options.pcr_limit) else {
        return Err(Halt::Memory);
    };
    let mut taker = PacketTaker { monitor };
    let taken = take_input(alloc, input, PIECE, &mut taker);
    conclude(taker.monitor, taken)
}

/// Returns the status.
fn status_of(report: &Report) -> u8
    ensures { result ≡ report_status report.now }
{
    if report.faults().is_empty() { 0 } else { 1 }
}

/// Writes the report on the input, and returns the status.
pub fn monitor_stream<R: Source, W: Sink, E: Sink>(
    alloc: Global,
    options: MonitorOptions,
    input: &mut R,
    output: &mut W,
    faults: &mut E,
) -> u8
    ensures { Performs (Monitors options) (reads R.Source input.old input.new)
        (writes W.Sink output.old output.new) (writes E.Sink faults.old faults.new) result }
{
    let report = match report(alloc, options, input) {
        Ok(report) => report,
        Err(halt) => return report_halt(faults, halt),
    };
    let Ok(text) = report.write_text(alloc) else {
        return report_halt(faults, Halt::Memory);
    };
    match write_text(&text, output) {
        Ok(()) => status_of(&report),
        Err(halt) => report_halt(faults, halt),
    }
}
