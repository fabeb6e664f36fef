//! `carry`: unit records to the packets of one PID.
ghost use Rattle.std.specs.Prelude.{◌≡◌, ◌<◌, IsTrue};
ghost use Rattle.pes_packet.specs.StreamIds.{is_unit_id};
ghost use Rattle.tsmux_cli.specs.Carrying.{Carries, carry_outcome};
ghost use Rattle.devices.specs.Devices.{reads, writes};
ghost use Rattle.devices.specs.Lines.{Reports};

use crate::request::CarryOptions;
use checked_jobs::{report_record, report_unit};
use counted_io::{Sink, Source};
use devices::{Halt, report_halt};
use mux_core::{CarryError, carry};
use std::alloc::Global;

/// Reports an answer, and returns the status.
#[tactic(auto, unfolding(crate::specs::Carrying::carry_outcome))]
fn report_answer<E: Sink>(faults: &mut E, answer: Result<u64, CarryError>) -> u8
    ensures report { Reports (writes E.Sink faults.old faults.new) (carry_outcome answer).report }
    ensures status { result ≡ (carry_outcome answer).status }
{
    match answer {
        Ok(_) => 0,
        Err(CarryError::Unit { index, cause }) => report_unit(faults, index, cause),
        Err(CarryError::File { index, fault }) => report_record(faults, index, fault),
        Err(CarryError::Device { .. }) => report_halt(faults, Halt::Write),
        Err(CarryError::Memory { .. }) => report_halt(faults, Halt::Memory),
    }
}

/// Writes the packets of the records, reports a refusal, and returns the status.
pub fn carry_records<R: Source, W: Sink, E: Sink>(
    alloc: Global,
    options: CarryOptions,
    input: &mut R,
    output: &mut W,
    faults: &mut E,
) -> u8
    requires pid { options.pid < 8192 }
    requires id { IsTrue (is_unit_id options.id) }
    ensures { Carries options (reads R.Source input.old input.new)
        (writes W.Sink output.old output.new) (writes E.Sink faults.old faults.new) result }
{
    let answer = carry(alloc, options.pid, options.id, options.hex, input, output);
    report_answer(faults, answer)
}
