//! The lines for faults in records and units, each with its status.
ghost use Rattle.std.specs.Prelude.{◌≡◌, ◌≤◌, length};
ghost use Rattle.devices.specs.Devices.{writes};
ghost use Rattle.devices.specs.Lines.{Reports, line_text};
ghost use Rattle.checked_jobs.specs.FaultLines.{record_outcome, unit_outcome};

use counted_io::Sink;
use devices::{Halt, report_halt, report_line};
use unit_queue::FeedError;
use unit_records::UnitFileError;

/// Reports a fault in the input, and returns the status.
pub fn report_refusal<E: Sink>(faults: &mut E, name: &str, numbers: &[u128]) -> u8
    requires name { length name.now ≤ 40 }
    requires numbers { length numbers.now ≤ 5 }
    ensures report { Reports (writes E.Sink faults.old faults.new) (line_text name.now numbers.now) }
    ensures status { result ≡ 1 }
{
    report_line(faults, name, numbers);
    1
}

/// Reports why a record can't be read, and returns the status.
#[tactic(auto, unfolding(crate::specs::FaultLines::record_outcome))]
pub fn report_record<E: Sink>(faults: &mut E, index: u64, fault: UnitFileError) -> u8
    ensures report { Reports (writes E.Sink faults.old faults.new) (record_outcome index fault).report }
    ensures status { result ≡ (record_outcome index fault).status }
{
    match fault {
        UnitFileError::Device => report_halt(faults, Halt::Read),
        UnitFileError::Memory => report_halt(faults, Halt::Memory),
        UnitFileError::Cut => report_refusal(faults, "file", &[u128::from(index), 1]),
        UnitFileError::Size => report_refusal(faults, "file", &[u128::from(index), 2]),
    }
}

/// Reports why a unit is refused, and returns the status.
pub fn report_unit<E: Sink>(faults: &mut E, index: u64, cause: FeedError) -> u8
    ensures report { Reports (writes E.Sink faults.old faults.new) (unit_outcome index cause).report }
    ensures status { result ≡ (unit_outcome index cause).status }
{
    report_refusal(
        faults,
        "unit",
        &[u128::from(index), u128::from(cause.code())],
    )
}
