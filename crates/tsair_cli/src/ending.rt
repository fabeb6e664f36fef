//! The end of a run: the rest of its slots, and why it ended.

ghost use Rattle.std.specs.Prelude.{◌≡◌, if◌then◌else◌};
ghost use Rattle.devices.specs.Devices.{writes};
ghost use Rattle.devices.specs.Lines.{Reports};
ghost use Rattle.tsair_cli.specs.Endings.{end_outcome, why_outcome};

use crate::hearing::RecordsEnd;
use checked_jobs::{report_record, report_refusal};
use counted_io::Sink;
use on_air::Ending;
use unit_records::UnitFileError;

/// Returns the status of a run that ends without a report.
fn quiet_status(has_refused: bool) -> u8
    ensures { result ≡ (if has_refused then 1 else 0) }
{
    if has_refused { 1 } else { 0 }
}

// Reports why a run of `records` records ended, unless its input or its slots ended, and returns the status.
#[tactic(auto, unfolding(crate::specs::Endings::why_outcome, crate::specs::Endings::slots_outcome))]
fn report_why<E: Sink>(faults: &mut E, slots: Option<u64>, records: u64, end: RecordsEnd) -> u8
    ensures report { Reports (writes E.Sink faults.old faults.new)
        (why_outcome slots records end.has_refused end.why).report }
    ensures status { result ≡ (why_outcome slots records end.has_refused end.why).status }
{
    match end.why {
        None | Some(Ending::Input) => quiet_status(end.has_refused),
        Some(Ending::Unread(fault)) => report_record(faults, records, fault),
        Some(Ending::Slots) => match slots {
            Some(_) => quiet_status(end.has_refused),
            None => report_refusal(faults, "slots", &[]),
        },
        Some(Ending::Records) => report_refusal(faults, "records", &[]),
        Some(Ending::TextsMemory) => report_record(faults, records, UnitFileError::Memory),
    }
}

/// Reports why a run of `records` records ended, unless its input or its slots ended, and returns the status: 3 if
/// versions of texts are lost.
#[tactic(auto, unfolding(crate::specs::Endings::end_outcome))]
pub fn report_end<E: Sink>(faults: &mut E, slots: Option<u64>, records: u64, end: RecordsEnd) -> u8
    ensures report { Reports (writes E.Sink faults.old faults.new) (end_outcome slots records end).report }
    ensures status { result ≡ (end_outcome slots records end).status }
{
    let status = report_why(faults, slots, records, end);
    if end.has_lost { 3 } else { status }
}
