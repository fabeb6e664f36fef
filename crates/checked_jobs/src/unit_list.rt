//! The units of the records after a job's plans, taken as their bytes come.
ghost use Rattle.std.specs.Prelude.{◌≡◌, [], None, List, ℕ};
ghost use Rattle.std.specs.Result.{result_map_both};
ghost use Rattle.unit_records.specs.OpenRecords.{IsOpen, come_of};
ghost use Rattle.checked_jobs.specs.UnitList.{IsList, NamesFault, TakesRecords, units_in};

use crate::rest_taker::RestTaker;
use devices::Halt;
use std::alloc::Global;
use unit_records::{OpenRecord, Unit, UnitFileError};

/// The first record that is no record.
#[derive(Clone, Copy)]
pub struct RecordFault {
    pub index: u64,
    pub fault: UnitFileError,
}

/// The units of records that are taken as their bytes come, with the numbers of their streams. Each byte of a unit is
/// copied once, into the unit's own room; what comes after a faulty record is dropped.
#[derive(Drop)]
pub struct UnitList {
    units: Vec<(u8, Unit)>,
    record: OpenRecord,
    fault: Option<RecordFault>,
}

/// Returns the fault of the record of this index.
fn record_fault(index: u64, refusal: UnitFileError) -> Result<RecordFault, Halt>
    ensures { NamesFault index refusal result }
{
    match refusal {
        UnitFileError::Memory => Err(Halt::Memory),
        UnitFileError::Cut | UnitFileError::Size | UnitFileError::Device => Ok(RecordFault {
            index,
            fault: refusal,
        }),
    }
}

impl UnitList {
    /// Returns a list without a byte yet.
    pub fn new(alloc: Global) -> UnitList
        ensures units { result.units.items ≡ [] }
        ensures open { IsOpen result.record }
        ensures come { come_of result.record ≡ [] }
        ensures fault { result.fault ≡ None }
    {
        UnitList {
            units: Vec::new(alloc),
            record: OpenRecord::new(alloc),
            fault: None,
        }
    }

    /// Returns the units of all records that came, or the first that is no record.
    pub fn finish(self) -> Result<Vec<(u8, Unit)>, RecordFault>
        ensures { (bytes : List ℕ) → TakesRecords bytes self.units.items self.record self.fault
            → IsList (units_in bytes) (result_map_both (λ units. units.items) (λ fault. fault) result) }
    {
        let UnitList {
            units,
            record,
            fault,
        } = self;
        if let Some(fault) = fault {
            return Err(fault);
        }
        if record.is_begun() {
            return Err(RecordFault {
                index: units.len() as u64,
                fault: UnitFileError::Cut,
            });
        }
        Ok(units)
    }
}

impl RestTaker for UnitList {
    ghost has_taken = { λ now bytes. TakesRecords bytes now.units.items now.record now.fault };

    fn take_rest(&mut self, bytes: &[u8]) -> Result<(), Halt> {
        let mut rest = bytes;
        'records: while self.fault.is_none() {
            match self.record.take(rest) {
                Ok(None) => return Ok(()),
                Ok(Some((n, entry))) => {
                    let Ok(()) = self.units.push(entry) else {
                        return Err(Halt::Memory);
                    };
                    rest = &rest[n..];
                }
                Err(refusal) => {
                    let fault = record_fault(self.units.len() as u64, refusal)?;
                    self.fault = Some(fault);
                    return Ok(());
                }
            }
        }
        Ok(())
    }
}
