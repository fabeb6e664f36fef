//! The answers of calls that take records.

use crate::refusals::AirRefusal;
use unit_records::UnitFileError;

/// The answer about a record.
#[derive(Clone, Copy)]
pub enum Heard {
    /// A record was taken: its unit was accepted, or time went on.
    Taken,
    /// The record of this number, counted from 0, was refused, and moved nothing.
    Refused { index: u64, cause: AirRefusal },
    /// The record of this number changed the texts: they are in force from this slot on.
    Changed { index: u64, slot: u64 },
    /// The record of this number brought a line-up: it is in force from this slot on.
    LinedUp { index: u64, slot: u64 },
    /// No record was taken, and none will be.
    Ended(Ending),
}

/// What became of a record that was read.
#[derive(Clone, Copy)]
pub(crate) enum Verdict {
    /// Its unit was accepted, or time went on.
    Accepted,
    /// Its texts are in force from this slot on.
    TextsFrom(u64),
    /// Its line-up is in force from this slot on.
    LineUpFrom(u64),
    RefusedFor(AirRefusal),
    /// There was no memory for its texts or its line-up; nothing changed.
    NoMemory,
}

/// Why no more records are taken.
#[derive(Clone, Copy)]
pub enum Ending {
    /// The input is at its end.
    Input,
    /// The next record is not whole, or was not read.
    Unread(UnitFileError),
    /// The slots that the terms ask for are written, or 2^40.
    Slots,
    /// 2^64 - 1 records were heard.
    Records,
    /// There was no memory for the texts or the line-up of a record.
    TextsMemory,
}
