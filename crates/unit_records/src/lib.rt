//! Records of access units, read and written: the number of a stream and a unit with its marks and stamps, before its
//! bytes.
//!
//! `read_unit` reads one from a device, or names the first of four faults; an `OpenRecord` takes one from bytes that
//! arrive piece by piece; `record_head` returns the head before a unit's bytes. `specs/Records` has the format, the
//! records of an input, and the rest of it; the law `records_are_read` says that written records are read again.
#![tactic(auto)]

mod laws;
mod reading;
mod taking;
mod words;
mod writing;

pub use laws::records_are_read;
pub use pes_packet::Unit;
pub use reading::{UnitFileError, read_unit};
pub use taking::OpenRecord;
pub use words::{marks_byte, size_in};
pub use writing::record_head;
