//! Records of access units, read one by one from a device.

ghost use Rattle.std.specs.Prelude.{◌≡◌, ◌≤◌, ◌<◌, ℕ, List, Some, IfOk, IfSome, length};
ghost use Rattle.std.specs.Result.{result_map_both};
ghost use Rattle.unit_records.specs.Codes.{file_code};
ghost use Rattle.unit_records.specs.Records.{IsRecord, ReadsRecord, NamesReader};
ghost use Rattle.unit_records.specs.RecordParts.{FillsWhole, HoldsStamps, HoldsStart, ReadsBytes, ReadsStart};
ghost use Rattle.unit_records.specs.RecordParts.{ReadsStamps};

use crate::words::{byte_in, parted, size_in};
use byteorder::{BigEndian, ByteOrder};
use counted_io::{Source, read_part};
use pes_packet::Unit;
use std::alloc::Allocator;
use thiserror::Error;

/// Why no record was read.
#[derive(Clone, Copy, Debug, PartialEq, Eq, Error)]
pub enum UnitFileError {
    /// The input ends inside a record.
    #[error("the input ends inside a record")]
    Cut,
    /// The record names a size over 4,000,000 bytes, or marks that are not known.
    #[error("the record names a size over 4,000,000 bytes")]
    Size,
    /// A call of the reader failed.
    #[error("a call of the reader failed")]
    Device,
    /// No memory was left for the bytes of the unit.
    #[error("no memory was left for the unit")]
    Memory,
}

impl UnitFileError {
    /// Returns the number of this refusal in fault lines.
    pub fn code(self) -> u8
        ensures { result ≡ file_code self }
    {
        match self {
            UnitFileError::Cut => 1,
            UnitFileError::Size => 2,
            UnitFileError::Device => 3,
            UnitFileError::Memory => 4,
        }
    }
}

// The maximum size of a unit in a record, in bytes.
pub(crate) const MAX_UNIT_SIZE: usize = 4_000_000;

/// Reads the record at the front of the input: the number of its stream and its unit, or `None` if no byte is left. A
/// record is stream (1 byte), marks (1), size (3), DTS (8) and PTS (8), the highest byte first, then PES_private_data,
/// if it is a mark, and the unit's bytes. After a refusal the reader is inside the record.
pub fn read_unit<A: Allocator, R: Source>(
    alloc: A,
    from: &mut R,
) -> Result<Option<(u8, Unit<A>)>, UnitFileError>
    // For an input whose bytes are known: the answer, and the bytes that remain.
    ensures known { (xs : List ℕ) → R.remaining from.old ≡ Some xs → ReadsRecord xs (R.remaining from.new) result }

    // For any input: some bytes are the record.
    ensures found { IfOk result (λ found. IfSome found (λ entry. (bytes : List ℕ) × IsRecord bytes entry)) }
    ensures fault { NamesReader result (R.fault_count from.old) (R.fault_count from.new) }
    ensures later { R.fault_count from.old ≤ R.fault_count from.new }
{
    let (stream, byte, size) = match read_start(from) {
        Ok(Some(start)) => start,
        Ok(None) => return Ok(None),
        Err(refusal) => return Err(refusal),
    };
    let (dts, pts) = match read_stamps(from) {
        Ok(stamps) => stamps,
        Err(refusal) => return Err(refusal),
    };
    match read_bytes(alloc, from, size) {
        Ok(bytes) => {
            let (marks, bytes) = parted(byte, bytes);
            let unit = Unit {
                dts,
                pts,
                marks,
                bytes,
            };
            Ok(Some((stream, unit)))
        }
        Err(refusal) => Err(refusal),
    }
}

// Fills the whole part.
fn fill<R: Source>(from: &mut R, part: &mut [u8]) -> Result<(), UnitFileError>
    ensures known { (xs : List ℕ) → R.remaining from.old ≡ Some xs →
        FillsWhole xs (R.remaining from.new) part.new result }
    ensures fault { NamesReader result (R.fault_count from.old) (R.fault_count from.new) }
    ensures later { R.fault_count from.old ≤ R.fault_count from.new }
{
    match read_part(from, part) {
        Ok(n) => if n < part.len() {
            Err(UnitFileError::Cut)
        } else {
            Ok(())
        },
        Err(_) => Err(UnitFileError::Device),
    }
}

// Reads the stream, the byte of marks and the size; returns None at the end of the input.
fn read_start<R: Source>(from: &mut R) -> Result<Option<(u8, u8, usize)>, UnitFileError>
    ensures known { (xs : List ℕ) → R.remaining from.old ≡ Some xs → ReadsStart xs (R.remaining from.new) result }
    ensures found { IfOk result (λ found. IfSome found (λ start. (bytes : List ℕ) × HoldsStart bytes start)) }
    ensures fault { NamesReader result (R.fault_count from.old) (R.fault_count from.new) }
    ensures later { R.fault_count from.old ≤ R.fault_count from.new }
{
    let mut start = [0u8; 5];
    match read_part(from, &mut start) {
        Ok(0) => Ok(None),
        Ok(n) => {
            if n < 5 {
                return Err(UnitFileError::Cut);
            }
            let word = BigEndian::read_u32(&start[1..]);
            let size = size_in(word);
            if size > MAX_UNIT_SIZE {
                return Err(UnitFileError::Size);
            }
            Ok(Some((start[0], byte_in(word), size)))
        }
        Err(_) => Err(UnitFileError::Device),
    }
}

// Reads the DTS and the PTS.
fn read_stamps<R: Source>(from: &mut R) -> Result<(u64, u64), UnitFileError>
    ensures known { (xs : List ℕ) → R.remaining from.old ≡ Some xs → ReadsStamps xs (R.remaining from.new) result }
    ensures found { IfOk result (λ stamps. (bytes : List ℕ) × HoldsStamps bytes stamps) }
    ensures fault { NamesReader result (R.fault_count from.old) (R.fault_count from.new) }
    ensures later { R.fault_count from.old ≤ R.fault_count from.new }
{
    let mut stamps = [0u8; 16];
    match fill(from, &mut stamps) {
        Ok(()) => Ok((
            BigEndian::read_u64(&stamps),
            BigEndian::read_u64(&stamps[8..]),
        )),
        Err(refusal) => Err(refusal),
    }
}

// Reads the `size` bytes behind a head, into memory of their own.
fn read_bytes<A: Allocator, R: Source>(
    alloc: A,
    from: &mut R,
    size: usize,
) -> Result<Vec<u8, A>, UnitFileError>
    ensures known { (xs : List ℕ) → R.remaining from.old ≡ Some xs →
        ReadsBytes xs size (R.remaining from.new) (result_map_both (λ bytes. bytes.items) (λ refusal. refusal) result) }
    ensures size { IfOk result (λ bytes. length bytes.items ≡ size) }
    ensures fault { NamesReader result (R.fault_count from.old) (R.fault_count from.new) }
    ensures later { R.fault_count from.old ≤ R.fault_count from.new }
{
    let Ok(mut bytes) = vec![in alloc; 0u8; size] else {
        return Err(UnitFileError::Memory);
    };
    match fill(from, &mut bytes) {
        Ok(()) => Ok(bytes),
        Err(refusal) => Err(refusal),
    }
}
