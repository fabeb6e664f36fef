//! Records of access units, taken as their bytes arrive.

ghost use Rattle.std.specs.Prelude.{◌≡◌, ◌-◌, ◌<◌, ◌≤◌, ◌++◌, [], Err, IfErr, IfOk, IfSome, true, false, length, min, take};
ghost use Rattle.unit_records.specs.OpenRecords.{ClosesRecord, IsOpen, NamesSize, TakesBytes, come_of};
ghost use Rattle.unit_records.specs.Records.{record_at};

use crate::reading::{MAX_UNIT_SIZE, UnitFileError};
use crate::words::{byte_in, parted, size_in};
use arrayvec::ArrayVec;
use bit_fields::append;
use byteorder::{BigEndian, ByteOrder};
use pes_packet::Unit;
use std::alloc::Global;
use std::mem;

/// The size of the head of a record: the bytes before PES_private_data and the unit.
const HEAD: usize = 21;

/// A record that is not whole yet. Its unit's bytes are put into a room of their size as they arrive.
#[derive(Drop)]
pub struct OpenRecord {
    alloc: Global,
    /// The bytes before the rest: stream and marks (1 byte each), size (3), DTS and PTS (8 each).
    head: ArrayVec<u8, HEAD>,
    /// PES_private_data, if it is a mark, and the bytes of the unit.
    unit: Vec<u8>,
}

/// Appends what the head of a record lacks, and returns its number of bytes.
fn take_head(head: &mut ArrayVec<u8, HEAD>, bytes: &[u8]) -> usize
    ensures number { result ≡ min (21 - length head.old.items) (length bytes.now) }
    ensures items { head.new.items ≡ head.old.items ++ take result bytes.now }
{
    let n = head.remaining_capacity().min(bytes.len());
    append(head, &bytes[..n]);
    n
}

/// Returns the size of the unit that a head names, if the head is whole; or why it is refused.
fn named_size(head: &[u8]) -> Result<Option<usize>, UnitFileError>
    ensures { NamesSize head.now result }
{
    if head.len() < 5 {
        return Ok(None);
    }
    let size = size_in(BigEndian::read_u32(&head[1..]));
    if size > MAX_UNIT_SIZE {
        return Err(UnitFileError::Size);
    }
    if head.len() < HEAD {
        return Ok(None);
    }
    Ok(Some(size))
}

/// Appends what a unit of this size lacks, and returns its number of bytes.
fn take_unit(unit: &mut Vec<u8>, size: usize, bytes: &[u8]) -> Result<usize, UnitFileError>
    ensures number { IfOk result (λ n. n ≡ min (size - length unit.old.items) (length bytes.now)) }
    ensures items { IfOk result (λ n. unit.new.items ≡ unit.old.items ++ take n bytes.now) }
    ensures memory { IfErr result (λ refusal. refusal ≡ UnitFileError.Memory) }
{
    let lacking = size.saturating_sub(unit.len());
    let n = lacking.min(bytes.len());
    let Ok(()) = unit.reserve_exact(lacking) else {
        return Err(UnitFileError::Memory);
    };
    match unit.extend_from_slice(&bytes[..n]) {
        Ok(()) => Ok(n),
        Err(_) => Err(UnitFileError::Memory),
    }
}

impl OpenRecord {
    /// Returns a record without a byte yet.
    pub fn new(alloc: Global) -> OpenRecord
        ensures come { come_of result ≡ [] }
        ensures open { IsOpen result }
    {
        OpenRecord {
            alloc,
            head: ArrayVec::new(),
            unit: Vec::new(alloc),
        }
    }

    /// Takes the entry of the record out, if all bytes of a unit of this size have arrived.
    fn close(&mut self, size: usize) -> Option<(u8, Unit)>
        requires { length self.old.head.items ≡ 21 }
        ensures { ClosesRecord size self.old self.new result }
    {
        if self.unit.len() < size {
            return None;
        }
        let head = self.head.as_slice();
        let stream = head[0];
        let byte = byte_in(BigEndian::read_u32(&head[1..]));
        let dts = BigEndian::read_u64(&head[5..]);
        let pts = BigEndian::read_u64(&head[13..]);
        let bytes = mem::replace(&mut self.unit, Vec::new(self.alloc));
        self.head.clear();
        let (marks, bytes) = parted(byte, bytes);
        let unit = Unit {
            dts,
            pts,
            marks,
            bytes,
        };
        Some((stream, unit))
    }

    /// Takes the next bytes. If the record ends among them, returns how many of them belong to it, with the number of
    /// its stream and its unit, and no byte of the next record is taken; otherwise all of them belong to it.
    pub fn take(&mut self, bytes: &[u8]) -> Result<Option<(usize, (u8, Unit))>, UnitFileError>
        ensures taken { IsOpen self.old → TakesBytes (come_of self.old) bytes.now self.new result }
        ensures some { IfOk result (λ ended. IfSome ended (λ whole. 0 < whole.0)) }
        ensures within { IfOk result (λ ended. IfSome ended (λ whole. whole.0 ≤ length bytes.now)) }
    {
        let n = take_head(&mut self.head, bytes);
        let size = match named_size(self.head.as_slice()) {
            Ok(Some(size)) => size,
            Ok(None) => return Ok(None),
            Err(refusal) => return Err(refusal),
        };
        let taken = match take_unit(&mut self.unit, size, &bytes[n..]) {
            Ok(m) => n + m,
            Err(refusal) => return Err(refusal),
        };
        if taken == 0 {
            return Ok(None);
        }
        match self.close(size) {
            Some(entry) => Ok(Some((taken, entry))),
            None => Ok(None),
        }
    }

    /// Returns whether a byte of the record has arrived: then an input that ends here is cut inside a record.
    pub fn is_begun(&self) -> bool
        ensures none { IsOpen self.now → result ≡ false → come_of self.now ≡ [] }
        ensures cut { IsOpen self.now → result ≡ true → record_at (come_of self.now) ≡ Err UnitFileError.Cut }
    {
        !self.head.is_empty()
    }
}
