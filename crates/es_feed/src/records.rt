//! Unit records on an output: stream (1 byte), marks (1), size (3), DTS (8), PTS (8), the highest byte first, and the
//! bytes of the unit.

ghost use Rattle.std.specs.Prelude.{◌≡◌, ◌++◌, OnOk, []};
ghost use Rattle.devices.specs.Devices.{writes};
ghost use Rattle.devices.specs.Lines.{WritesLine};
ghost use Rattle.unit_records.specs.Records.{record_bytes};
ghost use Rattle.es_feed.specs.Records as spec;

use crate::pending::{PendingBytes, ROOM};
use counted_io::Sink;
use devices::{Halt, write_bytes};
use pes_packet::Unit;
use unit_records::record_head;

// The bytes of a unit.
fn bytes_of(unit: &Unit) -> &[u8]
    ensures { result.now ≡ unit.now.bytes }
{
    unit.bytes.as_slice()
}

/// Writes the pending bytes.
#[tactic(auto, using(crate::proofs::PendingOutput::puts_written))]
pub(crate) fn flush<W: Sink>(to: &mut W, pending: &mut PendingBytes) -> Result<(), Halt>
    ensures puts { spec.Puts (writes W.Sink to.old to.new) pending.old.items pending.new.items result }
    ensures none { OnOk result (pending.new.items ≡ []) }
{
    match write_bytes(pending.as_slice(), to) {
        Ok(()) => {
            pending.clear();
            Ok(())
        }
        Err(halt) => Err(halt),
    }
}

// Keeps bytes pending where none are, or writes them where there is no room.
#[tactic(auto, using(crate::proofs::PendingOutput::puts_written))]
fn put_first<W: Sink>(to: &mut W, pending: &mut PendingBytes, part: &[u8]) -> Result<(), Halt>
    requires { pending.old.items ≡ [] }
    ensures { spec.Puts (writes W.Sink to.old to.new) part.now pending.new.items result }
{
    if part.len() <= ROOM {
        pending.append(part);
        return Ok(());
    }
    write_bytes(part, to)
}

// Keeps bytes pending, and writes the earlier pending bytes if there is no room for both.
fn put<W: Sink>(to: &mut W, pending: &mut PendingBytes, part: &[u8]) -> Result<(), Halt>
    ensures { spec.Puts (writes W.Sink to.old to.new) (pending.old.items ++ part.now) pending.new.items result }
{
    if part.len() <= pending.free() {
        pending.append(part);
        return Ok(());
    }
    match flush(to, pending) {
        Ok(()) => put_first(to, pending, part),
        Err(halt) => Err(halt),
    }
}

/// Puts the record of a unit out.
pub(crate) fn put_record<W: Sink>(
    to: &mut W,
    pending: &mut PendingBytes,
    stream: u8,
    unit: &Unit,
) -> Result<(), Halt>
    ensures { spec.Puts (writes W.Sink to.old to.new)
        (pending.old.items ++ record_bytes stream unit.now) pending.new.items result }
{
    match put(to, pending, record_head(stream, unit).as_slice()) {
        Ok(()) => put(to, pending, bytes_of(unit)),
        Err(halt) => Err(halt),
    }
}

// Puts the records of units.
fn put_records<W: Sink>(
    to: &mut W,
    pending: &mut PendingBytes,
    units: &[(u8, Unit)],
) -> Result<(), Halt>
    ensures { spec.Puts (writes W.Sink to.old to.new)
        (pending.old.items ++ spec.records_of units.now) pending.new.items result }
{
    for entry in units {
        match put_record(to, pending, entry.0, &entry.1) {
            Ok(()) => {}
            Err(halt) => return Err(halt),
        }
    }
    Ok(())
}

// Puts two texts.
fn put_texts<W: Sink>(
    to: &mut W,
    pending: &mut PendingBytes,
    text: &[u8],
    plan: &[u8],
) -> Result<(), Halt>
    ensures { spec.Puts (writes W.Sink to.old to.new)
        ((pending.old.items ++ text.now) ++ plan.now) pending.new.items result }
{
    match put(to, pending, text) {
        Ok(()) => put(to, pending, plan),
        Err(halt) => Err(halt),
    }
}

// Puts two texts, and the records of units after them.
fn put_job<W: Sink>(
    to: &mut W,
    pending: &mut PendingBytes,
    text: &[u8],
    plan: &[u8],
    units: &[(u8, Unit)],
) -> Result<(), Halt>
    ensures { spec.Puts (writes W.Sink to.old to.new)
        (((pending.old.items ++ text.now) ++ plan.now) ++ spec.records_of units.now) pending.new.items result }
{
    match put_texts(to, pending, text, plan) {
        Ok(()) => put_records(to, pending, units),
        Err(halt) => Err(halt),
    }
}

/// Writes a text, another one after it, and the records of units after these.
pub fn write_job<W: Sink>(
    to: &mut W,
    text: &[u8],
    plan: &[u8],
    units: &[(u8, Unit)],
) -> Result<(), Halt>
    ensures { WritesLine ((text.now ++ plan.now) ++ spec.records_of units.now) (writes W.Sink to.old to.new) result }
{
    let mut pending = PendingBytes::new();
    match put_job(to, &mut pending, text, plan, units) {
        Ok(()) => flush(to, &mut pending),
        Err(halt) => Err(halt),
    }
}
