//! The record that puts new texts on air, or a front.

ghost use Rattle.std.specs.Prelude.{◌≡◌, ◌++◌, ◌<◌, ◌^◌, IfSome, OnOk};
ghost use Rattle.on_air.specs.Airing.{greatest_lead};
ghost use Rattle.unit_records.specs.Records.{record_bytes};
ghost use Rattle.explained_jobs.specs.TextRecords as spec;

use crate::explaining::description_part;
use changed_texts::read_description;
use description::Description;
use description_parts::StreamDescription;
use pes_packet::{Marks, Unit};
use std::alloc::{AllocError, Global};
use unit_records::record_head;

/// The stream of records with texts, or a front.
const TEXTS: u8 = 254;

/// The stream of ticks.
const TICKS: u8 = 255;

/// The greatest number of bytes of a record.
const LARGEST: usize = 4_000_000;

// Returns the greatest lead of all streams, in units of 90 kHz.
fn greatest_lead(streams: &[StreamDescription]) -> u32
    ensures { result ≡ greatest_lead streams.now }
{
    streams.iter().fold(0, |lead, stream| lead.max(stream.lead))
}

// Returns when texts are due that are in force from a moment on.
fn due_at(frame: &Description, at: u64, wait: u64) -> u64
    requires at { at < 2 ^ 32 }
    requires wait { wait < 2 ^ 32 }
    ensures { result ≡ spec.due_at frame.now at wait }
{
    90_000 * at.saturating_sub(frame.start()) + u64::from(greatest_lead(frame.streams())) + wait
}

// Appends a record of these bytes that is due then.
#[tactic(auto, using(crate::proofs::TextRecords::record_is))]
fn push_record(
    alloc: Global,
    stream: u8,
    due: u64,
    texts: &[u8],
    all: &mut Vec<u8>,
) -> Result<(), AllocError>
    ensures { OnOk result (all.new.items ≡ all.old.items ++ record_bytes stream (spec.texts_unit due texts.now)) }
{
    let mut bytes = Vec::new(alloc);
    bytes.extend_from_slice(texts)?;
    let unit = Unit {
        pts: due,
        dts: due,
        bytes,
        marks: Marks::NONE,
    };
    all.extend_from_slice(record_head(stream, &unit).as_slice())?;
    all.extend_from_slice(unit.bytes.as_slice())?;
    Ok(())
}

// Appends the tick before the record of a front.
#[tactic(auto, using(crate::proofs::TextRecords::no_tick, crate::proofs::TextRecords::one_tick))]
fn push_tick(alloc: Global, is_front: bool, due: u64, all: &mut Vec<u8>) -> Result<(), AllocError>
    ensures { OnOk result (all.new.items ≡ all.old.items ++ spec.tick_before is_front due) }
{
    if !is_front {
        return Ok(());
    }
    push_record(alloc, TICKS, due, b"", all)
}

// Returns the record of texts that are due then, or of a front, with a tick before it; none if there is no memory.
#[tactic(auto, using(crate::proofs::TextRecords::both_records))]
fn record_due(alloc: Global, is_front: bool, due: u64, texts: &[u8]) -> Option<Vec<u8>>
    ensures { IfSome result (λ bytes. bytes.items
        ≡ spec.tick_before is_front due ++ record_bytes 254 (spec.texts_unit due texts.now)) }
{
    let mut all = Vec::new(alloc);
    push_tick(alloc, is_front, due, &mut all).ok()?;
    push_record(alloc, TEXTS, due, texts, &mut all).ok()?;
    Some(all)
}

/// Returns the record of texts that are in force from a moment on, in seconds since 1970, if the job of these bytes is
/// on air with this `--wait`, in units of 90 kHz; of a front, a tick and then its record. Returns none if the job has no
/// description, the texts are longer than a record may be, or there is no memory.
#[tactic(auto, using(crate::proofs::TextRecords::made))]
pub fn texts_record(
    alloc: Global,
    job: &[u8],
    texts: &[u8],
    is_front: bool,
    at: u64,
    wait: u64,
) -> Option<Vec<u8>>
    requires at { at < 2 ^ 32 }
    requires wait { wait < 2 ^ 32 }
    ensures { IfSome result (λ bytes. spec.IsTextsRecord is_front job.now texts.now at wait bytes.items) }
{
    if texts.len() > LARGEST {
        return None;
    }
    let Ok(frame) = read_description(alloc, description_part(job)) else {
        return None;
    };
    record_due(alloc, is_front, due_at(&frame, at, wait), texts)
}

/// States that texts are in force from the first slot on that begins at their moment or later.
pub fn texts_begin()
    ensures { spec.TextsBegin }
{}
