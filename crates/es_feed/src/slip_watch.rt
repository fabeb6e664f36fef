//! The bytes of a stream that are in no packet, while it arrives.

ghost use Rattle.std.specs.Prelude.{◌≡◌, ◌≤◌, ◌<◌, ◌+◌, ◌-◌, ◌++◌, IfOk, List, OnOk, drop, false, length, true, ℕ};
ghost use Rattle.packet_sync.specs.Slips.{slips};
ghost use Rattle.packet_sync.specs.declared.slip.Slip.{Slip as FoundSlip};
ghost use Rattle.es_feed.specs.Watching as spec;

use packet_sync::{Slip, Stretch, next_stretch};
use std::alloc::{AllocError, Global};
use std::marker::Model;

/// The size of a packet in bytes.
const PACKET: usize = 188;

/// The numbers of packets and of bytes before the next ones.
#[derive(Clone, Copy)]
pub struct StreamPlace {
    pub packet: usize,
    pub start: usize,
}

/// A stream whose bytes arrive piece by piece. It holds at most 1,127 bytes.
#[derive(Drop)]
pub(crate) struct SlipWatch {
    alloc: Global,
    held: Vec<u8>,
    place: StreamPlace,
}

// A contract sees the bytes that are held, and the place of the first one.
impl Model for SlipWatch {
    ghost use Rattle.es_feed.specs.Watching.{WatchView};

    ghost Value = { WatchView };

    ghost view = { λ w. record { held = w.held.items; place = w.place } };
}

// Adds to a number, which stops at 2^64 - 1: no stream is that long.
fn more(number: usize, by: usize) -> Result<usize, AllocError>
    ensures { IfOk result (λ sum. sum ≡ number + by) }
{
    match number.checked_add(by) {
        Some(sum) => Ok(sum),
        None => Err(AllocError),
    }
}

// The place after a stretch.
fn place_with(stretch: Stretch, place: StreamPlace) -> Result<StreamPlace, AllocError>
    ensures { IfOk result (λ p. p ≡ spec.place_with stretch place) }
{
    let packet = more(place.packet, stretch.in_step / PACKET)?;
    let start = more(more(place.start, stretch.in_step)?, stretch.slipped)?;
    Ok(StreamPlace { packet, start })
}

// Appends the slip after a stretch, if there is one.
fn note_slip(stretch: Stretch, place: StreamPlace, found: &mut Vec<Slip>) -> Result<(), AllocError>
    ensures { OnOk result (found.new.items ≡ spec.slips_with stretch place found.old.items) }
{
    if stretch.slipped == 0 {
        return Ok(());
    }
    found.push(Slip {
        packet: more(place.packet, stretch.in_step / PACKET)?,
        start: more(place.start, stretch.in_step)?,
        size: stretch.slipped,
    })?;
    Ok(())
}

// Looks at the bytes that are decided, and returns how many that is.
fn watch_decided(
    place: &mut StreamPlace,
    bytes: &[u8],
    ended: bool,
    found: &mut Vec<Slip>,
) -> Result<usize, AllocError>
    ensures taken { (stream : List ℕ) (gone : List FoundSlip) →
        spec.AreSlips stream ended bytes.now place.old (gone ++ found.old.items) →
        IfOk result (λ at. spec.AreSlips stream ended (drop at bytes.now) place.new (gone ++ found.new.items)) }
    ensures within { IfOk result (λ at. at ≤ length bytes.now) }
    ensures last { IfOk result (λ at. ended ≡ true → length bytes.now ≤ at) }
    ensures short { IfOk result (λ at. ended ≡ false → length bytes.now - at < 1128) }
{
    let mut at = 0;
    while at < bytes.len() {
        let (_, rest) = bytes.split_at(at);
        let stretch = next_stretch(rest, ended);
        if stretch.in_step + stretch.slipped == 0 {
            return Ok(at);
        }
        note_slip(stretch, *place, found)?;
        let next = place_with(stretch, *place)?;
        *place = next;
        at += stretch.in_step + stretch.slipped;
    }
    Ok(at)
}

impl SlipWatch {
    /// Returns the state before the first byte.
    pub(crate) fn new(alloc: Global) -> SlipWatch
        ensures { result ≡ spec.none_watched }
    {
        SlipWatch {
            alloc,
            held: Vec::new(alloc),
            place: StreamPlace {
                packet: 0,
                start: 0,
            },
        }
    }

    /// Looks at the next bytes; the slips that they decide go to `found`.
    pub(crate) fn push(&mut self, piece: &[u8], found: &mut Vec<Slip>) -> Result<(), AllocError>
        ensures taken { (stream : List ℕ) (gone : List FoundSlip) →
            spec.AreSlips stream false self.old.held self.old.place (gone ++ found.old.items) →
            OnOk result (spec.AreSlips (stream ++ piece.now) false self.new.held self.new.place
            (gone ++ found.new.items)) }
        ensures held { OnOk result (length self.new.held < 1128) }
    {
        self.held.extend_from_slice(piece)?;
        let at = watch_decided(&mut self.place, self.held.as_slice(), false, found)?;
        let (_, rest) = self.held.as_slice().split_at(at);
        let held = Vec::from_slice(self.alloc, rest)?;
        self.held = held;
        Ok(())
    }

    /// Ends the stream: the slips that its end decides go to `found`.
    pub(crate) fn finish(self, found: &mut Vec<Slip>) -> Result<(), AllocError>
        ensures { (stream : List ℕ) (gone : List FoundSlip) →
            spec.AreSlips stream false self.held self.place (gone ++ found.old.items) →
            OnOk result (gone ++ found.new.items ≡ slips stream) }
    {
        let mut place = self.place;
        watch_decided(&mut place, self.held.as_slice(), true, found)?;
        Ok(())
    }
}
