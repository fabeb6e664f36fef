//! Notes about the packets of a stream, while it arrives.

ghost use Rattle.std.specs.Prelude.{◌≡◌, ◌≤◌, ◌<◌, ◌+◌, IfOk, OnOk, if◌then◌else◌, length};
ghost use Rattle.packet_sync.specs.Notes as spec;
ghost use Rattle.packet_sync.specs.Stretches as stretches;

use crate::left_out::{FieldLeftOut, note_packets};
use crate::noted_fields::NotedFields;
use crate::slip::Slip;
use crate::stretch::{Stretch, next_stretch};
use crate::sync_bytes::PACKET_SIZE;
use std::alloc::{AllocError, Allocator, Global};
use std::marker::Model;

/// Notes about the packets so far: the slips, and the fields that are not written again, each once for a PID, in the
/// order of their first packets.
#[derive(Drop)]
pub struct StreamNotes<A: Allocator = Global> {
    slips: Vec<Slip, A>,
    fields: NotedFields<A>,
    /// The number of packets before the bytes still to come.
    packet: usize,
    /// The place where the bytes still to come begin.
    start: usize,
}

// A contract sees lists.
impl<A: Allocator> Model for StreamNotes<A> {
    ghost use Rattle.packet_sync.specs.Notes.{NotesView};

    ghost Value = { NotesView };

    ghost view = { λ n. record {
      slips = n.slips.items;
      fields = n.fields;
      packet = n.packet;
      start = n.start;
    } };
}

// Returns the sum; an error instead of an overflow, as no memory holds a stream of 2^64 bytes.
fn more(number: usize, by: usize) -> Result<usize, AllocError>
    ensures { IfOk result (λ sum. sum ≡ number + by) }
{
    match number.checked_add(by) {
        Some(sum) => Ok(sum),
        None => Err(AllocError),
    }
}

impl<A: Allocator> StreamNotes<A> {
    // Notes the packets in the first `size` bytes, which are in step.
    fn note_stretch(&mut self, bytes: &[u8], size: usize) -> Result<(), AllocError>
        requires { size ≤ length bytes.now }
        ensures { OnOk result (self.new ≡ spec.with_stretch size bytes.now self.old) }
    {
        let count = size / PACKET_SIZE;
        note_packets(bytes, count, &mut self.fields)?;
        self.packet = more(self.packet, count)?;
        self.start = more(self.start, size)?;
        Ok(())
    }

    // Notes the bytes that are left out, if there are any.
    fn note_slip(&mut self, size: usize) -> Result<(), AllocError>
        ensures { OnOk result (self.new ≡ spec.with_slip size self.old) }
    {
        if size == 0 {
            return Ok(());
        }
        let (packet, start) = (self.packet, self.start);
        self.slips.push(Slip {
            packet,
            start,
            size,
        })?;
        self.start = more(start, size)?;
        Ok(())
    }

    /// Notes the next bytes of a stream, as far as the bytes at hand decide, and returns how many of them are in step
    /// and left out; `ended`: whether no more bytes follow.
    pub fn take_stretch(&mut self, bytes: &[u8], ended: bool) -> Result<Stretch, AllocError>
        ensures noted { IfOk result (spec.IsNoted self.old self.new bytes.now ended) }
        ensures stretch { IfOk result (stretches.IsStretch bytes.now ended) }
        ensures within { IfOk result (λ s. s.in_step + s.slipped ≤ length bytes.now) }
        ensures some { IfOk result (λ s. (if ended then 1 else 1128) ≤ length bytes.now → 0 < s.in_step + s.slipped) }
    {
        let stretch = next_stretch(bytes, ended);
        self.note_stretch(bytes, stretch.in_step)?;
        self.note_slip(stretch.slipped)?;
        Ok(stretch)
    }

    /// Returns the slips and the fields.
    pub fn into_parts(self) -> (Vec<Slip, A>, Vec<FieldLeftOut, A>)
        ensures slips { result.0.items ≡ self.slips }
        ensures fields { result.1.items ≡ self.fields }
    {
        (self.slips, self.fields.into_fields())
    }
}

impl<A: Allocator + Copy> StreamNotes<A> {
    /// Returns the state before the first byte of a stream.
    pub fn new(alloc: A) -> StreamNotes<A>
        ensures { result ≡ spec.no_notes }
    {
        StreamNotes {
            slips: Vec::new(alloc),
            fields: NotedFields::new(alloc),
            packet: 0,
            start: 0,
        }
    }
}
