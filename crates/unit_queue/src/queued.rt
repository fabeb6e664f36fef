//! A unit that waits.

ghost use Rattle.std.specs.Prelude.{◌≡◌, ◌<◌, ◌+◌, ◌++◌, ◌^◌, true};
ghost use Rattle.slot_contents.specs.Contents.{packet_of};
ghost use Rattle.unit_queue.specs.QueueSteps.{goes_on, part_content};

use crate::pieces::write_piece;
use arrayvec::ArrayVec;
use pes_packet::Unit;
use std::alloc::Allocator;
use std::marker::Model;

/// A unit that is not sent whole, with the slot of its release and its PES header, which are made once.
#[derive(Drop)]
pub(crate) struct QueuedUnit<A: Allocator> {
    pub release: u64,
    header: ArrayVec<u8, 45>,
    // Whether a decoder may begin with it.
    access: bool,
    bytes: Vec<u8, A>,
}

impl<A: Allocator> Model for QueuedUnit<A> {
    ghost use Rattle.unit_queue.specs.Queues.{Queued};

    ghost Value = { Queued };

    ghost view = { λ unit.
        record { release = unit.release; header = unit.header.items; access = unit.access; bytes = unit.bytes.items } };
}

impl<A: Allocator> QueuedUnit<A> {
    /// Returns a unit with the slot of its release and its header.
    pub fn new(release: u64, header: ArrayVec<u8, 45>, unit: Unit<A>) -> QueuedUnit<A>
        ensures { result ≡ record { release = release; header = header.items; access = unit.marks.random_access; bytes = unit.bytes } }
    {
        QueuedUnit {
            release,
            header,
            access: unit.marks.random_access,
            bytes: unit.bytes,
        }
    }

    /// Writes the packet after the first `sent` bytes into `packet`, and returns whether more packets follow it.
    pub fn write_piece(&self, packet: &mut [u8; 188], pid: u16, counter: u8, sent: usize) -> bool
        requires pid { pid < 2 ^ 13 }
        ensures packet { packet.new ≡ packet_of (part_content pid counter self.now.access
            (self.now.header ++ self.now.bytes) sent) }
        ensures more { result ≡ goes_on self.now.access (self.now.header ++ self.now.bytes) sent }
        ensures within { result ≡ true → sent + 184 < 2 ^ 64 }
    {
        write_piece(
            packet,
            pid,
            counter,
            self.access,
            &self.header,
            &self.bytes,
            sent,
        )
    }
}
