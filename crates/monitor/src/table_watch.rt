//! The sections of one table_id on one PID.
ghost use Rattle.std.specs.Prelude.{◌≡◌, OnOk};
ghost use Rattle.monitor.specs.TableStates.{new_watch, table_marked, watched};

use crate::recurrence::{LatePacket, RecurrenceWatch};
use std::alloc::{AllocError, Allocator};
use std::marker::Model;

/// Where the sections of a table begin, and which begin too late after the one before.
#[derive(Drop)]
pub(crate) struct TableWatch<A: Allocator> {
    pid: u16,
    table_id: u8,
    marks: RecurrenceWatch<A>,
}

impl<A: Allocator> Model for TableWatch<A> {
    ghost use Rattle.monitor.specs.TableStates.{TableState};

    ghost Value = { TableState };

    ghost view = { λ w. record { pid = w.pid; table_id = w.table_id; marks = w.marks } };
}

impl<A: Allocator + Copy> TableWatch<A> {
    /// Returns the state before the first section.
    pub fn new(alloc: A, pid: u16, table_id: u8, limit_times_rate: u64) -> TableWatch<A>
        ensures { result ≡ new_watch pid table_id limit_times_rate }
    {
        TableWatch {
            pid,
            table_id,
            marks: RecurrenceWatch::new(alloc, limit_times_rate),
        }
    }

    /// Marks that a section begins on some PID, or that the stream begins or ends.
    pub fn mark(&mut self, packet: u64) -> Result<(), AllocError>
        ensures { OnOk result (self.new ≡ table_marked self.old packet) }
    {
        self.marks.mark(self.pid, packet)
    }

    /// Notes that a section begins on a PID.
    pub fn begin(&mut self, pid: u16, table_id: u8, packet: u64) -> Result<(), AllocError>
        ensures { OnOk result (self.new ≡ watched self.old pid table_id packet) }
    {
        if pid == self.pid && table_id == self.table_id {
            self.marks.mark(pid, packet)
        } else {
            Ok(())
        }
    }

    /// Returns the packets at which one began too late.
    pub fn late(&self) -> &[LatePacket]
        ensures { result.now ≡ self.now.marks.late }
    {
        self.marks.late()
    }
}
