//! How long a buffer is not empty (ISO/IEC 13818-1, 2.4.2.6).
ghost use Rattle.std.specs.Prelude.{◌≡◌, ◌+◌, ◌-◌, ◌<◌, ◌^◌, min};
ghost use Rattle.arrival.specs.Rows.{IsTimed, times_of};
ghost use Rattle.tstd_rows.specs.Buffers.{times_left};
ghost use Rattle.tstd_rows.specs.Busy as spec;

use crate::leaving::Leaving;
use arrival::Row;

/// A time when a buffer was not empty.
#[derive(Clone, Copy)]
pub struct Stay {
    pub begin: u128,
    pub end: u128,
}

/// How long a buffer may be not empty, since when it is not empty, how many times it was not empty for longer, and the
/// last such time.
#[derive(Clone, Copy)]
pub struct BusyWatch {
    pub limit: u128,
    pub since: u128,
    pub count: u64,
    pub last: Stay,
}

impl BusyWatch {
    /// Returns the watch of an empty buffer.
    pub fn new(limit: u128) -> BusyWatch
        ensures { result ≡ spec.never_busy limit }
    {
        BusyWatch {
            limit,
            since: 0,
            count: 0,
            last: Stay { begin: 0, end: 0 },
        }
    }

    // Notes a stay longer than the limit, which ended at `prev`. A call of its own: few stays are too long.
    #[inline(never)]
    fn note(&mut self, prev: u128)
        ensures { self.new ≡ record self.old {
          count = min (self.old.count + 1) (2 ^ 64 - 1);
          last = record { begin = self.old.since; end = prev };
        } }
    {
        self.count = self.count.saturating_add(1);
        self.last = Stay {
            begin: self.since,
            end: prev,
        };
    }

    // Notes bytes that arrive from `first` on, if the last byte before them leaves at `prev`.
    #[inline(always)]
    fn see_at(&mut self, prev: u128, first: u128)
        ensures { self.new ≡ spec.busy_at self.old prev first }
    {
        if first <= prev {
            return;
        }
        if prev.saturating_sub(self.since) > self.limit {
            self.note(prev);
        }
        self.since = first;
    }

    /// Takes the bytes of a row that arrive, if the last byte before them leaves the buffer at `prev`.
    #[inline(always)]
    #[tactic(auto, using(crate::proofs::BusyRows::row_busy))]
    pub fn see(&mut self, prev: u128, row: &Row)
        requires timed { IsTimed row.now }
        requires some { 0 < row.now.bytes }
        ensures { self.new ≡ spec.busy_with self.old prev (times_of row.now) }
    {
        self.see_at(prev, row.time(0));
    }

    /// Takes bytes that arrive as they leave another buffer.
    #[inline(always)]
    #[tactic(auto, using(crate::proofs::BusyRows::waiting_busy, crate::proofs::BusyRows::free_busy))]
    pub fn see_leaving(&mut self, prev: u128, leaving: &Leaving)
        requires timed { IsTimed leaving.now.waiting × IsTimed leaving.now.free }
        requires some { 0 < leaving.now.waiting.bytes + leaving.now.free.bytes }
        ensures { self.new ≡ spec.busy_with self.old prev (times_left leaving.now) }
    {
        if leaving.waiting.bytes == 0 {
            self.see(prev, &leaving.free);
        } else {
            self.see(prev, &leaving.waiting);
        }
    }

    /// Returns the current stay, if it is longer than the limit when the last byte has left at `last`.
    pub fn under_way(&self, last: u128) -> Option<Stay>
        ensures { result ≡ spec.busy_under_way self.now last }
    {
        if last.saturating_sub(self.since) > self.limit {
            Some(Stay {
                begin: self.since,
                end: last,
            })
        } else {
            None
        }
    }
}
