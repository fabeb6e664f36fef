//! Excesses: when more bytes are in a buffer than its size.
ghost use Rattle.std.specs.Prelude.{◌≡◌, None, ◌+◌, ◌<◌, ◌≤◌, ◌^◌, true, false, [], ◌++◌};
ghost use Rattle.std.specs.Option.{option_to_list};
ghost use Rattle.clock27.specs.Departure.{last_left};
ghost use Rattle.arrival.specs.Rows.{IsTimed, times_of};
ghost use Rattle.tstd_rows.specs.Buffers.{IsPaced, IsSoon};
ghost use Rattle.tstd_rows.specs.Excesses.{AreOver, room_again, excess_after, excesses_ended};

use crate::leaving::leave;
use crate::most_found::most_found;
use crate::over_bytes::{split_fast, split_slow};
use crate::transport_buffer::TransportBuffer;
use arrival::Row;

/// A time when a buffer is full: it begins when a byte arrives that finds no room, and ends when there is room again.
#[derive(Clone, Copy)]
pub struct Excess {
    pub begin: u128,
    pub end: u128,
    /// The most bytes that were in the buffer.
    pub peak: u128,
}

/// The current excess of a buffer, if it has one.
#[derive(Clone, Copy)]
pub struct ExcessWatch {
    /// The size of the buffer in bytes.
    pub size: u64,
    pub under_way: Option<Excess>,
}

impl ExcessWatch {
    /// Returns the watch of an empty buffer of `size` bytes.
    pub fn new(size: u64) -> ExcessWatch
        ensures { result ≡ record { size = size; under_way = None } }
    {
        ExcessWatch {
            size,
            under_way: None,
        }
    }

    // Takes bytes that find room; returns the excess that has ended before them.
    fn pass(&mut self, step: u64, prev: u128, row: &Row) -> Option<Excess>
        requires room { AreOver false step self.old.size prev (times_of row.now) }
        ensures ended { option_to_list result
            ≡ excesses_ended step self.old.size prev self.old.under_way (times_of row.now) }
        ensures under_way { self.new.under_way
            ≡ excess_after step self.old.size prev self.old.under_way (times_of row.now) }
        ensures size { self.new.size ≡ self.old.size }
    {
        if row.bytes == 0 {
            return None;
        }
        self.under_way.take()
    }

    // Takes bytes that find no room.
    fn grow(&mut self, step: u64, prev: u128, row: &Row)
        requires some { 0 < step }
        requires slow { step ≤ 2 ^ 40 }
        requires prev { prev ≤ 2 ^ 86 + 2 ^ 81 }
        requires timed { IsTimed row.now }
        requires soon { IsSoon row.now }
        requires count { row.now.bytes ≤ 2 ^ 40 }
        requires size { self.old.size ≤ 2 ^ 40 }
        requires over { AreOver true step self.old.size prev (times_of row.now) }
        ensures ended { excesses_ended step self.old.size prev self.old.under_way (times_of row.now) ≡ [] }
        ensures under_way { self.new.under_way
            ≡ excess_after step self.old.size prev self.old.under_way (times_of row.now) }
        ensures size { self.new.size ≡ self.old.size }
    {
        if row.bytes == 0 {
            return;
        }
        let last = leave(step, prev, row).last;
        let end = last.saturating_sub(u128::from(self.size.saturating_sub(1)) * u128::from(step));
        let most = most_found(step, prev, row);
        self.under_way = Some(match self.under_way {
            None => Excess {
                begin: row.time(0),
                end,
                peak: most,
            },
            Some(under_way) => Excess {
                begin: under_way.begin,
                end,
                peak: under_way.peak.max(most),
            },
        });
    }

    /// Takes the bytes of a row that arrive at a buffer (its state before them); returns the excess that has ended.
    pub fn enter(&mut self, buffer: &TransportBuffer, row: &Row) -> Option<Excess>
        requires paced { IsPaced buffer.now }
        requires timed { IsTimed row.now }
        requires soon { IsSoon row.now }
        requires some { 0 < row.now.bytes }
        requires count { buffer.now.bytes + row.now.bytes ≤ 2 ^ 40 }
        requires size { 0 < self.old.size }
        requires bound { self.old.size ≤ 2 ^ 40 }
        ensures ended { option_to_list result
            ≡ excesses_ended buffer.now.step self.old.size buffer.now.last self.old.under_way (times_of row.now) }
        ensures under_way { self.new.under_way
            ≡ excess_after buffer.now.step self.old.size buffer.now.last self.old.under_way (times_of row.now) }
        ensures size { self.new.size ≡ self.old.size }
    {
        let step = buffer.step;
        if u128::from(row.pace) <= u128::from(step) * u128::from(row.parts) {
            let split = split_fast(step, self.size, buffer.last, row);
            let ended = self.pass(step, buffer.last, &split.first);
            self.grow(step, split.prev, &split.others);
            ended
        } else {
            let split = split_slow(step, self.size, buffer.last, row);
            self.grow(step, buffer.last, &split.first);
            self.pass(step, split.prev, &split.others)
        }
    }
}
