//! The transport buffer.
ghost use Rattle.std.specs.Prelude.{◌≡◌, ℕ, ◌+◌, ◌-◌, ◌*◌, ◌/◌, ◌<◌, ◌≤◌, ◌^◌, max};
ghost use Rattle.clock27.specs.Departure.{departures};
ghost use Rattle.clock27.specs.Peak.{most_found};
ghost use Rattle.arrival.specs.Rows.{IsTimed, times_of};
ghost use Rattle.tstd_rows.specs.Buffers.{IsPaced, IsSoon, LeaveSoon, entered, level_at, times_left};

use crate::leaving::{Leaving, leave, leave_at_once};
use crate::most_found::most_found;
use arrival::Row;

/// A transport buffer.
#[derive(Clone, Copy)]
pub struct TransportBuffer {
    /// The time that a byte takes to leave.
    pub step: u64,
    /// The number of bytes that have arrived.
    pub bytes: u64,
    /// When the last byte leaves, 0 if no byte has arrived.
    pub last: u128,
    /// The most bytes that were in it together.
    pub most: u128,
}

impl TransportBuffer {
    /// Returns an empty buffer, where a byte takes `step` to leave.
    pub fn new(step: u64) -> TransportBuffer
        requires some { 0 < step }
        requires slow { step ≤ 2 ^ 40 }
        ensures empty { result ≡ record { step = step; bytes = 0; last = 0; most = 0 } }
        ensures paced { IsPaced result }
    {
        TransportBuffer {
            step,
            bytes: 0,
            last: 0,
            most: 0,
        }
    }

    /// Returns the number of bytes in it at a moment at or after the last arrival.
    pub fn level(&self, moment: u128) -> u128
        requires paced { IsPaced self.now }
        ensures { result ≡ level_at self.now moment }
    {
        (self.last.saturating_sub(moment) + (u128::from(self.step) - 1)) / u128::from(self.step)
    }

    /// Takes the bytes of a row, and returns when they leave.
    #[inline(always)]
    pub fn enter(&mut self, row: &Row) -> Leaving
        requires paced { IsPaced self.old }
        requires timed { IsTimed row.now }
        requires soon { IsSoon row.now }
        requires some { 0 < row.now.bytes }
        requires count { self.old.bytes + row.now.bytes ≤ 2 ^ 40 }
        ensures left { times_left result ≡ departures self.old.step self.old.last (times_of row.now) }
        ensures buffer { self.new ≡ entered self.old (times_of row.now) }
        ensures last { result.last ≡ self.new.last }
        ensures timed { IsTimed result.waiting × IsTimed result.free }
        ensures soon { (latest : ℕ) → self.old.last ≤ latest + self.old.bytes * self.old.step →
            row.now.from + row.now.bytes * row.now.pace ≤ latest * row.now.parts →
            LeaveSoon self.new.step self.new.bytes self.new.last result latest }
        ensures paced { IsPaced self.new }
    {
        let leaving = leave(self.step, self.last, row);
        self.most = self.most.max(most_found(self.step, self.last, row));
        self.last = leaving.last;
        self.bytes += row.bytes;
        leaving
    }

    /// Takes the bytes of a row that find the buffer empty, and returns when they leave.
    #[inline(always)]
    pub(crate) fn enter_at_once(&mut self, row: &Row) -> Leaving
        requires paced { IsPaced self.old }
        requires timed { IsTimed row.now }
        requires soon { IsSoon row.now }
        requires some { 0 < row.now.bytes }
        requires slow { self.old.step * row.now.parts ≤ row.now.pace }
        requires after { (self.old.last + 1) * row.now.parts ≤ row.now.from }
        requires count { self.old.bytes + row.now.bytes ≤ 2 ^ 40 }
        ensures left { times_left result ≡ departures self.old.step self.old.last (times_of row.now) }
        ensures buffer { self.new ≡ entered self.old (times_of row.now) }
        ensures last { result.last ≡ self.new.last }
        ensures timed { IsTimed result.waiting × IsTimed result.free }
        ensures soon { (latest : ℕ) → self.old.last ≤ latest + self.old.bytes * self.old.step →
            row.now.from + row.now.bytes * row.now.pace ≤ latest * row.now.parts →
            LeaveSoon self.new.step self.new.bytes self.new.last result latest }
        ensures paced { IsPaced self.new }
        ensures most { most_found self.old.step self.old.last (times_of row.now) ≡ 1 }
    {
        let leaving = leave_at_once(self.step, self.last, row);
        self.most = self.most.max(1);
        self.last = leaving.last;
        self.bytes += row.bytes;
        leaving
    }
}
