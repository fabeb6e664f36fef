//! Bytes that enter the elementary stream buffer of video, and the room for the next bytes.
ghost use Rattle.std.specs.Prelude.{◌≡◌, ℕ, ◌-◌, ◌≤◌, ◌++◌, length, replicate, take, drop, OnOk};
ghost use Rattle.clock27.specs.Departure.{last_left};
ghost use Rattle.tstd_rows.specs.RoomTimes.{capped, raised, rooms_waiting};
ghost use Rattle.tstd_rows.specs.Rooms.{rooms_now};

use crate::eb_rooms::EbRooms;
use std::alloc::{AllocError, Global};
use std::collections::VecDeque;
use tstd::BufferedUnit;

// Returns when the last of `count` bytes goes, if there is room for them from `until` on.
#[inline(always)]
#[tactic(auto, using(crate::proofs::RoomRows::gone_none, crate::proofs::RoomRows::gone_some))]
fn gone(last: u128, until: u128, leak: u64, count: u64) -> u128
    ensures { result ≡ capped (last_left leak last (replicate count until)) }
{
    if count == 0 {
        last
    } else {
        last.max(until)
            .saturating_add(u128::from(leak) * u128::from(count))
    }
}

impl EbRooms {
    /// Returns the room of an empty buffer of `size` bytes.
    pub fn new(alloc: Global, size: u64) -> EbRooms
        ensures rooms { rooms_now result ≡ replicate size 0 }
        ensures last { result.last ≡ 0 }
        ensures until { result.current.until ≡ 0 }
    {
        EbRooms {
            free: size,
            waiting: VecDeque::new(alloc),
            current: BufferedUnit { until: 0, bytes: 0 },
            last: 0,
        }
    }

    /// Frees the room whose time has come by `now`; no later byte goes before `now`.
    #[inline(always)]
    pub fn settle(&mut self, now: u128)
        ensures rooms { (from : ℕ) → now ≤ from → raised from (rooms_now self.new) ≡ raised from (rooms_now self.old) }
        ensures many { length (rooms_now self.new) ≡ length (rooms_now self.old) }
        ensures last { self.new.last ≡ self.old.last }
        ensures current { self.new.current ≡ self.old.current }
    {
        while let Some(unit) = self.waiting.front() {
            if unit.until > now {
                return;
            }
            self.free += unit.bytes;
            self.waiting.pop_front();
        }
    }

    // Lets up to `count` bytes go into the room that is free at once; returns how many bytes remain.
    #[inline(always)]
    fn take_free(&mut self, leak: u64, count: u64) -> u64
        ensures rest { result ≡ count - self.old.free }
        ensures free { self.new.free ≡ self.old.free - count }
        ensures last { self.new.last ≡ capped (last_left leak self.old.last (take count (replicate self.old.free 0))) }
        ensures waiting { self.new.waiting ≡ self.old.waiting }
        ensures current { self.new.current ≡ self.old.current }
    {
        let free = count.min(self.free);
        self.last = gone(self.last, 0, leak, free);
        self.free -= free;
        count - free
    }

    // Does the same for the room of units that wait.
    fn take_waiting(&mut self, leak: u64, count: u64) -> u64
        ensures rest { result ≡ count - length (rooms_waiting self.old.waiting.items) }
        ensures rooms { rooms_waiting self.new.waiting.items ≡ drop count (rooms_waiting self.old.waiting.items) }
        ensures last { capped self.new.last
            ≡ capped (last_left leak self.old.last (take count (rooms_waiting self.old.waiting.items))) }
        ensures free { self.new.free ≡ self.old.free }
        ensures current { self.new.current ≡ self.old.current }
    {
        let mut rest = count;
        while let Some(unit) = self.waiting.front_mut() {
            let bytes = rest.min(unit.bytes);
            self.last = gone(self.last, unit.until, leak, bytes);
            unit.bytes -= bytes;
            rest -= bytes;
            if unit.bytes > 0 {
                return 0;
            }
            self.waiting.pop_front();
        }
        rest
    }

    /// Takes `count` bytes of the current unit, which go when there is room.
    #[inline(always)]
    pub fn take(&mut self, leak: u64, count: u64)
        ensures rooms { rooms_now self.new ≡ drop count (rooms_now self.old ++ replicate count self.old.current.until) }
        ensures last { self.new.last
            ≡ capped (last_left leak self.old.last
            (take count (rooms_now self.old ++ replicate count self.old.current.until))) }
        ensures until { self.new.current.until ≡ self.old.current.until }
    {
        let rest = self.take_free(leak, count);
        let rest = self.take_waiting(leak, rest);
        self.last = gone(self.last, self.current.until, leak, rest);
        self.current.bytes += count - rest;
    }

    // Puts the current unit among the units that wait, or merges it with the unit in front of it if that is removed no
    // earlier.
    fn put_by(&mut self) -> Result<(), AllocError>
        ensures rooms { OnOk result ((from : ℕ) → raised from (rooms_now self.new) ≡ raised from (rooms_now self.old)) }
        ensures many { OnOk result (length (rooms_now self.new) ≡ length (rooms_now self.old)) }
        ensures none { self.new.current.bytes ≡ 0 }
        ensures last { self.new.last ≡ self.old.last }
    {
        let current = self.current;
        self.current.bytes = 0;
        if let Some(unit) = self.waiting.back_mut() {
            if current.until <= unit.until && unit.bytes > 0 {
                unit.bytes += current.bytes;
                return Ok(());
            }
        }
        if current.bytes > 0 {
            self.waiting.push_back(current)?;
        }
        Ok(())
    }

    /// Begins the next unit, whose bytes stay until `until`. If memory runs out, drop them.
    pub fn begin(&mut self, until: u128) -> Result<(), AllocError>
        ensures rooms { OnOk result ((from : ℕ) → raised from (rooms_now self.new) ≡ raised from (rooms_now self.old)) }
        ensures many { OnOk result (length (rooms_now self.new) ≡ length (rooms_now self.old)) }
        ensures last { self.new.last ≡ self.old.last }
        ensures until { OnOk result (self.new.current.until ≡ until) }
    {
        self.put_by()?;
        self.current = BufferedUnit { until, bytes: 0 };
        Ok(())
    }
}
