//! The main buffer of a stream.
ghost use Rattle.std.specs.Prelude.{◌≡◌, ℕ, ◌+◌, ◌<◌, ◌≤◌, ◌^◌, max, OnOk, OnErr};

use crate::buffered_units::{BufferedUnit, drop_removed, tally};
use std::alloc::{AllocError, Allocator};

/// The bytes of a stream's units that have entered its main buffer. Each stays until the decoding time of its unit.
#[derive(Drop)]
pub struct MainBuffer<A: Allocator> {
    /// The bytes of the units before the current unit.
    pub earlier: Vec<BufferedUnit, A>,
    /// The bytes of the current unit.
    pub current: BufferedUnit,
    /// No byte of `earlier` is removed before.
    pub next: u128,
    /// The number of bytes in the buffer, and the most that were.
    pub fullness: u64,
    pub peak: u64,
}

impl<A: Allocator> MainBuffer<A> {
    ghost use Rattle.tstd.specs.BufferState.{fullness_at, IsSound};
    ghost use Rattle.tstd.specs.BufferedUnits.{one_buffered, buffered_bytes};

    /// Returns an empty buffer without a current unit: a byte that entered it would be too late.
    pub fn new(alloc: A) -> MainBuffer<A>
        ensures sound { IsSound result }
        ensures empty { (x : ℕ) → fullness_at result x ≡ 0 }
        ensures peak { result.peak ≡ 0 }
        ensures fullness { result.fullness ≡ 0 }
        ensures until { result.current.until ≡ 0 }
    {
        MainBuffer {
            earlier: Vec::new(alloc),
            current: BufferedUnit { until: 0, bytes: 0 },
            next: u128::MAX,
            fullness: 0,
            peak: 0,
        }
    }

    /// Begins the next unit; its bytes stay until `until`. If memory runs out, the current unit continues.
    pub fn begin(&mut self, until: u128) -> Result<(), AllocError>
        requires sound { IsSound self.old }
        ensures sound { IsSound self.new }
        ensures there { (x : ℕ) → fullness_at self.new x ≡ fullness_at self.old x }
        ensures until { OnOk result (self.new.current.until ≡ until) }
        ensures err { OnErr result (self.new.current ≡ self.old.current) }
        ensures peak { self.new.peak ≡ self.old.peak }
        ensures fullness { self.new.fullness ≡ self.old.fullness }
    {
        if self.current.bytes > 0 {
            self.earlier.push(self.current)?;
            self.next = self.next.min(self.current.until);
        }
        self.current = BufferedUnit { until, bytes: 0 };
        Ok(())
    }

    // Removes the bytes of earlier units whose time has come.
    fn expire(&mut self, moment: u128)
        requires sound { IsSound self.old }
        requires room { self.old.fullness + 1 < 2 ^ 64 }
        ensures sound { IsSound self.new }
        ensures there { (x : ℕ) → moment ≤ x → fullness_at self.new x ≡ fullness_at self.old x }
        ensures now { fullness_at self.new moment + self.new.current.bytes
            ≡ self.new.fullness + buffered_bytes moment self.new.current }
        ensures current { self.new.current ≡ self.old.current }
        ensures peak { self.new.peak ≡ self.old.peak }
        ensures fullness { self.new.fullness ≤ self.old.fullness }
    {
        if moment >= self.next {
            drop_removed(&mut self.earlier, moment);
            let (bytes, next) = tally(self.earlier.as_slice());
            self.next = next;
            self.fullness = bytes + self.current.bytes;
        }
    }

    /// Takes a byte of the current unit: it enters the buffer, or is too late for it.
    pub fn enter(&mut self, moment: u128)
        requires sound { IsSound self.old }
        requires room { self.old.fullness + 1 < 2 ^ 64 }
        ensures sound { IsSound self.new }
        ensures there { (x : ℕ) → moment ≤ x →
            fullness_at self.new x ≡ fullness_at self.old x + one_buffered self.old.current.until x }
        ensures peak { self.new.peak
            ≡ max self.old.peak (fullness_at self.old moment + one_buffered self.old.current.until moment) }
        ensures until { self.new.current.until ≡ self.old.current.until }
        ensures fullness { self.new.fullness ≤ self.old.fullness + 1 }
    {
        self.expire(moment);
        if moment < self.current.until {
            self.current.bytes += 1;
            self.fullness += 1;
        } else {
            self.fullness -= self.current.bytes;
            self.current.bytes = 0;
        }
        self.peak = self.peak.max(self.fullness);
    }
}
