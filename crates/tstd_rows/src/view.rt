//! Feeds an elementary stream through its transport and main buffer.
ghost use Rattle.std.specs.Prelude.{◌≡◌, ℕ, ◌+◌, ◌*◌, ◌<◌, ◌≤◌, ◌^◌, [], ◌∷◌, List, None, IfOk, OnOk, OnErr, IfSome};
ghost use Rattle.std.specs.Option.{option_to_list};
ghost use Rattle.clock27.specs.Departure.{departures};
ghost use Rattle.clock27.specs.Peak.{greatest_at, most_found};
ghost use Rattle.arrival.specs.Rows.{IsTimed, times_of};
ghost use Rattle.tstd_rows.specs.Buffers.{IsSoon, LeaveSoon, entered, times_left};
ghost use Rattle.tstd_rows.specs.Excesses.{excess_after, excesses_ended};
ghost use Rattle.tstd_rows.specs.RowEntry.{fullness_with};
ghost use Rattle.tstd_rows.specs.Least.{least_in};
ghost use Rattle.tstd_rows.specs.History.{Part, with_bytes};
ghost use Rattle.tstd_rows.specs.History.Part.{Passes, Carries, Begins};
ghost use Rattle.tstd_rows.specs.Viewed.{IsViewOf};

use crate::excess::{Excess, ExcessWatch};
use crate::leaving_entry::enter_leaving;
use crate::row_arrival::arrive;
use crate::row_found::{Carried, RowFound};
use crate::transport_buffer::TransportBuffer;
use crate::unit_seen::{DueTime, UnitSeen};
use crate::viewed_buffers::StreamView;
use arrival::Row;
use std::alloc::{AllocError, Allocator};
use tstd::MainBuffer;

// Adds `count` bytes to a unit; its last byte leaves at `left`.
#[inline(always)]
fn add_bytes(unit: &mut Option<UnitSeen>, count: u64, left: u128)
    requires { IfSome unit.old (λ u. u.bytes + count < 2 ^ 64) }
    ensures { unit.new ≡ with_bytes unit.old count left }
{
    match unit {
        None => {}
        Some(unit) => {
            unit.bytes += count;
            unit.left = left;
        }
    }
}

impl<A: Allocator> StreamView<A> {
    /// Returns empty buffers: a byte takes `step` to leave the transport buffer, which is to hold `size` bytes at most.
    pub fn new(alloc: A, step: u64, size: u64) -> StreamView<A>
        requires some { 0 < step }
        requires slow { step ≤ 2 ^ 40 }
        requires size { 0 < size }
        requires bound { size ≤ 2 ^ 40 }
        ensures view { IsViewOf result [] }
        ensures step { result.transport.step ≡ step }
        ensures size { result.watch.size ≡ size }
    {
        StreamView {
            transport: TransportBuffer::new(step),
            watch: ExcessWatch::new(size),
            main: MainBuffer::new(alloc),
            unit: None,
        }
    }

    /// Takes bytes that stop at the transport buffer: headers of packets, adaptation fields, and payload outside
    /// units. Returns the most bytes that a byte finds. Writes the excess that has ended into an empty place, so that
    /// it is not moved.
    #[inline(always)]
    pub fn pass(&mut self, row: &Row, ended: &mut Option<Excess>) -> u128
        requires timed { IsTimed row.now }
        requires soon { IsSoon row.now }
        requires some { 0 < row.now.bytes }
        requires count { self.old.transport.bytes + row.now.bytes ≤ 2 ^ 40 }
        requires none { ended.old ≡ None }
        ensures view { (parts : List Part) → IsViewOf self.old parts →
            IsViewOf self.new (Passes (times_of row.now) ∷ parts) }
        ensures buffer { self.new.transport ≡ entered self.old.transport (times_of row.now) }
        ensures transport { result ≡ most_found self.old.transport.step self.old.transport.last (times_of row.now) }
        ensures ended { option_to_list ended.new
            ≡ excesses_ended self.old.transport.step self.old.watch.size self.old.transport.last
            self.old.watch.under_way (times_of row.now) }
        ensures size { self.new.watch.size ≡ self.old.watch.size }
        ensures unit { self.new.unit ≡ self.old.unit }
        ensures last { (latest : ℕ) →
            self.old.transport.last ≤ latest + self.old.transport.bytes * self.old.transport.step →
            row.now.from + row.now.bytes * row.now.pace ≤ latest * row.now.parts →
            self.new.transport.last ≤ latest + self.new.transport.bytes * self.new.transport.step }
    {
        arrive(&mut self.transport, &mut self.watch, row, ended).most
    }

    /// Takes payload bytes of the current unit, including its PES header, and returns what they find. They enter the
    /// main buffer as they leave the transport buffer, and stay there until the unit is due; before the first unit no
    /// byte enters. Writes the excess of the transport buffer that has ended into an empty place, so that it is not
    /// moved.
    #[inline(always)]
    pub fn carry(&mut self, row: &Row, ended: &mut Option<Excess>) -> Carried
        requires timed { IsTimed row.now }
        requires soon { IsSoon row.now }
        requires some { 0 < row.now.bytes }
        requires count { self.old.transport.bytes + row.now.bytes ≤ 2 ^ 40 }
        requires none { ended.old ≡ None }
        ensures view { (parts : List Part) → IsViewOf self.old parts →
            IsViewOf self.new (Carries (times_of row.now) ∷ parts) }
        ensures buffer { self.new.transport ≡ entered self.old.transport (times_of row.now) }
        ensures transport { result.found.transport
            ≡ most_found self.old.transport.step self.old.transport.last (times_of row.now) }
        ensures ended { option_to_list ended.new
            ≡ excesses_ended self.old.transport.step self.old.watch.size self.old.transport.last
            self.old.watch.under_way (times_of row.now) }
        ensures main { let left : List ℕ =
            departures self.old.transport.step self.old.transport.last (times_of row.now) in
            result.found.main ≡ greatest_at (fullness_with self.old.main left) left }
        ensures least { result.found.least
            ≡ least_in self.old.main None
            (departures self.old.transport.step self.old.transport.last (times_of row.now)) }
        ensures size { self.new.watch.size ≡ self.old.watch.size }
        ensures unit { self.new.unit ≡ with_bytes self.old.unit row.now.bytes self.new.transport.last }
        ensures under_way { self.new.watch.under_way
            ≡ excess_after self.old.transport.step self.old.watch.size self.old.transport.last
            self.old.watch.under_way (times_of row.now) }
        ensures left { times_left result.leaving
            ≡ departures self.old.transport.step self.old.transport.last (times_of row.now) }
        ensures rows { IsTimed result.leaving.waiting × IsTimed result.leaving.free }
        ensures many { result.leaving.waiting.bytes + result.leaving.free.bytes ≡ row.now.bytes }
        ensures last { (latest : ℕ) →
            self.old.transport.last ≤ latest + self.old.transport.bytes * self.old.transport.step →
            row.now.from + row.now.bytes * row.now.pace ≤ latest * row.now.parts →
            LeaveSoon self.new.transport.step self.new.transport.bytes self.new.transport.last result.leaving latest }
    {
        let arrived = arrive(&mut self.transport, &mut self.watch, row, ended);
        let found = enter_leaving(&mut self.main, &arrived.leaving);
        add_bytes(&mut self.unit, row.bytes, self.transport.last);
        Carried {
            found: RowFound {
                transport: arrived.most,
                main: found.most,
                least: found.least,
            },
            leaving: arrived.leaving,
        }
    }

    /// Begins a unit with the next payload byte; returns the unit before it, which is whole. If memory runs out, the
    /// current unit continues.
    pub fn begin(&mut self, due: DueTime) -> Result<Option<UnitSeen>, AllocError>
        ensures view { OnOk result ((parts : List Part) → IsViewOf self.old parts →
            IsViewOf self.new (Begins due ∷ parts)) }
        ensures before { IfOk result (λ unit. unit ≡ self.old.unit) }
        ensures err { OnErr result ((parts : List Part) → IsViewOf self.old parts → IsViewOf self.new parts) }
        ensures transport { self.new.transport ≡ self.old.transport }
        ensures watch { self.new.watch ≡ self.old.watch }
    {
        let Ok(()) = self.main.begin(due.until) else {
            return Err(AllocError);
        };
        let before = self.unit;
        self.unit = Some(UnitSeen {
            due,
            bytes: 0,
            left: 0,
        });
        Ok(before)
    }
}
