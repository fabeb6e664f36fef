//! The two buffers of a program's tables.
ghost use Rattle.std.specs.Prelude.{◌≡◌, ℕ, List, [], ◌++◌, ◌+◌, ◌*◌, ◌<◌, ◌≤◌, ◌^◌, max, IfSome, OnOk};
ghost use Rattle.std.specs.Option.{option_to_list};
ghost use Rattle.arrival.specs.Rows.{IsTimed, times_of};
ghost use Rattle.tstd.specs.Queues.{bytes_within};
ghost use Rattle.tstd_rows.specs.EvenBytes.{AreEven, PassEvenly};
ghost use Rattle.tstd_rows.specs.Limits.{bsys_size, tb_size};
ghost use Rattle.tstd_rows.specs.SystemViewed.{IsSystemViewOf};
ghost use Rattle.tstd_rows.specs.TableQueues.{AreInTime};
ghost use Rattle.tstd_rows.specs.TableRows.{HavePassed};
ghost use Rattle.tstd_rows.specs.WatchedQueues.{all_entered, empty_queue, ended_by, left_at};

use crate::even_bytes::{EvenBytes, even_bytes};
use crate::excess::Excess;
use crate::system_buffers::{EndedExcesses, SYSTEM_BYTES, SystemView, TABLE_TRANSPORT_BYTES};
use crate::watched_queue::WatchedQueue;
use arrival::Row;
use std::alloc::AllocError;

// Passes the bytes of a row one by one through both buffers, after `before` earlier bytes. Appends the excesses that
// have ended.
fn pass_bytes(
    transport: &mut WatchedQueue,
    system: &mut WatchedQueue,
    before: u64,
    row: &Row,
    ended: &mut EndedExcesses,
) -> Result<(), AllocError>
    requires in_time { AreInTime transport.old system.old before }
    requires timed { IsTimed row.now }
    requires count { before + row.now.bytes ≤ 2 ^ 40 }
    ensures passed { OnOk result
        (HavePassed (times_of row.now) transport.old system.old transport.new system.new ended.old ended.new) }
    ensures in_time { AreInTime transport.new system.new (before + row.now.bytes) }
{
    for j in 0..row.bytes {
        let left = transport.arrive(row.time(j), &mut ended.transport)?;
        system.arrive(left, &mut ended.system)?;
    }
    Ok(())
}

// Returns the bytes of a row as they arrive, as they pass from the first buffer to the second, and as they leave, if
// they do so at an even pace and each byte finds room in both buffers.
fn ways_of(
    transport: &WatchedQueue,
    system: &WatchedQueue,
    row: &Row,
) -> Option<(EvenBytes, EvenBytes, EvenBytes)>
    requires step { transport.now.queue.step ≤ 2 ^ 33 }
    requires system_step { system.now.queue.step ≤ 2 ^ 33 }
    requires timed { IsTimed row.now }
    requires count { row.now.bytes ≤ 2 ^ 40 }
    requires last { transport.now.queue.last < 2 ^ 99 }
    requires left { system.now.queue.last < 2 ^ 99 }
    ensures even { IfSome result (λ ways. AreEven ways.0 (times_of row.now)) }
    ensures first { IfSome result (λ ways. PassEvenly transport.now ways.0 ways.1) }
    ensures second { IfSome result (λ ways. PassEvenly system.now ways.1 ways.2) }
    ensures soon { IfSome result (λ ways.
        ways.1.last ≤ max (2 ^ 87) transport.now.queue.last + row.now.bytes * transport.now.queue.step) }
    ensures system_soon { IfSome result (λ ways.
        ways.2.last ≤ max ways.1.last system.now.queue.last + row.now.bytes * system.now.queue.step) }
    ensures later { IfSome result (λ ways. transport.now.queue.last ≤ ways.1.last) }
    ensures system_later { IfSome result (λ ways. system.now.queue.last ≤ ways.2.last) }
{
    let come = even_bytes(row)?;
    let between = transport.leaving(&come)?;
    let left = system.leaving(&between)?;
    Some((come, between, left))
}

// Appends an excess, if one has ended.
fn append(ended: &mut Vec<Excess>, excess: Option<Excess>) -> Result<(), AllocError>
    ensures { OnOk result (ended.new.items ≡ ended.old.items ++ option_to_list excess) }
{
    if let Some(excess) = excess {
        ended.push(excess)?;
    }
    Ok(())
}

// Passes the bytes of a row through both buffers, after `before` earlier bytes. Appends the excesses that have ended.
fn pass_row(
    transport: &mut WatchedQueue,
    system: &mut WatchedQueue,
    before: u64,
    row: &Row,
    ended: &mut EndedExcesses,
) -> Result<(), AllocError>
    requires in_time { AreInTime transport.old system.old before }
    requires timed { IsTimed row.now }
    requires count { before + row.now.bytes ≤ 2 ^ 40 }
    ensures passed { OnOk result
        (HavePassed (times_of row.now) transport.old system.old transport.new system.new ended.old ended.new) }
    ensures in_time { AreInTime transport.new system.new (before + row.now.bytes) }
{
    let Some((come, between, left)) = ways_of(transport, system, row) else {
        return pass_bytes(transport, system, before, row, ended);
    };
    let first = transport.pass(&come, &between);
    let second = system.pass(&between, &left);
    append(&mut ended.transport, first)?;
    append(&mut ended.system, second)
}

impl SystemView {
    /// Returns empty buffers, on the scale of a buffer drained at 2,000,000 bits a second: at a buffer of the stream's
    /// own rate a byte takes `step`, so that it takes two steps to leave the first, which is drained at 1,000,000 bits
    /// a second; it takes `system_step` to leave the second. At a constant rate `step` is that rate, by clock
    /// references 216,000,000.
    pub fn new(step: u64, system_step: u64) -> SystemView
        requires some { 0 < step }
        requires slow { step ≤ 2 ^ 28 }
        requires system_some { 0 < system_step }
        requires system_slow { system_step ≤ 2 ^ 33 }
        ensures view { IsSystemViewOf result step system_step [] }
        ensures transport { result.transport ≡ empty_queue (2 * step) tb_size }
        ensures system { result.system ≡ empty_queue system_step bsys_size }
        ensures bytes { result.bytes ≡ 0 }
    {
        SystemView {
            transport: WatchedQueue::new(2 * step, TABLE_TRANSPORT_BYTES),
            system: WatchedQueue::new(system_step, SYSTEM_BYTES),
            bytes: 0,
        }
    }

    /// Takes the bytes of packets of the program's tables: all bytes of their packets. Appends the excesses that have
    /// ended.
    pub fn pass(&mut self, row: &Row, ended: &mut EndedExcesses) -> Result<(), AllocError>
        requires timed { IsTimed row.now }
        requires count { self.old.bytes + row.now.bytes ≤ 2 ^ 40 }
        ensures view { (step system_step : ℕ) (times : List ℕ) → IsSystemViewOf self.old step system_step times →
            OnOk result (IsSystemViewOf self.new step system_step (times ++ times_of row.now)) }
        ensures transport { OnOk result (self.new.transport ≡ all_entered self.old.transport (times_of row.now)) }
        ensures system { OnOk result (self.new.system
            ≡ all_entered self.old.system (left_at self.old.transport (times_of row.now))) }
        ensures bytes { self.new.bytes ≡ self.old.bytes + row.now.bytes }
        ensures transport_ended { OnOk result (ended.new.transport.items
            ≡ ended.old.transport.items ++ ended_by self.old.transport (times_of row.now)) }
        ensures system_ended { OnOk result (ended.new.system.items
            ≡ ended.old.system.items ++ ended_by self.old.system (left_at self.old.transport (times_of row.now))) }
    {
        let result = pass_row(
            &mut self.transport,
            &mut self.system,
            self.bytes,
            row,
            ended,
        );
        self.bytes += row.bytes;
        result
    }

    /// Returns the most bytes that were in the first buffer together.
    pub fn transport_most(&self) -> u128
        ensures { result ≡ bytes_within self.now.transport.queue.step self.now.transport.queue.longest_residence }
    {
        self.transport.queue.peak()
    }

    /// Returns the most bytes that were in the second buffer together.
    pub fn system_most(&self) -> u128
        ensures { result ≡ bytes_within self.now.system.queue.step self.now.system.queue.longest_residence }
    {
        self.system.queue.peak()
    }
}
