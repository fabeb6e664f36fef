//! Bytes that enter a main buffer.
ghost use Rattle.std.specs.Prelude.{◌≡◌, ℕ, ◌+◌, ◌*◌, ◌≤◌, ◌<◌, ◌^◌, max, All, Option};
ghost use Rattle.arrival.specs.Rows.{IsTimed, times_of};
ghost use Rattle.tstd.specs.BufferState.{IsSound, fullness_at};
ghost use Rattle.tstd.specs.BufferedUnits.{one_buffered};
ghost use Rattle.tstd_rows.specs.RowEntry.{fullness_with, peak_with};
ghost use Rattle.tstd_rows.specs.Least.{least_in, lesser};

use arrival::Row;
use std::alloc::Allocator;
use tstd::MainBuffer;

// No byte of a row comes after this.
const LAST_TIME: u128 = 1 << 87;

/// Adds `count` bytes of the current unit to the buffer.
#[inline(always)]
pub(crate) fn add<A: Allocator>(buffer: &mut MainBuffer<A>, count: u64)
    requires sound { IsSound buffer.old }
    requires room { buffer.old.fullness + count < 2 ^ 64 }
    ensures sound { IsSound buffer.new }
    ensures there { (x : ℕ) →
        fullness_at buffer.new x ≡ fullness_at buffer.old x + count * one_buffered buffer.old.current.until x }
    ensures peak { buffer.new.peak ≡ max buffer.old.peak (buffer.old.fullness + count) }
    ensures fullness { buffer.new.fullness ≡ buffer.old.fullness + count }
    ensures until { buffer.new.current.until ≡ buffer.old.current.until }
{
    buffer.current.bytes += count;
    buffer.fullness += count;
    buffer.peak = buffer.peak.max(buffer.fullness);
}

/// Returns the least of a number and of the numbers so far, if any.
#[tactic(auto, unfolding(crate::specs::Least::lesser))]
pub fn lesser(least: Option<u64>, number: u64) -> Option<u64>
    ensures { result ≡ lesser least number }
{
    match least {
        None => Some(number),
        Some(least) => Some(least.min(number)),
    }
}

// Enters a byte of the current unit, or drops it if it is too late; returns how many bytes it finds there.
fn enter_byte<A: Allocator>(buffer: &mut MainBuffer<A>, moment: u128) -> u64
    requires sound { IsSound buffer.old }
    requires room { buffer.old.fullness + 1 < 2 ^ 64 }
    ensures sound { IsSound buffer.new }
    ensures there { (x : ℕ) → moment ≤ x →
        fullness_at buffer.new x ≡ fullness_at buffer.old x + one_buffered buffer.old.current.until x }
    ensures found { result ≡ fullness_at buffer.old moment }
    ensures peak { buffer.new.peak
        ≡ max buffer.old.peak (fullness_at buffer.old moment + one_buffered buffer.old.current.until moment) }
    ensures until { buffer.new.current.until ≡ buffer.old.current.until }
    ensures fullness { buffer.new.fullness ≤ buffer.old.fullness + 1 }
{
    let before = buffer.peak;
    buffer.peak = 0;
    buffer.enter(moment);
    let there = buffer.peak;
    buffer.peak = before.max(there);
    there - u64::from(moment < buffer.current.until)
}

// What the first byte of a row finds in the buffer, and the bytes that may find less.
#[derive(Clone, Copy)]
struct FirstFound {
    found: u64,
    others: Row,
}

// Enters the first bytes of a row of the current unit, up to the next moment at which bytes leave the buffer; if they
// are too late, all bytes but the last at once.
fn enter_first<A: Allocator>(buffer: &mut MainBuffer<A>, row: &Row) -> FirstFound
    requires sound { IsSound buffer.old }
    requires timed { IsTimed row.now }
    requires some { 0 < row.now.bytes }
    requires room { buffer.old.fullness + row.now.bytes < 2 ^ 64 }
    ensures sound { IsSound buffer.new }
    ensures timed { IsTimed result.others }
    ensures fewer { result.others.bytes < row.now.bytes }
    ensures later { (x : ℕ) → All (λ t. t ≤ x) (times_of row.now) → All (λ t. t ≤ x) (times_of result.others) }
    ensures there { (x : ℕ) → All (λ t. t ≤ x) (times_of row.now) →
        fullness_with buffer.new (times_of result.others) x ≡ fullness_with buffer.old (times_of row.now) x }
    ensures least { (least : Option ℕ) →
        least_in buffer.new (lesser least result.found) (times_of result.others)
        ≡ least_in buffer.old least (times_of row.now) }
    ensures peak { peak_with buffer.new (times_of result.others) ≡ peak_with buffer.old (times_of row.now) }
    ensures until { buffer.new.current.until ≡ buffer.old.current.until }
    ensures fullness { buffer.new.fullness + result.others.bytes ≤ buffer.old.fullness + row.now.bytes }
{
    let moment = row.time(0);
    let found = enter_byte(buffer, moment);
    let (_, rest) = row.split_at(1);
    let until = buffer.current.until;
    if until <= moment {
        let (_, others) = rest.split_at(rest.bytes.saturating_sub(1));
        return FirstFound { found, others };
    }
    let limit = buffer.next.min(until).min(LAST_TIME);
    if limit <= moment {
        return FirstFound {
            found,
            others: rest,
        };
    }
    let (first, others) = rest.split_before(limit);
    add(buffer, first.bytes);
    FirstFound { found, others }
}

/// Takes the bytes of a row of the current unit into the buffer, each at its time, unless it is too late for it.
/// Returns the least that any of them finds there, itself not counted, or the least so far.
pub fn enter_row<A: Allocator>(
    buffer: &mut MainBuffer<A>,
    row: &Row,
    least: Option<u64>,
) -> Option<u64>
    requires sound { IsSound buffer.old }
    requires timed { IsTimed row.now }
    requires room { buffer.old.fullness + row.now.bytes < 2 ^ 64 }
    ensures sound { IsSound buffer.new }
    ensures there { (x : ℕ) → All (λ t. t ≤ x) (times_of row.now) →
        fullness_at buffer.new x ≡ fullness_with buffer.old (times_of row.now) x }
    ensures least { result ≡ least_in buffer.old least (times_of row.now) }
    ensures peak { buffer.new.peak ≡ peak_with buffer.old (times_of row.now) }
    ensures until { buffer.new.current.until ≡ buffer.old.current.until }
    ensures fullness { buffer.new.fullness ≤ buffer.old.fullness + row.now.bytes }
{
    let mut rest = *row;
    let mut lowest = least;
    while rest.bytes > 0 {
        let first = enter_first(buffer, &rest);
        lowest = lesser(lowest, first.found);
        rest = first.others;
    }
    lowest
}
