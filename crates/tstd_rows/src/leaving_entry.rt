//! Bytes that enter a main buffer as they leave the transport buffer before it.
ghost use Rattle.std.specs.Prelude.{◌≡◌, ℕ, ◌+◌, ◌*◌, ◌≤◌, ◌<◌, ◌^◌, max, All, List, None, Some, true};
ghost use Rattle.clock27.specs.Peak.{Climbs, greatest_at};
ghost use Rattle.arrival.specs.Rows.{IsTimed};
ghost use Rattle.tstd_rows.specs.Buffers.{times_left};
ghost use Rattle.tstd.specs.BufferState.{IsSound, fullness_at};
ghost use Rattle.tstd.specs.BufferedUnits.{one_buffered};
ghost use Rattle.tstd_rows.specs.RowEntry.{fullness_with};
ghost use Rattle.tstd_rows.specs.Least.{least_in};

use crate::leaving::Leaving;
use crate::row_entry::{add, enter_row};
use std::alloc::Allocator;
use tstd::MainBuffer;

/// What bytes found in the main buffer as they entered it.
#[derive(Clone, Copy)]
pub struct MainFound {
    /// The most bytes in the buffer when a byte entered, including this byte.
    pub most: u64,
    /// The fewest bytes that a byte found, not counting itself; `None` if no byte entered.
    pub least: Option<u64>,
}

// Returns whether bytes that enter by `last` do so before any byte leaves the buffer.
#[inline(always)]
fn none_leaves_by<A: Allocator>(buffer: &MainBuffer<A>, last: u128) -> bool
    ensures next { result ≡ true → last < buffer.now.next }
    ensures until { result ≡ true → last < buffer.now.current.until }
{
    last < buffer.next && last < buffer.current.until
}

// Takes `count` bytes that enter before any byte leaves the buffer: each finds all bytes before it.
#[inline(always)]
fn enter_together<A: Allocator>(buffer: &mut MainBuffer<A>, count: u64) -> MainFound
    requires sound { IsSound buffer.old }
    requires room { buffer.old.fullness + count < 2 ^ 64 }
    ensures sound { IsSound buffer.new }
    ensures there { (x : ℕ) →
        fullness_at buffer.new x ≡ fullness_at buffer.old x + count * one_buffered buffer.old.current.until x }
    ensures most { result.most ≡ buffer.old.fullness + count }
    ensures least { result.least ≡ Some buffer.old.fullness }
    ensures peak { buffer.new.peak ≡ max buffer.old.peak result.most }
    ensures until { buffer.new.current.until ≡ buffer.old.current.until }
    ensures fullness { buffer.new.fullness ≡ buffer.old.fullness + count }
{
    let least = buffer.fullness;
    add(buffer, count);
    MainFound {
        most: buffer.fullness,
        least: Some(least),
    }
}

// Takes the current unit's bytes one row after the other. A call of its own: while few units end, few rows need it.
#[inline(never)]
fn enter_rows<A: Allocator>(buffer: &mut MainBuffer<A>, leaving: &Leaving) -> MainFound
    requires sound { IsSound buffer.old }
    requires timed { IsTimed leaving.now.waiting × IsTimed leaving.now.free }
    requires climbing { Climbs 0 (times_left leaving.now) }
    requires room { buffer.old.fullness + (leaving.now.waiting.bytes + leaving.now.free.bytes) < 2 ^ 64 }
    ensures sound { IsSound buffer.new }
    ensures there { (x : ℕ) → All (λ t. t ≤ x) (times_left leaving.now) →
        fullness_at buffer.new x ≡ fullness_with buffer.old (times_left leaving.now) x }
    ensures most { result.most
        ≡ greatest_at (fullness_with buffer.old (times_left leaving.now)) (times_left leaving.now) }
    ensures least { result.least ≡ least_in buffer.old None (times_left leaving.now) }
    ensures peak { buffer.new.peak ≡ max buffer.old.peak result.most }
    ensures until { buffer.new.current.until ≡ buffer.old.current.until }
    ensures fullness { buffer.new.fullness
        ≤ buffer.old.fullness + (leaving.now.waiting.bytes + leaving.now.free.bytes) }
{
    let before = buffer.peak;
    buffer.peak = 0;
    let first = enter_row(buffer, &leaving.waiting, None);
    let least = enter_row(buffer, &leaving.free, first);
    let most = buffer.peak;
    buffer.peak = before.max(most);
    MainFound { most, least }
}

/// Takes the current unit's bytes, which leave the transport buffer, into the main buffer; returns what they found
/// there.
#[inline(always)]
pub fn enter_leaving<A: Allocator>(buffer: &mut MainBuffer<A>, leaving: &Leaving) -> MainFound
    requires sound { IsSound buffer.old }
    requires timed { IsTimed leaving.now.waiting × IsTimed leaving.now.free }
    requires some { 0 < leaving.now.waiting.bytes + leaving.now.free.bytes }
    requires last { All (λ t. t ≤ leaving.now.last) (times_left leaving.now) }
    requires climbing { Climbs 0 (times_left leaving.now) }
    requires room { buffer.old.fullness + (leaving.now.waiting.bytes + leaving.now.free.bytes) < 2 ^ 64 }
    ensures sound { IsSound buffer.new }
    ensures there { (x : ℕ) → All (λ t. t ≤ x) (times_left leaving.now) →
        fullness_at buffer.new x ≡ fullness_with buffer.old (times_left leaving.now) x }
    ensures most { result.most
        ≡ greatest_at (fullness_with buffer.old (times_left leaving.now)) (times_left leaving.now) }
    ensures least { result.least ≡ least_in buffer.old None (times_left leaving.now) }
    ensures peak { buffer.new.peak ≡ max buffer.old.peak result.most }
    ensures until { buffer.new.current.until ≡ buffer.old.current.until }
    ensures fullness { buffer.new.fullness
        ≤ buffer.old.fullness + (leaving.now.waiting.bytes + leaving.now.free.bytes) }
{
    if none_leaves_by(buffer, leaving.last) {
        return enter_together(buffer, leaving.waiting.bytes + leaving.free.bytes);
    }
    // A copy, made here alone: so the rows stay out of memory where they are not needed.
    let rows = *leaving;
    enter_rows(buffer, &rows)
}
