//! Bytes that leave a buffer.
ghost use Rattle.std.specs.Prelude.{◌≡◌, ℕ, ◌+◌, ◌-◌, ◌*◌, ◌/◌, ◌<◌, ◌≤◌, ◌^◌, max, true};
ghost use Rattle.clock27.specs.Departure.{departures, last_left};
ghost use Rattle.clock27.specs.Peak.{most_found};
ghost use Rattle.arrival.specs.Rows.{IsTimed, times_of};
ghost use Rattle.tstd_rows.specs.Buffers.{IsSoon, RowsSoon, times_left, waiting_row, free_row};

use arrival::{Row, multiples_below};

/// The bytes of a row as they leave a buffer: first the waiting bytes, which leave a step apart, then the bytes that
/// find the buffer empty, which leave a step after they arrive. Either part may be empty.
#[derive(Clone, Copy)]
pub struct Leaving {
    pub waiting: Row,
    pub free: Row,
    /// When the last byte of the row leaves; if the row has no bytes, when the last byte before it leaves.
    pub last: u128,
}

// Returns the bytes of a row as they leave: the first `count` bytes wait until the byte before leaves at `prev`.
#[inline(always)]
fn leaving_rows(step: u64, prev: u128, row: &Row, count: u64, last: u128) -> Leaving
    requires step { step ≤ 2 ^ 40 }
    requires prev { prev ≤ 2 ^ 86 + 2 ^ 81 }
    requires timed { IsTimed row.now }
    requires soon { IsSoon row.now }
    requires bytes { row.now.bytes ≤ 2 ^ 40 }
    requires count { count ≤ row.now.bytes }
    ensures waiting { result.waiting ≡ waiting_row step prev count }
    ensures free { result.free ≡ free_row step row.now count }
    ensures last { result.last ≡ last }
    ensures timed { IsTimed result.waiting × IsTimed result.free }
{
    let passed = u128::from(count) * u128::from(row.pace);
    Leaving {
        waiting: Row {
            from: prev + u128::from(step),
            pace: step,
            parts: 1,
            bytes: count,
        },
        free: Row {
            from: row.from + passed + u128::from(step) * u128::from(row.parts),
            pace: row.pace,
            parts: row.parts,
            bytes: row.bytes - count,
        },
        last,
    }
}

// Returns how bytes leave that arrive no slower than they leave: all wait for the first.
#[inline(always)]
fn leave_fast(step: u64, prev: u128, row: &Row) -> Leaving
    requires some { 0 < step }
    requires step { step ≤ 2 ^ 40 }
    requires prev { prev ≤ 2 ^ 86 + 2 ^ 81 }
    requires timed { IsTimed row.now }
    requires soon { IsSoon row.now }
    requires bytes { 0 < row.now.bytes }
    requires count { row.now.bytes ≤ 2 ^ 40 }
    requires fast { row.now.pace ≤ step * row.now.parts }
    ensures left { times_left result ≡ departures step prev (times_of row.now) }
    ensures last { result.last ≡ last_left step prev (times_of row.now) }
    ensures timed { IsTimed result.waiting × IsTimed result.free }
    ensures soon { (latest : ℕ) → prev ≤ latest → row.now.from + row.now.bytes * row.now.pace ≤ latest * row.now.parts →
        RowsSoon step latest row.now.bytes result }
{
    let first = row.time(0).max(prev);
    let last = first + u128::from(row.bytes) * u128::from(step);
    leaving_rows(step, first, row, row.bytes, last)
}

// Returns how bytes leave that arrive no faster than they leave: a byte that waits does so because of bytes before the
// row.
#[inline(always)]
fn leave_slow(step: u64, prev: u128, row: &Row) -> Leaving
    requires some { 0 < step }
    requires step { step ≤ 2 ^ 40 }
    requires prev { prev ≤ 2 ^ 86 + 2 ^ 81 }
    requires timed { IsTimed row.now }
    requires soon { IsSoon row.now }
    requires bytes { 0 < row.now.bytes }
    requires count { row.now.bytes ≤ 2 ^ 40 }
    requires slow { step * row.now.parts ≤ row.now.pace }
    ensures left { times_left result ≡ departures step prev (times_of row.now) }
    ensures last { result.last ≡ last_left step prev (times_of row.now) }
    ensures timed { IsTimed result.waiting × IsTimed result.free }
    ensures soon { (latest : ℕ) → prev ≤ latest → row.now.from + row.now.bytes * row.now.pace ≤ latest * row.now.parts →
        RowsSoon step latest row.now.bytes result }
{
    let room = ((prev + 1) * u128::from(row.parts)).saturating_sub(row.from);
    let gain = u128::from(row.pace) - u128::from(step) * u128::from(row.parts);
    let count = multiples_below(room, gain, row.bytes);
    let last = if count < row.bytes {
        row.time(row.bytes - 1) + u128::from(step)
    } else {
        prev + u128::from(count) * u128::from(step)
    };
    leaving_rows(step, prev, row, count, last)
}

/// Returns whether the bytes of a row arrive no faster than they leave, and the first of them after the byte before the
/// row has left: then each byte finds the buffer empty.
#[inline(always)]
pub(crate) fn finds_empty(step: u64, prev: u128, row: &Row) -> bool
    requires step { step ≤ 2 ^ 40 }
    requires prev { prev ≤ 2 ^ 86 + 2 ^ 81 }
    requires timed { IsTimed row.now }
    ensures slow { result ≡ true → step * row.now.parts ≤ row.now.pace }
    ensures after { result ≡ true → (prev + 1) * row.now.parts ≤ row.now.from }
{
    let parts = u128::from(row.parts);
    u128::from(step) * parts <= u128::from(row.pace) && (prev + 1) * parts <= row.from
}

/// Returns how bytes leave that find the buffer empty: each a step after it arrives.
#[inline(always)]
pub(crate) fn leave_at_once(step: u64, prev: u128, row: &Row) -> Leaving
    requires some { 0 < step }
    requires step { step ≤ 2 ^ 40 }
    requires prev { prev ≤ 2 ^ 86 + 2 ^ 81 }
    requires timed { IsTimed row.now }
    requires soon { IsSoon row.now }
    requires bytes { 0 < row.now.bytes }
    requires count { row.now.bytes ≤ 2 ^ 40 }
    requires slow { step * row.now.parts ≤ row.now.pace }
    requires after { (prev + 1) * row.now.parts ≤ row.now.from }
    ensures left { times_left result ≡ departures step prev (times_of row.now) }
    ensures last { result.last ≡ last_left step prev (times_of row.now) }
    ensures timed { IsTimed result.waiting × IsTimed result.free }
    ensures soon { (latest : ℕ) → prev ≤ latest → row.now.from + row.now.bytes * row.now.pace ≤ latest * row.now.parts →
        RowsSoon step latest row.now.bytes result }
    ensures most { most_found step prev (times_of row.now) ≡ 1 }
{
    let last = row.time(row.bytes - 1) + u128::from(step);
    leaving_rows(step, prev, row, 0, last)
}

/// Returns when the bytes of a row leave, each `step` after it arrived or after the byte before it left, whichever is
/// later; the byte before the row leaves at `prev`.
#[inline(always)]
pub(crate) fn leave(step: u64, prev: u128, row: &Row) -> Leaving
    requires some { 0 < step }
    requires step { step ≤ 2 ^ 40 }
    requires prev { prev ≤ 2 ^ 86 + 2 ^ 81 }
    requires timed { IsTimed row.now }
    requires soon { IsSoon row.now }
    requires bytes { 0 < row.now.bytes }
    requires count { row.now.bytes ≤ 2 ^ 40 }
    ensures left { times_left result ≡ departures step prev (times_of row.now) }
    ensures last { result.last ≡ last_left step prev (times_of row.now) }
    ensures timed { IsTimed result.waiting × IsTimed result.free }
    ensures soon { (latest : ℕ) → prev ≤ latest → row.now.from + row.now.bytes * row.now.pace ≤ latest * row.now.parts →
        RowsSoon step latest row.now.bytes result }
{
    if u128::from(row.pace) <= u128::from(step) * u128::from(row.parts) {
        leave_fast(step, prev, row)
    } else {
        leave_slow(step, prev, row)
    }
}
