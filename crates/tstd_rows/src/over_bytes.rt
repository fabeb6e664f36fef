//! Which bytes of a row find no room in a buffer: the last bytes if they arrive no slower than they leave, otherwise
//! the first.
ghost use Rattle.std.specs.Prelude.{◌≡◌, ◌+◌, ◌*◌, ◌<◌, ◌≤◌, ◌^◌, max, true, false, ◌++◌};
ghost use Rattle.clock27.specs.Departure.{last_left};
ghost use Rattle.arrival.specs.Rows.{IsTimed, first_bytes, other_bytes, times_of};
ghost use Rattle.tstd_rows.specs.Buffers.{IsSoon};
ghost use Rattle.tstd_rows.specs.Excesses.{AreOver};

use crate::leaving::leave;
use arrival::{Row, multiples_below};

/// A row split in two, and when the last byte before the second part leaves.
#[derive(Clone, Copy)]
pub(crate) struct SplitRow {
    pub first: Row,
    pub others: Row,
    pub prev: u128,
}

// Splits a row after its first `count` bytes.
fn split(step: u64, prev: u128, row: &Row, count: u64) -> SplitRow
    requires some { 0 < step }
    requires step { step ≤ 2 ^ 40 }
    requires prev { prev ≤ 2 ^ 86 + 2 ^ 81 }
    requires timed { IsTimed row.now }
    requires soon { IsSoon row.now }
    requires bytes { row.now.bytes ≤ 2 ^ 40 }
    requires count { count ≤ row.now.bytes }
    ensures first { result.first ≡ first_bytes row.now count }
    ensures others { result.others ≡ other_bytes row.now count }
    ensures times { times_of result.first ++ times_of result.others ≡ times_of row.now }
    ensures timed { IsTimed result.first × IsTimed result.others }
    ensures early { IsSoon result.first × IsSoon result.others }
    ensures last { result.prev ≡ last_left step prev (times_of result.first) }
    ensures soon { result.prev ≤ max (2 ^ 86 + 2 ^ 69) prev + result.first.bytes * step }
{
    let (first, others) = row.split_at(count);
    let prev = if count == 0 {
        prev
    } else {
        leave(step, prev, &first).last
    };
    SplitRow {
        first,
        others,
        prev,
    }
}

/// Splits bytes that arrive no slower than they leave: the first bytes find room, and the rest do not.
pub(crate) fn split_fast(step: u64, size: u64, prev: u128, row: &Row) -> SplitRow
    requires some { 0 < step }
    requires step { step ≤ 2 ^ 40 }
    requires prev { prev ≤ 2 ^ 86 + 2 ^ 81 }
    requires size { 0 < size }
    requires bound { size ≤ 2 ^ 40 }
    requires timed { IsTimed row.now }
    requires soon { IsSoon row.now }
    requires bytes { 0 < row.now.bytes }
    requires count { row.now.bytes ≤ 2 ^ 40 }
    requires fast { row.now.pace ≤ step * row.now.parts }
    ensures times { times_of result.first ++ times_of result.others ≡ times_of row.now }
    ensures timed { IsTimed result.first × IsTimed result.others }
    ensures early { IsSoon result.first × IsSoon result.others }
    ensures few { result.first.bytes + result.others.bytes ≡ row.now.bytes }
    ensures last { result.prev ≡ last_left step prev (times_of result.first) }
    ensures soon { result.prev ≤ max (2 ^ 86 + 2 ^ 69) prev + result.first.bytes * step }
    ensures first { AreOver false step size prev (times_of result.first) }
    ensures others { AreOver true step size result.prev (times_of result.others) }
{
    let first = row.time(0).max(prev);
    let parts = u128::from(row.parts);
    let room = (row.from + u128::from(size - 1) * u128::from(step) * parts + 1).saturating_sub(
        first * parts,
    );
    let gain = u128::from(step) * parts - u128::from(row.pace);
    split(step, prev, row, multiples_below(room, gain, row.bytes))
}

/// Splits bytes that arrive no faster than they leave: the first bytes find no room, and the rest do.
pub(crate) fn split_slow(step: u64, size: u64, prev: u128, row: &Row) -> SplitRow
    requires some { 0 < step }
    requires step { step ≤ 2 ^ 40 }
    requires prev { prev ≤ 2 ^ 86 + 2 ^ 81 }
    requires size { 0 < size }
    requires bound { size ≤ 2 ^ 40 }
    requires timed { IsTimed row.now }
    requires soon { IsSoon row.now }
    requires bytes { 0 < row.now.bytes }
    requires count { row.now.bytes ≤ 2 ^ 40 }
    requires slow { step * row.now.parts ≤ row.now.pace }
    ensures times { times_of result.first ++ times_of result.others ≡ times_of row.now }
    ensures timed { IsTimed result.first × IsTimed result.others }
    ensures early { IsSoon result.first × IsSoon result.others }
    ensures few { result.first.bytes + result.others.bytes ≡ row.now.bytes }
    ensures last { result.prev ≡ last_left step prev (times_of result.first) }
    ensures soon { result.prev ≤ max (2 ^ 86 + 2 ^ 69) prev + result.first.bytes * step }
    ensures first { AreOver true step size prev (times_of result.first) }
    ensures others { AreOver false step size result.prev (times_of result.others) }
{
    let parts = u128::from(row.parts);
    let room = (prev * parts).saturating_sub(
        row.from + u128::from(size - 1) * u128::from(step) * parts,
    );
    let gain = u128::from(row.pace) - u128::from(step) * parts;
    split(step, prev, row, multiples_below(room, gain, row.bytes))
}
