//! The most bytes that any byte of a row finds in a buffer.
ghost use Rattle.std.specs.Prelude.{◌≡◌, ◌+◌, ◌*◌, ◌<◌, ◌≤◌, ◌^◌};
ghost use Rattle.clock27.specs.Peak.{found, most_found};
ghost use Rattle.arrival.specs.Rows.{IsTimed, times_of};

use arrival::Row;

/// Returns the number of bytes in a buffer when a byte arrives at `time`, including this byte, if the byte before it
/// leaves at `prev`.
#[inline(always)]
pub(crate) fn found(step: u64, prev: u128, time: u128) -> u128
    requires some { 0 < step }
    requires prev { prev < 2 ^ 100 }
    ensures { result ≡ found step prev time }
{
    if prev <= time {
        return 1;
    }
    (prev - time + (u128::from(step) - 1)) / u128::from(step) + 1
}

/// Returns the most bytes that a byte of the row finds: the last byte if they arrive no slower than they leave,
/// otherwise the first.
#[inline(always)]
pub(crate) fn most_found(step: u64, prev: u128, row: &Row) -> u128
    requires some { 0 < step }
    requires step { step ≤ 2 ^ 40 }
    requires prev { prev ≤ 2 ^ 86 + 2 ^ 81 }
    requires timed { IsTimed row.now }
    requires bytes { 0 < row.now.bytes }
    requires count { row.now.bytes ≤ 2 ^ 40 }
    ensures { result ≡ most_found step prev (times_of row.now) }
{
    if u128::from(row.pace) <= u128::from(step) * u128::from(row.parts) {
        let first = row.time(0).max(prev);
        let later = u128::from(row.bytes - 1) * u128::from(step);
        found(step, first + later, row.time(row.bytes - 1))
    } else {
        found(step, prev, row.time(0))
    }
}
