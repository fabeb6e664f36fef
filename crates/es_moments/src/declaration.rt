//! What a stream declares of its units, counted from them.

ghost use Rattle.std.specs.Prelude.{◌≡◌, ◌≤◌, ◌<◌, ◌+◌, ◌-◌, ◌/◌, ◌^◌, ℕ, min, length};
ghost use Rattle.pes_packet.specs.Encoding.{pes_packet_bytes};
ghost use Rattle.pes_packet.specs.Marks.{field_size};
ghost use Rattle.es_moments.specs.Declaration as spec;

use crate::unit::{dts_of, pts_after, size_of};
use pes_packet::{Unit, field_size, packet_size};
use std::alloc::Allocator;

/// Returns the least time from one DTS to the next, in units of 90 kHz: at most 90,000, and 90,000 for a single unit.
pub fn min_interval<A: Allocator>(units: &[Unit<A>]) -> u32
    ensures value { result ≡ spec.min_interval units.now }
    ensures bound { result ≤ 90000 }
{
    let Some((first, rest)) = units.split_first() else {
        return 90_000;
    };
    interval_after(dts_of(first), rest)
}

// Returns the same for units after a DTS.
fn interval_after<A: Allocator>(before: u64, units: &[Unit<A>]) -> u32
    ensures value { result ≡ spec.interval_after before units.now }
    ensures bound { result ≤ 90000 }
{
    let mut least = 90_000;
    let mut last = before;
    for unit in units {
        let dts = dts_of(unit);
        least = shorter(least, dts.saturating_sub(last));
        last = dts;
    }
    least
}

/// Returns the shorter of two times.
pub(crate) fn shorter(least: u32, time: u64) -> u32
    ensures { result ≡ min least time }
{
    if time < u64::from(least) {
        time as u32
    } else {
        least
    }
}

/// Returns the size of the largest unit in bytes, with what its marks take.
pub fn max_unit_size<A: Allocator>(units: &[Unit<A>]) -> usize
    ensures value { result ≡ spec.max_unit_size units.now }
    ensures bound { result < 2 ^ 63 + 28 }
{
    let mut greatest = 0;
    for unit in units {
        greatest = greatest.max(size_of(unit));
    }
    greatest
}

/// Returns the longest time from the DTS of a unit to its PTS, in units of 90 kHz.
pub fn max_pts_after<A: Allocator>(units: &[Unit<A>]) -> u64
    ensures { result ≡ spec.max_pts_after units.now }
{
    let mut greatest = 0;
    for unit in units {
        greatest = greatest.max(pts_after(unit));
    }
    greatest
}

/// Returns the packets of a unit, whatever its stream_id.
pub(crate) fn unit_packets<A: Allocator>(base0: u64, unit: &Unit<A>) -> u64
    ensures value { (id : ℕ) →
        result ≡ (field_size unit.now.marks.random_access + length (pes_packet_bytes id base0 unit.now) + 183) / 184 }
    ensures bound { result ≤ 2 ^ 56 }
{
    (field_size(unit.marks.random_access) as u64 + packet_size(base0, unit) + 183) / 184
}

/// Returns the packets of a unit of `size` bytes with the longest header.
pub(crate) fn max_unit_packets(size: usize) -> u64
    requires { size < 2 ^ 63 + 28 }
    ensures { result ≡ spec.max_unit_packets size }
{
    (19 + size as u64 + 183) / 184
}
