//! The conditions on one unit.

ghost use Rattle.std.specs.Prelude.{◌≡◌, ◌<◌, ◌+◌, ◌-◌, ◌^◌, length};
ghost use Rattle.pes_packet.specs.Marks.{marks_size};

use pes_packet::Unit;
use std::alloc::Allocator;

/// Returns when it is due.
pub(crate) fn dts_of<A: Allocator>(unit: &Unit<A>) -> u64
    ensures { result ≡ unit.now.dts }
{
    unit.dts
}

/// Returns how long after its DTS its PTS is.
pub(crate) fn pts_after<A: Allocator>(unit: &Unit<A>) -> u64
    ensures { result ≡ unit.now.pts - unit.now.dts }
{
    unit.pts.saturating_sub(unit.dts)
}

/// Returns its size in bytes, with what its marks take.
pub(crate) fn size_of<A: Allocator>(unit: &Unit<A>) -> usize
    ensures value { result ≡ length unit.now.bytes + marks_size unit.now.marks }
    ensures bound { result < 2 ^ 63 + 28 }
{
    unit.bytes.len() + unit.marks.size()
}
