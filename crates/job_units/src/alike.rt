//! Whether two streams are counted alike.

ghost use Rattle.std.specs.Prelude.{◌≡◌, IsTrue};

use crate::declarations::UnitCounts;
use stream_choice::FrameCounts;
use unit_timing::multiplexing_buffer::MultiplexingBuffer;

// Returns whether both are none, or have one leak and one size.
fn is_same_buffer(one: Option<MultiplexingBuffer>, other: Option<MultiplexingBuffer>) -> bool
    ensures { IsTrue result → one ≡ other }
{
    match (one, other) {
        (None, None) => true,
        (Some(first), Some(second)) => first.rbx == second.rbx && first.size == second.size,
        _ => false,
    }
}

// Returns whether both are none, or have the same numbers.
fn is_same_framing(one: Option<FrameCounts>, other: Option<FrameCounts>) -> bool
    ensures { IsTrue result → one ≡ other }
{
    match (one, other) {
        (None, None) => true,
        (Some(first), Some(second)) => {
            let same_times = first.frame == second.frame && first.rest == second.rest;
            first.frames == second.frames
                && same_times
                && first.left.as_slice() == second.left.as_slice()
        }
        _ => false,
    }
}

/// Returns whether two streams are counted alike.
pub(crate) fn is_alike(one: &UnitCounts, other: &UnitCounts) -> bool
    ensures { IsTrue result → one.now ≡ other.now }
{
    let (needs, others) = (one.needs, other.needs);
    let same_units = needs.interval == others.interval && needs.size == others.size;
    let same_buffers = needs.rx == others.rx && needs.main == others.main;
    same_units
        && same_buffers
        && is_same_buffer(one.multiplexing, other.multiplexing)
        && is_same_framing(one.framing, other.framing)
        && one.max_group_packets.as_slice() == other.max_group_packets.as_slice()
}
