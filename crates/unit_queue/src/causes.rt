//! The causes of a refusal, in their order.

ghost use Rattle.std.specs.Prelude.{◌≡◌};
ghost use Rattle.unit_queue.specs.Causes.{is_bad_pts, own_cause, time_cause, packets_cause, room_cause};

use crate::refusal::FeedError;
use pes_packet::Unit;
use std::alloc::Allocator;
use unit_timing::allowance::Allowance;

// No DTS over this is accepted.
const MAX_DTS: u64 = 1 << 52;

/// Returns the first cause within the unit and in its distance from the unit before: it has a byte, and with its marks
/// at most `largest` bytes, its DTS is `min_next_dts` or later, and its PTS at most `limit` after its DTS.
#[tactic(auto, unfolding(crate::specs::Causes::own_cause))]
pub fn own_cause<A: Allocator>(
    largest: usize,
    limit: u32,
    min_next_dts: u64,
    unit: &Unit<A>,
) -> Option<FeedError>
    ensures { result ≡ own_cause largest limit min_next_dts unit.now }
{
    let size = unit.bytes.len();
    if size == 0 {
        Some(FeedError::Empty)
    } else if size + unit.marks.size() > largest {
        Some(FeedError::TooLarge)
    } else if unit.dts < min_next_dts {
        Some(FeedError::TooSoon)
    } else if is_bad_pts(limit, unit.dts, unit.pts) {
        Some(FeedError::BadPts)
    } else {
        None
    }
}

/// Returns the first cause that lies in its time: it is late, or its DTS is over 2^52.
#[tactic(auto, unfolding(crate::specs::Causes::time_cause))]
pub fn time_cause(late: bool, dts: u64) -> Option<FeedError>
    ensures { result ≡ time_cause late dts }
{
    if late {
        Some(FeedError::Late)
    } else if dts > MAX_DTS {
        Some(FeedError::TooFar)
    } else {
        None
    }
}

/// Returns the cause that lies in its packets: they are over what its stream declares by groups or by pace.
pub(crate) fn packets_cause(allowance: Allowance, over: bool) -> Option<FeedError>
    ensures { result ≡ packets_cause allowance over }
{
    match allowance {
        Allowance::Groups { .. } if over => Some(FeedError::Group),
        Allowance::Pace { .. } if over => Some(FeedError::Pace),
        _ => None,
    }
}

/// Returns the first cause in the room for a unit: the queue is full, or the cause `over` in its packets.
#[tactic(auto, unfolding(crate::specs::Causes::room_cause))]
pub(crate) fn room_cause(full: bool, over: Option<FeedError>) -> Option<FeedError>
    ensures { result ≡ room_cause full over }
{
    if full { Some(FeedError::Full) } else { over }
}

// Returns whether the PTS is before the DTS, or more than `limit` after it.
fn is_bad_pts(limit: u32, dts: u64, pts: u64) -> bool
    ensures { result ≡ is_bad_pts limit dts pts }
{
    pts < dts || pts - dts > u64::from(limit)
}
