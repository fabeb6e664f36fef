//! Why a unit is refused.

ghost use Rattle.std.specs.Prelude.{◌≡◌};
ghost use Rattle.mux_core.specs.Refusals.{refusal};

use pes_packet::{Unit, greatest_size};
use std::alloc::Allocator;
use unit_queue::{FeedError, own_cause, time_cause};

// No key says how long after its DTS a unit's PTS may be.
const PTS_LIMIT: u32 = 90_000;

/// Returns the first cause of the refusal of a unit, if stream 0 is alone on its PID, its stream_id is `id`, and no
/// DTS below `min_next_dts` is accepted.
#[tactic(auto, unfolding(crate::specs::Refusals::refusal, unit_queue::specs::Causes::or_cause))]
pub(crate) fn refusal<A: Allocator>(
    id: u8,
    min_next_dts: u64,
    stream: u8,
    unit: &Unit<A>,
) -> Option<FeedError>
    ensures { result ≡ refusal id min_next_dts stream unit.now }
{
    if stream != 0 {
        return Some(FeedError::UnknownStream);
    }
    match own_cause(greatest_size(id), PTS_LIMIT, min_next_dts, unit) {
        Some(cause) => Some(cause),
        None => time_cause(false, unit.dts),
    }
}
