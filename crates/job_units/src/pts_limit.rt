//! How long after its DTS a unit may be presented.

ghost use Rattle.std.specs.Prelude.{◌≡◌};
ghost use Rattle.job_units.specs.Moments as spec;

use es_buffers::longest_stay;
use es_moments::max_pts_after;
use job_programs::{TimedStream, WireStream};

// The limit of a PTS after its DTS in a description without the key, in units of 90 kHz: a second.
const DEFAULT: u64 = 90_000;

// Returns how long a byte may stay in the decoder of a stream, in units of 90 kHz.
fn pts_limit_of(stream_type: u8, descriptors: &[u8]) -> u32
    ensures { result ≡ spec.pts_limit_of stream_type descriptors.now }
{
    90_000 * longest_stay(stream_type, descriptors)
}

/// Returns how long after its DTS a unit of a stream may be presented, in units of 90 kHz.
pub(crate) fn stream_limit(stream: &WireStream<'_>) -> u32
    ensures { result ≡ spec.pts_limit_of stream.now.stream_type stream.now.descriptors }
{
    pts_limit_of(stream.stream_type, &stream.descriptors)
}

/// Returns the limit that a description has to say of a stream: if a unit is presented over a second after its DTS.
#[tactic(auto, unfolding(crate::specs::Moments::declared_limit))]
pub fn declared_limit(stream: &TimedStream) -> Option<u32>
    ensures { result ≡ spec.declared_limit stream.now.stream_type stream.now.descriptors stream.now.units }
{
    if max_pts_after(&stream.units) <= DEFAULT {
        None
    } else {
        Some(pts_limit_of(stream.stream_type, &stream.descriptors))
    }
}
