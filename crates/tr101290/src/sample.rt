//! The clock reference of a packet.
ghost use Rattle.std.specs.Prelude.{◌≡◌, IfSome};
ghost use Rattle.ts_packet.specs.Views.{field_view, packet_view};
ghost use Rattle.arrival.specs.Clock.{IsInRange};
ghost use Rattle.tr101290.specs.Samples as spec;

use arrival::PcrSample;
use ts_packet::{Adaptation, AdaptationField, Packet};

// The last packet whose reference is within the first 2^40 bytes.
const LAST_PACKET: u64 = ((1 << 40) - 10) / 188;

// Returns the reference of an adaptation field.
#[tactic(auto, unfolding(crate::specs::Samples::sample_with))]
fn sample_in_field(index: u64, parts: &AdaptationField<'_>) -> Option<PcrSample>
    ensures value { result ≡ spec.sample_in_field index (field_view parts.now) }
    ensures range { IfSome result IsInRange }
{
    let pcr = parts.pcr?;
    if index > LAST_PACKET {
        return None;
    }
    Some(PcrSample {
        byte: 188 * index + 10,
        ticks: 300 * (pcr.base % (1 << 33)) + u64::from(pcr.extension % 512),
        discontinuity: parts.discontinuity_indicator,
    })
}

/// Returns the clock reference of a packet, if it has one: none of a packet beyond the first 2^40 bytes of a stream.
#[tactic(auto, unfolding(crate::specs::Samples::sample_in))]
pub fn pcr_sample(index: u64, packet: &Packet<'_>) -> Option<PcrSample>
    ensures value { result ≡ spec.pcr_sample index (packet_view packet.now) }
    ensures range { IfSome result IsInRange }
{
    match &packet.adaptation {
        None => None,
        Some(Adaptation::Empty) => None,
        Some(Adaptation::Flagged(parts)) => sample_in_field(index, parts),
    }
}
