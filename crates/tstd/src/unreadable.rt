//! Packets that can't be read.
ghost use Rattle.std.specs.Prelude.{◌≡◌};
ghost use Rattle.tstd.specs.Refusals.{first_unreadable};

use crate::refusal::MeasureError;
use ts_packet::read_packet;

/// Returns the first packet that can't be read, if there is one.
#[tactic(auto, unfolding(crate::specs::Refusals::first_unreadable))]
pub fn first_unreadable(packets: &[[u8; 188]]) -> Option<MeasureError>
    ensures { result ≡ first_unreadable 0 packets.now }
{
    for (index, packet) in packets.iter().enumerate() {
        if let Err(error) = read_packet(packet) {
            return Some(MeasureError::Packet(index as u64, error));
        }
    }
    None
}
