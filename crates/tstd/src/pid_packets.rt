//! Packets of a PID.
ghost use Rattle.std.specs.Prelude.{◌≡◌, ◌≤◌, IfSome};
ghost use Rattle.ts_packet.specs.Reading.{packet_at};
ghost use Rattle.tstd.specs.PidPackets.{size_in};

use ts_packet::read_packet;

/// Returns the size of the payload of a packet, if it is a packet of this PID.
#[tactic(auto, unfolding(crate::specs::PidPackets::size_in))]
pub fn size_on(pid: u16, packet: &[u8; 188]) -> Option<u64>
    ensures size { result ≡ size_in pid (packet_at packet.now) }
    ensures bound { IfSome result (λ size. size ≤ 188) }
{
    match read_packet(packet) {
        Ok(packet) if packet.header.pid == pid && !packet.header.transport_error_indicator => {
            Some(packet.payload.map_or(0, |payload| payload.len() as u64))
        }
        _ => None,
    }
}
