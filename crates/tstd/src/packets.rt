//! Packets of a PID, and of a program's tables.
ghost use Rattle.std.specs.Prelude.{◌≡◌};
ghost use Rattle.ts_packet.specs.Reading.{packet_at};
ghost use Rattle.tstd.specs.PacketLists.{payload_in, is_of_tables};

use ts_packet::read_packet;

/// Returns the payload of a packet, no bytes if it is not a packet of this PID.
#[tactic(auto, unfolding(crate::specs::PacketLists::payload_in))]
pub fn payload_on(pid: u16, packet: &[u8; 188]) -> &[u8]
    ensures { result.now ≡ payload_in pid (packet_at packet.now) }
{
    match read_packet(packet) {
        Ok(packet) if packet.header.pid == pid && !packet.header.transport_error_indicator => {
            packet.payload.unwrap_or(&[])
        }
        _ => &[],
    }
}

/// Returns whether a packet enters the buffers of the tables of the program with this PMT.
#[tactic(auto, unfolding(crate::specs::PacketLists::is_of_tables))]
pub fn is_of_tables(pmt_pid: u16, packet: &[u8; 188]) -> bool
    ensures { result ≡ is_of_tables pmt_pid (packet_at packet.now) }
{
    match read_packet(packet) {
        Ok(packet) => {
            (packet.header.pid == 0 || packet.header.pid == pmt_pid)
                && !packet.header.transport_error_indicator
        }
        Err(_) => false,
    }
}
