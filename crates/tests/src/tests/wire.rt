//! Known values from outside, and what no clause says.

mod clocks;
mod damage;
mod devices;
mod dvb;
mod headers;
mod packets;
mod psi;
mod rounds;
mod sections;
mod vectors;

/// Returns a packet with these first bytes and 0xFF after them.
fn packet_of(front: &[u8]) -> [u8; 188] {
    let mut packet = [0xff; 188];
    for (byte, known) in packet.iter_mut().zip(front) {
        *byte = *known;
    }
    packet
}
