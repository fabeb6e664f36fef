//! Reading a packet.
ghost use Rattle.std.specs.Prelude.{◌≡◌, length, IfOk, IsOkAnd};
ghost use Rattle.bit_fields.specs.Reading.{Gives};
ghost use Rattle.ts_packet.specs.Syntax.{IsPacket};
ghost use Rattle.ts_packet.specs.Views.{PacketView, packet_view};
ghost use Rattle.ts_packet.specs.Reading.{header_of, body_at, packet_at};

use crate::field_reading::field_at;
use crate::header::Header;
use crate::packet::{Packet, PacketError};

#[tactic(auto, unfolding(crate::specs::Reading::header_of))]
fn header_of(bytes: &[u8; 188]) -> Header
    ensures { result ≡ header_of bytes.now }
{
    Header {
        transport_error_indicator: bytes[1] >> 7 & 1 == 1,
        payload_unit_start_indicator: bytes[1] >> 6 & 1 == 1,
        transport_priority: bytes[1] >> 5 & 1 == 1,
        pid: u16::from_be_bytes([bytes[1] & 0x1f, bytes[2]]),
        transport_scrambling_control: bytes[3] >> 6,
        continuity_counter: bytes[3] & 0x0f,
    }
}

// Reads what follows the header. It stays a call of its own: most packets have no adaptation field.
#[inline(never)]
#[tactic(auto, unfolding(crate::specs::Reading::body_at))]
fn body_at(header: Header, control: u8, bytes: &[u8]) -> Result<Packet<'_>, PacketError>
    requires { length bytes.now ≡ 184 }
    ensures { Gives packet_view result (body_at header control bytes.now) }
{
    match control {
        0 => Err(PacketError::ReservedControl),
        1 => Ok(Packet {
            header,
            adaptation: None,
            payload: Some(bytes),
        }),
        2 => {
            let (adaptation, _) = field_at(183, bytes)?;
            Ok(Packet {
                header,
                adaptation: Some(adaptation),
                payload: None,
            })
        }
        _ => {
            let (adaptation, payload) = field_at(182, bytes)?;
            Ok(Packet {
                header,
                adaptation: Some(adaptation),
                payload: Some(payload),
            })
        }
    }
}

#[inline(always)]
#[tactic(auto, unfolding(crate::specs::Reading::packet_at, crate::specs::Reading::body_at))]
fn packet_at(bytes: &[u8; 188]) -> Result<Packet<'_>, PacketError>
    ensures { Gives packet_view result (packet_at bytes.now) }
{
    if bytes[0] != 0x47 {
        return Err(PacketError::Sync);
    }
    let (_header, rest) = bytes.split_at(4);
    let header = header_of(bytes);
    let control = bytes[3] >> 4 & 3;
    if control != 1 {
        return body_at(header, control, rest);
    }
    Ok(Packet {
        header,
        adaptation: None,
        payload: Some(rest),
    })
}

/// Reads a packet. Its slices borrow from these 188 bytes. Where an adaptation field without payload is shorter than
/// 183 bytes, the bytes after it are not read.
pub fn read_packet(bytes: &[u8; 188]) -> Result<Packet<'_>, PacketError>
    // The bytes encode this packet.
    ensures found { IfOk result (λ packet. IsPacket bytes.now (packet_view packet)) }

    // What the bytes say is read.
    ensures only { (packet : PacketView) → IsPacket bytes.now packet →
        IsOkAnd result (λ read. packet_view read ≡ packet) }

    // Which refusal it is.
    ensures exact { Gives packet_view result (packet_at bytes.now) }
{
    packet_at(bytes)
}
