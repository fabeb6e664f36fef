//! Writing a packet.
ghost use Rattle.std.specs.Prelude.{◌≡◌, ◌+◌, ◌≤◌, ◌<◌, ◌++◌, length};
ghost use Rattle.arrayvec.specs.ArrayVec.{array_vec_len};
ghost use Rattle.std.specs.Option.{option_map};
ghost use Rattle.ts_packet.specs.Syntax.{control_of};
ghost use Rattle.ts_packet.specs.Views.{adaptation_view, bytes_view};
ghost use Rattle.ts_packet.specs.Writing.{payload_bytes, packet_bytes, PacketFits, packet_of};

use crate::adaptation::Adaptation;
use crate::field_writing::append_adaptation;
use crate::fixed_fields::header_bytes;
use crate::header::Header;
use arrayvec::ArrayVec;
use bit_fields::append;

// Returns the array that a full vector holds.
fn whole(packet: ArrayVec<u8, 188>) -> [u8; 188]
    requires { array_vec_len packet ≡ 188 }
    ensures { result ≡ packet.items }
{
    match packet.into_inner() {
        Ok(bytes) => bytes,
        Err(_) => unreachable!(),
    }
}

// Returns adaptation_field_control.
fn control_of(adaptation: Option<&Adaptation<'_>>, payload: Option<&[u8]>) -> u8
    ensures value { result ≡ control_of (option_map (λ a. adaptation_view a.now) adaptation.entry)
        (bytes_view payload.entry) }
    ensures below { result < 4 }
{
    match (adaptation, payload) {
        (None, None) => 0,
        (None, Some(_)) => 1,
        (Some(_), None) => 2,
        (Some(_), Some(_)) => 3,
    }
}

// Appends a payload, or nothing.
fn append_payload(packet: &mut ArrayVec<u8, 188>, payload: Option<&[u8]>)
    requires { array_vec_len packet.old + length (payload_bytes (bytes_view payload)) ≤ 188 }
    ensures items { packet.new.items ≡ packet.old.items ++ payload_bytes (bytes_view payload.entry) }
    ensures len { array_vec_len packet.new
        ≡ array_vec_len packet.old + length (payload_bytes (bytes_view payload.entry)) }
{
    if let Some(payload) = payload {
        append(packet, payload);
    }
}

/// Returns the packet of a header, an adaptation field and a payload that `fits` accepts.
#[tactic(auto, unfolding(crate::specs::Writing::packet_bytes))]
pub fn write_packet(
    header: Header,
    adaptation: Option<&Adaptation<'_>>,
    payload: Option<&[u8]>,
) -> [u8; 188]
    requires { PacketFits (packet_of header adaptation payload) }
    ensures { result ≡ packet_bytes (packet_of header adaptation.entry payload.entry) }
{
    let mut packet: ArrayVec<u8, 188> = ArrayVec::new();
    let control = control_of(adaptation, payload);
    append(&mut packet, &header_bytes(header, control));
    append_adaptation(&mut packet, adaptation);
    append_payload(&mut packet, payload);
    whole(packet)
}
