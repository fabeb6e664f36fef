//! The packets that a multiplexer writes: of one payload, of one program clock reference, and null. Each can be written
//! into the 188 bytes of a caller's buffer, so that no byte of it is copied again.
ghost use Rattle.std.specs.Prelude.{◌≡◌, ◌+◌, ◌-◌, ◌≤◌, ◌<◌, ◌^◌, ◌++◌, ◌∷◌, ℕ, List, Some, length, replicate};
ghost use Rattle.ts_packet.specs.Syntax.{control_of};
ghost use Rattle.ts_packet.specs.Beginnings.{is_start, room_of};
ghost use Rattle.ts_packet.specs.Packets.{plain_header, stuffing_field, field_of, payload_packet, pcr_packet, null_packet};
ghost use Rattle.ts_packet.specs.Writing.{header_bytes, optional_bytes, adaptation_bytes};

use crate::adaptation::ClockReference;
use crate::fixed_fields::{header_bytes, reference_bytes};
use crate::header::Header;
use crate::start::Start;
use clock27::Pcr;

/// The PID of null packets (ISO/IEC 13818-1, table 2-3).
pub const NULL_PID: u16 = 0x1fff;

/// The greatest payload of a packet in bytes: its 188 bytes but for the header of 4 (ISO/IEC 13818-1, 2.4.3.2).
pub const MAX_PAYLOAD: usize = 184;

// The payload of a null packet, and stuffing of any length.
const STUFFING: [u8; 184] = [0xff; 184];

fn plain_header(pid: u16, start: bool, counter: u8) -> Header
    ensures { result ≡ plain_header pid start counter }
{
    Header {
        transport_error_indicator: false,
        payload_unit_start_indicator: start,
        transport_priority: false,
        pid,
        transport_scrambling_control: 0,
        continuity_counter: counter,
    }
}

// Returns adaptation_field_control of a packet with a payload after an adaptation field of `size` bytes in all.
#[tactic(auto, using(crate::proofs::Filling::filling))]
fn adaptation_field_control(start: Start, size: usize) -> u8
    requires { 184 ≤ size + room_of start }
    ensures value { (payload : List ℕ) → result ≡ control_of (field_of start size) (Some payload) }
    ensures below { result < 4 }
{
    if size == 0 { 1 } else { 3 }
}

// Writes an adaptation field of a length, these flags and stuffing into all of these bytes.
fn write_flags_and_stuffing(field: &mut [u8], flags: u8)
    requires lower { 1 < length field.old }
    requires upper { length field.old < 184 }
    ensures bytes { field.new ≡ (length field.old - 1) ∷ flags ∷ replicate (length field.old - 2) 0xFF }
    ensures len { length field.new ≡ length field.old }
{
    let size = field.len();
    let (front, stuffing) = field.split_at_mut(2);
    front.copy_from_slice(&[(size - 1) as u8, flags]);
    stuffing.copy_from_slice(&STUFFING[..size - 2]);
}

// Writes an adaptation field of stuffing into all of these bytes, or nothing if there are none.
#[tactic(auto, using(crate::proofs::Filling::filling))]
fn write_stuffing_field(field: &mut [u8])
    requires { length field.old < 184 }
    ensures bytes { field.new ≡ optional_bytes adaptation_bytes (stuffing_field (length field.old)) }
    ensures len { length field.new ≡ length field.old }
{
    match field.len() {
        0 => (),
        1 => field.copy_from_slice(&[0]),
        _ => write_flags_and_stuffing(field, 0),
    }
}

// Writes the adaptation field before a payload into all of these bytes, or nothing if there are none.
#[tactic(auto, using(crate::proofs::Filling::fields))]
fn write_field(start: Start, field: &mut [u8])
    requires room { 184 ≤ length field.old + room_of start }
    requires some { length field.old < 184 }
    ensures bytes { field.new ≡ optional_bytes adaptation_bytes (field_of start (length field.old)) }
    ensures len { length field.new ≡ length field.old }
{
    match start {
        Start::Continues => write_stuffing_field(field),
        Start::Begins => write_stuffing_field(field),
        Start::Access => write_flags_and_stuffing(field, 0x40),
    }
}

// Writes the header of a packet, and the adaptation field before its payload.
fn write_header_and_field(front: &mut [u8], pid: u16, start: Start, counter: u8)
    requires pid { pid < 2 ^ 13 }
    requires counter { counter < 2 ^ 4 }
    requires room { 188 ≤ length front.old + room_of start }
    requires some { length front.old < 188 }
    ensures bytes { (payload : List ℕ) → front.new
        ≡ header_bytes (plain_header pid (is_start start) counter)
        (control_of (field_of start (length front.old - 4)) (Some payload))
        ++ optional_bytes adaptation_bytes (field_of start (length front.old - 4)) }
    ensures len { length front.new ≡ length front.old }
{
    room_is(start);
    let control = adaptation_field_control(start, front.len() - 4);
    let bytes = header_bytes(plain_header(pid, start.is_start(), counter), control);
    let (header, field) = front.split_at_mut(4);
    header.copy_from_slice(&bytes);
    write_field(start, field);
}

// States that the greatest payload has 182 or 184 bytes.
fn room_is(start: Start)
    ensures least { 182 ≤ room_of start }
    ensures most { room_of start ≤ 184 }
{
    match start {
        Start::Continues => (),
        Start::Begins => (),
        Start::Access => (),
    }
}

/// Writes the packet of one payload of 1 to 184 bytes into `packet`. If the payload is shorter than 184 bytes, an
/// adaptation field of stuffing precedes it. With [`Start::Access`] the payload has at most 182 bytes, and the flags
/// of the field say so.
#[tactic(auto, unfolding(crate::specs::Packets::payload_packet, crate::specs::Writing::packet_bytes))]
pub fn write_payload_into(
    packet: &mut [u8; 188],
    pid: u16,
    start: Start,
    counter: u8,
    payload: &[u8],
)
    requires pid { pid < 2 ^ 13 }
    requires counter { counter < 2 ^ 4 }
    requires some { 0 < length payload.now }
    requires most { length payload.now ≤ room_of start }
    ensures { packet.new ≡ payload_packet pid start counter payload.now }
{
    room_is(start);
    let (front, room) = packet.split_at_mut(188 - payload.len());
    write_header_and_field(front, pid, start, counter);
    room.copy_from_slice(payload);
}

/// Writes the packet of a payload in two parts, the second after the first.
#[tactic(auto, unfolding(crate::specs::Packets::payload_packet, crate::specs::Writing::packet_bytes))]
pub fn write_split_payload_into(
    packet: &mut [u8; 188],
    pid: u16,
    start: Start,
    counter: u8,
    first: &[u8],
    rest: &[u8],
)
    requires pid { pid < 2 ^ 13 }
    requires counter { counter < 2 ^ 4 }
    requires some { 0 < length first.now }
    requires most { length first.now + length rest.now ≤ room_of start }
    ensures { packet.new ≡ payload_packet pid start counter (first.now ++ rest.now) }
{
    room_is(start);
    let size = first.len() + rest.len();
    let (front, room) = packet.split_at_mut(188 - size);
    write_header_and_field(front, pid, start, counter);
    let (before, after) = room.split_at_mut(first.len());
    before.copy_from_slice(first);
    after.copy_from_slice(rest);
}

/// Returns the packet of one payload of 1 to 184 bytes.
pub fn write_payload(pid: u16, start: Start, counter: u8, payload: &[u8]) -> [u8; 188]
    requires pid { pid < 2 ^ 13 }
    requires counter { counter < 2 ^ 4 }
    requires some { 0 < length payload.now }
    requires most { length payload.now ≤ room_of start }
    ensures { result ≡ payload_packet pid start counter payload.now }
{
    let mut packet = [0; 188];
    write_payload_into(&mut packet, pid, start, counter, payload);
    packet
}

/// Writes a packet of a PID that carries program clock references alone into `packet`: no payload, counter 15.
#[tactic(auto, unfolding(crate::specs::Packets::pcr_packet, crate::specs::Writing::packet_bytes), using(crate::proofs::Filling::clock))]
pub fn write_pcr_into(packet: &mut [u8; 188], pid: u16, pcr: Pcr)
    requires { pid < 2 ^ 13 }
    ensures { packet.new ≡ pcr_packet pid pcr }
{
    let reference = reference_bytes(ClockReference::from(pcr));
    let (header, field) = packet.split_at_mut(4);
    header.copy_from_slice(&header_bytes(plain_header(pid, false, 15), 2));
    let (front, stuffing) = field.split_at_mut(8);
    let (flags, clock) = front.split_at_mut(2);
    flags.copy_from_slice(&[183, 0x10]);
    clock.copy_from_slice(&reference);
    stuffing.copy_from_slice(&STUFFING[..176]);
}

/// Returns a packet of a PID that carries program clock references alone.
pub fn write_pcr(pid: u16, pcr: Pcr) -> [u8; 188]
    requires { pid < 2 ^ 13 }
    ensures { result ≡ pcr_packet pid pcr }
{
    let mut packet = [0; 188];
    write_pcr_into(&mut packet, pid, pcr);
    packet
}

/// Writes the null packet (ISO/IEC 13818-1, 2.4.1) into `packet`: each byte of its payload is 0xFF.
#[tactic(auto, unfolding(crate::specs::Packets::null_packet, crate::specs::Writing::packet_bytes))]
pub fn write_null_packet_into(packet: &mut [u8; 188])
    ensures { packet.new ≡ null_packet }
{
    let (header, payload) = packet.split_at_mut(4);
    header.copy_from_slice(&header_bytes(plain_header(NULL_PID, false, 0), 1));
    payload.copy_from_slice(&STUFFING);
}

/// Returns the null packet.
pub fn null_packet() -> [u8; 188]
    ensures { result ≡ null_packet }
{
    let mut packet = [0; 188];
    write_null_packet_into(&mut packet);
    packet
}
