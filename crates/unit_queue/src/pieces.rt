//! A PES packet cut into the payloads of transport packets (ISO/IEC 13818-1, 2.4.3.3): 184 bytes each, the last the
//! rest; the first 182 if a decoder may begin with the unit (2.4.3.5).

ghost use Rattle.std.specs.Prelude.{◌≡◌, ◌≤◌, ◌<◌, ◌+◌, ◌-◌, ◌++◌, ◌==◌, ◌^◌, true, length, take, drop};
ghost use Rattle.pes_packet.specs.Marks.{field_size};
ghost use Rattle.pes_packet.specs.Payloads.{piece_count};
ghost use Rattle.slot_contents.specs.Contents.{packet_of};
ghost use Rattle.ts_packet.specs.Beginnings.{room_of, start_by};
ghost use Rattle.unit_queue.specs.QueueSteps.{goes_on, part_content, payload_or_null};

use pes_packet::field_size;
use ts_packet::{
    MAX_PAYLOAD, Start, write_null_packet_into, write_payload_into, write_split_payload_into,
};

/// Writes the packet after the first `sent` bytes of a PES packet, its header and then the unit, into `packet`, and
/// returns whether more packets follow it. The counter is taken modulo 16. If a decoder may begin with the unit, two
/// bytes of the adaptation field of its first packet are in front of the PES packet, and count in `sent`.
pub fn write_piece(
    packet: &mut [u8; 188],
    pid: u16,
    counter: u8,
    access: bool,
    header: &[u8],
    bytes: &[u8],
    sent: usize,
) -> bool
    requires pid { pid < 2 ^ 13 }
    requires header { length header.now ≤ 45 }
    ensures packet { packet.new ≡ packet_of (part_content pid counter access (header.now ++ bytes.now) sent) }
    ensures more { result ≡ goes_on access (header.now ++ bytes.now) sent }
    ensures within { result ≡ true → sent + 184 < 2 ^ 64 }
{
    let start = Start::of_unit(sent == 0, access);
    let from = sent.saturating_sub(field_size(access));
    let room = part_room(access, sent);
    write_part(packet, pid, counter, start, header, bytes, from, room);
    left_after(access, header, bytes, sent) > MAX_PAYLOAD
}

// Returns the greatest payload of the packet after the first `sent` bytes of a PES packet and of the field in front of
// it.
fn part_room(access: bool, sent: usize) -> usize
    ensures value { result ≡ 184 - (field_size access - sent) }
    ensures lower { 182 ≤ result }
    ensures upper { result ≤ room_of (start_by (sent == 0) access) }
{
    MAX_PAYLOAD - field_size(access).saturating_sub(sent)
}

// Returns the number of bytes after the first `sent` bytes.
fn left_after(access: bool, header: &[u8], bytes: &[u8], sent: usize) -> usize
    requires { length header.now ≤ 45 }
    ensures value { result ≡ field_size access + length (header.now ++ bytes.now) - sent }
    ensures within { 184 < result → sent + 184 < 2 ^ 64 }
{
    let size = field_size(access) + header.len() + bytes.len();
    size.saturating_sub(sent)
}

// Writes the packet of at most `room` bytes after the first `from` of a PES packet, its header and then the unit.
fn write_part(
    packet: &mut [u8; 188],
    pid: u16,
    counter: u8,
    start: Start,
    header: &[u8],
    bytes: &[u8],
    from: usize,
    room: usize,
)
    requires pid { pid < 2 ^ 13 }
    requires header { length header.now ≤ 45 }
    requires lower { 45 ≤ room }
    requires upper { room ≤ room_of start }
    ensures { packet.new ≡ packet_of (payload_or_null pid counter start
        (take room (drop from (header.now ++ bytes.now)))) }
{
    let size = header.len();
    if from < size {
        let (_, front) = header.split_at(from);
        write_front(packet, pid, counter, start, front, bytes, room);
    } else {
        let rest = bytes_from(bytes, from - size);
        let (payload, _) = rest.split_at(rest.len().min(room));
        write_payload(packet, pid, counter, start, payload);
    }
}

/// Returns the number of packets that `size` bytes need.
pub(crate) fn packet_count(size: usize) -> u64
    requires { size < 2 ^ 63 }
    ensures { result ≡ piece_count size }
{
    size.div_ceil(MAX_PAYLOAD) as u64
}

// Returns the bytes from number `start` on.
#[tactic(auto, using(std::proofs::lemmas::List::drop_min))]
fn bytes_from(bytes: &[u8], start: usize) -> &[u8]
    ensures { result.now ≡ drop start bytes.now }
{
    let (_, rest) = bytes.split_at(start.min(bytes.len()));
    rest
}

// Writes the packet of a payload of at most `room` bytes that begins with these bytes of the header.
fn write_front(
    packet: &mut [u8; 188],
    pid: u16,
    counter: u8,
    start: Start,
    header: &[u8],
    bytes: &[u8],
    room: usize,
)
    requires pid { pid < 2 ^ 13 }
    requires some { 0 < length header.now }
    requires lower { length header.now ≤ room }
    requires upper { room ≤ room_of start }
    ensures { packet.new ≡ packet_of (payload_or_null pid counter start (take room (header.now ++ bytes.now))) }
{
    let left = room - header.len();
    let (front, _) = bytes.split_at(bytes.len().min(left));
    write_split_payload(packet, pid, counter, start, header, front);
}

// Writes the packet of a payload, or the null packet if the payload has no bytes.
#[tactic(auto, unfolding(crate::specs::QueueSteps::payload_or_null, slot_contents::specs::Contents::packet_of))]
fn write_payload(packet: &mut [u8; 188], pid: u16, counter: u8, start: Start, payload: &[u8])
    requires pid { pid < 2 ^ 13 }
    requires upper { length payload.now ≤ room_of start }
    ensures { packet.new ≡ packet_of (payload_or_null pid counter start payload.now) }
{
    if payload.is_empty() {
        write_null_packet_into(packet);
    } else {
        write_payload_into(packet, pid, start, counter % 16, payload);
    }
}

// Writes the packet of a payload in two slices; `first` is not empty.
#[tactic(auto, unfolding(crate::specs::QueueSteps::payload_or_null, slot_contents::specs::Contents::packet_of))]
fn write_split_payload(
    packet: &mut [u8; 188],
    pid: u16,
    counter: u8,
    start: Start,
    first: &[u8],
    rest: &[u8],
)
    requires pid { pid < 2 ^ 13 }
    requires lower { 0 < length first.now }
    requires upper { length first.now + length rest.now ≤ room_of start }
    ensures { packet.new ≡ packet_of (payload_or_null pid counter start (first.now ++ rest.now)) }
{
    write_split_payload_into(packet, pid, start, counter % 16, first, rest);
}
