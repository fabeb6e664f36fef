//! A section in packets.

ghost use Rattle.std.specs.Prelude.{◌≡◌, ◌+◌, ◌-◌, ◌*◌, ◌<◌, ◌++◌, ◌^◌, length, take, drop};
ghost use Rattle.std.specs.Prelude.{replicate};
ghost use Rattle.std.specs.Prelude.{is_some};
ghost use Rattle.ts_packet.specs.Beginnings.{room_of};
ghost use Rattle.slot_contents.specs.Contents.{PayloadContent, packet_of};
ghost use Rattle.table_rounds.specs.Parts.{filled, part_of, part_content};

use arrayvec::ArrayVec;
use bit_fields::append;
use ts_packet::{MAX_PAYLOAD, Start, write_null_packet_into, write_split_payload_into};

const FILL: [u8; 184] = [0xff; 184];

// Writes the packet of a payload that has these bytes, as many as fit, and then bytes 0xFF.
#[tactic(auto, unfolding(slot_contents::specs::Contents::packet_of))]
fn write_filled(packet: &mut [u8; 188], pid: u16, start: Start, counter: u8, bytes: &[u8])
    requires pid { pid < 2 ^ 13 }
    requires room { room_of start ≡ 184 }
    requires lower { 0 < length bytes.now }
    ensures { packet.new ≡ packet_of (PayloadContent pid counter start (take 184 (bytes.now ++ replicate 184 0xFF))) }
{
    let (front, _) = bytes.split_at(bytes.len().min(MAX_PAYLOAD));
    let fill = &FILL[..MAX_PAYLOAD - front.len()];
    write_split_payload_into(packet, pid, start, counter % 16, front, fill);
}

// Writes the packet of the first part of a section that fills no packet: pointer_field 0, the section and bytes 0xFF.
fn write_short_first_part(packet: &mut [u8; 188], pid: u16, counter: u8, section: &[u8])
    requires pid { pid < 2 ^ 13 }
    ensures { packet.new ≡ packet_of (PayloadContent pid counter Start.Begins (take 184 (filled section.now))) }
{
    let (front, _) = section.split_at(section.len().min(MAX_PAYLOAD - 1));
    let mut first: ArrayVec<u8, 184> = ArrayVec::new();
    first.push(0);
    append(&mut first, front);
    write_filled(packet, pid, Start::Begins, counter, &first);
}

// Writes the packet of the first part of a section, after pointer_field 0. If the part fills the packet, copies its
// bytes directly.
#[tactic(auto, unfolding(slot_contents::specs::Contents::packet_of))]
fn write_first_part(packet: &mut [u8; 188], pid: u16, counter: u8, section: &[u8])
    requires pid { pid < 2 ^ 13 }
    ensures { packet.new ≡ packet_of (PayloadContent pid counter Start.Begins (take 184 (filled section.now))) }
{
    if section.len() < MAX_PAYLOAD - 1 {
        return write_short_first_part(packet, pid, counter, section);
    }
    let (front, _) = section.split_at(MAX_PAYLOAD - 1);
    write_split_payload_into(packet, pid, Start::Begins, counter % 16, &[0], front);
}

// Writes the packet of a later part, from this byte of the section on.
fn write_later_part(packet: &mut [u8; 188], pid: u16, counter: u8, section: &[u8], from: usize)
    requires pid { pid < 2 ^ 13 }
    requires from { from < length section.now }
    ensures { packet.new ≡ packet_of (PayloadContent pid counter Start.Continues
        (take 184 (drop (from + 1) (filled section.now)))) }
{
    let (_, rest) = section.split_at(from);
    write_filled(packet, pid, Start::Continues, counter, rest);
}

/// Writes the packet of a part of a section over the bytes of `packet`, and says whether it has a payload: the null
/// packet after the section's end. The counter is taken modulo 16.
#[tactic(auto, unfolding(crate::specs::Parts::part_of, crate::specs::Parts::part_content, slot_contents::specs::Contents::packet_of))]
pub(crate) fn write_section_packet(
    packet: &mut [u8; 188],
    pid: u16,
    counter: u8,
    section: &[u8],
    part: usize,
) -> bool
    requires pid { pid < 2 ^ 13 }
    requires part { part < 2 ^ 32 }
    ensures packet { packet.new ≡ packet_of (part_content pid counter (part_of section.now part)) }
    ensures sent { result ≡ is_some (part_of section.now part) }
{
    if part == 0 {
        write_first_part(packet, pid, counter, section);
        return true;
    }
    let from = MAX_PAYLOAD * part;
    if from > section.len() {
        write_null_packet_into(packet);
        return false;
    }
    write_later_part(packet, pid, counter, section, from - 1);
    true
}
