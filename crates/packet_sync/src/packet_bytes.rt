//! The packets of 188 bytes of a stream whose packets are of another size.

ghost use Rattle.std.specs.Prelude.{◌≡◌, ◌≤◌, ◌<◌, ◌+◌, ◌++◌, List, ℕ, IfOk, OnOk, Some, true, drop, length, replicate};
ghost use Rattle.packet_sync.specs.OtherPackets.{front_of};
ghost use Rattle.packet_sync.specs.PacketBytes as spec;

use crate::packet_sizes::{OtherPackets, bytes_apart, bytes_before};
use crate::sync_bytes::{PACKET_SIZE, SYNC_BYTE, slip_size};
use std::alloc::{AllocError, Global};

// Returns the number of bytes that decide whether the step continues after the packet at their front.
fn decisive(other: OtherPackets, ended: bool) -> usize
    ensures value { result ≡ spec.decisive other ended }
    ensures least { front_of other + 188 ≤ result }
    ensures most { result ≤ 1228 }
{
    let size = bytes_apart(other);
    bytes_before(other) + if ended { PACKET_SIZE } else { 6 * size }
}

// Appends zeros.
fn push_zeros(bytes: &mut Vec<u8>, count: usize) -> Result<(), AllocError>
    ensures { OnOk result (bytes.new.items ≡ bytes.old.items ++ replicate count 0) }
{
    let Some(all) = bytes.len().checked_add(count) else {
        return Err(AllocError);
    };
    bytes.resize(all, 0)
}

// Appends as many bytes as are left out; they are no packet.
fn push_blank(size: usize, packets: &mut Vec<u8>) -> Result<(), AllocError>
    requires { 1 ≤ size }
    ensures { OnOk result (packets.new.items ≡ packets.old.items ++ spec.blank size) }
{
    packets.push(SYNC_BYTE)?;
    push_zeros(packets, size - 1)
}

// Appends the 188 bytes of the packet at the front, or bytes for those that are left out there, and returns how many
// bytes of the stream they are.
#[tactic(auto, unfolding(crate::specs::PacketBytes::next_bytes, crate::specs::PacketBytes::next_size))]
fn push_next(other: OtherPackets, bytes: &[u8], packets: &mut Vec<u8>) -> Result<usize, AllocError>
    requires { front_of other + 188 ≤ length bytes.now }
    ensures pushed { OnOk result (packets.new.items ≡
        packets.old.items ++ spec.next_bytes (spec.next_slip other bytes.now) other bytes.now) }
    ensures size { IfOk result (λ size. size ≡ spec.next_size (spec.next_slip other bytes.now) other) }
    ensures some { IfOk result (λ size. 1 ≤ size) }
{
    let before = bytes_before(other);
    let step = bytes_apart(other);
    match slip_size(bytes, before, step) {
        None => {
            packets.extend_from_slice(&bytes[before..before + PACKET_SIZE])?;
            Ok(step)
        }
        Some(size) => {
            push_blank(size, packets)?;
            Ok(size)
        }
    }
}

// Appends the packets of the bytes, as far as these decide, and returns how many bytes of the stream they are.
fn push_inner(
    other: OtherPackets,
    bytes: &[u8],
    ended: bool,
    packets: &mut Vec<u8>,
) -> Result<usize, AllocError>
    ensures pushed { IfOk result (λ used. (found : List ℕ) × (packets.new.items ≡ packets.old.items ++ found)
        × spec.AreInner (Some other) bytes.now ended found used) }
    ensures within { IfOk result (λ used. used ≤ length bytes.now) }
    ensures few { IfOk result (λ used. length bytes.now < used + spec.decisive other ended) }
    ensures most { IfOk result (λ used. length bytes.now < used + 1228) }
{
    let enough = decisive(other, ended);
    let mut at = 0;
    while bytes.len() - at >= enough {
        let (_, rest) = bytes.split_at(at);
        let size = push_next(other, rest, packets)?;
        at += size.min(rest.len());
    }
    Ok(at)
}

// Appends the last bytes of a stream, fewer than a packet and those before it.
fn push_last(other: OtherPackets, last: &[u8], packets: &mut Vec<u8>) -> Result<(), AllocError>
    ensures { OnOk result (packets.new.items ≡ packets.old.items ++ drop (front_of other) last.now) }
{
    let (_, inner) = last.split_at(bytes_before(other).min(last.len()));
    packets.extend_from_slice(inner)
}

/// Packets of 188 bytes, and how many bytes of a stream they are.
#[derive(Drop)]
pub struct InnerBytes {
    pub packets: Vec<u8>,
    pub used: usize,
}

/// Returns the bytes of a stream of such packets as packets of 188 bytes, as far as these bytes decide; `ended`:
/// whether no more bytes follow.
///
/// If packets lost or gained bytes, the bytes that are in no packet become as many that are no packet either.
pub fn inner_bytes(
    alloc: Global,
    other: OtherPackets,
    bytes: &[u8],
    ended: bool,
) -> Result<InnerBytes, AllocError>
    ensures packets { IfOk result (λ r. spec.AreInner (Some other) bytes.now ended r.packets.items r.used) }
    ensures within { IfOk result (λ r. r.used ≤ length bytes.now) }
    ensures last { IfOk result (λ r. ended ≡ true → r.used ≡ length bytes.now) }
    ensures few { IfOk result (λ r. length bytes.now < r.used + 1228) }
{
    let mut packets = Vec::new(alloc);
    let used = push_inner(other, bytes, ended, &mut packets)?;
    if !ended {
        return Ok(InnerBytes { packets, used });
    }
    let (_, last) = bytes.split_at(used);
    push_last(other, last, &mut packets)?;
    let used = bytes.len();
    Ok(InnerBytes { packets, used })
}
