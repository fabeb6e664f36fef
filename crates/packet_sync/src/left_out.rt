//! The fields that are not written again, in packets in step.

ghost use Rattle.std.specs.Prelude.{◌≡◌, ◌<◌, ◌≤◌, ◌*◌, OnOk, length};
ghost use Rattle.packet_sync.specs.Fields as fields;
ghost use Rattle.packet_sync.specs.FieldsLeftOut as spec;

use crate::field::{
    Field, adaptation_flags, begins_unit, extension_flags, is_flagged, loses_private_data,
    start_payload,
};
use crate::noted_fields::NotedFields;
use crate::sync_bytes::PACKET_SIZE;
use std::alloc::{AllocError, Allocator};

/// A field in packets of a PID.
#[derive(Clone, Copy)]
pub struct FieldLeftOut {
    pub pid: u16,
    pub field: Field,
}

// Returns the PID of a packet.
#[tactic(auto, unfolding(crate::specs::FieldsLeftOut::pid_of))]
fn pid_of(packet: &[u8]) -> u16
    requires { length packet.now ≡ 188 }
    ensures value { result ≡ spec.pid_of packet.now }
    ensures within { result < 8192 }
{
    (packet[1] % 32) as u16 * 256 + packet[2] as u16
}

// Appends the indicators and the clock reference of an adaptation field; `begins` says whether a unit begins in its
// packet.
#[tactic(auto, unfolding(crate::specs::FieldsLeftOut::with_indicators))]
fn note_indicators<A: Allocator>(
    pid: u16,
    flags: u8,
    begins: bool,
    found: &mut NotedFields<A>,
) -> Result<(), AllocError>
    requires { pid < 8192 }
    ensures { OnOk result (found.new ≡ spec.with_indicators pid flags begins found.old) }
{
    found.note(pid, Field::Discontinuity, flags / 128 % 2 == 1)?;
    found.note(pid, Field::RandomAccess, flags / 64 % 2 == 1 && !begins)?;
    found.note(pid, Field::StreamPriority, flags / 32 % 2 == 1)?;
    found.note(pid, Field::OriginalClock, flags / 8 % 2 == 1)
}

// Appends the data of an adaptation field.
#[tactic(auto, unfolding(crate::specs::FieldsLeftOut::with_adaptation_data))]
fn note_adaptation_data<A: Allocator>(
    pid: u16,
    flags: u8,
    found: &mut NotedFields<A>,
) -> Result<(), AllocError>
    requires { pid < 8192 }
    ensures { OnOk result (found.new ≡ spec.with_adaptation_data pid flags found.old) }
{
    found.note(pid, Field::SpliceCountdown, flags / 4 % 2 == 1)?;
    found.note(pid, Field::AdaptationPrivateData, flags / 2 % 2 == 1)?;
    found.note(pid, Field::AdaptationExtension, flags % 2 == 1)
}

// Appends the fields of an adaptation field.
fn note_adaptation<A: Allocator>(
    pid: u16,
    flags: u8,
    begins: bool,
    found: &mut NotedFields<A>,
) -> Result<(), AllocError>
    requires { pid < 8192 }
    ensures { OnOk result (found.new ≡ spec.with_adaptation pid flags begins found.old) }
{
    note_indicators(pid, flags, begins, found)?;
    note_adaptation_data(pid, flags, found)
}

// Appends the fields of the first flag byte of a PES header.
#[tactic(auto, unfolding(crate::specs::FieldsLeftOut::with_flags))]
fn note_flags<A: Allocator>(
    pid: u16,
    payload: &[u8],
    found: &mut NotedFields<A>,
) -> Result<(), AllocError>
    requires pid { pid < 8192 }
    requires size { 9 ≤ length payload.now }
    ensures { OnOk result (found.new ≡ spec.with_flags pid payload.now found.old) }
{
    let flags = payload[6];
    let goes_on = payload[7] < 128;
    found.note(pid, Field::Alignment, goes_on && flags / 4 % 2 == 1)?;
    found.note(
        pid,
        Field::Flags,
        goes_on && (flags / 8 % 2 == 1 || flags % 4 != 0),
    )?;
    found.note(pid, Field::Scrambling, flags / 16 % 4 != 0)
}

// Returns whether header data other than stamps and PES_private_data are announced.
fn has_other_data(flags: u8, extension: u8) -> bool
    ensures { result ≡ fields.has_other_data flags extension }
{
    flags / 2 % 32 != 0 || extension / 16 % 8 != 0 || extension % 2 == 1
}

// Appends the fields of the header data of a PES header.
#[tactic(auto, unfolding(crate::specs::FieldsLeftOut::with_data))]
fn note_data<A: Allocator>(
    pid: u16,
    payload: &[u8],
    found: &mut NotedFields<A>,
) -> Result<(), AllocError>
    requires pid { pid < 8192 }
    requires size { 9 ≤ length payload.now }
    ensures { OnOk result (found.new ≡ spec.with_data pid payload.now found.old) }
{
    let extension = extension_flags(payload);
    let size = payload[8];
    found.note(
        pid,
        Field::LongHeader,
        payload[7] < 128 && (payload[3] == 0xBD && size == 36),
    )?;
    found.note(pid, Field::PrivateData, loses_private_data(payload))?;
    found.note(
        pid,
        Field::OtherHeaderData,
        has_other_data(payload[7], extension),
    )?;
    found.note(pid, Field::UnreadHeader, payload.len() < 9 + size as usize)
}

// Appends the fields of the PES header at the front of a payload.
#[tactic(auto, unfolding(crate::specs::FieldsLeftOut::with_header))]
fn note_header<A: Allocator>(
    pid: u16,
    payload: &[u8],
    found: &mut NotedFields<A>,
) -> Result<(), AllocError>
    requires { pid < 8192 }
    ensures { OnOk result (found.new ≡ spec.with_header pid payload.now found.old) }
{
    if payload.is_empty() {
        return Ok(());
    }
    if payload.len() < 9 {
        return found.note(pid, Field::UnreadHeader, true);
    }
    if !is_flagged(payload) {
        return Ok(());
    }
    note_flags(pid, payload, found)?;
    note_data(pid, payload, found)
}

// Appends the fields of a packet.
#[tactic(auto, unfolding(crate::specs::FieldsLeftOut::with_packet))]
fn note_packet<A: Allocator>(packet: &[u8], found: &mut NotedFields<A>) -> Result<(), AllocError>
    requires { length packet.now ≡ 188 }
    ensures { OnOk result (found.new ≡ spec.with_packet packet.now found.old) }
{
    let pid = pid_of(packet);
    found.note(pid, Field::TransportPriority, packet[1] / 32 % 2 == 1)?;
    let payload = start_payload(packet);
    note_adaptation(pid, adaptation_flags(packet), begins_unit(payload), found)?;
    note_header(pid, payload, found)
}

/// Appends the fields of the first `count` packets of bytes that are in step, each field once for a PID.
pub(crate) fn note_packets<A: Allocator>(
    bytes: &[u8],
    count: usize,
    found: &mut NotedFields<A>,
) -> Result<(), AllocError>
    requires { 188 * count ≤ length bytes.now }
    ensures { OnOk result (found.new ≡ spec.with_packets count bytes.now found.old) }
{
    for k in 0..count {
        let at = PACKET_SIZE * k;
        note_packet(&bytes[at..at + PACKET_SIZE], found)?;
    }
    Ok(())
}
