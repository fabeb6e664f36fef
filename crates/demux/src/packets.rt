//! A whole packet of a stream.
ghost use Rattle.std.specs.Prelude.{◌≡◌, ◌+◌, ◌++◌, ◌&&◌, [], ◌∷◌, true, false, Ok, OnOk, OnErr, length, option_map};
ghost use Rattle.std.specs.Prelude.{map};
ghost use Rattle.bit_fields.specs.Reading.{Gives};
ghost use Rattle.ts_packet.specs.Reading.{packet_at};
ghost use Rattle.ts_packet.specs.Views.{packet_view, bytes_view};
ghost use Rattle.pid_findings.specs.GoingOn.{plain_view};
ghost use Rattle.demux.specs.Stream.{findings_by, held_found, states_by, without_pid, within_by};
ghost use Rattle.pid_findings.specs.Shown.{IsPayloadOf, KeepsJoined, KeepsFindings, Spans, AddsFindings, finding_view};
ghost use Rattle.pid_findings.specs.Shown.{has_span};
ghost use Rattle.pid_findings.specs.Shown.{payload_borrowed, payload_list, what_view};

use crate::states::States;
use arrayvec::ArrayVec;
use pid_findings::{Finding, Part, PayloadBytes, Place, What, is_plain, pid_in};
use std::alloc::{AllocError, Allocator};
use ts_packet::{NULL_PID, Packet, PacketError, read_packet};

// Notes a finding of no PID.
pub(crate) fn note_without_pid<'a, A: Allocator>(
    packet: u64,
    what: What<'a, A>,
    found: &mut Vec<Finding<'a, A>, A>,
) -> Result<(), AllocError>
    ensures ok { OnOk result (AddsFindings found.old.items found.new.items
        (without_pid packet (what_view what.entry) ∷ [])) }
    ensures spans { OnOk result (Spans found.old.items found.new.items (has_span what.entry ∷ [])) }
    ensures err { OnErr result (KeepsFindings found.old.items found.new.items) }
{
    found.push(Finding {
        packet,
        pid: None,
        begun: None,
        what,
    })?;
    Ok(())
}

/// Notes the bytes of a packet that is not whole.
#[tactic(auto, using(pid_findings::proofs::FoundViews::joined_one))]
pub(crate) fn note_held<'a, A: Allocator + Copy>(
    alloc: &A,
    packet: u64,
    held: &[u8],
    found: &mut Vec<Finding<'a, A>, A>,
) -> Result<(), AllocError>
    ensures found { OnOk result (AddsFindings found.old.items found.new.items (held_found packet held.now)) }
    ensures joined { OnOk result (KeepsJoined found.old.items found.new.items) }
{
    if held.is_empty() {
        return Ok(());
    }
    let bytes = Vec::from_slice(*alloc, held)?;
    note_without_pid(packet, What::Truncated(Part::Joined(bytes)), found)?;
    Ok(())
}

/// Takes a packet without a finding, if its first bytes show this: a null packet, or a packet that continues an open
/// unit, for which there is memory. Returns whether it took the packet; if not, nothing changes.
#[tactic(auto, unfolding(crate::specs::Stream::states_by, crate::specs::Stream::findings_by, crate::specs::Stream::within_by))]
pub(crate) fn pass<A: Allocator + Copy>(
    states: &mut States<A>,
    index: u64,
    bytes: &[u8; 188],
) -> bool
    ensures states { result ≡ true → states.new ≡ states_by index bytes.now states.old (packet_at bytes.now) }
    ensures none { result ≡ true → findings_by index bytes.now states.old (packet_at bytes.now) ≡ [] }
    ensures within { result ≡ true → within_by index bytes.now states.old (packet_at bytes.now) ≡ [] }
    ensures plain { result ≡ true → packet_at bytes.now ≡ Ok (plain_view bytes.now) }
    ensures stays { result ≡ false → states.new ≡ states.old }
{
    if !is_plain(bytes) {
        return false;
    }
    let pid = pid_in(bytes);
    if pid == NULL_PID {
        return true;
    }
    states.go_on(index, pid, bytes)
}

// Takes a packet that was read.
#[tactic(auto, unfolding(crate::specs::Stream::states_by, crate::specs::Stream::findings_by, crate::specs::Stream::within_by))]
fn take_read<'p, 'a: 'p, A: Allocator + Copy>(
    states: &mut States<A>,
    index: u64,
    bytes: &[u8; 188],
    packet: &Packet<'_>,
    borrowed: bool,
    payload: Option<PayloadBytes<'p, 'a>>,
    found: &mut Vec<Finding<'a, A>, A>,
) -> Result<(), AllocError>
    requires payload { IsPayloadOf packet.now borrowed payload }
    ensures states { OnOk result (states.new ≡ states_by index bytes.now states.old
        (Ok (packet_view packet.now))) }
    ensures found { OnOk result (AddsFindings found.old.items found.new.items
        (findings_by index bytes.now states.old (Ok (packet_view packet.now)))) }
    ensures spans { OnOk result (Spans found.old.items found.new.items
        (map (λ within. within && borrowed) (within_by index bytes.now states.old
        (Ok (packet_view packet.now))))) }
    ensures err { OnErr result (states.new ≡ states.old) }
    ensures none { OnErr result (KeepsFindings found.old.items found.new.items) }
{
    if packet.header.transport_error_indicator {
        note_without_pid(index, What::Errored, found)?;
        return Ok(());
    }
    if packet.header.pid == NULL_PID {
        return Ok(());
    }
    let place = Place {
        packet: index,
        pid: packet.header.pid,
        borrowed,
    };
    states.step(place, bytes, packet, payload, found)?;
    Ok(())
}

// Returns the payload, borrowed for as long as the packet is.
fn borrowed<'a>(payload: Option<&'a [u8]>) -> Option<PayloadBytes<'a, 'a>>
    ensures bytes { option_map payload_list result ≡ bytes_view payload.entry }
    ensures borrowed { payload_borrowed true result ≡ true }
{
    match payload {
        Some(bytes) => Some(PayloadBytes::Borrowed(bytes)),
        None => None,
    }
}

// Returns the payload, which is not kept.
fn copied<'p>(payload: Option<&'p [u8]>) -> Option<PayloadBytes<'p, 'static>>
    ensures bytes { option_map payload_list result ≡ bytes_view payload.entry }
    ensures borrowed { payload_borrowed false result ≡ false }
{
    match payload {
        Some(bytes) => Some(PayloadBytes::Copied(bytes)),
        None => None,
    }
}

/// Takes 188 bytes, read before, that findings may point into. It stays a call of its own: few packets reach it.
#[inline(never)]
#[tactic(auto, unfolding(crate::specs::Stream::states_by, crate::specs::Stream::findings_by, crate::specs::Stream::within_by))]
pub(crate) fn take_borrowed<'a, A: Allocator + Copy>(
    states: &mut States<A>,
    index: u64,
    bytes: &'a [u8; 188],
    read: &Result<Packet<'a>, PacketError>,
    found: &mut Vec<Finding<'a, A>, A>,
) -> Result<(), AllocError>
    requires read { Gives packet_view read.now (packet_at bytes.now) }
    ensures states { OnOk result (states.new ≡ states_by index bytes.now states.old
        (packet_at bytes.now)) }
    ensures found { OnOk result (AddsFindings found.old.items found.new.items
        (findings_by index bytes.now states.old (packet_at bytes.now))) }
    ensures spans { OnOk result (Spans found.old.items found.new.items
        (within_by index bytes.now states.old (packet_at bytes.now))) }
    ensures err { OnErr result (states.new ≡ states.old) }
    ensures none { OnErr result (KeepsFindings found.old.items found.new.items) }
{
    match read {
        Err(error) => {
            note_without_pid(index, What::BadPacket(*error), found)?;
            Ok(())
        }
        Ok(packet) => {
            let payload = borrowed(packet.payload);
            take_read(states, index, bytes, packet, true, payload, found)?;
            Ok(())
        }
    }
}

/// Takes 188 bytes that findings may not point into. It stays a call of its own: few packets reach it.
#[inline(never)]
#[tactic(auto, unfolding(crate::specs::Stream::states_by, crate::specs::Stream::findings_by, crate::specs::Stream::within_by), using(pid_findings::proofs::FoundViews::joined_one, pid_findings::proofs::FoundViews::same_joined, pid_findings::proofs::FoundViews::same_says))]
pub(crate) fn take_copied<A: Allocator + Copy>(
    states: &mut States<A>,
    index: u64,
    bytes: &[u8; 188],
    found: &mut Vec<Finding<'static, A>, A>,
) -> Result<(), AllocError>
    ensures states { OnOk result (states.new ≡ states_by index bytes.now states.old
        (packet_at bytes.now)) }
    ensures found { OnOk result (AddsFindings found.old.items found.new.items
        (findings_by index bytes.now states.old (packet_at bytes.now))) }
    ensures joined { KeepsJoined found.old.items found.new.items }
    ensures err { OnErr result (states.new ≡ states.old) }
    ensures none { OnErr result (map finding_view found.new.items ≡ map finding_view found.old.items) }
{
    let read = read_packet(bytes);
    match &read {
        Err(error) => {
            note_without_pid(index, What::BadPacket(*error), found)?;
            Ok(())
        }
        Ok(packet) => {
            let payload = copied(packet.payload);
            take_read(states, index, bytes, packet, false, payload, found)?;
            Ok(())
        }
    }
}

/// Joins two parts of a packet.
pub(crate) fn join(held: &[u8], front: &[u8]) -> [u8; 188]
    requires { length held.now + length front.now ≡ 188 }
    ensures { result ≡ held.now ++ front.now }
{
    let mut whole = ArrayVec::<u8, 188>::new();
    let (Ok(()), Ok(())) = (
        whole.try_extend_from_slice(held),
        whole.try_extend_from_slice(front),
    ) else {
        unreachable!()
    };
    match whole.into_inner() {
        Ok(bytes) => bytes,
        Err(_) => unreachable!(),
    }
}
