//! What a packet of a PID is to the packet before it (ISO/IEC 13818-1, 2.4.3.3).
ghost use Rattle.std.specs.Prelude.{◌≡◌, false, Some};
ghost use Rattle.ts_packet.specs.Views.{packet_view};
ghost use Rattle.pid_findings.specs.Marks as marks;
ghost use Rattle.pid_findings.specs.Shown.{entry_with, mark_broken, mark_duplicate};

use crate::last::Last;
use ts_packet::{Adaptation, Packet, has_pcr};

/// What a packet is to the packet before it.
#[derive(Clone, Copy)]
pub enum Mark {
    /// a duplicate
    Duplicate,
    Follows,
    /// the expected counter, and the counter of the packet
    Breaks(u8, u8),
}

/// Returns whether a packet has the discontinuity_indicator.
fn is_discontinuity(packet: &Packet<'_>) -> bool
    ensures { result ≡ marks.is_discontinuity (packet_view packet.now).adaptation }
{
    match packet.adaptation {
        Some(Adaptation::Flagged(parts)) => parts.discontinuity_indicator,
        _ => false,
    }
}

/// Returns the counter that follows.
pub(crate) fn following(counter: u8, has_payload: bool) -> u8
    ensures { result ≡ marks.following counter has_payload }
{
    if has_payload {
        ((counter as u16 + 1) % 16) as u8
    } else {
        counter
    }
}

/// Returns whether a packet is the last one once more.
#[tactic(auto, unfolding(crate::specs::Marks::repeats))]
fn is_repeat(last: &Last, index: u64, packet: &Packet<'_>, bytes: &[u8; 188]) -> bool
    ensures { result ≡ marks.repeats last.now (entry_with index bytes.now packet.now) }
{
    !last.duplicate
        && last.has_payload
        && packet.payload.is_some()
        && packet.header.continuity_counter == last.counter
        && last.has_content(has_pcr(packet), bytes)
}

/// Returns the mark of a packet that does not repeat the last one.
#[tactic(auto, unfolding(crate::specs::Marks::break_after))]
fn follows(last: &Last, index: u64, packet: &Packet<'_>, bytes: &[u8; 188]) -> Mark
    ensures new { mark_duplicate result ≡ false }
    ensures broken { mark_broken result ≡ marks.break_after last.now (entry_with index bytes.now packet.now) }
{
    let counter = packet.header.continuity_counter;
    let expected = following(last.counter, packet.payload.is_some());
    if is_discontinuity(packet) || counter == expected {
        Mark::Follows
    } else {
        Mark::Breaks(expected, counter)
    }
}

/// Returns the mark of a packet after the last one, if there is one.
#[tactic(auto, unfolding(crate::specs::Marks::is_repeat, crate::specs::Marks::break_at))]
pub fn mark_of(last: &Option<Last>, index: u64, packet: &Packet<'_>, bytes: &[u8; 188]) -> Mark
    ensures duplicate { mark_duplicate result ≡ marks.is_repeat last.now (entry_with index bytes.now packet.now) }
    ensures broken { mark_broken result ≡ marks.break_at last.now (entry_with index bytes.now packet.now) }
{
    let Some(last) = last else {
        return Mark::Follows;
    };
    if is_repeat(last, index, packet, bytes) {
        return Mark::Duplicate;
    }
    follows(last, index, packet, bytes)
}

// Returns what the state keeps of a packet.
#[tactic(auto, unfolding(crate::specs::Marks::seen))]
fn seen(mark: Mark, index: u64, packet: &Packet<'_>, bytes: &[u8; 188]) -> Last
    ensures { result ≡ marks.seen (record {
      entry = entry_with index bytes.now packet.now;
      duplicate = mark_duplicate mark;
      broken = mark_broken mark;
    }) }
{
    Last {
        duplicate: matches!(mark, Mark::Duplicate),
        has_payload: packet.payload.is_some(),
        counter: packet.header.continuity_counter,
        has_pcr: has_pcr(packet),
        bytes: *bytes,
    }
}

/// Keeps a packet in the place of the last packet, whose bytes it overwrites.
#[tactic(auto, unfolding(crate::specs::Marks::seen))]
pub fn keep(last: &mut Option<Last>, mark: Mark, index: u64, packet: &Packet<'_>, bytes: &[u8; 188])
    ensures { last.new ≡ Some (marks.seen (record {
      entry = entry_with index bytes.now packet.now;
      duplicate = mark_duplicate mark;
      broken = mark_broken mark;
    })) }
{
    match last {
        None => *last = Some(seen(mark, index, packet, bytes)),
        Some(kept) => {
            kept.duplicate = matches!(mark, Mark::Duplicate);
            kept.has_payload = packet.payload.is_some();
            kept.counter = packet.header.continuity_counter;
            kept.has_pcr = has_pcr(packet);
            kept.bytes = *bytes;
        }
    }
}
