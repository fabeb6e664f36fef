//! Packets that have a payload alone and continue the open unit of their PID: most packets of a stream. They have no
//! finding.
ghost use Rattle.std.specs.Prelude.{◌≡◌, ◌++◌, [], Ok, false, if◌then◌else◌, is_ok, is_some, true, Some};
ghost use Rattle.ts_packet.specs.Reading.{packet_at};
ghost use Rattle.pid_findings.specs.Findings as findings;
ghost use Rattle.pid_findings.specs.GoingOn as going;
ghost use Rattle.pid_findings.specs.Machine.{next_open};
ghost use Rattle.pid_findings.specs.Roles.{Continuation};

use crate::last::Last;
use crate::marks::following;
use crate::open_unit::OpenUnit;
use std::alloc::{AllocError, Allocator};

/// Returns whether a packet has no error, no start, no scrambling and no adaptation field.
#[tactic(auto, using(crate::proofs::GoingOn::plain_read))]
pub fn is_plain(bytes: &[u8; 188]) -> bool
    ensures { result ≡ true → packet_at bytes.now ≡ Ok (going.plain_view bytes.now) }
{
    if bytes[0] != 0x47 {
        return false;
    }
    if bytes[1] >= 0x40 {
        return false;
    }
    bytes[3] >> 4 == 1
}

/// Returns the PID in the header of 188 bytes.
pub fn pid_in(bytes: &[u8; 188]) -> u16
    ensures { result ≡ going.pid_in bytes.now }
{
    u16::from_be_bytes([bytes[1] & 0x1f, bytes[2]])
}

// Returns the continuity_counter.
fn counter_in(bytes: &[u8; 188]) -> u8
    ensures { result ≡ going.counter_in bytes.now }
{
    bytes[3] & 0x0f
}

/// Returns whether the counter follows the counter of the last packet, if there is a last packet.
pub(crate) fn is_next(last: &Option<Last>, bytes: &[u8; 188]) -> bool
    ensures { result ≡ going.is_next last.now bytes.now }
{
    match last {
        None => false,
        Some(last) => counter_in(bytes) == following(last.counter, true),
    }
}

/// Writes a packet over the last one.
#[tactic(auto, unfolding(ts_packet::specs::PcrBytes::without_pcr))]
pub(crate) fn keep_plain(last: &mut Option<Last>, bytes: &[u8; 188])
    ensures { is_some last.old ≡ true → last.new ≡ Some (going.plain_last bytes.now) }
{
    if let Some(kept) = last {
        kept.duplicate = false;
        kept.has_payload = true;
        kept.counter = counter_in(bytes);
        kept.has_pcr = false;
        kept.bytes = *bytes;
    }
}

// The most bytes of a PES packet with a length: PES_packet_length has 16 bits (2.4.3.7).
const LONGEST_SAID: usize = 6 + 65_535;

// Makes room for all bytes of a PES packet with a length. The first room is full then, so that a wrong length takes
// little memory. It stays a call of its own: few packets need it.
#[inline(never)]
fn make_room<A: Allocator>(bytes: &mut Vec<u8, A>, all: usize) -> Result<(), AllocError>
    ensures same { bytes.new.items ≡ bytes.old.items }
{
    if all > LONGEST_SAID {
        return Ok(());
    }
    bytes.reserve_exact(all.saturating_sub(bytes.len()))
}

// Appends a payload to the bytes of a unit that are to be `all` in the end.
fn append<A: Allocator>(
    bytes: &mut Vec<u8, A>,
    payload: &[u8],
    all: usize,
) -> Result<(), AllocError>
    ensures items { bytes.new.items ≡ (if is_ok result then bytes.old.items ++ payload.now else bytes.old.items) }
{
    if bytes.capacity().saturating_sub(bytes.len()) < payload.len() {
        make_room(bytes, all)?;
    }
    bytes.extend_from_slice(payload)
}

// Returns how many bytes the bytes after the header are to be in the end; no number to make room for, if bytes are left
// out.
fn room_of(least: usize, front: usize, left_out: usize) -> usize {
    if left_out > 0 {
        return usize::MAX;
    }
    least.saturating_sub(front)
}

/// Appends a payload to the open unit, if the unit stays open with the payload and there is memory for it. Returns
/// whether it is appended.
#[tactic(auto, unfolding(crate::specs::Findings::found_appended, crate::specs::Findings::found_if, crate::specs::Findings::undecided, crate::specs::Findings::unless_decided, crate::specs::Machine::next_open), using(crate::proofs::LeastSizes::still_open))]
pub(crate) fn grow<A: Allocator>(
    open_unit: &mut Option<OpenUnit<A>>,
    index: u64,
    payload: &[u8],
) -> bool
    ensures next { result ≡ true → open_unit.new ≡ next_open index (Continuation payload.now) open_unit.old }
    ensures none { result ≡ true → findings.found_appended payload.now open_unit.old ≡ [] }
    ensures stays { result ≡ false → open_unit.new ≡ open_unit.old }
{
    let Some(unit) = open_unit else {
        return false;
    };
    if unit.least <= unit.len() + payload.len() {
        return false;
    }
    let all = room_of(unit.least, unit.front.len(), unit.left_out);
    match append(&mut unit.bytes, payload, all) {
        Ok(()) => true,
        Err(_) => false,
    }
}
