//! Sections and PES packets that begin in a packet.
ghost use Rattle.std.specs.Prelude.{◌≡◌, ◌≤◌, ◌+◌, ◌++◌, [], ◌∷◌, IfOk, OnOk, OnErr, length, vec_capacity, vec_len};
ghost use Rattle.pes_packet.specs.Reading.{header_at};
ghost use Rattle.pid_findings.specs.OpenUnits as units;
ghost use Rattle.pid_findings.specs.Findings as findings;
ghost use Rattle.pid_findings.specs.Shown.{Finds, KeepsFindings, is_borrowed, payload_list, what_of};

use crate::finding::{Finding, Kind};
use crate::open_unit::{OpenUnit, UnitKind};
use crate::payload_bytes::{PayloadBytes, after, bytes_of};
use crate::place::{Place, note, note_here, note_stray, what_by};
use crate::verdicts::{Head, Verdict, decide_first, head_of, past_end};
use arrayvec::ArrayVec;
use pes_packet::{Stamps, read_header};
use std::alloc::{AllocError, Allocator};

/// Returns whether there is a PTS.
pub(crate) fn is_stamped(stamps: Stamps) -> bool
    ensures { result ≡ units.is_stamped stamps }
{
    !matches!(stamps, Stamps::Absent)
}

// Returns whether the bytes begin with a PES header that can be read and has a PTS.
fn has_pts(bytes: &[u8]) -> bool
    ensures { result ≡ units.has_pts (header_at bytes.now) }
{
    match read_header(bytes) {
        Ok((header, _)) => is_stamped(header.stamps),
        Err(_) => false,
    }
}

/// Returns what begins with these bytes.
#[tactic(auto, unfolding(crate::specs::OpenUnits::begun_kind))]
pub(crate) fn begun_kind(kind: UnitKind, access: bool, bytes: &[u8]) -> Kind
    ensures { result ≡ units.begun_kind kind access bytes.now }
{
    match kind {
        UnitKind::Pes => Kind::Pes {
            stamped: has_pts(bytes),
            access,
        },
        UnitKind::Section => match bytes {
            [table_id, ..] => Kind::Table(*table_id),
            [] => Kind::Table(0),
        },
    }
}

/// Notes the verdict on a section or a PES packet with these bytes, which began in an earlier packet.
pub(crate) fn note_decided<'a, A: Allocator + Clone>(
    alloc: &A,
    place: Place,
    packet: u64,
    kind: UnitKind,
    access: bool,
    bytes: &[u8],
    verdict: Verdict,
    found: &mut Vec<Finding<'a, A>, A>,
) -> Result<(), AllocError>
    ensures ok { let unit : units.OpenUnit =
        record { packet = packet; kind = kind; access = access; bytes = bytes.now } in
        OnOk result (Finds place found.old.items found.new.items (units.about unit (what_of unit.bytes verdict) ∷ [])) }
    ensures err { OnErr result (KeepsFindings found.old.items found.new.items) }
    ensures one { vec_len found.new ≤ vec_len found.old + 1 }
    ensures room { vec_capacity found.old ≤ vec_capacity found.new }
{
    let begun = begun_kind(kind, access, bytes);
    let what = what_by(alloc, verdict, PayloadBytes::Copied(bytes))?;
    note(place, Some((packet, begun)), what, found)
}

/// Notes the verdict on a section or a PES packet that begins in this packet.
pub(crate) fn note_decided_here<'p, 'a: 'p, A: Allocator + Clone>(
    alloc: &A,
    place: Place,
    kind: UnitKind,
    access: bool,
    payload: PayloadBytes<'p, 'a>,
    verdict: Verdict,
    found: &mut Vec<Finding<'a, A>, A>,
) -> Result<(), AllocError>
    requires { is_borrowed payload ≡ place.borrowed }
    ensures ok { let unit : units.OpenUnit = record {
      packet = place.packet;
      kind = kind;
      access = access;
      bytes = payload_list payload.entry;
    } in
        OnOk result (Finds place found.old.items found.new.items
        (units.about_within unit (what_of unit.bytes verdict) ∷ [])) }
    ensures err { OnErr result (KeepsFindings found.old.items found.new.items) }
{
    let begun = begun_kind(kind, access, bytes_of(payload));
    let what = what_by(alloc, verdict, payload)?;
    note_here(place, begun, what, found)
}

// The most room that is taken at once, however long a PES packet says that it is.
const MOST_ROOM: usize = 4_096;

// Returns the bytes with room for the whole PES packet, or for its first bytes.
fn with_room<A: Allocator>(alloc: A, bytes: &[u8], all: usize) -> Result<Vec<u8, A>, AllocError>
    ensures { IfOk result (λ held. held.items ≡ bytes.now) }
{
    let mut held = Vec::with_capacity(alloc, all.min(MOST_ROOM))?;
    held.extend_from_slice(bytes)?;
    Ok(held)
}

// Opens a PES packet that its first bytes do not decide. The bytes after the header get the room for the whole body, or
// for the first of it.
fn open_pes<A: Allocator + Clone>(
    alloc: &A,
    packet: u64,
    access: bool,
    head: Head<'_>,
) -> Result<OpenUnit<A>, AllocError>
    requires open { units.IsOpen head.header UnitKind.Pes head.front.now (head.front.now ++ head.rest.now) head.least }
    requires short { length head.front.now ≤ 264 }
    ensures { IfOk result (λ unit. unit ≡ record {
      packet = packet;
      kind = UnitKind.Pes;
      access = access;
      bytes = head.entry.front.now ++ head.entry.rest.now;
    }) }
{
    let mut front = ArrayVec::<u8, 264>::new();
    let Ok(()) = front.try_extend_from_slice(head.front) else {
        unreachable!()
    };
    let room = head.least.saturating_sub(front.len());
    let bytes = with_room(alloc.clone()?, head.rest, room)?;
    Ok(OpenUnit {
        packet,
        kind: UnitKind::Pes,
        access,
        header: head.header,
        front,
        left_out: 0,
        bytes,
        least: head.least,
    })
}

/// Returns a PES packet that begins, in a packet with the random_access_indicator or without.
#[tactic(auto, unfolding(crate::specs::Findings::undecided, crate::specs::Findings::unless_decided, crate::specs::Findings::found_within))]
pub(crate) fn begin_pes<'p, 'a: 'p, A: Allocator + Clone>(
    alloc: &A,
    place: Place,
    access: bool,
    payload: PayloadBytes<'p, 'a>,
    found: &mut Vec<Finding<'a, A>, A>,
) -> Result<Option<OpenUnit<A>>, AllocError>
    requires { is_borrowed payload ≡ place.borrowed }
    ensures found { OnOk result (Finds place found.old.items found.new.items
        (findings.decided_within (record {
          packet = place.packet;
          kind = UnitKind.Pes;
          access = access;
          bytes = payload_list payload.entry;
        }))) }
    ensures begun { IfOk result (λ begun. begun ≡ findings.undecided
        (record {
          packet = place.packet;
          kind = UnitKind.Pes;
          access = access;
          bytes = payload_list payload.entry;
        })) }
{
    let bytes = bytes_of(payload);
    let head = head_of(bytes);
    match decide_first(head, bytes) {
        None => Ok(Some(open_pes(alloc, place.packet, access, head)?)),
        Some(verdict) => {
            note_decided_here(alloc, place, UnitKind::Pes, access, payload, verdict, found)?;
            note_stray(place, past_end(bytes, verdict), found)?;
            Ok(None)
        }
    }
}
