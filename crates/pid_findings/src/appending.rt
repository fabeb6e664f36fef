//! A payload that continues the open unit of a PID.
ghost use Rattle.std.specs.Prelude.{◌≡◌, ◌≤◌, ◌++◌, ◌∷◌, [], IfOk, OnOk, OnErr, length, take, false, is_some};
ghost use Rattle.pid_findings.specs.OpenUnits as units;
ghost use Rattle.pid_findings.specs.Roles.{Continuation};
ghost use Rattle.pid_findings.specs.Findings as findings;
ghost use Rattle.pid_findings.specs.Machine.{next_open};
ghost use Rattle.pid_findings.specs.Shown.{Finds, KeepsFindings, what_of};

use crate::beginnings::note_decided;
use crate::endings::note_whole;
use crate::finding::Finding;
use crate::open_unit::{OpenUnit, UnitKind, fill};
use crate::place::{Place, note_stray, push_stray};
use crate::verdicts::{Verdict, decide, past_end};
use pes_packet::PesHeader;
use std::alloc::{AllocError, Allocator};

// Notes the verdict on a section or a PES packet that began in an earlier packet, and the bytes past its end.
fn note_ended<'a, A: Allocator + Clone>(
    alloc: &A,
    place: Place,
    packet: u64,
    kind: UnitKind,
    access: bool,
    bytes: &[u8],
    verdict: Verdict,
    found: &mut Vec<Finding<'a, A>, A>,
) -> Result<(), AllocError>
    ensures ok { let unit : units.OpenUnit =
        record { packet = packet; kind = kind; access = access; bytes = bytes.now } in
        OnOk result (Finds place found.old.items found.new.items (units.about unit (what_of unit.bytes verdict)
        ∷ findings.stray_bytes (findings.past_end (length unit.bytes) (what_of unit.bytes verdict)))) }
    ensures err { OnErr result (KeepsFindings found.old.items found.new.items) }
{
    found.reserve(2)?;
    note_decided(alloc, place, packet, kind, access, bytes, verdict, found)?;
    push_stray(place, past_end(bytes, verdict), found);
    Ok(())
}

// Notes a PES packet as `note_whole` does, and the bytes of the payload past its end.
fn note_with_rest<'a, A: Allocator + Clone>(
    alloc: &A,
    place: Place,
    begun: (u64, bool),
    header: PesHeader,
    size: usize,
    rest: usize,
    payload: &[u8],
    body: &mut Vec<u8, A>,
    found: &mut Vec<Finding<'a, A>, A>,
) -> Result<(), AllocError>
    ensures ok { OnOk result (Finds place found.old.items found.new.items
        (units.whole_pes begun.0 begun.1 header (take size (body.old.items ++ payload.now))
        ∷ findings.stray_bytes rest)) }
    ensures moved { OnOk result (body.new.items ≡ []) }
    ensures err { OnErr result (body.new.items ≡ body.old.items) }
    ensures none { OnErr result (KeepsFindings found.old.items found.new.items) }
{
    found.reserve(2)?;
    note_whole(alloc, place, begun, header, size, payload, body, found)?;
    push_stray(place, rest, found);
    Ok(())
}

// Appends a payload to the bytes of the open unit. If the bytes decide the unit, notes it and clears them. Returns
// whether they do.
#[tactic(auto, unfolding(crate::specs::Findings::found_if))]
fn append_bytes<'a, A: Allocator + Clone>(
    alloc: &A,
    place: Place,
    packet: u64,
    kind: UnitKind,
    access: bool,
    payload: &[u8],
    bytes: &mut Vec<u8, A>,
    found: &mut Vec<Finding<'a, A>, A>,
) -> Result<bool, AllocError>
    requires { length bytes.old.items ≤ units.max_unbounded_pes }
    ensures joined { IfOk result (λ decided. decided ≡ false → bytes.new.items ≡ bytes.old.items ++ payload.now) }
    ensures found { OnOk result (Finds place found.old.items found.new.items
        (findings.decided_by (record {
          packet = packet;
          kind = kind;
          access = access;
          bytes = bytes.old.items ++ payload.now;
        }))) }
    ensures decided { IfOk result (λ decided. decided ≡ is_some (units.decided kind (bytes.old.items ++ payload.now))) }
    ensures bounded { length bytes.new.items ≤ units.max_unbounded_pes }
    ensures err { OnErr result (bytes.new.items ≡ bytes.old.items) }
    ensures none { OnErr result (KeepsFindings found.old.items found.new.items) }
{
    let len = bytes.len();
    bytes.extend_from_slice(payload)?;
    let Some(verdict) = decide(kind, bytes) else {
        return Ok(false);
    };
    match note_ended(alloc, place, packet, kind, access, bytes, verdict, found) {
        Ok(()) => {
            bytes.clear();
            Ok(true)
        }
        Err(error) => {
            bytes.truncate(len);
            Err(error)
        }
    }
}

// Appends a payload that may decide the open unit; if it does, notes the unit and clears its bytes. Returns whether it
// does. It stays a call of its own: few packets decide a unit.
#[inline(never)]
#[tactic(auto, unfolding(crate::specs::Findings::found_if), using(crate::proofs::HeadedUnits::whole_found, crate::proofs::HeadedUnits::whole_decided))]
fn append_last<'a, A: Allocator + Clone>(
    alloc: &A,
    place: Place,
    payload: &[u8],
    unit: &mut OpenUnit<A>,
    found: &mut Vec<Finding<'a, A>, A>,
) -> Result<bool, AllocError>
    ensures joined { IfOk result (λ decided. decided ≡ false → unit.new ≡ units.appended unit.old payload.now) }
    ensures found { OnOk result (Finds place found.old.items found.new.items
        (findings.decided_by (units.appended unit.old payload.now))) }
    ensures decided { IfOk result (λ decided.
        decided ≡ is_some (units.decided unit.old.kind (unit.old.bytes ++ payload.now))) }
    ensures err { OnErr result (unit.new ≡ unit.old) }
    ensures none { OnErr result (KeepsFindings found.old.items found.new.items) }
{
    if let Some(header) = unit.header {
        let end = 6 + header.len as usize;
        let all = unit.len() + payload.len();
        if header.len != 0 && end <= all {
            fill(alloc, &mut unit.left_out, &mut unit.bytes)?;
            let begun = (unit.packet, unit.access);
            let size = end.saturating_sub(unit.front.len());
            note_with_rest(
                alloc,
                place,
                begun,
                header,
                size,
                all - end,
                payload,
                &mut unit.bytes,
                found,
            )?;
            unit.least = 0;
            unit.header = None;
            unit.front.clear();
            return Ok(true);
        }
        unit.bytes = unit.joined(alloc, payload.len())?;
        unit.left_out = 0;
        unit.header = None;
        unit.front.clear();
    }
    unit.least = 0;
    let packet = unit.packet;
    let kind = unit.kind;
    let access = unit.access;
    append_bytes(
        alloc,
        place,
        packet,
        kind,
        access,
        payload,
        &mut unit.bytes,
        found,
    )
}

/// Appends a payload to the open unit, and closes the unit if that decides it. Without an open unit the payload is
/// stray.
#[tactic(auto, unfolding(crate::specs::Findings::found_appended, crate::specs::Findings::found_if, crate::specs::Findings::undecided, crate::specs::Findings::unless_decided, crate::specs::Machine::next_open), using(crate::proofs::LeastSizes::still_open))]
pub(crate) fn append_payload<'a, A: Allocator + Clone>(
    alloc: &A,
    place: Place,
    payload: &[u8],
    open_unit: &mut Option<OpenUnit<A>>,
    found: &mut Vec<Finding<'a, A>, A>,
) -> Result<(), AllocError>
    ensures next { OnOk result (open_unit.new ≡ next_open place.packet (Continuation payload.now) open_unit.old) }
    ensures found { OnOk result (Finds place found.old.items found.new.items
        (findings.found_appended payload.now open_unit.old)) }
    ensures err { OnErr result (open_unit.new ≡ open_unit.old) }
    ensures none { OnErr result (KeepsFindings found.old.items found.new.items) }
{
    let Some(unit) = open_unit else {
        return note_stray(place, payload.len(), found);
    };
    if unit.len() + payload.len() < unit.least {
        return unit.bytes.extend_from_slice(payload);
    }
    let decided = append_last(alloc, place, payload, unit, found)?;
    if decided {
        *open_unit = None;
    }
    Ok(())
}
