//! How an open unit ends.
ghost use Rattle.std.specs.Prelude.{◌≡◌, ◌≤◌, ◌+◌, ◌++◌, ◌∷◌, [], IfOk, OnOk, OnErr, take, drop, false};
ghost use Rattle.std.specs.Prelude.{vec_capacity, vec_len};
ghost use Rattle.pes_packet.specs.Reading.{header_at};
ghost use Rattle.pid_findings.specs.OpenUnits as units;
ghost use Rattle.pid_findings.specs.Findings as findings;
ghost use Rattle.pid_findings.specs.Views.{IsTruncated};
ghost use Rattle.pid_findings.specs.Shown.{Finds, KeepsFindings, has_span, what_view};

use crate::beginnings::{begun_kind, is_stamped, note_decided};
use crate::finding::{Finding, Kind, Part, What};
use crate::open_unit::{OpenUnit, UnitKind, fill};
use crate::place::{Place, note};
use crate::verdicts::decide;
use pes_packet::{PesHeader, read_header};
use std::alloc::{AllocError, Allocator};
use std::mem;

// Returns the bytes after the first `n`.
fn rest_of(bytes: &[u8], n: usize) -> &[u8]
    ensures { result.now ≡ drop n bytes.now }
{
    if bytes.len() < n {
        return &[];
    }
    let (_, rest) = bytes.split_at(n);
    rest
}

// Returns all bytes, as cut short.
fn truncated<'a, A: Allocator + Clone>(alloc: &A, bytes: &[u8]) -> Result<What<'a, A>, AllocError>
    ensures says { IfOk result (λ what. what_view what ≡ IsTruncated bytes.now) }
    ensures joined { IfOk result (λ what. has_span what ≡ false) }
{
    Ok(What::Truncated(Part::Joined(Vec::from_slice(alloc.clone()?, bytes)?)))
}

// Returns the finding about an open unit without further bytes.
fn end_of<'a, A: Allocator + Clone>(
    alloc: &A,
    unended: bool,
    kind: UnitKind,
    bytes: &[u8],
) -> Result<What<'a, A>, AllocError>
    ensures says { IfOk result (λ what. what_view what ≡ findings.end_of unended bytes.now kind (header_at bytes.now)) }
    ensures joined { IfOk result (λ what. has_span what ≡ false) }
{
    match kind {
        UnitKind::Section => truncated(alloc, bytes),
        UnitKind::Pes => match read_header(bytes) {
            Err(_) => truncated(alloc, bytes),
            Ok((header, size)) => {
                if header.len != 0 {
                    return truncated(alloc, bytes);
                }
                let body = Vec::from_slice(alloc.clone()?, rest_of(bytes, size))?;
                Ok(What::Pes {
                    header,
                    unended,
                    body: Part::Joined(body),
                })
            }
        },
    }
}

/// Cuts the open unit short.
pub(crate) fn cut_short<'a, A: Allocator + Clone>(
    alloc: &A,
    place: Place,
    open_unit: &Option<OpenUnit<A>>,
    found: &mut Vec<Finding<'a, A>, A>,
) -> Result<(), AllocError>
    ensures { OnOk result (Finds place found.old.items found.new.items (findings.cut_short open_unit.now)) }
{
    let Some(unit) = open_unit else {
        return Ok(());
    };
    let bytes = unit.joined(alloc, 0)?;
    let begun = begun_kind(unit.kind, unit.access, &bytes);
    let what = What::Truncated(Part::Joined(bytes));
    note(place, Some((unit.packet, begun)), what, found)
}

/// Ends the open unit: a PES packet without a length is whole.
#[tactic(auto, unfolding(crate::specs::Findings::ended))]
pub(crate) fn end_unit<'a, A: Allocator + Clone>(
    alloc: &A,
    place: Place,
    unended: bool,
    open_unit: &Option<OpenUnit<A>>,
    found: &mut Vec<Finding<'a, A>, A>,
) -> Result<(), AllocError>
    ensures ok { OnOk result (Finds place found.old.items found.new.items (findings.ended unended open_unit.now)) }
    ensures err { OnErr result (KeepsFindings found.old.items found.new.items) }
    ensures one { vec_len found.new ≤ vec_len found.old + 1 }
    ensures room { vec_capacity found.old ≤ vec_capacity found.new }
{
    let Some(unit) = open_unit else {
        return Ok(());
    };
    let bytes = unit.joined(alloc, 0)?;
    let begun = begun_kind(unit.kind, unit.access, &bytes);
    let what = end_of(alloc, unended, unit.kind, &bytes)?;
    note(place, Some((unit.packet, begun)), what, found)
}

// Ends an open section with its last bytes: they decide it, or it is cut short.
#[tactic(auto, unfolding(crate::specs::Findings::found_or_cut))]
fn end_section<'a, A: Allocator + Clone>(
    alloc: &A,
    place: Place,
    before: &[u8],
    unit: &OpenUnit<A>,
    found: &mut Vec<Finding<'a, A>, A>,
) -> Result<(), AllocError>
    requires { unit.now.kind ≡ UnitKind.Section }
    ensures { OnOk result (Finds place found.old.items found.new.items
        (findings.found_or_cut (units.appended unit.now before.now)
        (units.decided UnitKind.Section (unit.now.bytes ++ before.now)))) }
{
    let mut joined = unit.joined(alloc, before.len())?;
    joined.extend_from_slice(before)?;
    let bytes = joined.as_slice();
    match decide(UnitKind::Section, bytes) {
        None => {
            let what = truncated(alloc, bytes)?;
            note(
                place,
                Some((
                    unit.packet,
                    begun_kind(UnitKind::Section, unit.access, bytes),
                )),
                what,
                found,
            )
        }
        Some(verdict) => {
            note_decided(
                alloc,
                place,
                unit.packet,
                UnitKind::Section,
                unit.access,
                bytes,
                verdict,
                found,
            )
        }
    }
}

/// Appends what the bytes before the place of pointer_field end: a section of the open unit.
#[tactic(auto, unfolding(crate::specs::Findings::last_bytes, crate::specs::Findings::last_bytes_by))]
pub(crate) fn end_before_pointer<'a, A: Allocator + Clone>(
    alloc: &A,
    place: Place,
    before: &[u8],
    open_unit: &Option<OpenUnit<A>>,
    found: &mut Vec<Finding<'a, A>, A>,
) -> Result<(), AllocError>
    ensures { OnOk result (Finds place found.old.items found.new.items (findings.last_bytes before.now open_unit.now)) }
{
    let Some(unit) = open_unit else {
        return Ok(());
    };
    match unit.kind {
        UnitKind::Pes => end_unit(alloc, place, false, open_unit, found),
        UnitKind::Section => end_section(alloc, place, before, unit, found),
    }
}

/// Notes a PES packet whose header was read, with the packet in which it began and its random_access_indicator. Its
/// body of `size` bytes ends with this payload, and is moved to the finding with its room: at most 4,096 bytes, or
/// fewer than twice the bytes received.
pub(crate) fn note_whole<'a, A: Allocator + Clone>(
    alloc: &A,
    place: Place,
    begun: (u64, bool),
    header: PesHeader,
    size: usize,
    payload: &[u8],
    body: &mut Vec<u8, A>,
    found: &mut Vec<Finding<'a, A>, A>,
) -> Result<(), AllocError>
    ensures ok { OnOk result (Finds place found.old.items found.new.items
        (units.whole_pes begun.0 begun.1 header (take size (body.old.items ++ payload.now)) ∷ [])) }
    ensures moved { OnOk result (body.new.items ≡ []) }
    ensures err { OnErr result (body.new.items ≡ body.old.items) }
    ensures none { OnErr result (KeepsFindings found.old.items found.new.items) }
    ensures one { vec_len found.new ≤ vec_len found.old + 1 }
    ensures room { vec_capacity found.old ≤ vec_capacity found.new }
{
    found.reserve(1)?;
    let empty = Vec::new(alloc.clone()?);
    body.extend_from_slice(payload)?;
    let mut whole = mem::replace(body, empty);
    whole.truncate(size);
    let (packet, access) = begun;
    let kind = Kind::Pes {
        stamped: is_stamped(header.stamps),
        access,
    };
    found.push_reserved(Finding {
        packet: place.packet,
        pid: Some(place.pid),
        begun: Some((packet, kind)),
        what: What::Pes {
            header,
            unended: false,
            body: Part::Joined(whole),
        },
    });
    Ok(())
}

/// Ends the open unit where a PES packet begins. One without a length is moved to the finding, and no bytes are left.
#[tactic(auto, unfolding(crate::specs::Findings::ended))]
pub(crate) fn end_moved<'a, A: Allocator + Clone>(
    alloc: &A,
    place: Place,
    open_unit: &mut Option<OpenUnit<A>>,
    found: &mut Vec<Finding<'a, A>, A>,
) -> Result<(), AllocError>
    ensures ok { OnOk result (Finds place found.old.items found.new.items (findings.ended false open_unit.old)) }
    ensures err { OnErr result (open_unit.new ≡ open_unit.old) }
    ensures none { OnErr result (KeepsFindings found.old.items found.new.items) }
    ensures one { vec_len found.new ≤ vec_len found.old + 1 }
    ensures room { vec_capacity found.old ≤ vec_capacity found.new }
{
    let Some(unit) = open_unit else {
        return Ok(());
    };
    let Some(header) = unit.header else {
        return end_unit(alloc, place, false, open_unit, found);
    };
    if header.len != 0 {
        return end_unit(alloc, place, false, open_unit, found);
    }
    fill(alloc, &mut unit.left_out, &mut unit.bytes)?;
    let begun = (unit.packet, unit.access);
    let size = unit.bytes.len();
    note_whole(
        alloc,
        place,
        begun,
        header,
        size,
        &[],
        &mut unit.bytes,
        found,
    )?;
    unit.least = 0;
    unit.header = None;
    unit.front.clear();
    Ok(())
}
