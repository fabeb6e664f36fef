//! Findings noted one by one.
ghost use Rattle.std.specs.Prelude.{◌≡◌, ◌<◌, ◌≤◌, ◌+◌, ◌&&◌, false, [], ◌∷◌, IfOk, OnOk, OnErr, vec_capacity, vec_len};
ghost use Rattle.pid_findings.specs.Findings as findings;
ghost use Rattle.pid_findings.specs.Shown.{Finds, KeepsFindings, has_span, is_borrowed, payload_list, what_of};
ghost use Rattle.pid_findings.specs.Shown.{what_view};
ghost use Rattle.pid_findings.specs.Views.{is_whole};

use crate::finding::{Finding, Kind, What};
use crate::payload_bytes::{PayloadBytes, bytes_of, part_of};
use crate::verdicts::Verdict;
use std::alloc::{AllocError, Allocator};

/// A packet of a PID: its index in the stream, the PID, and whether findings borrow the packet's bytes or copy them.
#[derive(Clone, Copy)]
pub struct Place {
    pub packet: u64,
    pub pid: u16,
    pub borrowed: bool,
}

/// Notes a finding at a place, unless it lies in its packet whole.
pub(crate) fn note<'a, A: Allocator>(
    place: Place,
    begun: Option<(u64, Kind)>,
    what: What<'a, A>,
    found: &mut Vec<Finding<'a, A>, A>,
) -> Result<(), AllocError>
    requires { has_span what ≡ false }
    ensures ok { OnOk result (Finds place found.old.items found.new.items
        (record { begun = begun; what = what_view what.entry; within = false } ∷ [])) }
    ensures err { OnErr result (KeepsFindings found.old.items found.new.items) }
    ensures one { vec_len found.new ≤ vec_len found.old + 1 }
    ensures room { vec_capacity found.old ≤ vec_capacity found.new }
{
    found.push(Finding {
        packet: place.packet,
        pid: Some(place.pid),
        begun,
        what,
    })?;
    Ok(())
}

/// Notes a finding about a section or a PES packet in the packet where it begins.
pub(crate) fn note_here<'a, A: Allocator>(
    place: Place,
    begun: Kind,
    what: What<'a, A>,
    found: &mut Vec<Finding<'a, A>, A>,
) -> Result<(), AllocError>
    requires { has_span what ≡ (is_whole (what_view what) && place.borrowed) }
    ensures ok { OnOk result (Finds place found.old.items found.new.items
        (record {
          begun = Some (place.packet, begun);
          what = what_view what.entry;
          within = is_whole
              (what_view what.entry);
        }
        ∷ [])) }
    ensures err { OnErr result (KeepsFindings found.old.items found.new.items) }
{
    found.push(Finding {
        packet: place.packet,
        pid: Some(place.pid),
        begun: Some((place.packet, begun)),
        what,
    })?;
    Ok(())
}

/// Notes bytes that belong to no unit, if there are any, in a list with room for one more finding.
pub(crate) fn push_stray<'a, A: Allocator>(
    place: Place,
    size: usize,
    found: &mut Vec<Finding<'a, A>, A>,
)
    requires room { vec_len found.old < vec_capacity found.old }
    ensures { Finds place found.old.items found.new.items (findings.stray_bytes size) }
{
    if size == 0 {
        return;
    }
    found.push_reserved(Finding {
        packet: place.packet,
        pid: Some(place.pid),
        begun: None,
        what: What::Stray(size),
    });
}

/// Notes bytes that belong to no unit, if there are any. It stays a call of its own: few packets have such bytes.
#[inline(never)]
pub(crate) fn note_stray<'a, A: Allocator>(
    place: Place,
    size: usize,
    found: &mut Vec<Finding<'a, A>, A>,
) -> Result<(), AllocError>
    ensures ok { OnOk result (Finds place found.old.items found.new.items (findings.stray_bytes size)) }
    ensures err { OnErr result (KeepsFindings found.old.items found.new.items) }
{
    if size == 0 {
        return Ok(());
    }
    found.reserve(1)?;
    push_stray(place, size, found);
    Ok(())
}

/// Returns the finding about a section or a PES packet with these bytes.
pub(crate) fn what_by<'p, 'a: 'p, A: Allocator + Clone>(
    alloc: &A,
    verdict: Verdict,
    payload: PayloadBytes<'p, 'a>,
) -> Result<What<'a, A>, AllocError>
    ensures says { IfOk result (λ what. what_view what ≡ what_of (payload_list payload.entry) verdict) }
    ensures span { IfOk result (λ what. has_span what
        ≡ (is_whole (what_of (payload_list payload.entry) verdict) && is_borrowed payload.entry)) }
{
    match verdict {
        Verdict::TooLong => {
            let bytes = bytes_of(payload);
            Ok(What::Truncated(part_of(alloc, PayloadBytes::Copied(bytes), 0, bytes.len())?))
        }
        Verdict::Pes(header, start, end) => {
            let body = part_of(alloc, payload, start, end)?;
            Ok(What::Pes {
                header,
                unended: false,
                body,
            })
        }
        Verdict::BadPes(error) => Ok(What::BadPes(error)),
        Verdict::Section(size) => Ok(What::Section(part_of(alloc, payload, 0, size)?)),
        Verdict::BadSection(error) => Ok(What::BadSection(error)),
    }
}
