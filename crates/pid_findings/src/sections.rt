//! Sections in a row in a payload, up to a byte FF in a table_id's place (ISO/IEC 13818-1, 2.4.4).
ghost use Rattle.std.specs.Prelude.{◌≡◌, ◌<◌, ◌≤◌, IfOk, OnOk, option_map, length, drop};
ghost use Rattle.pid_findings.specs.OpenUnits as units;
ghost use Rattle.pid_findings.specs.Shown.{Finds, is_borrowed, payload_list, what_of};

use crate::beginnings::note_decided_here;
use crate::finding::Finding;
use crate::open_unit::{OpenUnit, UnitKind};
use crate::payload_bytes::{PayloadBytes, after, bytes_of};
use crate::place::Place;
use crate::verdicts::{Verdict, decide};
use arrayvec::ArrayVec;
use psi_tables::SectionError;
use std::alloc::{AllocError, Allocator};

// Returns whether stuffing, or nothing, is at the front.
fn is_stuffing(bytes: &[u8]) -> bool
    ensures { result ≡ units.is_stuffing bytes.now }
{
    match bytes {
        [] => true,
        [table_id, ..] => *table_id == 0xFF,
    }
}

// Returns the number of bytes of the section at the front by its section_length, at most all.
fn declared_size(bytes: &[u8]) -> usize
    requires { 0 < length bytes.now }
    ensures some { 0 < result }
    ensures within { result ≤ length bytes.now }
    ensures rest { drop result bytes.now ≡ drop (units.declared_size bytes.now) bytes.now }
{
    match bytes {
        [_, high, low, ..] => {
            let size = 3 + ((*high % 16) as usize * 256 + *low as usize);
            if size < bytes.len() {
                size
            } else {
                bytes.len()
            }
        }
        _ => bytes.len(),
    }
}

// Returns the number of bytes of a decided section.
#[tactic(auto, unfolding(crate::specs::OpenUnits::taken_by))]
fn taken_by(bytes: &[u8], verdict: Verdict) -> usize
    requires { 0 < length bytes.now }
    ensures some { 0 < result }
    ensures within { result ≤ length bytes.now }
    ensures rest { drop result bytes.now ≡ drop (units.taken_by bytes.now (what_of bytes.now verdict)) bytes.now }
{
    match verdict {
        Verdict::BadSection(SectionError::Length) => bytes.len(),
        _ => declared_size(bytes),
    }
}

/// Notes the sections that are decided; returns the section that is still open, if any.
pub(crate) fn sections<'p, 'a: 'p, A: Allocator + Clone>(
    alloc: &A,
    place: Place,
    payload: PayloadBytes<'p, 'a>,
    found: &mut Vec<Finding<'a, A>, A>,
) -> Result<Option<OpenUnit<A>>, AllocError>
    requires { is_borrowed payload ≡ place.borrowed }
    ensures found { OnOk result (Finds place found.old.items found.new.items
        (units.sections_in place.packet 0 (payload_list payload.entry))) }
    ensures last { IfOk result (λ begun. begun ≡ option_map (units.section place.packet)
        (units.last_in 0 (payload_list payload.entry))) }
{
    let mut rest = payload;
    loop {
        let bytes = bytes_of(rest);
        if is_stuffing(bytes) {
            return Ok(None);
        }
        match decide(UnitKind::Section, bytes) {
            None => {
                let bytes = Vec::from_slice(alloc.clone()?, bytes)?;
                return Ok(Some(OpenUnit {
                    packet: place.packet,
                    kind: UnitKind::Section,
                    access: false,
                    header: None,
                    front: ArrayVec::new(),
                    left_out: 0,
                    bytes,
                    least: 0,
                }));
            }
            Some(verdict) => {
                note_decided_here(alloc, place, UnitKind::Section, false, rest, verdict, found)?;
                rest = after(rest, taken_by(bytes, verdict));
            }
        }
    }
}
