//! Whether the DTS of a stream's units rise, or are made from their PTS.

ghost use Rattle.std.specs.Prelude.{◌≡◌, IfOk, is_none};
ghost use Rattle.es_moments.specs.MadeDts.{dts_fault, pts_of};
ghost use Rattle.es_moments.specs.RisingDts as spec;

use crate::apart::{apart_by, dts_of, is_same_at, next_place};
use crate::dts_from_pts::{DtsError, made_dts};
use crate::made_units::all_pts;
use crate::stamps::distance;
use crate::wire_unit::FoundUnit;
use clock27::STAMP_MODULUS;
use std::alloc::{AllocError, Allocator};

// Returns whether a stamp is after the stamp before it, if there is one.
#[tactic(auto, unfolding(crate::specs::RisingDts::is_later))]
fn is_later(before: Option<u64>, stamp: u64) -> bool
    ensures { result ≡ spec.is_later before stamp }
{
    match before {
        None => true,
        Some(before) => {
            let after = distance(before, stamp);
            0 < after && after < STAMP_MODULUS / 2
        }
    }
}

// Returns whether the DTS of units rise; units of a data stream that are due at one moment are decoded one after
// another.
fn dts_rise<A: Allocator>(found: &[FoundUnit<'_, A>]) -> bool
    ensures { result ≡ spec.dts_rise found.now }
{
    let mut before = None;
    let mut place = 0;
    for (at, unit) in found.iter().enumerate() {
        let same = is_same_at(at + 1, unit, found);
        let dts = apart_by(same, place, dts_of(unit));
        if !is_later(before, dts) {
            return false;
        }
        before = Some(dts);
        place = next_place(same, place);
    }
    true
}

// Returns whether DTS can be made from the PTS of units.
fn can_be_made<A: Allocator + Clone>(
    alloc: A,
    found: &[FoundUnit<'_, A>],
) -> Result<bool, AllocError>
    ensures { IfOk result (λ can. can ≡ is_none (dts_fault (pts_of found.now))) }
{
    let pts = all_pts(alloc.clone()?, found)?;
    match made_dts(alloc, &pts) {
        Ok(_) => Ok(true),
        Err(DtsError::Fault(_)) => Ok(false),
        Err(DtsError::Memory) => Err(AllocError),
    }
}

/// Returns whether the DTS of units do not rise, and DTS can be made from their PTS.
#[tactic(auto, unfolding(crate::specs::RisingDts::dts_are_made))]
pub fn dts_are_made<A: Allocator + Clone>(
    alloc: A,
    found: &[FoundUnit<'_, A>],
) -> Result<bool, AllocError>
    ensures { IfOk result (λ made. made ≡ spec.dts_are_made found.now) }
{
    if dts_rise(found) {
        return Ok(false);
    }
    can_be_made(alloc, found)
}
