//! DTS made from PTS.

ghost use Rattle.std.specs.Prelude.{◌≡◌, IfOk, IfErr, OnOk, None};
ghost use Rattle.std.specs.Option.{option_or};
ghost use Rattle.es_moments.specs.MadeDts as spec;
ghost use Rattle.es_moments.specs.DtsErrors.{IsDtsError};

use crate::moments::{in_order, moments_of};
use clock27::STAMP_MODULUS;
use std::alloc::{AllocError, Allocator};

/// Why no DTS can be made from the PTS of units.
#[derive(Clone, Copy, PartialEq, Eq)]
pub enum DtsFault {
    /// Two units have this PTS: the earliest that two have.
    SamePts(u64),
    /// The first unit whose PTS would be more than a second after its DTS: how long, in units of 90 kHz.
    PtsTooLate { index: usize, after: u128 },
}

/// Why a call makes no DTS.
#[derive(Clone, Copy, PartialEq, Eq)]
pub enum DtsError {
    /// No memory was left for the stamps.
    Memory,
    /// The PTS allow none.
    Fault(DtsFault),
}

// Returns the greatest time from a moment to the moment in its place in ascending order.
fn max_ahead(order: &[u128], moments: &[u128]) -> u128
    ensures { result ≡ spec.max_ahead order.now moments.now }
{
    let mut greatest = 0;
    let mut later = order;
    for moment in moments {
        let Some((first, rest)) = later.split_first() else {
            return greatest;
        };
        greatest = greatest.max(first.saturating_sub(*moment));
        later = rest;
    }
    greatest
}

#[tactic(auto, unfolding(crate::specs::MadeDts::is_first))]
fn is_first(moment: u128, moments: &[u128]) -> bool
    ensures { result ≡ spec.is_first moment moments.now }
{
    match moments {
        [first, ..] => moment == *first,
        _ => false,
    }
}

// Returns the fault of the first moment that occurs twice.
#[tactic(auto, using(crate::proofs::MadeDts::same_here, crate::proofs::MadeDts::same_later, crate::proofs::MadeDts::same_none))]
fn first_same_pts(order: &[u128]) -> Option<DtsFault>
    ensures { result ≡ spec.first_same_pts order.now }
{
    let mut left = order;
    while let Some((first, rest)) = left.split_first() {
        if is_first(*first, rest) {
            return Some(DtsFault::SamePts((*first % u128::from(STAMP_MODULUS)) as u64));
        }
        left = rest;
    }
    None
}

// Returns the fault of the first moment that is more than a second after the DTS in its place.
fn first_late_pts(shift: u128, order: &[u128], moments: &[u128]) -> Option<DtsFault>
    ensures { result ≡ spec.first_late_pts shift 0 order.now moments.now }
{
    let mut later = order;
    for (index, moment) in moments.iter().enumerate() {
        let Some((first, rest)) = later.split_first() else {
            return None;
        };
        let after = moment.saturating_sub(first.saturating_sub(shift));
        if after > 90_000 {
            return Some(DtsFault::PtsTooLate { index, after });
        }
        later = rest;
    }
    None
}

// Returns the moments in order, shifted, as stamps.
fn shifted<A: Allocator>(alloc: A, shift: u128, order: &[u128]) -> Result<Vec<u64, A>, AllocError>
    ensures { IfOk result (λ stamps. stamps.items ≡ spec.shifted shift order.now) }
{
    order
        .iter()
        .map(|moment| (moment.saturating_sub(shift) % u128::from(STAMP_MODULUS)) as u64)
        .collect(alloc)
}

// Returns why no DTS can be made, if so.
fn fault_of(shift: u128, order: &[u128], moments: &[u128]) -> Option<DtsFault>
    ensures { result ≡ option_or (spec.first_same_pts order.now) (spec.first_late_pts shift 0 order.now moments.now) }
{
    if let Some(fault) = first_same_pts(order) {
        return Some(fault);
    }
    first_late_pts(shift, order, moments)
}

// Returns the moments of stamps, and these in order of time.
fn ordered_moments<A: Allocator + Clone>(
    alloc: A,
    stamps: &[u64],
) -> Result<(Vec<u128, A>, Vec<u128, A>), AllocError>
    ensures { IfOk result (λ p. (p.0.items ≡ spec.moments_of stamps.now)
        × (p.1.items ≡ spec.in_order (spec.moments_of stamps.now))) }
{
    let moments = moments_of(alloc.clone()?, stamps)?;
    let order = in_order(alloc, &moments)?;
    Ok((moments, order))
}

/// Returns DTS for units with these PTS, in the order of the units, all stamps of 33 bits: DTS number i is the i-th PTS
/// in order of time less the least time for all that leaves no DTS after its PTS. PTS are taken in turn, each nearest
/// to the PTS before.
#[tactic(auto, unfolding(crate::specs::MadeDts::fault_of_moments))]
pub fn made_dts<A: Allocator + Clone>(alloc: A, pts: &[u64]) -> Result<Vec<u64, A>, DtsError>
    ensures made { IfOk result (λ dts. dts.items ≡ spec.made_dts pts.now) }
    ensures sound { OnOk result (spec.dts_fault pts.now ≡ None) }
    ensures refused { IfErr result (λ error. IsDtsError pts.now error) }
{
    let Ok(other) = alloc.clone() else {
        return Err(DtsError::Memory);
    };
    let Ok((moments, order)) = ordered_moments(other, pts) else {
        return Err(DtsError::Memory);
    };
    let shift = max_ahead(&order, &moments);
    if let Some(fault) = fault_of(shift, &order, &moments) {
        return Err(DtsError::Fault(fault));
    }
    match shifted(alloc, shift, &order) {
        Ok(dts) => Ok(dts),
        Err(_) => Err(DtsError::Memory),
    }
}
