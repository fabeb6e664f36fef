//! The units of a stream at their moments.

ghost use Rattle.std.specs.Prelude.{◌≡◌, ◌≤◌, ◌<◌, ◌^◌, IfOk, IfErr, IfSome, OnOk, None, map};
ghost use Rattle.es_moments.specs.Stamps as spec;
ghost use Rattle.es_moments.specs.UnitMoments as at;
ghost use Rattle.es_moments.specs.StampErrors.{IsStampError, fault_of};

use crate::stamps::{StampFault, distance, dts_at, unit_fault};
use crate::wire_unit::{FoundUnit, WireUnit};
use pes_packet::Unit;
use std::alloc::{AllocError, Allocator};
use std::collections::VecDeque;

/// Why the units of a stream have no moments.
#[derive(Clone, Copy, PartialEq, Eq)]
pub enum StampError {
    /// No memory was left for the units.
    Memory,
    /// The first unit whose stamps can't be moments.
    Unit { index: usize, fault: StampFault },
}

/// The moments of a unit, in units of 90 kHz.
#[derive(Clone, Copy)]
pub struct UnitMoment {
    pub dts: u64,
    pub pts: u64,
}

// Returns the moments of a unit with these stamps, after a DTS or at first, if the clock shows `base` at moment 0 and
// its PTS is at most `limit` after its DTS; otherwise why it can't have any.
fn moment(
    limit: u32,
    base: u64,
    before: Option<u64>,
    dts: u64,
    pts: u64,
) -> Result<UnitMoment, StampFault>
    requires base { base < 2 ^ 33 }
    requires before { IfSome before (λ dts. dts ≤ 2 ^ 52) }
    ensures value { IfOk result (λ m. m ≡ at.moment_at base before dts pts) }
    ensures fault { fault_of result ≡ spec.or_fault (spec.dts_not_increasing base before dts)
        (spec.or_fault (spec.pts_out_of_range limit base (spec.dts_at base before dts) pts)
        (spec.dts_too_far (spec.dts_at base before dts))) }
    ensures bound { IfOk result (λ m. m.dts ≤ 2 ^ 52) }
{
    if let Some(fault) = unit_fault(limit, base, before, dts, pts) {
        return Err(fault);
    }
    let moment = dts_at(base, before, dts);
    Ok(UnitMoment {
        dts: moment,
        pts: moment + distance(moment + base, pts),
    })
}

/// Returns a unit at its moments, after a DTS or at first, if the clock shows `base` at moment 0 and its PTS is at most
/// `limit` after its DTS; otherwise why it can't have any.
#[tactic(auto, unfolding(crate::specs::Stamps::unit_at))]
pub fn moved_unit<A: Allocator>(
    limit: u32,
    base: u64,
    before: Option<u64>,
    wire: WireUnit<Vec<u8, A>>,
) -> Result<Unit<A>, StampFault>
    requires base { base < 2 ^ 33 }
    requires before { IfSome before (λ dts. dts ≤ 2 ^ 52) }
    ensures value { IfOk result (λ u. u ≡ spec.unit_at base before wire.unit) }
    ensures fault { fault_of result ≡ spec.unit_fault limit base before wire.unit }
    ensures bound { IfOk result (λ u. u.dts ≤ 2 ^ 52) }
{
    match moment(limit, base, before, wire.dts, wire.pts) {
        Err(fault) => Err(fault),
        Ok(moment) => Ok(Unit {
            dts: moment.dts,
            pts: moment.pts,
            marks: wire.marks,
            bytes: wire.bytes,
        }),
    }
}

/// Returns the moments of units, if the clock shows `base` at moment 0: each DTS at the first moment after the DTS
/// before it when the clock shows it, the first DTS at the first such moment of all, each PTS at the first such moment
/// from its DTS on, at most `limit` later.
pub fn found_moments<A: Allocator>(
    alloc: A,
    limit: u32,
    base: u64,
    units: &[FoundUnit<'_, A>],
) -> Result<Vec<UnitMoment, A>, StampError>
    requires { base < 2 ^ 33 }
    ensures moments { IfOk result (λ found. found.items
        ≡ map at.moment_of (spec.moved base None (map (λ u. u.unit) units.now))) }
    ensures sound { OnOk result (spec.first_fault limit base None 0 (map (λ u. u.unit) units.now) ≡ None) }
    ensures refused { IfErr result (IsStampError limit base (map (λ u. u.unit) units.now)) }
{
    let Ok(mut found) = Vec::with_capacity(alloc, units.len()) else {
        return Err(StampError::Memory);
    };
    let mut before = None;
    for (index, unit) in units.iter().enumerate() {
        let next = match moment(limit, base, before, unit.dts, unit.pts) {
            Ok(next) => next,
            Err(fault) => return Err(StampError::Unit { index, fault }),
        };
        before = Some(next.dts);
        let Ok(()) = found.push(next) else {
            return Err(StampError::Memory);
        };
    }
    Ok(found)
}

// Returns a unit at these moments.
fn unit_at<A: Allocator>(moment: UnitMoment, wire: WireUnit<Vec<u8, A>>) -> Unit<A>
    ensures { result ≡ at.unit_at moment wire }
{
    Unit {
        dts: moment.dts,
        pts: moment.pts,
        marks: wire.marks,
        bytes: wire.bytes,
    }
}

/// Returns units at these moments.
pub fn units_at<A: Allocator>(
    alloc: A,
    moments: &[UnitMoment],
    wire: Vec<WireUnit<Vec<u8, A>>, A>,
) -> Result<Vec<Unit<A>, A>, AllocError>
    ensures { IfOk result (λ units. units.items ≡ at.units_at moments.now wire.items) }
{
    let mut units = Vec::with_capacity(alloc, wire.len())?;
    let mut left = VecDeque::from(wire);
    let mut later = moments;
    'units: while let Some(next) = left.pop_front() {
        let Some((first, rest)) = later.split_first() else {
            return Ok(units);
        };
        units.push(unit_at(*first, next))?;
        later = rest;
    }
    Ok(units)
}
