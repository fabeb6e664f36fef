//! Units of data streams that are due at one moment, each with a DTS of its own.

ghost use Rattle.std.specs.Prelude.{◌≡◌, ◌≤◌, ◌==◌, ◌&&◌, IfOk, drop};
ghost use Rattle.es_moments.specs.ApartUnits as spec;

use crate::made_units::with_dts;
use crate::stamps::distance;
use crate::wire_unit::FoundUnit;
use std::alloc::{AllocError, Allocator};

/// Private_stream_1 (ISO/IEC 13818-1, table 2-22).
pub const PRIVATE_STREAM_1: u8 = 0xbd;

/// Returns the DTS of a unit.
pub(crate) fn dts_of<A: Allocator>(unit: &FoundUnit<'_, A>) -> u64
    ensures { result ≡ unit.now.unit.dts }
{
    unit.dts
}

// Returns whether a unit of private_stream_1 is due at the same moment as another unit.
fn is_same<A: Allocator>(unit: &FoundUnit<'_, A>, next: &FoundUnit<'_, A>) -> bool
    ensures { result ≡ (unit.now.stream_id == 0xBD && next.now.unit.dts == unit.now.unit.dts) }
{
    unit.stream_id == PRIVATE_STREAM_1 && next.dts == unit.dts
}

/// Returns whether a unit is due at the same moment as the unit at a place, if there is one.
#[tactic(auto, using(crate::proofs::ApartUnits::same_end))]
pub(crate) fn is_same_at<A: Allocator>(
    at: usize,
    unit: &FoundUnit<'_, A>,
    found: &[FoundUnit<'_, A>],
) -> bool
    ensures { result ≡ spec.is_same_next unit.now (drop at found.now) }
{
    match found.get(at) {
        None => false,
        Some(next) => is_same(unit, next),
    }
}

/// Returns how many units of a row are before the next unit, if `place` units are before this unit, counted up to 63.
#[tactic(auto, unfolding(crate::specs::ApartUnits::next_place))]
pub fn next_place(same: bool, place: u8) -> u8
    requires { place ≤ 63 }
    ensures value { result ≡ spec.next_place same place }
    ensures bound { result ≤ 63 }
{
    if same { (place + 1).min(63) } else { 0 }
}

/// Returns the DTS of a unit with `place` units of its row before it.
#[tactic(auto, unfolding(crate::specs::ApartUnits::apart_by))]
pub fn apart_by(same: bool, place: u8, dts: u64) -> u64
    requires { place ≤ 63 }
    ensures { result ≡ spec.apart_by same place dts }
{
    if same {
        distance(u64::from(63 - place), dts)
    } else {
        dts
    }
}

// Returns the DTS of units.
fn apart_dts<A: Allocator>(alloc: A, found: &[FoundUnit<'_, A>]) -> Result<Vec<u64, A>, AllocError>
    ensures { IfOk result (λ dts. dts.items ≡ spec.apart_dts 0 found.now) }
{
    let mut dts = Vec::with_capacity(alloc, found.len())?;
    let mut place = 0;
    for (at, unit) in found.iter().enumerate() {
        let same = is_same_at(at + 1, unit, found);
        dts.push(apart_by(same, place, dts_of(unit)))?;
        place = next_place(same, place);
    }
    Ok(dts)
}

// Returns whether two units in a row are due at one moment.
fn has_same<A: Allocator>(found: &[FoundUnit<'_, A>]) -> bool
    ensures { result ≡ spec.has_same found.now }
{
    for (at, unit) in found.iter().enumerate() {
        if is_same_at(at + 1, unit, found) {
            return true;
        }
    }
    false
}

/// Returns the units of a stream, each with a DTS of its own, if several of private_stream_1 in a row share a DTS: the
/// last unit keeps it, and the units before it are decoded up to 63 units of 90 kHz earlier, one after another. All
/// else is unchanged.
#[tactic(auto, using(crate::proofs::ApartUnits::apart_stay))]
pub fn apart_units<'f, A: Allocator + Clone>(
    alloc: A,
    found: Vec<FoundUnit<'f, A>, A>,
) -> Result<Vec<FoundUnit<'f, A>, A>, AllocError>
    ensures { IfOk result (λ units. units.items ≡ spec.apart_units found.entry.items) }
{
    // Mostly there are none: then no unit is touched.
    if !has_same(&found) {
        return Ok(found);
    }
    let dts = apart_dts(alloc.clone()?, &found)?;
    with_dts(alloc, &dts, found)
}
