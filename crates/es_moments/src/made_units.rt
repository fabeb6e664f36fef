//! Units with DTS that are made from their PTS.

ghost use Rattle.std.specs.Prelude.{◌≡◌, IfOk, IfErr, OnOk, None};
ghost use Rattle.es_moments.specs.MadeDts as spec;
ghost use Rattle.es_moments.specs.DtsErrors.{IsDtsError};
ghost use Rattle.es_moments.specs.WireUnits.{unit_with};

use crate::dts_from_pts::{DtsError, made_dts};
use crate::wire_unit::{FoundUnit, WireUnit};
use std::alloc::{AllocError, Allocator};
use std::collections::VecDeque;

/// Returns the PTS of units.
pub(crate) fn all_pts<A: Allocator>(
    alloc: A,
    found: &[FoundUnit<'_, A>],
) -> Result<Vec<u64, A>, AllocError>
    ensures { IfOk result (λ stamps. stamps.items ≡ spec.pts_of found.now) }
{
    found.iter().map(|unit| unit.pts).collect(alloc)
}

// Returns a unit with another DTS.
fn restamped<'f, A: Allocator>(dts: u64, unit: FoundUnit<'f, A>) -> FoundUnit<'f, A>
    ensures { result ≡ unit_with unit.entry.packet unit.entry.stream_id dts unit.entry.unit.pts
        unit.entry.unit.marks unit.entry.unit.bytes }
{
    WireUnit {
        packet: unit.packet,
        stream_id: unit.stream_id,
        dts,
        pts: unit.pts,
        marks: unit.marks,
        bytes: unit.bytes,
    }
}

/// Returns units with these DTS.
pub(crate) fn with_dts<'f, A: Allocator>(
    alloc: A,
    dts: &[u64],
    found: Vec<FoundUnit<'f, A>, A>,
) -> Result<Vec<FoundUnit<'f, A>, A>, AllocError>
    ensures { IfOk result (λ units. units.items ≡ spec.with_dts dts.now found.entry.items) }
{
    let mut units = Vec::with_capacity(alloc, found.len())?;
    let mut left = VecDeque::from(found);
    let mut later = dts;
    'units: while let Some(next) = left.pop_front() {
        let Some((first, rest)) = later.split_first() else {
            return Ok(units);
        };
        units.push(restamped(*first, next))?;
        later = rest;
    }
    Ok(units)
}

/// Returns the units of a stream with DTS that `made_dts` makes from their PTS, all else unchanged. Serves streams
/// without DTS whose pictures are in another order than they are shown, and streams whose DTS do not rise.
pub fn units_with_made_dts<'f, A: Allocator + Clone>(
    alloc: A,
    found: Vec<FoundUnit<'f, A>, A>,
) -> Result<Vec<FoundUnit<'f, A>, A>, DtsError>
    ensures made { IfOk result (λ units. units.items ≡ spec.made_units found.entry.items) }
    ensures sound { OnOk result (spec.dts_fault (spec.pts_of found.entry.items) ≡ None) }
    ensures refused { IfErr result (λ error. IsDtsError (spec.pts_of found.entry.items) error) }
{
    let Ok(other) = alloc.clone() else {
        return Err(DtsError::Memory);
    };
    let Ok(pts) = all_pts(other, &found) else {
        return Err(DtsError::Memory);
    };
    let Ok(other) = alloc.clone() else {
        return Err(DtsError::Memory);
    };
    let dts = match made_dts(other, &pts) {
        Ok(dts) => dts,
        Err(error) => return Err(error),
    };
    match with_dts(alloc, &dts, found) {
        Ok(units) => Ok(units),
        Err(_) => Err(DtsError::Memory),
    }
}
