//! Copies of the units of a PID in the findings of a stream.

ghost use Rattle.std.specs.Prelude.{◌≡◌, IfOk, map};
ghost use Rattle.es_units.specs.PidPlaces.{AreLinks, pids_in};
ghost use Rattle.pid_findings.specs.Shown.{finding_view};
ghost use Rattle.es_units.specs.CarriedUnits as spec;

use crate::found::found_units;
use crate::pid_links::PidLinks;
use es_moments::{FoundUnit, WireUnit};
use pid_findings::Finding;
use std::alloc::{AllocError, Allocator};

// Returns a copy of a unit.
fn copied<A: Allocator>(
    alloc: A,
    unit: &FoundUnit<'_, A>,
) -> Result<WireUnit<Vec<u8, A>>, AllocError>
    ensures { IfOk result (λ copy. copy ≡ unit.now) }
{
    let mut bytes = Vec::from_slice(alloc, unit.bytes.body)?;
    bytes.extend_from_slice(&unit.bytes.more)?;
    Ok(WireUnit {
        packet: unit.packet,
        stream_id: unit.stream_id,
        dts: unit.dts,
        pts: unit.pts,
        marks: unit.marks,
        bytes,
    })
}

/// Returns copies of the units that `found_units` gives.
pub fn carried_units<A: Allocator + Clone>(
    alloc: A,
    pid: u16,
    findings: &[Finding<'_, A>],
    links: &PidLinks<A>,
) -> Result<Vec<WireUnit<Vec<u8, A>>, A>, AllocError>
    requires links { AreLinks links.now (pids_in (map finding_view findings.now)) }
    ensures { IfOk result (λ units. units.items ≡ spec.carried_units pid (map finding_view findings.now)) }
{
    let found = found_units(alloc.clone()?, pid, findings, links)?;
    let mut units = Vec::with_capacity(alloc.clone()?, found.len())?;
    for unit in &found {
        units.push(copied(alloc.clone()?, unit)?)?;
    }
    Ok(units)
}
