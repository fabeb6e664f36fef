//! The units of a PID in the findings of a stream.

ghost use Rattle.std.specs.Prelude.{◌≡◌, IfOk, map};
ghost use Rattle.es_units.specs.PidPlaces.{AreLinks, pids_in};
ghost use Rattle.pid_findings.specs.Shown.{finding_view};
ghost use Rattle.es_units.specs.CarriedUnits as spec;
ghost use Rattle.es_units.specs.UnitSteps as steps;

use crate::pes_role::role_of;
use crate::pid_links::PidLinks;
use crate::split_units::{cuts_any, is_split};
use crate::taken::push_unit;
use crate::unit_taker::UnitTaker;
use es_moments::FoundUnit;
use pid_findings::Finding;
use std::alloc::{AllocError, Allocator};

// Returns the units of a PID, and whether any unit is cut. If `split`, a unit may have several PES packets.
fn units_by<'f, A: Allocator + Clone>(
    alloc: A,
    split: bool,
    pid: u16,
    findings: &'f [Finding<'_, A>],
    links: &PidLinks<A>,
) -> Result<(Vec<FoundUnit<'f, A>, A>, bool), AllocError>
    requires links { AreLinks links.now (pids_in (map finding_view findings.now)) }
    ensures units { IfOk result (λ found. found.0.items ≡ spec.units_in split pid (map finding_view findings.now)) }
    ensures cut { IfOk result (λ found. found.1 ≡ steps.has_cut pid (map finding_view findings.now)) }
{
    let mut taker = UnitTaker::new(pid, split);
    let mut units = Vec::new(alloc.clone()?);
    let mut cut = false;
    let mut at = links.first(pid);
    while at < findings.len() {
        let finding = &findings[at];
        at = links.next(at);
        let role = role_of(pid, finding);
        cut = cuts_any(cut, taker.stream_id(), role);
        let unit = taker.take_role(&alloc, role)?;
        push_unit(&mut units, unit)?;
    }
    push_unit(&mut units, taker.finish())?;
    Ok((units, cut))
}

/// Returns the units of a PID in the findings of a stream: each PES packet with a PTS is a unit, with the bytes of the
/// PES packets without a PTS and with its stream_id that follow it, if the PID has only padding_stream in between. A
/// unit that lost a part is left out, and so is a unit without bytes.
#[tactic(auto, using(crate::proofs::UnitSteps::uncut))]
pub fn found_units<'f, A: Allocator + Clone>(
    alloc: A,
    pid: u16,
    findings: &'f [Finding<'_, A>],
    links: &PidLinks<A>,
) -> Result<Vec<FoundUnit<'f, A>, A>, AllocError>
    requires links { AreLinks links.now (pids_in (map finding_view findings.now)) }
    ensures { IfOk result (λ units. units.items ≡ spec.carried_units pid (map finding_view findings.now)) }
{
    // Where none is cut, it is all the same whether units have several PES packets, and this is not asked.
    let (units, cut) = units_by(alloc.clone()?, false, pid, findings, links)?;
    if !cut || !is_split(pid, findings, links) {
        return Ok(units);
    }
    drop(units);
    let (units, _) = units_by(alloc, true, pid, findings, links)?;
    Ok(units)
}
