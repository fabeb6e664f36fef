//! The units of a PID, moved out of the findings of a stream.

ghost use Rattle.std.specs.Prelude.{◌≡◌, ◌++◌, ◌∷◌, [], IfOk, OnOk, map};
ghost use Rattle.es_units.specs.PidPlaces.{AreLinks, pids_in};
ghost use Rattle.std.specs.Option.{option_to_list};
ghost use Rattle.pid_findings.specs.Shown.{finding_view};
ghost use Rattle.es_units.specs.CarriedUnits as spec;
ghost use Rattle.es_units.specs.TakenUnits.{OthersStay};
ghost use Rattle.es_units.specs.UnitSteps as steps;

use crate::pid_links::PidLinks;
use crate::split_units::is_split;
use crate::unit_taker::UnitTaker;
use es_moments::{UnitBytes, WireUnit};
use pid_findings::Finding;
use std::alloc::{AllocError, Allocator};

/// Appends the unit, if there is one.
pub(crate) fn push_unit<B: UnitBytes, A: Allocator>(
    units: &mut Vec<WireUnit<B>, A>,
    unit: Option<WireUnit<B>>,
) -> Result<(), AllocError>
    ensures { OnOk result (units.new.items ≡ units.old.items ++ option_to_list unit) }
{
    let Some(unit) = unit else {
        return Ok(());
    };
    units.push(unit)?;
    Ok(())
}

// Takes the next finding, and appends the unit that it makes whole, if there is one.
fn take_next<A: Allocator + Clone>(
    alloc: &A,
    taker: &mut UnitTaker<Vec<u8, A>>,
    finding: &mut Finding<'_, A>,
    units: &mut Vec<WireUnit<Vec<u8, A>>, A>,
) -> Result<(), AllocError>
    ensures units { OnOk result (units.new.items ≡ units.old.items ++ option_to_list
        (steps.made_whole taker.old.split taker.old.unit (spec.role_of taker.old.pid (finding_view finding.old)))) }
    ensures kept { OnOk result (taker.new ≡ steps.after_finding taker.old (finding_view finding.old)) }
    ensures others { OnOk result (OthersStay taker.old.pid (finding_view finding.old ∷ [])
        (finding_view finding.new ∷ [])) }
    ensures pid { OnOk result (finding.new.pid ≡ finding.old.pid) }
{
    let unit = taker.take_moved(alloc, finding)?;
    push_unit(units, unit)
}

/// Returns the units that `found_units` gives. The body of the first PES packet of each is moved out of its finding,
/// which then is the finding of a repeated packet: this PID has no more units, and the units of other PIDs are
/// unchanged. Each finding keeps its PID.
pub fn taken_units<A: Allocator + Clone>(
    alloc: A,
    pid: u16,
    findings: &mut [Finding<'_, A>],
    links: &PidLinks<A>,
) -> Result<Vec<WireUnit<Vec<u8, A>>, A>, AllocError>
    requires links { AreLinks links.now (pids_in (map finding_view findings.old)) }
    ensures units { IfOk result (λ units. units.items ≡ spec.carried_units pid (map finding_view findings.old)) }
    ensures others { OnOk result (OthersStay pid (map finding_view findings.old) (map finding_view findings.new)) }
    ensures pids { OnOk result (pids_in (map finding_view findings.new) ≡ pids_in (map finding_view findings.old)) }
{
    let mut taker = UnitTaker::new(pid, is_split(pid, findings, links));
    let mut units = Vec::new(alloc.clone()?);
    let mut at = links.first(pid);
    'findings: while at < findings.len() {
        take_next(&alloc, &mut taker, &mut findings[at], &mut units)?;
        at = links.next(at);
    }
    push_unit(&mut units, taker.finish())?;
    Ok(units)
}
