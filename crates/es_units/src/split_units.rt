//! Units that span several PES packets.

ghost use Rattle.std.specs.Prelude.{◌≡◌, ◌&&◌, ◌||◌, drop, map, option_map};
ghost use Rattle.es_units.specs.PidPlaces.{AreLinks, IsOnWay, pids_in};
ghost use Rattle.pid_findings.specs.Shown.{finding_view};
ghost use Rattle.es_units.specs.CarriedUnits as spec;
ghost use Rattle.es_units.specs.UnitSteps as steps;
ghost use Rattle.es_units.specs.Shown.{role_view};

use crate::pes_role::{PesRole, is_on, role_of};
use crate::pid_links::PidLinks;
use pid_findings::Finding;
use std::alloc::Allocator;

// Returns the bytes that a finding adds to a unit of this stream_id; `None` if it ends the unit.
#[tactic(auto, unfolding(crate::specs::CarriedUnits::more_bytes))]
fn more_bytes<'f>(id: u8, role: PesRole<'f>) -> Option<&'f [u8]>
    ensures { option_map (λ bytes. bytes.now) result ≡ spec.more_bytes id (role_view role.entry) }
{
    match role {
        PesRole::Ignored => Some(&[]),
        PesRole::Start(_) => None,
        PesRole::Continuation(other, body) => { if other == id { Some(body) } else { None } }
        PesRole::Interruption(_) => None,
    }
}

/// Returns the same of a finding that may be of another PID.
#[tactic(auto, unfolding(crate::specs::CarriedUnits::more_bytes))]
pub(crate) fn more_bytes_on<'f, A: Allocator>(
    id: u8,
    pid: u16,
    finding: &'f Finding<'_, A>,
) -> Option<&'f [u8]>
    ensures { option_map (λ bytes. bytes.now) result
        ≡ spec.more_bytes id (spec.role_of pid (finding_view finding.now)) }
{
    if !is_on(pid, finding) {
        return Some(&[]);
    }
    more_bytes(id, role_of(pid, finding))
}

// Returns the stream_id of a unit that starts.
#[tactic(auto, unfolding(crate::specs::CarriedUnits::start_id))]
fn start_id(role: PesRole<'_>) -> Option<u8>
    ensures { result ≡ spec.start_id (role_view role.entry) }
{
    match role {
        PesRole::Start(first) => Some(first.stream_id),
        PesRole::Ignored => None,
        PesRole::Continuation(_, _) => None,
        PesRole::Interruption(_) => None,
    }
}

// Returns the stream_id of the first unit.
fn first_id<A: Allocator>(pid: u16, findings: &[Finding<'_, A>], links: &PidLinks<A>) -> Option<u8>
    requires links { AreLinks links.now (pids_in (map finding_view findings.now)) }
    ensures { result ≡ spec.first_id pid (map finding_view findings.now) }
{
    let mut at = links.first(pid);
    while at < findings.len() {
        if let Some(id) = start_id(role_of(pid, &findings[at])) {
            return Some(id);
        }
        at = links.next(at);
    }
    None
}

// Returns whether a role is a further PES packet of a unit, whole or cut short.
#[tactic(auto, unfolding(crate::specs::CarriedUnits::is_part))]
fn is_part(first: Option<u8>, role: PesRole<'_>) -> bool
    ensures { result ≡ spec.is_part first (role_view role.entry) }
{
    match role {
        PesRole::Ignored => false,
        PesRole::Start(_) => false,
        PesRole::Continuation(other, _) => first == Some(other),
        PesRole::Interruption(unstamped) => unstamped,
    }
}

/// Returns whether units of a PID have several PES packets: then something that is lost after one may be a part of
/// its unit.
#[tactic(auto, unfolding(crate::specs::CarriedUnits::is_split, crate::specs::CarriedUnits::is_part))]
pub(crate) fn is_split<A: Allocator>(
    pid: u16,
    findings: &[Finding<'_, A>],
    links: &PidLinks<A>,
) -> bool
    requires links { AreLinks links.now (pids_in (map finding_view findings.now)) }
    ensures { result ≡ spec.is_split pid (map finding_view findings.now) }
{
    let first = first_id(pid, findings, links);
    let mut at = links.first(pid);
    while at < findings.len() {
        if is_part(first, role_of(pid, &findings[at])) {
            return true;
        }
        at = links.next(at);
    }
    false
}

// Returns how a role ends a unit of this stream_id, if it does: `true` if it cuts the unit, `false` if the next unit
// starts.
#[tactic(auto, unfolding(crate::specs::CarriedUnits::end_of))]
fn end_of(id: u8, role: PesRole<'_>) -> Option<bool>
    ensures { result ≡ spec.end_of id (role_view role.entry) }
{
    match role {
        PesRole::Ignored => None,
        PesRole::Start(_) => Some(false),
        PesRole::Continuation(other, _) => { if other == id { None } else { Some(true) } }
        PesRole::Interruption(_) => Some(true),
    }
}

// Returns whether a role cuts the current unit, whose stream_id is `current`.
#[tactic(auto, unfolding(crate::specs::UnitSteps::cuts))]
fn cuts(current: Option<u8>, role: PesRole<'_>) -> bool
    ensures { result ≡ steps.cuts current (role_view role.entry) }
{
    let Some(id) = current else {
        return false;
    };
    match end_of(id, role) {
        Some(cut) => cut,
        None => false,
    }
}

/// Returns whether a unit was cut before, or a role cuts the current unit.
pub(crate) fn cuts_any(cut: bool, current: Option<u8>, role: PesRole<'_>) -> bool
    ensures { result ≡ (cut || steps.cuts current (role_view role.entry)) }
{
    cut || cuts(current, role)
}

// Returns whether a unit of this stream_id is cut: neither the next unit nor the end of the input ends it.
fn is_cut<A: Allocator>(
    id: u8,
    pid: u16,
    from: usize,
    findings: &[Finding<'_, A>],
    links: &PidLinks<A>,
) -> bool
    requires links { AreLinks links.now (pids_in (map finding_view findings.now)) }
    requires on { IsOnWay pid from (pids_in (map finding_view findings.now)) }
    ensures { result ≡ spec.is_cut id pid (drop from (map finding_view findings.now)) }
{
    let mut at = from;
    while at < findings.len() {
        if let Some(cut) = end_of(id, role_of(pid, &findings[at])) {
            return cut;
        }
        at = links.next(at);
    }
    false
}

/// Returns whether a part of a unit of this stream_id may be lost after its first PES packet.
pub(crate) fn is_lost<A: Allocator>(
    split: bool,
    id: u8,
    pid: u16,
    from: usize,
    findings: &[Finding<'_, A>],
    links: &PidLinks<A>,
) -> bool
    requires links { AreLinks links.now (pids_in (map finding_view findings.now)) }
    requires on { IsOnWay pid from (pids_in (map finding_view findings.now)) }
    ensures { result ≡ (split && spec.is_cut id pid (drop from (map finding_view findings.now))) }
{
    split && is_cut(id, pid, from, findings, links)
}
