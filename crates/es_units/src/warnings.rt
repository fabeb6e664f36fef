//! Findings of a PID that are in no unit.

ghost use Rattle.std.specs.Prelude.{◌≡◌, ◌==◌, ◌&&◌, ◌++◌, IfOk, OnOk, None, drop, length, map};
ghost use Rattle.es_units.specs.PidPlaces.{AreLinks, IsOnWay, pids_in};
ghost use Rattle.pid_findings.specs.Shown.{finding_view, what_view};
ghost use Rattle.es_units.specs.CarriedUnits.{continuation};
ghost use Rattle.es_units.specs.UnitSteps.{has_cut};
ghost use Rattle.es_units.specs.UnitWarnings as spec;
ghost use Rattle.es_units.specs.Shown.{role_view};

use crate::pes_role::{PADDING_STREAM, PesRole, first_packet, role_of};
use crate::pid_links::PidLinks;
use crate::split_units::{cuts_any, is_lost, is_split, more_bytes_on};
use crate::unit_warning::{UnitWarning, UnitWarningCause};
use pes_packet::Stamps;
use pid_findings::{Finding, What};
use std::alloc::{AllocError, Allocator};

// Returns the stream_id of the unit that the next PES packet without a PTS continues.
#[tactic(auto, unfolding(crate::specs::UnitWarnings::current_after))]
fn current_after(current: Option<u8>, role: PesRole<'_>) -> Option<u8>
    ensures { result ≡ spec.current_after current (role_view role.entry) }
{
    match role {
        PesRole::Ignored => current,
        PesRole::Start(first) => Some(first.stream_id),
        PesRole::Continuation(id, _) => { if current == Some(id) { current } else { None } }
        PesRole::Interruption(_) => None,
    }
}

// Returns whether no later finding has more bytes of a unit of this stream_id.
fn has_no_continuation<A: Allocator>(
    id: u8,
    pid: u16,
    from: usize,
    findings: &[Finding<'_, A>],
    links: &PidLinks<A>,
) -> bool
    requires links { AreLinks links.now (pids_in (map finding_view findings.now)) }
    requires on { IsOnWay pid from (pids_in (map finding_view findings.now)) }
    ensures { result ≡ (length (continuation id pid (drop from (map finding_view findings.now))) == 0) }
{
    let mut at = from;
    while at < findings.len() {
        let Some(body) = more_bytes_on(id, pid, &findings[at]) else {
            return true;
        };
        if !body.is_empty() {
            return false;
        }
        at = links.next(at);
    }
    true
}

// Returns the warning about a PES packet of a unit whose end is not known.
fn open_ended_cause(unended: bool) -> Option<UnitWarningCause>
    ensures { result ≡ spec.open_ended_cause unended }
{
    if unended {
        Some(UnitWarningCause::OpenEnded)
    } else {
        None
    }
}

// Returns the warning about a PES packet without a PTS.
#[tactic(auto, unfolding(crate::specs::UnitWarnings::unstamped_cause))]
fn unstamped_cause(
    current: Option<u8>,
    id: u8,
    unended: bool,
    size: usize,
) -> Option<UnitWarningCause>
    ensures { result ≡ spec.unstamped_cause current id unended size }
{
    match current {
        None => Some(UnitWarningCause::NoUnitBefore(size)),
        Some(current) => {
            if id == current {
                open_ended_cause(unended)
            } else {
                Some(UnitWarningCause::OtherStreamId { id, size })
            }
        }
    }
}

// Returns the warning about the first PES packet of a unit; `alone` if no later one continues it.
#[tactic(auto, unfolding(crate::specs::UnitWarnings::first_cause))]
fn first_cause(lost: bool, alone: bool, unended: bool, size: usize) -> Option<UnitWarningCause>
    ensures { result ≡ spec.first_cause lost alone unended size }
{
    if lost {
        Some(UnitWarningCause::PartLost)
    } else if size == 0 && alone {
        Some(UnitWarningCause::EmptyUnit)
    } else {
        open_ended_cause(unended)
    }
}

// Returns the warning about a PES packet.
#[tactic(auto, unfolding(crate::specs::UnitWarnings::pes_cause))]
fn pes_cause(
    current: Option<u8>,
    lost: bool,
    alone: bool,
    unended: bool,
    id: u8,
    stamps: Stamps,
    size: usize,
) -> Option<UnitWarningCause>
    ensures { result ≡ spec.pes_cause current lost alone unended id stamps size }
{
    match stamps {
        Stamps::Absent => {
            if id == PADDING_STREAM {
                None
            } else {
                unstamped_cause(current, id, unended, size)
            }
        }
        Stamps::Pts(_) => first_cause(lost, alone, unended, size),
        Stamps::PtsDts { .. } => first_cause(lost, alone, unended, size),
    }
}

// Returns the cause for bytes that are cut short: by the end of the stream, or by a packet.
fn truncation_cause(count: u64, packet: u64, size: usize) -> UnitWarningCause
    ensures { result ≡ spec.truncation_cause count packet size }
{
    if count <= packet {
        UnitWarningCause::TruncatedByEnd(size)
    } else {
        UnitWarningCause::Truncated(size)
    }
}

// Returns the warning about a finding.
#[tactic(auto, unfolding(crate::specs::UnitWarnings::cause_of_what))]
fn cause_of_what<A: Allocator>(
    count: u64,
    packet: u64,
    current: Option<u8>,
    lost: bool,
    alone: bool,
    what: &What<'_, A>,
) -> Option<UnitWarningCause>
    ensures { result ≡ spec.cause_of_what count packet current lost alone (what_view what.now) }
{
    match what {
        What::Duplicate => None,
        What::CounterBreak { expected, found } => Some(UnitWarningCause::Counter {
            expected: *expected,
            found: *found,
        }),
        What::Scrambled => Some(UnitWarningCause::Scrambled),
        What::Truncated(part) => Some(truncation_cause(count, packet, part.bytes().len())),
        What::Section(_) => Some(UnitWarningCause::Section),
        What::BadSection(error) => Some(UnitWarningCause::BadSection(*error)),
        What::Pes {
            header,
            unended,
            body,
        } => pes_cause(
            current,
            lost,
            alone,
            *unended,
            header.id,
            header.stamps,
            body.bytes().len(),
        ),
        What::BadPes(error) => Some(UnitWarningCause::BadPes(*error)),
        What::BadPacket(_) => None,
        What::Errored => None,
        What::Stray(_) => Some(UnitWarningCause::Stray),
    }
}

// Returns the stream_id of a PES packet; 0 of anything else.
#[tactic(auto, unfolding(crate::specs::UnitWarnings::id_of))]
fn id_of<A: Allocator>(what: &What<'_, A>) -> u8
    ensures { result ≡ spec.id_of (what_view what.now) }
{
    match what {
        What::Pes { header, .. } => header.id,
        _ => 0,
    }
}

// Returns whether a finding is a PES packet without bytes.
#[tactic(auto, unfolding(crate::specs::UnitWarnings::is_empty))]
fn is_empty<A: Allocator>(what: &What<'_, A>) -> bool
    ensures { result ≡ spec.is_empty (what_view what.now) }
{
    match what {
        What::Pes { body, .. } => body.bytes().is_empty(),
        _ => false,
    }
}

// Returns whether a finding is a PES packet without bytes, and no later finding has bytes of its unit. Later findings
// are read only if the PES packet has no bytes.
fn is_alone<A: Allocator>(
    id: u8,
    pid: u16,
    what: &What<'_, A>,
    from: usize,
    findings: &[Finding<'_, A>],
    links: &PidLinks<A>,
) -> bool
    requires links { AreLinks links.now (pids_in (map finding_view findings.now)) }
    requires on { IsOnWay pid from (pids_in (map finding_view findings.now)) }
    ensures { result ≡ (spec.is_empty (what_view what.now)
        && (length (continuation id pid (drop from (map finding_view findings.now))) == 0)) }
{
    is_empty(what) && has_no_continuation(id, pid, from, findings, links)
}

// Returns the warning about a finding of any PID, with the findings after it.
#[tactic(auto, unfolding(crate::specs::UnitWarnings::cause_of), using(crate::proofs::UnitWarnings::alone_if_empty))]
fn cause_of<A: Allocator>(
    split: bool,
    pid: u16,
    count: u64,
    current: Option<u8>,
    finding: &Finding<'_, A>,
    from: usize,
    findings: &[Finding<'_, A>],
    links: &PidLinks<A>,
) -> Option<UnitWarningCause>
    requires links { AreLinks links.now (pids_in (map finding_view findings.now)) }
    requires on { IsOnWay pid from (pids_in (map finding_view findings.now)) }
    ensures { result ≡ spec.cause_of split pid count current (finding_view finding.now)
        (drop from (map finding_view findings.now)) }
{
    if finding.pid != Some(pid) {
        return None;
    }
    let id = id_of(&finding.what);
    let lost = is_lost(split, id, pid, from, findings, links);
    let alone = is_alone(id, pid, &finding.what, from, findings, links);
    cause_of_what(count, finding.packet, current, lost, alone, &finding.what)
}

// Appends the warning, if there is one.
#[tactic(auto, unfolding(crate::specs::UnitWarnings::warning_list))]
fn push_warning<A: Allocator>(
    out: &mut Vec<UnitWarning, A>,
    packet: u64,
    cause: Option<UnitWarningCause>,
) -> Result<(), AllocError>
    ensures { OnOk result (out.new.items ≡ out.old.items ++ spec.warning_list packet cause) }
{
    let Some(cause) = cause else {
        return Ok(());
    };
    out.push(UnitWarning { packet, cause })?;
    Ok(())
}

// Returns the warnings about a PID, and whether any of its units is cut. If `split`, a unit may have several PES
// packets.
fn warnings_by<A: Allocator>(
    alloc: A,
    split: bool,
    pid: u16,
    count: u64,
    findings: &[Finding<'_, A>],
    links: &PidLinks<A>,
) -> Result<(Vec<UnitWarning, A>, bool), AllocError>
    requires links { AreLinks links.now (pids_in (map finding_view findings.now)) }
    ensures warnings { IfOk result (λ found. found.0.items
        ≡ spec.warnings_from split pid count None (map finding_view findings.now)) }
    ensures cut { IfOk result (λ found. found.1 ≡ has_cut pid (map finding_view findings.now)) }
{
    let mut out = Vec::new(alloc);
    let mut current = None;
    let mut cut = false;
    let mut at = links.first(pid);
    while at < findings.len() {
        let finding = &findings[at];
        at = links.next(at);
        let packet = first_packet(finding.packet, finding.begun);
        push_warning(
            &mut out,
            packet,
            cause_of(split, pid, count, current, finding, at, findings, links),
        )?;
        let role = role_of(pid, finding);
        cut = cuts_any(cut, current, role);
        current = current_after(current, role);
    }
    Ok((out, cut))
}

/// Returns what of the findings of a PID is in no unit that is carried, with the packet of its first byte and the
/// cause, and which PES packet is taken without a known end; `count` is the number of whole packets of the stream.
#[tactic(auto, using(crate::proofs::UnitWarnings::uncut_warnings))]
pub fn unit_warnings<A: Allocator + Clone>(
    alloc: A,
    pid: u16,
    count: u64,
    findings: &[Finding<'_, A>],
    links: &PidLinks<A>,
) -> Result<Vec<UnitWarning, A>, AllocError>
    requires links { AreLinks links.now (pids_in (map finding_view findings.now)) }
    ensures { IfOk result (λ out. out.items ≡ spec.unit_warnings pid count (map finding_view findings.now)) }
{
    // Where no unit is cut, it is all the same whether units have several PES packets, and this is not asked.
    let (out, cut) = warnings_by(alloc.clone()?, false, pid, count, findings, links)?;
    if !cut || !is_split(pid, findings, links) {
        return Ok(out);
    }
    drop(out);
    let (out, _) = warnings_by(alloc, true, pid, count, findings, links)?;
    Ok(out)
}
