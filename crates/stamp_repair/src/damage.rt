//! PES packets whose stamps are alone out of order, as damaged ones.

ghost use Rattle.std.specs.Prelude.{◌≡◌, IfOk, filter, length, map};
ghost use Rattle.std.specs.List.{list_any};
ghost use Rattle.pid_findings.specs.Shown.{finding_view};
ghost use Rattle.stamp_repair.specs.LoneStamps as spec;

use crate::pes_stamps::{begin_of, stamp_at};
use crate::search::{LonePes, all_lone};
use pes_packet::PesError;
use pid_findings::{Finding, What};
use std::alloc::{AllocError, Global};

// The most PES packets on a PID that are damaged.
const MAX_DAMAGE: usize = 16;

// Returns whether a PES packet is on a PID.
fn is_on(pid: u16, pes: &LonePes) -> bool
    ensures { result ≡ spec.is_on pid pes.now }
{
    pes.pid == pid
}

// Returns how many PES packets are on a PID.
fn count_on(pid: u16, all: &[LonePes]) -> usize
    ensures { result ≡ length (filter (spec.is_on pid) all.now) }
{
    all.iter().filter(|pes| is_on(pid, pes)).count()
}

// Returns whether a PID is of a stream whose clock goes back.
fn is_falling(falling: &[u16], pid: u16) -> bool
    ensures { result ≡ spec.is_falling falling.now pid }
{
    falling.iter().any(|other| *other == pid)
}

// Returns whether such a PES packet is damaged.
fn is_damage(falling: &[u16], all: &[LonePes], pes: &LonePes) -> bool
    ensures { result ≡ spec.is_damage falling.now all.now pes.now }
{
    count_on(pes.pid, all) <= MAX_DAMAGE && !is_falling(falling, pes.pid)
}

// Returns the damaged PES packets.
fn damage_of(alloc: Global, falling: &[u16], all: &[LonePes]) -> Result<Vec<LonePes>, AllocError>
    ensures { IfOk result (λ lone. lone.items ≡ spec.damage_of falling.now all.now) }
{
    all.iter()
        .filter(|pes| is_damage(falling, all, pes))
        .copied()
        .collect(alloc)
}

// Returns whether a PES packet of a PID begins in a packet.
#[tactic(auto, unfolding(crate::specs::LoneStamps::is_at))]
fn is_at(pid: Option<u16>, packet: u64, pes: &LonePes) -> bool
    ensures { result ≡ spec.is_at pid packet pes.now }
{
    match pid {
        None => false,
        Some(pid) => pes.pid == pid && pes.packet == packet,
    }
}

// Returns whether any of these PES packets begins there.
fn any_at(pid: Option<u16>, packet: u64, lone: &[LonePes]) -> bool
    ensures { result ≡ list_any (spec.is_at pid packet) lone.now }
{
    lone.iter().any(|pes| is_at(pid, packet, pes))
}

// Returns whether a finding is one of these PES packets.
fn is_lone_pes(lone: &[LonePes], finding: &Finding<'_>) -> bool
    ensures { result ≡ spec.is_lone_pes lone.now (finding_view finding.now) }
{
    any_at(finding.pid, begin_of(finding.begun, finding.packet), lone)
        && stamp_at(finding).is_some()
}

// Makes a finding a damaged PES packet, if it is one of these.
#[tactic(auto, unfolding(crate::specs::LoneStamps::damaged_if))]
fn damage(lone: &[LonePes], finding: &mut Finding<'_>)
    ensures { finding_view finding.new ≡ spec.damaged lone.now (finding_view finding.old) }
{
    if is_lone_pes(lone, finding) {
        finding.what = What::BadPes(PesError::Marker);
    }
}

// Makes these PES packets damaged ones.
fn damage_all(lone: &[LonePes], findings: &mut [Finding<'_>])
    ensures { map finding_view findings.new ≡ map (spec.damaged lone.now) (map finding_view findings.old) }
{
    for finding in findings.iter_mut() {
        damage(lone, finding);
    }
}

/// Returns findings in which each PES packet whose stamps are alone out of order is a damaged PES packet, as if a marker
/// bit of a stamp were wrong: its DTS is over a second, or its PTS over 10 s, before or after the stamps around it,
/// which are in order without it. If a PID has more than 16 of them, or is among `falling`, they stay as they are.
#[tactic(auto, unfolding(crate::specs::LoneStamps::lone_damaged))]
pub fn damage_lone_stamps(
    alloc: Global,
    falling: &[u16],
    findings: Vec<Finding<'static>>,
) -> Result<Vec<Finding<'static>>, AllocError>
    ensures { IfOk result (λ all. map finding_view all.items
        ≡ spec.lone_damaged falling.now (map finding_view findings.entry.items)) }
{
    let all = all_lone(alloc, &findings)?;
    let lone = damage_of(alloc, falling, &all)?;
    let mut findings = findings;
    damage_all(&lone, &mut findings);
    Ok(findings)
}
