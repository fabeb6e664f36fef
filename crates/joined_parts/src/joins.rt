//! The parts of a recording, and the constant of each.

ghost use Rattle.std.specs.Prelude.{◌≡◌, ◌==◌, ◌<◌, ◌^◌, IfOk, find, option_map};
ghost use Rattle.joined_parts.specs.Joins as spec;

use crate::cuts::Cut;
use crate::stamps::UnitStamp;
use es_moments::distance;
use std::alloc::{AllocError, Global};

// The number of stamps.
const STAMP_MODULUS: u64 = 1 << 33;

/// A DTS that is further after a reference says nothing of it, in units of 90 kHz: 10 s.
pub(crate) const NEAREST: u64 = 900_000;

// How long after the greatest DTS of a part the next one begins, in units of 90 kHz: 0.3 s.
const PAUSE: u64 = 27_000;

/// A cut, and the constant that is added to the stamps of the part after it, modulo 2^33.
#[derive(Clone, Copy)]
pub struct Join {
    pub cut: Cut,
    pub shift: u64,
}

/// Returns whether a unit comes after a cut of its clock.
#[tactic(auto, unfolding(crate::specs::Joins::is_after))]
pub(crate) fn is_after(cut: Cut, stamp: UnitStamp) -> bool
    ensures { result ≡ spec.is_after cut stamp }
{
    cut.pid == stamp.clock
        && (cut.packet <= stamp.packet
            || (cut.since < stamp.packet
                && distance(cut.base, stamp.dts) < distance(cut.before, stamp.dts)))
}

// Whether it comes after the cut at which its part begins.
#[tactic(auto, unfolding(crate::specs::Joins::is_from))]
fn is_from(cut: Option<Cut>, stamp: UnitStamp) -> bool
    ensures { result ≡ spec.is_from cut stamp }
{
    match cut {
        None => true,
        Some(cut) => is_after(cut, stamp),
    }
}

// Whether it comes before the cut at which its part ends.
#[tactic(auto, unfolding(crate::specs::Joins::is_until))]
fn is_until(cut: Option<Cut>, stamp: UnitStamp) -> bool
    ensures { result ≡ spec.is_until cut stamp }
{
    match cut {
        None => true,
        Some(cut) => !is_after(cut, stamp),
    }
}

/// Returns whether a unit of a clock is in the part between two of its cuts.
pub(crate) fn is_between(pid: u16, from: Option<Cut>, to: Option<Cut>, stamp: UnitStamp) -> bool
    ensures { result ≡ spec.is_between pid from to stamp }
{
    stamp.clock == pid && (is_from(from, stamp) && is_until(to, stamp))
}

// The greatest DTS of a part, after the last reference before the cut at its end, with a unit more.
fn with_reach(before: Option<Cut>, cut: Cut, reach: u64, stamp: UnitStamp) -> u64
    ensures { result ≡ spec.with_reach before cut reach stamp }
{
    let after = distance(cut.before, stamp.dts);
    if is_between(cut.pid, before, Some(cut), stamp) && after <= NEAREST {
        reach.max(after)
    } else {
        reach
    }
}

// Returns the greatest such DTS of all units.
fn reach_of(before: Option<Cut>, cut: Cut, stamps: &[UnitStamp]) -> u64
    ensures { result ≡ spec.reach_of before cut stamps.now }
{
    stamps
        .iter()
        .fold(0, |reach, stamp| with_reach(before, cut, reach, *stamp))
}

// The lesser of two leads.
#[tactic(auto, unfolding(crate::specs::Joins::least_of))]
fn least_of(least: Option<u64>, lead: u64) -> Option<u64>
    ensures { result ≡ spec.least_of least lead }
{
    match least {
        None => Some(lead),
        Some(least) => Some(least.min(lead)),
    }
}

// The least DTS of a part, after the first reference after the cut at its beginning, with a unit more.
fn with_lead(cut: Cut, next: Option<Cut>, lead: Option<u64>, stamp: UnitStamp) -> Option<u64>
    ensures { result ≡ spec.with_lead cut next lead stamp }
{
    let after = distance(cut.base, stamp.dts);
    if is_between(cut.pid, Some(cut), next, stamp) && after <= NEAREST {
        least_of(lead, after)
    } else {
        lead
    }
}

// Returns the least such DTS of all units; 0 if there are none.
fn lead_of(cut: Cut, next: Option<Cut>, stamps: &[UnitStamp]) -> u64
    ensures { result ≡ spec.lead_of cut next stamps.now }
{
    stamps
        .iter()
        .fold(None, |lead, stamp| with_lead(cut, next, lead, *stamp))
        .unwrap_or(0)
}

/// Returns a stamp that is later by a time.
pub(crate) fn later(stamp: u64, by: u64) -> u64
    ensures value { result ≡ spec.later stamp by }
    ensures bound { result < 2 ^ 33 }
{
    (stamp % STAMP_MODULUS + by % STAMP_MODULUS) % STAMP_MODULUS
}

// The last join of the clock on a PID.
fn join_before(pid: u16, joins: &[Join]) -> Option<Join>
    ensures { result ≡ spec.join_before pid joins.now }
{
    joins.iter().fold(None, |before, join| {
        if join.cut.pid == pid {
            Some(*join)
        } else {
            before
        }
    })
}

// Its cut.
#[tactic(auto, unfolding(crate::specs::Joins::cut_if))]
fn cut_if(join: Option<Join>) -> Option<Cut>
    ensures { result ≡ spec.cut_if join }
{
    match join {
        None => None,
        Some(join) => Some(join.cut),
    }
}

// Its constant.
#[tactic(auto, unfolding(crate::specs::Joins::shift_if))]
fn shift_if(join: Option<Join>) -> u64
    ensures { result ≡ spec.shift_if join }
{
    match join {
        None => 0,
        Some(join) => join.shift,
    }
}

// The constant after a cut, where this is the constant before it.
fn shift_after(cut: Cut, before: u64, reach: u64, lead: u64) -> u64
    ensures { result ≡ spec.shift_after cut before reach lead }
{
    let end = later(later(cut.before, before), later(reach, PAUSE));
    distance(later(cut.base, lead), end)
}

// The first cut of the clock on a PID.
fn cut_on(pid: u16, cuts: &[Cut]) -> Option<&Cut>
    ensures { option_map (λ c. c.now) result ≡ find (λ c. c.pid == pid) cuts.now }
{
    cuts.iter().find(|cut| cut.pid == pid)
}

/// Returns a copy of it.
pub(crate) fn next_cut(pid: u16, cuts: &[Cut]) -> Option<Cut>
    ensures { result ≡ spec.next_cut pid cuts.now }
{
    cut_on(pid, cuts).copied()
}

// Returns a cut with its constant, after the cuts before it and before the next cuts.
fn join_of(stamps: &[UnitStamp], joins: &[Join], cut: Cut, cuts: &[Cut]) -> Join
    ensures { result ≡ spec.join_of stamps.now joins.now cut cuts.now }
{
    let before = join_before(cut.pid, joins);
    let next = next_cut(cut.pid, cuts);
    let reach = reach_of(cut_if(before), cut, stamps);
    let lead = lead_of(cut, next, stamps);
    let shift = shift_after(cut, shift_if(before), reach, lead);
    Join { cut, shift }
}

/// Returns cuts with their constants.
#[tactic(auto, using(crate::proofs::CutLists::join_more, crate::proofs::CutLists::join_end))]
pub(crate) fn joins_of(
    alloc: Global,
    stamps: &[UnitStamp],
    cuts: &[Cut],
) -> Result<Vec<Join>, AllocError>
    ensures { IfOk result (λ joins. joins.items ≡ spec.joins_of stamps.now cuts.now) }
{
    let mut joins = Vec::new(alloc);
    let mut later = cuts;
    while let Some((first, rest)) = later.split_first() {
        let join = join_of(stamps, &joins, *first, rest);
        joins.push(join)?;
        later = rest;
    }
    Ok(joins)
}
