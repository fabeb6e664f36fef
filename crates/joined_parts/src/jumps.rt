//! Where a clock jumps ahead, and the stamps of its units with it.

ghost use Rattle.std.specs.Prelude.{◌≡◌, IfOk, OnOk};
ghost use Rattle.joined_parts.specs.JumpsAhead as spec;

use crate::cuts::Cut;
use crate::joins::{NEAREST, is_between, next_cut};
use crate::stamps::UnitStamp;
use es_moments::distance;
use std::alloc::{AllocError, Global};

// Half the number of stamps: a clock that jumps by less jumps ahead.
const HALF: u64 = 1 << 32;

/// Returns whether the clock jumps ahead at a cut.
pub(crate) fn is_forward(cut: Cut) -> bool
    ensures { result ≡ spec.is_forward cut }
{
    distance(cut.before, cut.base) < HALF
}

// Returns whether a unit of the part between two cuts has a DTS soon after a clock reference.
fn is_near(pid: u16, from: Option<Cut>, to: Option<Cut>, base: u64, stamp: UnitStamp) -> bool
    ensures { result ≡ spec.is_near pid from to base stamp }
{
    is_between(pid, from, to, stamp) && distance(base, stamp.dts) <= NEAREST
}

// Returns whether any unit of the part has such a DTS.
fn any_near(pid: u16, from: Option<Cut>, to: Option<Cut>, base: u64, stamps: &[UnitStamp]) -> bool
    ensures { result ≡ spec.any_near pid from to base stamps.now }
{
    stamps
        .iter()
        .any(|stamp| is_near(pid, from, to, base, *stamp))
}

// Returns whether the clock jumps ahead at a cut, and the stamps of its units with it.
fn is_ahead(stamps: &[UnitStamp], before: Option<Cut>, cut: Cut, next: Option<Cut>) -> bool
    ensures { result ≡ spec.is_ahead stamps.now before cut next }
{
    is_forward(cut)
        && (any_near(cut.pid, before, Some(cut), cut.before, stamps)
            && any_near(cut.pid, Some(cut), next, cut.base, stamps))
}

// Returns the last cut of the clock on a PID.
fn last_cut(pid: u16, cuts: &[Cut]) -> Option<Cut>
    ensures { result ≡ spec.last_cut pid cuts.now }
{
    cuts.iter().fold(None, |before, cut| {
        if cut.pid == pid { Some(*cut) } else { before }
    })
}

// Adds a cut that comes after some cuts and before others, if the stamps jump ahead there.
fn add_ahead(
    ahead: &mut Vec<Cut>,
    stamps: &[UnitStamp],
    done: &[Cut],
    cut: Cut,
    cuts: &[Cut],
) -> Result<(), AllocError>
    ensures { OnOk result (ahead.new.items ≡ spec.with_ahead stamps.now done.now ahead.old.items cut cuts.now) }
{
    let before = last_cut(cut.pid, done);
    let next = next_cut(cut.pid, cuts);
    if is_ahead(stamps, before, cut, next) {
        ahead.push(cut)?;
    }
    Ok(())
}

/// Returns the cuts at which the stamps jump ahead.
#[tactic(auto, using(crate::proofs::JumpLists::ahead_more, crate::proofs::JumpLists::ahead_end))]
pub(crate) fn cuts_ahead(
    alloc: Global,
    stamps: &[UnitStamp],
    cuts: &[Cut],
) -> Result<Vec<Cut>, AllocError>
    ensures { IfOk result (λ ahead. ahead.items ≡ spec.cuts_ahead stamps.now cuts.now) }
{
    let mut done = Vec::new(alloc);
    let mut ahead = Vec::new(alloc);
    let mut later = cuts;
    while let Some((first, rest)) = later.split_first() {
        add_ahead(&mut ahead, stamps, &done, *first, rest)?;
        done.push(*first)?;
        later = rest;
    }
    Ok(ahead)
}
