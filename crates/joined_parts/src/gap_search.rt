//! Where a clock passes over more than 10 s.

ghost use Rattle.std.specs.Prelude.{◌≡◌, ◌++◌, IfOk, OnOk, map};
ghost use Rattle.pid_findings.specs.Shown.{finding_view};
ghost use Rattle.joined_parts.specs.ClockGaps as spec;
ghost use Rattle.joined_parts.specs.declared.gap_search.ClockGap.TheVariants.{Jump, Hole};

use crate::cuts::{Cut, cuts_in};
use crate::holes::{holes_of, jumps_of};
use crate::jumps::cuts_ahead;
use crate::stamps::{UnitStamp, stamps_in};
use packet_pcr::FoundPcr;
use pid_findings::Finding;
use stamp_repair::programs_in;
use std::alloc::{AllocError, Global};

/// A gap of a clock, between two of its references.
#[derive(Clone, Copy)]
pub enum ClockGap {
    /// The clock jumps ahead, and the stamps of its units with it.
    Jump(Cut),
    /// The clock has no references, and its streams go on.
    Hole(Cut),
}

// Returns the jumps ahead that stay in a recording.
fn jumps_left(
    alloc: Global,
    joined: bool,
    stamps: &[UnitStamp],
    cuts: &[Cut],
) -> Result<Vec<Cut>, AllocError>
    ensures { IfOk result (λ jumps. jumps.items ≡ spec.jumps_left joined stamps.now cuts.now) }
{
    if joined {
        return Ok(Vec::new(alloc));
    }
    let jumps = jumps_of(alloc, stamps, cuts)?;
    cuts_ahead(alloc, stamps, &jumps)
}

// Adds the holes.
fn push_holes(gaps: &mut Vec<ClockGap>, holes: &[Cut]) -> Result<(), AllocError>
    ensures { OnOk result (gaps.new.items ≡ gaps.old.items ++ map Hole holes.now) }
{
    for hole in holes {
        gaps.push(ClockGap::Hole(*hole))?;
    }
    Ok(())
}

fn jumps_as_gaps(alloc: Global, jumps: &[Cut]) -> Result<Vec<ClockGap>, AllocError>
    ensures { IfOk result (λ gaps. gaps.items ≡ map Jump jumps.now) }
{
    jumps
        .iter()
        .map(|jump| ClockGap::Jump(*jump))
        .collect(alloc)
}

// Returns the gaps at these cuts.
fn gaps_of(
    alloc: Global,
    joined: bool,
    stamps: &[UnitStamp],
    cuts: &[Cut],
) -> Result<Vec<ClockGap>, AllocError>
    ensures { IfOk result (λ gaps. gaps.items ≡ spec.gaps_of joined stamps.now cuts.now) }
{
    let jumps = jumps_left(alloc, joined, stamps, cuts)?;
    let holes = holes_of(alloc, stamps, cuts)?;
    let mut gaps = jumps_as_gaps(alloc, &jumps)?;
    push_holes(&mut gaps, &holes)?;
    Ok(gaps)
}

/// Returns the gaps of the clocks of a recording with these clock references, in the order of their packets, and these
/// findings: its jumps ahead, none if it is taken as a joined recording, and its holes.
#[tactic(auto, using(crate::proofs::JumpLists::no_gaps))]
pub fn clock_gaps(
    alloc: Global,
    joined: bool,
    references: &[FoundPcr],
    findings: &[Finding<'_>],
) -> Result<Vec<ClockGap>, AllocError>
    ensures { IfOk result (λ gaps. gaps.items
        ≡ spec.clock_gaps joined references.now (map finding_view findings.now)) }
{
    let cuts = cuts_in(alloc, references)?;
    if cuts.is_empty() {
        return Ok(Vec::new(alloc));
    }
    let programs = programs_in(alloc, findings)?;
    let stamps = stamps_in(alloc, &programs, findings)?;
    gaps_of(alloc, joined, &stamps, &cuts)
}
