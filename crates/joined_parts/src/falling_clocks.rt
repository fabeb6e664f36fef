//! The streams whose clock goes back.

ghost use Rattle.std.specs.Prelude.{◌≡◌, IfOk, map};
ghost use Rattle.std.specs.List.{list_any};
ghost use Rattle.pid_findings.specs.Shown.{finding_view};
ghost use Rattle.joined_parts.specs.FallingClocks as spec;

use crate::cuts::{Cut, cuts_in};
use crate::jumps::is_forward;
use crate::stamps::clock_of;
use packet_pcr::FoundPcr;
use pid_findings::Finding;
use stamp_repair::programs_in;
use std::alloc::{AllocError, Global};
use stream_programs::{FoundPrograms, FoundStream};

// Returns whether the clock on a PID goes back at a cut.
fn falls_at(pid: u16, cut: &Cut) -> bool
    ensures { result ≡ spec.falls_at pid cut.now }
{
    cut.pid == pid && !is_forward(*cut)
}

// Returns whether the clock on a PID goes back at any of these cuts.
fn any_falls(pid: u16, cuts: &[Cut]) -> bool
    ensures { result ≡ list_any (spec.falls_at pid) cuts.now }
{
    cuts.iter().any(|cut| falls_at(pid, cut))
}

// Returns whether a clock goes back.
#[tactic(auto, unfolding(crate::specs::FallingClocks::goes_back))]
fn goes_back(cuts: &[Cut], clock: Option<u16>) -> bool
    ensures { result ≡ spec.goes_back cuts.now clock }
{
    match clock {
        None => false,
        Some(pid) => any_falls(pid, cuts),
    }
}

// Returns whether the clock of a stream's program goes back.
fn has_falling(found: &FoundPrograms, cuts: &[Cut], stream: &FoundStream) -> bool
    ensures { result ≡ spec.has_falling found.now cuts.now stream.now }
{
    goes_back(cuts, clock_of(found, stream))
}

// Returns the PID of a stream.
fn pid_of(stream: &FoundStream) -> u16
    ensures { result ≡ stream.now.pid }
{
    stream.pid
}

// Returns the PIDs of such streams.
fn pids_by(alloc: Global, found: &FoundPrograms, cuts: &[Cut]) -> Result<Vec<u16>, AllocError>
    ensures { IfOk result (λ pids. pids.items ≡ spec.pids_by found.now cuts.now) }
{
    found
        .streams
        .iter()
        .filter(|stream| has_falling(found, cuts, stream))
        .map(|stream| pid_of(stream))
        .collect(alloc)
}

/// Returns the PIDs of the streams whose clock goes back, in a recording with these clock references, in the order of
/// their packets, and these findings.
pub fn falling_pids(
    alloc: Global,
    references: &[FoundPcr],
    findings: &[Finding<'_>],
) -> Result<Vec<u16>, AllocError>
    ensures { IfOk result (λ pids. pids.items
        ≡ spec.falling_pids references.now (map finding_view findings.now)) }
{
    let cuts = cuts_in(alloc, references)?;
    let programs = programs_in(alloc, findings)?;
    pids_by(alloc, &programs, &cuts)
}
