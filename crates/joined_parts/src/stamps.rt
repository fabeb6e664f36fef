//! The stamps of the units of a recording.

ghost use Rattle.std.specs.Prelude.{◌≡◌, IfOk, OnOk, map};
ghost use Rattle.pid_findings.specs.Shown.{finding_view};
ghost use Rattle.joined_parts.specs.UnitStamps as spec;

use pid_findings::Finding;
use stamp_repair::{PesStamp, pcr_of, stamp_at, stream_on};
use std::alloc::{AllocError, Global};
use stream_programs::{FoundPrograms, FoundStream};

/// The stamp of a unit.
#[derive(Clone, Copy)]
pub struct UnitStamp {
    /// The PID of the references of its program's clock.
    pub clock: u16,
    /// The packet of the unit's first byte.
    pub packet: u64,
    /// Its DTS, in units of 90 kHz modulo 2^33.
    pub dts: u64,
}

/// Returns the PID of the references of the clock of a stream's program.
pub(crate) fn clock_of(found: &FoundPrograms, stream: &FoundStream) -> Option<u16>
    ensures { result ≡ spec.clock_of found.now stream.now }
{
    pcr_of(&found.programs, stream.program)
}

// Returns the PID of the clock references of the stream on a PID.
#[tactic(auto, unfolding(crate::specs::UnitStamps::clock_if))]
fn clock_on(found: &FoundPrograms, pid: u16) -> Option<u16>
    ensures { result ≡ spec.clock_on found.now pid }
{
    match stream_on(&found.streams, pid) {
        Some(stream) => clock_of(found, stream),
        None => None,
    }
}

// Returns the PID of the clock references of the stream on a PID, if there is a PID.
#[tactic(auto, unfolding(crate::specs::UnitStamps::clock_at))]
fn clock_at(found: &FoundPrograms, pid: Option<u16>) -> Option<u16>
    ensures { result ≡ spec.clock_at found.now pid }
{
    match pid {
        None => None,
        Some(pid) => clock_on(found, pid),
    }
}

// A stamp, if both are there.
#[tactic(auto, unfolding(crate::specs::UnitStamps::stamp_with))]
fn stamp_with(clock: Option<u16>, pes: Option<PesStamp>) -> Option<UnitStamp>
    ensures { result ≡ spec.stamp_with clock pes }
{
    match (clock, pes) {
        (Some(clock), Some(PesStamp { packet, dts, .. })) => Some(UnitStamp { clock, packet, dts }),
        _ => None,
    }
}

/// Returns the stamp of a finding, if it is a PES packet of a stream whose program has a clock.
pub(crate) fn stamp_of(found: &FoundPrograms, finding: &Finding<'_>) -> Option<UnitStamp>
    ensures { result ≡ spec.stamp_of found.now (finding_view finding.now) }
{
    stamp_with(clock_at(found, finding.pid), stamp_at(finding))
}

// Adds a stamp, if there is one.
#[tactic(auto, unfolding(crate::specs::UnitStamps::with_stamp))]
fn add_stamp(stamps: &mut Vec<UnitStamp>, stamp: Option<UnitStamp>) -> Result<(), AllocError>
    ensures { OnOk result (stamps.new.items ≡ spec.with_stamp stamps.old.items stamp) }
{
    match stamp {
        None => Ok(()),
        Some(stamp) => {
            stamps.push(stamp)?;
            Ok(())
        }
    }
}

/// Returns the stamps of findings.
pub(crate) fn stamps_in(
    alloc: Global,
    found: &FoundPrograms,
    findings: &[Finding<'_>],
) -> Result<Vec<UnitStamp>, AllocError>
    ensures { IfOk result (λ stamps. stamps.items
        ≡ spec.stamps_in found.now (map finding_view findings.now)) }
{
    let mut stamps = Vec::new(alloc);
    for finding in findings {
        let stamp = stamp_of(found, finding);
        add_stamp(&mut stamps, stamp)?;
    }
    Ok(stamps)
}
