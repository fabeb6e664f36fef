//! A recording that was joined from several, as one recording.

ghost use Rattle.std.specs.Prelude.{◌≡◌, IfOk, map};
ghost use Rattle.pid_findings.specs.Shown.{finding_view};
ghost use Rattle.joined_parts.specs.Joined.{joined, joined_references};
ghost use Rattle.joined_parts.specs.Recordings as spec;
ghost use Rattle.joined_parts.specs.WholeMaps.{one_clock, whole_maps};

use crate::carried_pids::carry_findings;
use crate::joined::part_joins;
use crate::known_maps::recording_maps;
use crate::map_pids::one_pid_each;
use crate::recodings::recodings_in;
use crate::whole_maps::{complete_maps, with_clocks};
use packet_pcr::FoundPcr;
use pid_findings::Finding;
use std::alloc::{AllocError, Global};

// Returns the findings of a recording, with one PID for each coding, and one for the maps of each program.
fn on_own_pids(
    alloc: Global,
    findings: Vec<Finding<'static>>,
) -> Result<Vec<Finding<'static>>, AllocError>
    ensures { IfOk result (λ all. map finding_view all.items
        ≡ spec.on_own_pids (map finding_view findings.entry.items)) }
{
    let recodings = recodings_in(alloc, &findings)?;
    let mut findings = findings;
    carry_findings(alloc, &recodings, &mut findings)?;
    one_pid_each(alloc, &mut findings)?;
    Ok(findings)
}

// Returns the clock references and findings of a recording, with the tables and the clock of an unjoined recording.
fn with_one_map(
    alloc: Global,
    references: Vec<FoundPcr>,
    findings: Vec<Finding<'static>>,
) -> Result<(Vec<FoundPcr>, Vec<Finding<'static>>), AllocError>
    ensures references { IfOk result (λ one. one.0.items
        ≡ one_clock (map finding_view findings.entry.items) references.items) }
    ensures findings { IfOk result (λ one. map finding_view one.1.items
        ≡ whole_maps (map finding_view findings.entry.items)) }
{
    let maps = recording_maps(alloc, &findings)?;
    let references = with_clocks(alloc, &maps, &references)?;
    let mut findings = findings;
    complete_maps(alloc, &maps, &mut findings)?;
    Ok((references, findings))
}

// Returns the clock references and findings of a recording, its parts one after another.
fn in_order(
    alloc: Global,
    references: Vec<FoundPcr>,
    findings: Vec<Finding<'static>>,
) -> Result<(Vec<FoundPcr>, Vec<Finding<'static>>), AllocError>
    ensures references { IfOk result (λ parts. parts.0.items
        ≡ joined_references references.items (map finding_view findings.entry.items)) }
    ensures findings { IfOk result (λ parts. map finding_view parts.1.items
        ≡ joined references.items (map finding_view findings.entry.items)) }
{
    let joins = part_joins(alloc, &references, &findings)?;
    let references = joins.moved_references(alloc, &references)?;
    let mut findings = findings;
    joins.move_findings(&mut findings);
    Ok((references, findings))
}

/// Returns the clock references and the findings of a recording as if it had not been joined: a PID has one coding,
/// the maps of a program have one PID, each map names the streams of all maps of its program, and the parts come one
/// after another.
pub fn one_recording(
    alloc: Global,
    references: Vec<FoundPcr>,
    findings: Vec<Finding<'static>>,
) -> Result<(Vec<FoundPcr>, Vec<Finding<'static>>), AllocError>
    ensures references { IfOk result (λ one. one.0.items
        ≡ spec.one_references references.items (map finding_view findings.entry.items)) }
    ensures findings { IfOk result (λ one. map finding_view one.1.items
        ≡ spec.one_recording references.items (map finding_view findings.entry.items)) }
{
    let findings = on_own_pids(alloc, findings)?;
    let (references, findings) = with_one_map(alloc, references, findings)?;
    in_order(alloc, references, findings)
}
