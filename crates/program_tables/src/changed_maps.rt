//! Where the maps of programs change, found in one pass.

ghost use Rattle.std.specs.Prelude.{◌≡◌, ◌<◌, IfOk, List, OnOk, map, nat_eq};
ghost use Rattle.std.specs.Map.{lookup};
ghost use Rattle.pid_findings.specs.Shown.{finding_view};
ghost use Rattle.pid_findings.specs.Views.{FindingView};
ghost use Rattle.program_tables.specs.MapPlaces as spec;
ghost use Rattle.program_tables.specs.ProgramMaps.{map_change, pmt_found, program_map};

use crate::map_places::{MapPlaces, map_at, map_key, map_places, program_found};
use crate::program_map::{MapPart, differs};
use indexmap::IndexMap;
use pid_findings::Finding;
use psi_tables::Program;
use std::alloc::{AllocError, Allocator, Global};
use std::hash::{BuildHasherDefault, FoldHasher};
use std::marker::Model;

/// By `map_key`: a packet.
type ChangePackets<A> = IndexMap<u32, u64, BuildHasherDefault<FoldHasher>, A>;

/// For each program the packet where the first program map section in force of it ends that differs in a part from the
/// last section. The last section is used regardless.
#[derive(Drop)]
pub struct MapChanges<A: Allocator = Global> {
    packets: ChangePackets<A>,
}

// A contract sees the packets by key.
impl<A: Allocator> Model for MapChanges<A> {
    ghost use Rattle.std.specs.Prelude.{List, ℕ};

    ghost Value = { List (ℕ × ℕ) };

    ghost view = { λ c. c.packets.entries };
}

// Returns whether a finding has a table of a program that differs in a part from the program's last table.
#[tactic(auto, unfolding(crate::specs::MapPlaces::is_change))]
fn is_change<A: Allocator>(
    part: MapPart,
    places: &MapPlaces<A>,
    program: Program,
    finding: &Finding<'_, A>,
    findings: &[Finding<'_, A>],
) -> bool
    requires { places.now.entries ≡ spec.places_in (map finding_view findings.now) }
    ensures { result ≡ spec.is_change part (program_map program (map finding_view findings.now))
        (pmt_found program (finding_view finding.now)) }
{
    match map_at(places, program, findings) {
        None => false,
        Some(last) => differs(part, program, &last, finding),
    }
}

// Returns the packet that is noted for a program.
fn packet_of<A: Allocator>(packets: &ChangePackets<A>, program: Program) -> Option<u64>
    ensures value { result ≡ lookup (nat_eq (spec.map_key program)) packets.now.entries }
    ensures number { program.program_number < 65_536 }
{
    match packets.get(&map_key(program)) {
        None => None,
        Some(packet) => Some(*packet),
    }
}

// Notes a packet, if a map changes in it and none is noted yet.
#[tactic(auto, unfolding(crate::specs::MapPlaces::noted))]
fn note<A: Allocator + Copy>(
    packets: &mut ChangePackets<A>,
    program: Program,
    packet: u64,
    changes: bool,
) -> Result<(), AllocError>
    ensures { OnOk result (packets.new.entries
        ≡ spec.noted packets.old.entries (spec.map_key program) packet changes) }
{
    if packet_of(packets, program).is_some() {
        return Ok(());
    }
    if changes {
        packets.insert(map_key(program), packet)?;
    }
    Ok(())
}

// Notes the packet of a finding, if the map of its program changes there and none is noted yet.
#[tactic(auto, unfolding(crate::specs::MapPlaces::changes_by))]
fn note_change<A: Allocator + Copy>(
    part: MapPart,
    places: &MapPlaces<A>,
    finding: &Finding<'_, A>,
    findings: &[Finding<'_, A>],
    packets: &mut ChangePackets<A>,
) -> Result<(), AllocError>
    requires { places.now.entries ≡ spec.places_in (map finding_view findings.now) }
    ensures { OnOk result (packets.new.entries ≡ spec.changes_by part (map finding_view findings.now)
        packets.old.entries (finding_view finding.now) (spec.program_found (finding_view finding.now))) }
{
    match program_found(finding) {
        None => Ok(()),
        Some(program) => {
            let changes = is_change(part, places, program, finding, findings);
            note(packets, program, finding.packet, changes)
        }
    }
}

// Notes the packets of findings.
fn note_changes<A: Allocator + Copy>(
    part: MapPart,
    places: &MapPlaces<A>,
    findings: &[Finding<'_, A>],
    packets: &mut ChangePackets<A>,
) -> Result<(), AllocError>
    requires { places.now.entries ≡ spec.places_in (map finding_view findings.now) }
    ensures { OnOk result (packets.new.entries ≡ spec.changes_from part (map finding_view findings.now)
        packets.old.entries (map finding_view findings.now)) }
{
    for finding in findings {
        note_change(part, places, finding, findings, packets)?;
    }
    Ok(())
}

/// Returns where the maps of programs change in a part.
pub fn map_changes<A: Allocator + Copy>(
    alloc: A,
    part: MapPart,
    findings: &[Finding<'_, A>],
) -> Result<MapChanges<A>, AllocError>
    ensures { IfOk result (λ changes. spec.AreChanges part (map finding_view findings.now) changes) }
{
    let places = map_places(alloc, findings)?;
    let mut packets = IndexMap::new(alloc);
    note_changes(part, &places, findings, &mut packets)?;
    Ok(MapChanges { packets })
}

impl<A: Allocator> MapChanges<A> {
    /// Returns the packet where the map of a program changes, if it does.
    pub fn packet(&self, program: Program) -> Option<u64>
        ensures { (part : MapPart) (findings : List FindingView) → spec.AreChanges part findings self.now →
            result ≡ map_change part program findings }
    {
        packet_of(&self.packets, program)
    }
}
