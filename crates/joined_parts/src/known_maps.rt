//! The maps of a recording, program by program.

ghost use Rattle.std.specs.Prelude.{◌≡◌, ◌<◌, IfOk, OnOk, nat_eq, map, option_map};
ghost use Rattle.std.specs.Map.{lookup};
ghost use Rattle.psi_tables.specs.ProgramMap.{pmt_view, stream_loop_of};
ghost use Rattle.pid_findings.specs.Shown.{finding_view};
ghost use Rattle.program_tables.specs.MapPlaces.{map_key as key_of};
ghost use Rattle.joined_parts.specs.MapStreams as spec;

use crate::map_streams::{KnownMap, all_streams};
use indexmap::IndexMap;
use pid_findings::Finding;
use pid_map::PidMap;
use program_tables::{any_map, map_key, program_found};
use psi_tables::{Pmt, Program, StreamLoop, Streams};
use std::alloc::{AllocError, Global};
use std::hash::{BuildHasherDefault, FoldHasher};
use std::marker::Model;

/// The known maps of each program, by `map_key`.
type KnownMaps = IndexMap<u32, KnownMap, BuildHasherDefault<FoldHasher>, Global>;

/// The maps of a recording: the known maps of each program, and by PID of clock references the program of the last map
/// that names it.
#[derive(Drop)]
pub(crate) struct RecordingMaps {
    known: KnownMaps,
    clocks: PidMap<u32, Global>,
}

// A contract sees the entries.
impl Model for RecordingMaps {
    ghost use Rattle.joined_parts.specs.MapStreams.{MapsView};

    ghost Value = { MapsView };

    ghost view = { λ m. record { known = m.known.entries; clocks = m.clocks.entries } };
}

// Returns the streams of a map, and of the earlier maps of its program.
#[tactic(auto, unfolding(crate::specs::MapStreams::streams_if))]
fn streams_after(before: Option<&KnownMap>, pmt: &Pmt<'_>) -> StreamLoop
    ensures { stream_loop_of result ≡ spec.all_streams (pmt_view pmt.now).streams
        (spec.streams_if (option_map (λ m. m.now) before.entry)) }
{
    match before {
        None => {
            let none = StreamLoop::new();
            all_streams(pmt.streams, none.streams())
        }
        Some(before) => all_streams(pmt.streams, before.streams.streams()),
    }
}

// Returns a map after the known maps of its program.
fn map_after(before: Option<&KnownMap>, pmt: &Pmt<'_>) -> KnownMap
    ensures { result ≡ spec.map_after (option_map (λ m. m.now) before.entry) (pmt_view pmt.now) }
{
    KnownMap {
        pcr_pid: pmt.pcr_pid,
        streams: streams_after(before, pmt),
    }
}

impl RecordingMaps {
    // Returns the maps before the first finding: none.
    fn new(alloc: Global) -> RecordingMaps
        ensures { result ≡ spec.no_maps }
    {
        RecordingMaps {
            known: IndexMap::new(alloc),
            clocks: PidMap::new(alloc),
        }
    }

    // Returns the known maps of a program with a key.
    fn of_key(&self, key: u32) -> Option<&KnownMap>
        ensures { option_map (λ m. m.now) result ≡ lookup (nat_eq key) self.now.known }
    {
        self.known.get(&key)
    }

    // Takes a map of the program with a key.
    fn take_map(&mut self, key: u32, pmt: &Pmt<'_>) -> Result<(), AllocError>
        ensures { OnOk result (self.new ≡ spec.with_map self.old key (pmt_view pmt.now)) }
    {
        let known = map_after(self.of_key(key), pmt);
        self.known.insert(key, known)?;
        self.clocks.insert(pmt.pcr_pid, key)?;
        Ok(())
    }

    // Takes a map, if there is one.
    #[tactic(auto, unfolding(crate::specs::MapStreams::with_map_if))]
    fn take_if(&mut self, program: Option<Program>, pmt: Option<Pmt<'_>>) -> Result<(), AllocError>
        ensures { OnOk result (self.new
            ≡ spec.with_map_if self.old program (option_map pmt_view pmt.entry)) }
    {
        match (program, pmt) {
            (Some(program), Some(pmt)) => self.take_map(map_key(program), &pmt),
            _ => Ok(()),
        }
    }

    // Takes the map of a finding.
    fn take(&mut self, finding: &Finding<'_>) -> Result<(), AllocError>
        ensures { OnOk result (self.new ≡ spec.with_finding self.old (finding_view finding.now)) }
    {
        self.take_if(program_found(finding), any_map(finding))
    }

    /// Returns the known maps of a program.
    #[tactic(auto, unfolding(crate::specs::MapStreams::known_if))]
    pub(crate) fn known_if(&self, program: Option<Program>) -> Option<&KnownMap>
        ensures { option_map (λ m. m.now) result ≡ spec.known_if self.now program }
    {
        match program {
            None => None,
            Some(program) => self.of_key(map_key(program)),
        }
    }

    /// Returns the known maps of the program whose last map names clock references on a PID.
    #[tactic(auto, unfolding(crate::specs::MapStreams::clocked_if))]
    pub(crate) fn clocked(&self, pid: u16) -> Option<&KnownMap>
        ensures { option_map (λ m. m.now) result
            ≡ spec.clocked_if self.now (lookup (nat_eq pid) self.now.clocks) }
    {
        match self.clocks.entries().get(&pid) {
            None => None,
            Some(key) => self.of_key(*key),
        }
    }
}

/// Returns the maps of a recording with these findings.
pub(crate) fn recording_maps(
    alloc: Global,
    findings: &[Finding<'_>],
) -> Result<RecordingMaps, AllocError>
    ensures { IfOk result (λ maps. maps ≡ spec.maps_in (map finding_view findings.now)) }
{
    let mut maps = RecordingMaps::new(alloc);
    for finding in findings {
        maps.take(finding)?;
    }
    Ok(maps)
}
