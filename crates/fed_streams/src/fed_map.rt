//! The map of one program of a description.

ghost use Rattle.std.specs.Prelude.{◌≡◌, ◌<◌, IfSome, Some, is_some, length, option_map, slice_get, slice_set};
ghost use Rattle.psi_tables.specs.ProgramMap.{pmt_view, streams_of};
ghost use Rattle.pid_findings.specs.Shown.{finding_view};
ghost use Rattle.fed_streams.specs.Maps as spec;

use crate::feed_fault::{NewMap, OtherStream};
use pid_findings::{Finding, Kind};
use program_tables::last_program_map;
use psi_tables::{Pmt, Program, Streams};
use std::marker::Model;
use std::slice;

/// The table_id of a program map table (ISO/IEC 13818-1, table 2-31).
const MAP_TABLE: u8 = 2;

/// The state of a program map table.
#[derive(Clone, Copy)]
pub struct CurrentMap {
    /// version_number.
    pub version: u8,
    /// PCR_PID: the PID of the packets with the program's clock references.
    pub pcr_pid: u16,
}

/// A stream that a description has.
#[derive(Clone, Copy)]
pub struct NamedStream {
    pub pid: u16,
    pub stream_type: u8,
}

/// A program, its map that came last, and the streams that a description has of it.
#[derive(Drop)]
pub struct FedMap {
    pub program_number: u16,
    pub current: Option<CurrentMap>,
    pub named: Vec<NamedStream>,
}

// A contract sees the streams as a list.
impl Model for FedMap {
    ghost use Rattle.fed_streams.specs.Maps.{MapView};

    ghost Value = { MapView };

    ghost view = { λ m. record { program_number = m.program_number; current = m.current; named = m.named.items } };
}

// Returns whether a section begins like a program map section.
#[tactic(auto, unfolding(crate::specs::Maps::is_map))]
fn is_map(begun: Option<(u64, Kind)>) -> bool
    ensures { result ≡ spec.is_map begun }
{
    match begun {
        Some((_, Kind::Table(id))) => id == MAP_TABLE,
        _ => false,
    }
}

// The map of a program that a finding of a PID has.
#[tactic(auto, unfolding(crate::specs::Maps::map_on))]
fn map_on<'f>(program_number: u16, finding: &'f Finding<'_>) -> Option<Pmt<'f>>
    ensures { option_map pmt_view result
        ≡ spec.map_on program_number (finding_view finding.now) (finding_view finding.now).pid }
{
    let Some(pid) = finding.pid else {
        return None;
    };
    let program = Program {
        program_number,
        pid,
    };
    last_program_map(program, slice::from_ref(finding))
}

// The map of a program that a finding has.
#[tactic(auto, unfolding(crate::specs::Maps::map_found))]
fn map_found<'f>(program_number: u16, finding: &'f Finding<'_>) -> Option<Pmt<'f>>
    ensures { option_map pmt_view result ≡ spec.map_found program_number (finding_view finding.now) }
{
    if !is_map(finding.begun) {
        return None;
    }
    map_on(program_number, finding)
}

// Returns version and PCR_PID of the map of a program that a finding has.
#[tactic(auto, unfolding(crate::specs::Maps::current_found))]
fn current_found(program_number: u16, finding: &Finding<'_>) -> Option<CurrentMap>
    ensures { result ≡ spec.current_found program_number (finding_view finding.now) }
{
    match map_found(program_number, finding) {
        None => None,
        Some(map) => Some(CurrentMap {
            version: map.header.version_number,
            pcr_pid: map.pcr_pid,
        }),
    }
}

// Whether a map names a stream by its PID and stream_type.
#[tactic(auto, unfolding(crate::specs::Maps::is_named))]
fn is_named(streams: Streams<'_>, named: NamedStream) -> bool
    ensures { result ≡ spec.is_named (streams_of streams.entry) named }
{
    for stream in streams {
        if stream.stream_type == named.stream_type && stream.elementary_pid == named.pid {
            return true;
        }
    }
    false
}

// The first stream that a map does not name.
fn first_other(streams: Streams<'_>, named: &[NamedStream]) -> Option<NamedStream>
    ensures { result ≡ spec.first_other (streams_of streams.entry) named.now }
{
    for one in named {
        if !is_named(streams, *one) {
            return Some(*one);
        }
    }
    None
}

// Returns the report on such a stream.
#[tactic(auto, unfolding(crate::specs::Maps::other_of))]
fn other_of(program: u16, packet: u64, named: Option<NamedStream>) -> Option<OtherStream>
    ensures { result ≡ spec.other_of program packet named }
{
    match named {
        None => None,
        Some(named) => Some(OtherStream {
            program,
            packet,
            pid: named.pid,
            stream_type: named.stream_type,
        }),
    }
}

// A version at a packet, if another one was before it.
#[tactic(auto, unfolding(crate::specs::Maps::change_from))]
fn change_from(number: u16, packet: u64, version: u8, before: Option<CurrentMap>) -> Option<NewMap>
    ensures { result ≡ spec.change_from number packet version before }
{
    match before {
        None => None,
        Some(before) => {
            if before.version == version {
                return None;
            }
            Some(NewMap {
                program: number,
                packet,
                before: before.version,
                version,
            })
        }
    }
}

impl FedMap {
    // Whether a finding has a map of the program.
    fn has_map(&self, finding: &Finding<'_>) -> bool
        ensures { result ≡ is_some (spec.current_found self.now.program_number (finding_view finding.now)) }
    {
        current_found(self.program_number, finding).is_some()
    }

    // The stream of a description that the first map does not name, if a finding has that map.
    #[tactic(auto, unfolding(crate::specs::Maps::other_by))]
    fn other(&self, finding: &Finding<'_>) -> Option<OtherStream>
        ensures { result ≡ spec.other_by self.now (finding_view finding.now).packet
            (spec.map_found self.now.program_number (finding_view finding.now)) }
    {
        match map_found(self.program_number, finding) {
            None => None,
            Some(map) => {
                if self.current.is_some() {
                    return None;
                }
                let named = first_other(map.streams, &self.named);
                other_of(self.program_number, finding.packet, named)
            }
        }
    }

    // Takes a finding, and gives the version that it changes, if it does.
    #[tactic(auto, unfolding(crate::specs::Maps::map_with, crate::specs::Maps::map_change))]
    fn take(&mut self, finding: &Finding<'_>) -> Option<NewMap>
        ensures map { self.new ≡ spec.map_with self.old
            (spec.current_found self.old.program_number (finding_view finding.now)) }
        ensures change { result ≡ spec.map_change self.old (finding_view finding.now).packet
            (spec.current_found self.old.program_number (finding_view finding.now)) }
    {
        let Some(current) = current_found(self.program_number, finding) else {
            return None;
        };
        let before = self.current;
        self.current = Some(current);
        change_from(self.program_number, finding.packet, current.version, before)
    }
}

// The first map that a finding has.
fn map_place(finding: &Finding<'_>, maps: &[FedMap]) -> Option<usize>
    ensures value { result ≡ spec.map_from (finding_view finding.now) 0 maps.now }
    ensures bound { IfSome result (λ k. k < length maps.now) }
{
    for (k, map) in maps.iter().enumerate() {
        if map.has_map(finding) {
            return Some(k);
        }
    }
    None
}

// Has the map at a place take a finding.
fn watch_at(maps: &mut Vec<FedMap>, k: usize, finding: &Finding<'_>) -> Option<NewMap>
    requires { k < length maps.old.items }
    ensures maps { (m : spec.MapView) → slice_get maps.old.items k ≡ Some m → maps.new.items
        ≡ slice_set maps.old.items k
        (spec.map_with m (spec.current_found m.program_number (finding_view finding.now))) }
    ensures change { (m : spec.MapView) → slice_get maps.old.items k ≡ Some m →
        result ≡ spec.map_change m (finding_view finding.now).packet
        (spec.current_found m.program_number (finding_view finding.now)) }
{
    let map = &mut maps[k];
    map.take(finding)
}

/// Takes a finding for the first map that it has, and gives its version where it is another one than the one before.
pub fn watch(maps: &mut Vec<FedMap>, finding: &Finding<'_>) -> Option<NewMap>
    ensures maps { maps.new.items ≡ spec.maps_after (finding_view finding.now) maps.old.items }
    ensures change { result ≡ spec.new_map (finding_view finding.now) maps.old.items }
{
    let Some(k) = map_place(finding, maps) else {
        return None;
    };
    watch_at(maps, k, finding)
}

/// Returns the stream of a description that the first map of its program does not name, if a finding has that map.
#[tactic(auto, unfolding(crate::specs::Maps::other_place, crate::specs::Maps::other_at))]
pub fn other_stream(maps: &[FedMap], finding: &Finding<'_>) -> Option<OtherStream>
    ensures { result ≡ spec.other_stream (finding_view finding.now) maps.now }
{
    let Some(k) = map_place(finding, maps) else {
        return None;
    };
    match maps.get(k) {
        None => None,
        Some(map) => map.other(finding),
    }
}

/// Returns the PID of the clock references of the first program, once its map has come.
#[tactic(auto, unfolding(crate::specs::Maps::pcr_pid_of, crate::specs::Maps::clock_pid))]
pub fn clock_pid(maps: &[FedMap]) -> Option<u16>
    ensures { result ≡ spec.clock_pid maps.now }
{
    match maps.first() {
        None => None,
        Some(map) => match map.current {
            None => None,
            Some(current) => Some(current.pcr_pid),
        },
    }
}
