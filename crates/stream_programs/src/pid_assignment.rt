//! PIDs for the program maps and the PCRs of programs.
//!
//! A PID of a multiplex has the packets of one table, one stream or one program's PCR. Streams as they come may have
//! their PCR on a stream's PID, two programs one PID of maps, or a map one below 32.

ghost use Rattle.std.specs.Prelude.{◌≡◌, ◌++◌, [], IfOk, List, map, option_map, ℕ};
ghost use Rattle.stream_programs.specs.PidAssignment as spec;

use crate::pid_list::PidList;
use crate::programs::{FoundProgram, FoundPrograms};
use crate::streams::{FoundStream, is_reserved};
use std::alloc::{AllocError, Allocator};

/// The PIDs of a program that no stream and no other program has, 32 to 8,190.
#[derive(Clone, Copy)]
pub struct ProgramPids {
    /// Of its program map table.
    pub map_pid: u16,
    /// Of packets with its PCR alone.
    pub pcr_pid: u16,
}

fn pids_of<A: Allocator>(alloc: A, streams: &[FoundStream<A>]) -> Result<Vec<u16, A>, AllocError>
    ensures { IfOk result (λ pids. pids.items ≡ map (λ s. s.pid) streams.now) }
{
    streams.iter().map(|stream| stream.pid).collect(alloc)
}

// Returns the PIDs of streams, and of sections.
fn stream_pids<A: Allocator + Copy>(
    alloc: A,
    found: &FoundPrograms<A>,
) -> Result<Vec<u16, A>, AllocError>
    ensures { IfOk result (λ pids. pids.items ≡ spec.stream_pids found.now) }
{
    let streams = pids_of(alloc, &found.streams)?;
    let tables = pids_of(alloc, &found.tables)?;
    joined(alloc, &streams, &tables)
}

fn map_pids<A: Allocator>(alloc: A, programs: &[FoundProgram<A>]) -> Result<Vec<u16, A>, AllocError>
    ensures { IfOk result (λ pids. pids.items ≡ map (λ p. p.map_pid) programs.now) }
{
    programs
        .iter()
        .map(|program| program.map_pid)
        .collect(alloc)
}

// Returns the PIDs of both lists.
fn joined<A: Allocator>(alloc: A, one: &[u16], other: &[u16]) -> Result<Vec<u16, A>, AllocError>
    ensures { IfOk result (λ pids. pids.items ≡ one.now ++ other.now) }
{
    let mut pids = Vec::from_slice(alloc, one)?;
    pids.extend_from_slice(other)?;
    Ok(pids)
}

// Returns the PID of a map: the same PID, unless it is reserved, or a stream or an earlier map has it (`own`); then the
// first PID from 32 on that is not among `taken`.
#[tactic(auto, unfolding(crate::specs::PidAssignment::assigned_map_pid), using(crate::proofs::PidLists::taken_both))]
fn assigned_map_pid<A: Allocator>(own: &PidList<A>, taken: &PidList<A>, pid: u16) -> Option<u16>
    ensures { (streams given : List ℕ) → own.now ≡ streams ++ given →
        result ≡ spec.assigned_map_pid streams given taken.now pid }
{
    if is_reserved(pid) || own.has(pid) {
        taken.free_from(32)
    } else {
        Some(pid)
    }
}

// Returns the PIDs of maps, assigned one after another.
fn assigned_map_pids<A: Allocator + Copy>(
    alloc: A,
    streams: &[u16],
    maps: &[u16],
) -> Result<Option<Vec<u16, A>>, AllocError>
    ensures { IfOk result (λ places. option_map (λ pids. pids.items) places
        ≡ spec.assigned_map_pids streams.now maps.now [] maps.now) }
{
    let mut own = PidList::of(alloc, streams)?;
    let mut taken = PidList::of(alloc, streams)?;
    taken.add_all(maps)?;
    let mut given = Vec::new(alloc);
    for pid in maps {
        let Some(place) = assigned_map_pid(&own, &taken, *pid) else {
            return Ok(None);
        };
        given.push(place)?;
        own.add(place)?;
        taken.add(place)?;
    }
    Ok(Some(given))
}

// Maps on these PIDs, each with a PID for the PCR of its program.
fn with_pcr_pids<A: Allocator + Copy>(
    alloc: A,
    streams: &[u16],
    maps: &[u16],
) -> Result<Option<Vec<ProgramPids, A>>, AllocError>
    ensures { IfOk result (λ places. option_map (λ given. given.items) places ≡ spec.with_pcr_pids
        (streams.now ++ maps.now) [] maps.now) }
{
    let mut used = PidList::of(alloc, streams)?;
    used.add_all(maps)?;
    let mut given = Vec::new(alloc);
    for map_pid in maps {
        let Some(pcr_pid) = used.free_from(256) else {
            return Ok(None);
        };
        used.add(pcr_pid)?;
        given.push(ProgramPids {
            map_pid: *map_pid,
            pcr_pid,
        })?;
    }
    Ok(Some(given))
}

/// Returns for each program in order a PID for its map and a PID for its PCR, so that no two of these and the streams'
/// PIDs are equal (`pids_are_distinct`). A map keeps its PID if that is 32 to 8,190 and neither a stream nor an earlier
/// program's map has it; otherwise it gets the least PID from 32 on that no stream and no map has. Each PCR gets the
/// least free PID from 256 on. `None` if no PID is free.
#[tactic(auto, unfolding(crate::specs::PidAssignment::assigned_pids))]
pub fn assigned_pids<A: Allocator + Copy>(
    alloc: A,
    found: &FoundPrograms<A>,
) -> Result<Option<Vec<ProgramPids, A>>, AllocError>
    ensures { IfOk result (λ places. option_map (λ given. given.items) places ≡ spec.assigned_pids found.now) }
{
    let streams = stream_pids(alloc, found)?;
    let maps = map_pids(alloc, &found.programs)?;
    match assigned_map_pids(alloc, &streams, &maps)? {
        None => Ok(None),
        Some(maps) => with_pcr_pids(alloc, &streams, &maps),
    }
}
