//! Whether a description has the programs of a job and declares what the units of its streams need.

ghost use Rattle.std.specs.Prelude.{◌≡◌, ◌==◌, ◌&&◌, IfNone, IfOk, IsTrue};
ghost use Rattle.es_moments.specs.Declaration.{AllowsUnits};
ghost use Rattle.es_units.specs.Laws.{FirstDue};
ghost use Rattle.stream_jobs.specs.Jobs.{AgreeInTurn, Agrees, AllAgree, AreInTurn, IsEntry, IsProgram};
ghost use Rattle.stream_jobs.specs.Jobs as spec;
ghost use Rattle.job_programs.specs.FoundUnits.{Declares};

use crate::loop_check::has_loops;
use crate::shared_clock::{own_clock, shared_clock, sharing};
use crate::table_check::first_other_table;
use description::Description;
use description_parts::table_kind::has_one_on_air;
use description_parts::{ProgramDescription, StreamDescription};
use es_moments::{CountedPackets, UnitRuns, max_pts_after, max_unit_size, min_interval};
use given_values::ClockSharing;
use job_inputs::JobInput;
use job_programs::{JobProgram, TimedStream};
use pes_packet::Unit;
use std::alloc::{AllocError, Global};
use unit_timing::allowance::Allowance;

// Returns whether the first unit is due no earlier than a moment.
#[tactic(auto, unfolding(es_units::specs::Laws::FirstDue, crate::specs::Jobs::first_due))]
fn first_due(from: u64, units: &[Unit]) -> bool
    ensures due { IsTrue result → FirstDue from units.now }
    ensures value { result ≡ spec.first_due from units.now }
{
    match units.first() {
        Some(unit) => from <= unit.dts,
        None => true,
    }
}

// Returns whether the packets of units are as declared.
fn packets_fit(
    alloc: Global,
    base0: u64,
    declared: &StreamDescription,
    units: &[Unit],
) -> Result<bool, AllocError>
    ensures value { IfOk result (λ fit. fit ≡ spec.allows_units declared.now.allowance declared.now.stream_id base0
        units.now) }
    ensures fit { IfOk result (λ fit. IsTrue fit → AllowsUnits declared.now.allowance declared.now.stream_id base0
        units.now) }
{
    match declared.allowance {
        Allowance::Groups {
            units: group,
            packets,
        } => {
            if group > 64 {
                return Ok(false);
            }
            let counted = CountedPackets::of_units(alloc, base0, units)?;
            Ok(counted.of_group(group) <= u64::from(packets))
        }
        Allowance::Pace { burst, pace } => {
            let runs = UnitRuns::of_units(alloc, base0, units)?;
            Ok(runs.burst_packets(pace) <= u64::from(burst))
        }
    }
}

// Returns whether a description declares what units need, and has the stream in a program on air.
#[tactic(auto, unfolding(crate::specs::Jobs::keeps))]
fn declares(
    alloc: Global,
    description: &Description,
    declared: &StreamDescription,
    units: &[Unit],
) -> Result<bool, AllocError>
    ensures value { IfOk result (λ declares. declares ≡ spec.keeps description.now declared.now units.now) }
    ensures declares { IfOk result (λ declares. IsTrue declares → Declares description.now declared.now units.now) }
{
    let size = max_unit_size(units) <= declared.size as usize;
    let interval = declared.interval <= min_interval(units);
    let pts = max_pts_after(units) <= u64::from(declared.pts_limit);
    let lead = first_due(u64::from(declared.lead), units);
    let on_air = has_one_on_air(declared, description.programs());
    if !(interval && size && pts && lead && on_air) {
        return Ok(false);
    }
    packets_fit(alloc, description.base0(), declared, units)
}

// Returns whether a stream is the declared one, as its PES packets and its entry in the program map say.
#[tactic(auto, unfolding(crate::specs::Jobs::is_entry), using(crate::proofs::Agreement::entry_is))]
fn is_entry(declared: &StreamDescription, stream: &TimedStream) -> bool
    ensures value { result ≡ spec.is_entry declared.now stream.now }
    ensures entry { IsTrue result → IsEntry declared.now stream.now }
{
    declared.program == stream.program
        && declared.pid == stream.pid
        && declared.stream_id == stream.stream_id
        && declared.stream_type == stream.stream_type
        && declared.descriptors.as_bytes() == stream.descriptors.as_slice()
        && declared.shared_with.as_slice() == stream.shared_with.as_slice()
}

// Returns whether a stream is the declared one, and its units are as declared.
fn agrees(
    alloc: Global,
    description: &Description,
    declared: &StreamDescription,
    stream: &TimedStream,
) -> Result<bool, AllocError>
    ensures value { IfOk result (λ agrees. agrees ≡ (spec.is_entry declared.now stream.now
        && spec.keeps description.now declared.now stream.now.units)) }
    ensures agrees { IfOk result (λ agrees. IsTrue agrees → Agrees description.now declared.now stream.now) }
{
    if !is_entry(declared, stream) {
        return Ok(false);
    }
    declares(alloc, description, declared, &stream.units)
}

// Returns the PID of the first stream that differs from the declared stream in its place.
#[tactic(auto, unfolding(crate::specs::Jobs::AgreeInTurn, crate::specs::Jobs::first_disagreeing))]
fn first_disagreeing(
    alloc: Global,
    description: &Description,
    declared: &[StreamDescription],
    streams: &[TimedStream],
) -> Result<Option<u16>, AllocError>
    ensures value { IfOk result (λ pid. pid ≡ spec.first_disagreeing description.now declared.now streams.now) }
    ensures agree { IfOk result (λ pid. IfNone pid (AgreeInTurn description.now declared.now streams.now)) }
{
    let mut ones = declared;
    let mut rest = streams;
    'streams: while let Some((one, later_ones)) = ones.split_first() {
        let Some((stream, later)) = rest.split_first() else {
            return Ok(None);
        };
        if !agrees(alloc, description, one, stream)? {
            return Ok(Some(stream.pid));
        }
        ones = later_ones;
        rest = later;
    }
    Ok(None)
}

// Returns whether both are one PID, or neither is a PID.
#[tactic(auto, unfolding(crate::specs::Jobs::is_same_pid))]
fn is_same_pid(one: Option<u16>, other: Option<u16>) -> bool
    ensures { result ≡ spec.is_same_pid one other }
{
    match (one, other) {
        (None, None) => true,
        (Some(one), Some(other)) => one == other,
        _ => false,
    }
}

// Returns the PID of a declared program's own clock, if it has one.
#[tactic(auto, unfolding(crate::specs::Jobs::own_pid))]
fn own_pid(declared: &ProgramDescription) -> Option<u16>
    ensures { result ≡ spec.own_pid declared.now }
{
    if declared.has_clock() {
        Some(declared.pcr_pid())
    } else {
        None
    }
}

// Returns whether a program is the declared one; `pids` are of programs that share a clock.
#[tactic(auto, unfolding(crate::specs::Jobs::is_program), using(crate::proofs::Agreement::program_is))]
fn is_program(pids: &[u16], declared: &ProgramDescription, program: &JobProgram) -> bool
    ensures value { result ≡ spec.is_program pids.now declared.now program.now }
    ensures program { IsTrue result → IsProgram pids.now declared.now program.now }
{
    declared.number() == program.number
        && declared.pmt_pid() == program.map_pid
        && is_same_pid(own_pid(declared), own_clock(pids, program))
}

// Returns the PCR_PID of the first program that differs from the declared program in its place.
#[tactic(auto, unfolding(crate::specs::Jobs::AreInTurn, crate::specs::Jobs::first_other_program))]
fn first_other_program(
    pids: &[u16],
    declared: &[ProgramDescription],
    programs: &[JobProgram],
) -> Option<u16>
    ensures value { result ≡ spec.first_other_program pids.now declared.now programs.now }
    ensures are { IfNone result (AreInTurn pids.now declared.now programs.now) }
{
    let mut ones = declared;
    let mut rest = programs;
    'programs: while let Some((one, later_ones)) = ones.split_first() {
        let Some((program, later)) = rest.split_first() else {
            return None;
        };
        if !is_program(pids, one, program) {
            return Some(program.pcr_pid);
        }
        ones = later_ones;
        rest = later;
    }
    None
}

// Returns whether there are as many programs, streams and private tables, the shared clock has the same PID, and the
// clock begins alike.
#[tactic(auto, unfolding(crate::specs::Jobs::are_counted))]
fn are_counted(pids: &[u16], description: &Description, input: &JobInput) -> bool
    ensures { result ≡ spec.are_counted pids.now description.now input.now }
{
    description.base0() == input.base0
        && is_same_pid(description.clock_pid(), shared_clock(pids))
        && description.programs().len() == input.programs.len()
        && description.streams().len() == input.streams.len()
        && description.private_tables().len() == input.tables.len()
}

/// Returns a PID where a description disagrees with the input it was made of, `None` if all agree. In this order: 0 if
/// the number of any items, the PID of the shared clock, the first value of the clock or any descriptors of services,
/// events or the network differ; the PCR_PID of a
/// program; the PID of a private table; the PID of a stream, also if its units need more than it declares, or no program
/// on air has it.
#[tactic(auto, using(crate::proofs::WholeAgreement::in_turn), unfolding(crate::specs::Jobs::disagreeing))]
pub(crate) fn disagreeing(
    alloc: Global,
    by: ClockSharing,
    description: &Description,
    input: &JobInput,
) -> Result<Option<u16>, AllocError>
    ensures value { IfOk result (λ pid. pid ≡ spec.disagreeing by description.now input.now) }
    ensures agree { IfOk result (λ pid. IfNone pid (AllAgree by description.now input.now)) }
{
    let pids = sharing(alloc, by, input)?;
    if !are_counted(&pids, description, input) {
        return Ok(Some(0));
    }
    if !has_loops(description, &input.information) {
        return Ok(Some(0));
    }
    if let Some(pid) = first_other_program(&pids, description.programs(), &input.programs) {
        return Ok(Some(pid));
    }
    if let Some(pid) = first_other_table(description.private_tables(), &input.tables) {
        return Ok(Some(pid));
    }
    first_disagreeing(alloc, description, description.streams(), &input.streams)
}
