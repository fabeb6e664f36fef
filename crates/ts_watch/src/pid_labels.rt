//! What the packets of a PID carry.
ghost use Rattle.std.specs.Prelude.{◌≡◌, option_map};
ghost use Rattle.ts_tables.specs.NamedStreams.{stream_of};
ghost use Rattle.ts_watch.specs.PidLabels as spec;

use events::PidName;
use stream_coding::coding_of;
use stream_programs::{FoundProgram, FoundPrograms, FoundStream};
use ts_tables::NamedStreams;

/// The program of a PID, if it is of one, and what its packets carry.
#[derive(Clone, Copy)]
pub(crate) struct PidLabel {
    pub program: Option<u16>,
    pub coding: PidName,
}

// Returns the first program whose map has the PID.
#[tactic(auto, unfolding(crate::specs::PidLabels::of_map))]
fn of_map(pid: u16, programs: &[FoundProgram]) -> Option<u16>
    ensures { result ≡ spec.of_map pid programs.now }
{
    for program in programs {
        if program.map_pid == pid {
            return Some(program.number);
        }
    }
    None
}

// Returns the first program whose clock references have the PID.
#[tactic(auto, unfolding(crate::specs::PidLabels::of_clock))]
fn of_clock(pid: u16, programs: &[FoundProgram]) -> Option<u16>
    ensures { result ≡ spec.of_clock pid programs.now }
{
    for program in programs {
        if program.pcr_pid == pid {
            return Some(program.number);
        }
    }
    None
}

#[tactic(auto, unfolding(crate::specs::PidLabels::by_program))]
fn by_program(map: Option<u16>, clock: Option<u16>) -> PidLabel
    ensures { result ≡ spec.by_program map clock }
{
    let coding = match (map, clock) {
        (Some(_), _) => PidName::Pmt,
        (None, Some(_)) => PidName::Pcr,
        (None, None) => PidName::Other,
    };
    PidLabel {
        program: map.or(clock),
        coding,
    }
}

#[tactic(auto, unfolding(crate::specs::PidLabels::in_programs, crate::specs::PidLabels::by_program))]
fn in_programs(pid: u16, found: Option<&FoundPrograms>) -> PidLabel
    ensures { result ≡ spec.in_programs pid (option_map (λ found. found.now) found.entry) }
{
    match found {
        None => by_program(None, None),
        Some(found) => match of_map(pid, &found.programs) {
            Some(program) => by_program(Some(program), None),
            None => by_program(None, of_clock(pid, &found.programs)),
        },
    }
}

fn of_stream(stream: &FoundStream) -> PidLabel
    ensures { result ≡ spec.of_stream stream.now }
{
    let coding = coding_of(stream.stream_type, &stream.descriptors, &[]);
    PidLabel {
        program: Some(stream.program),
        coding: PidName::of_coding(coding),
    }
}

#[tactic(auto, unfolding(crate::specs::PidLabels::in_tables))]
fn in_tables(named: &NamedStreams, pid: u16) -> PidLabel
    ensures { result ≡ spec.in_tables named.now pid (stream_of named.now pid) }
{
    match named.stream(pid) {
        None => in_programs(pid, named.found()),
        Some(stream) => of_stream(stream),
    }
}

/// Returns the label of a PID, by the tables that are known.
#[tactic(auto, unfolding(crate::specs::PidLabels::label_by))]
pub(crate) fn label_of(named: &NamedStreams, pid: u16) -> PidLabel
    ensures { result ≡ spec.label_of named.now pid }
{
    match PidName::fixed(pid) {
        None => in_tables(named, pid),
        Some(coding) => PidLabel {
            program: None,
            coding,
        },
    }
}
