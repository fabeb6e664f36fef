//! The private tables of a job: sections of its programs that do not change.

ghost use Rattle.std.specs.Prelude.{◌≡◌, ◌==◌, ◌++◌, [], find, IfOk, OnOk, map, option_map};
ghost use Rattle.std.specs.List.{list_any, flat_map};
ghost use Rattle.pid_findings.specs.Shown.{finding_view};
ghost use Rattle.job_programs.specs.JobStreams.{is_stream_of};
ghost use Rattle.job_programs.specs.JobTables as spec;

use es_moments::FoundUnit;
use job_programs::job_stream::is_stream_of;
use job_programs::{JobProgram, Warning, WireStream};
use job_units::wire_streams::is_selected_stream;
use other_tables::{SteadySections, steady_sections};
use pid_findings::Finding;
use std::alloc::{AllocError, Global};
use std::marker::Model;
use stream_programs::{FoundStream, TableOmission};

/// Sections of a program, on a PID of their own.
#[derive(Drop)]
pub struct JobTable {
    /// The number of its program.
    pub program: u16,
    pub pid: u16,
    pub stream_type: u8,
    /// Its descriptors in the program map.
    pub descriptors: Vec<u8>,
    /// Their bytes, in the order of their first packets.
    pub sections: Vec<Vec<u8>>,
    /// The greatest number of packets from one start of a section to its next.
    pub gap: u64,
    /// The packets from the first unit of the program's first stream to its last.
    pub packets: u64,
}

// A contract sees bytes as lists.
impl Model for JobTable {
    ghost use Rattle.std.specs.Prelude.{map};
    ghost use Rattle.job_programs.specs.JobTables.{JobTableView};

    ghost Value = { JobTableView };

    ghost view = { λ t. record {
      program = t.program;
      pid = t.pid;
      stream_type = t.stream_type;
      descriptors = t.descriptors.items;
      sections = map (λ b. b.items) t.sections.items;
      gap = t.gap;
      packets = t.packets;
    } };
}

// Returns the packets from the first of some units to the last.
#[tactic(auto, unfolding(job_programs::specs::JobTables::packet_at, job_programs::specs::JobTables::packet_span))]
fn packet_span(units: &[FoundUnit<'_>]) -> u64
    ensures { result ≡ spec.packet_span units.now }
{
    let first = match units.first() {
        Some(unit) => unit.packet,
        None => 0,
    };
    match units.last() {
        Some(unit) => unit.packet.saturating_sub(first),
        None => 0,
    }
}

// Returns the first stream of a program.
fn first_of<'a, 'f>(number: u16, streams: &'a [WireStream<'f>]) -> Option<&'a WireStream<'f>>
    ensures { option_map (λ s. s.now) result ≡ find (is_stream_of number) streams.now }
{
    streams.iter().find(|stream| is_stream_of(number, stream))
}

// Returns the packets from the first unit of a program's first stream to its last unit.
#[tactic(auto, unfolding(job_programs::specs::JobTables::span_if))]
fn span_of(number: u16, streams: &[WireStream<'_>]) -> u64
    ensures { result ≡ spec.span_if (find (is_stream_of number) streams.now) }
{
    match first_of(number, streams) {
        Some(stream) => packet_span(&stream.units),
        None => 0,
    }
}

// Makes a table of these sections.
#[tactic(auto, unfolding(job_programs::specs::JobTables::table_of))]
fn table_of(
    alloc: Global,
    streams: &[WireStream<'_>],
    entry: &FoundStream,
    steady: SteadySections,
) -> Result<JobTable, AllocError>
    ensures { IfOk result (λ table. table ≡ spec.table_of streams.now entry.now steady) }
{
    Ok(JobTable {
        program: entry.program,
        pid: entry.pid,
        stream_type: entry.stream_type,
        descriptors: Vec::from_slice(alloc, &entry.descriptors)?,
        sections: steady.sections,
        gap: steady.gap,
        packets: span_of(entry.program, streams),
    })
}

// Returns whether a program of this number is among `programs`.
fn has_program(number: u16, programs: &[JobProgram]) -> bool
    ensures { result ≡ list_any (λ p. p.number == number) programs.now }
{
    programs.iter().any(|program| program.number == number)
}

// A description has as many bytes of descriptors of a table at most.
const MOST_DESCRIPTORS: usize = 700;

// Returns whether a job takes the sections of a stream: they are not left out, a program of the job lists them, and a
// description has room for their descriptors.
#[tactic(auto, unfolding(job_programs::specs::JobTables::can_take))]
fn can_take(without: &[u16], programs: &[JobProgram], entry: &FoundStream) -> bool
    ensures { result ≡ spec.can_take without.now programs.now entry.now }
{
    is_selected_stream(without, entry)
        && has_program(entry.program, programs)
        && entry.descriptors.len() <= MOST_DESCRIPTORS
}

// Appends the table of sections that do not change.
#[tactic(auto, unfolding(job_programs::specs::JobTables::tables_on, job_programs::specs::JobTables::table_if))]
fn push_table(
    alloc: Global,
    without: &[u16],
    count: u64,
    findings: &[Finding<'_>],
    programs: &[JobProgram],
    streams: &[WireStream<'_>],
    entry: &FoundStream,
    tables: &mut Vec<JobTable>,
) -> Result<(), AllocError>
    ensures { OnOk result (tables.new.items ≡ tables.old.items
        ++ spec.tables_on without.now count (map finding_view findings.now) programs.now streams.now entry.now) }
{
    if !can_take(without, programs, entry) {
        return Ok(());
    }
    match steady_sections(alloc, count, entry.pid, findings)? {
        Some(steady) => tables.push(table_of(alloc, streams, entry, steady)?)?,
        None => {}
    }
    Ok(())
}

// Returns the tables of all sections that do not change.
fn all_tables(
    alloc: Global,
    without: &[u16],
    count: u64,
    findings: &[Finding<'_>],
    programs: &[JobProgram],
    streams: &[WireStream<'_>],
    entries: &[FoundStream],
) -> Result<Vec<JobTable>, AllocError>
    ensures { IfOk result (λ tables. tables.items
        ≡ flat_map (spec.tables_on without.now count (map finding_view findings.now) programs.now streams.now)
        entries.now) }
{
    let mut tables = Vec::new(alloc);
    for entry in entries {
        push_table(
            alloc,
            without,
            count,
            findings,
            programs,
            streams,
            entry,
            &mut tables,
        )?;
    }
    Ok(tables)
}

/// Returns the private tables of these programs: sections that do not change and are not left out; `count` is the
/// number of whole packets of the stream.
#[tactic(auto, unfolding(job_programs::specs::JobTables::job_tables))]
pub(crate) fn job_tables(
    alloc: Global,
    without: &[u16],
    count: u64,
    findings: &[Finding<'_>],
    programs: &[JobProgram],
    streams: &[WireStream<'_>],
    entries: &[FoundStream],
) -> Result<Vec<JobTable>, AllocError>
    ensures { IfOk result (λ tables. tables.items ≡ spec.job_tables without.now count (map finding_view findings.now)
        programs.now streams.now entries.now) }
{
    let mut tables = all_tables(alloc, without, count, findings, programs, streams, entries)?;
    tables.truncate(64);
    Ok(tables)
}

// Returns whether sections of this program and PID are carried.
#[tactic(auto, unfolding(job_programs::specs::JobTables::has_table))]
fn has_table(tables: &[JobTable], program: u16, pid: u16) -> bool
    ensures { result ≡ spec.has_table tables.now program pid }
{
    tables
        .iter()
        .any(|table| table.program == program && table.pid == pid)
}

// Returns whether a warning is not of sections that are carried.
#[tactic(auto, unfolding(job_programs::specs::JobTables::is_reported, job_programs::specs::JobTables::is_left_out))]
fn is_reported(tables: &[JobTable], warning: &Warning) -> bool
    ensures { result ≡ spec.is_reported tables.now warning.now }
{
    match *warning {
        Warning::Table(TableOmission::NoPes { program, pid, .. }) => {
            !has_table(tables, program, pid)
        }
        _ => true,
    }
}

/// Returns the warnings that are not of sections that are carried.
pub(crate) fn reported(tables: &[JobTable], warnings: Vec<Warning>) -> Vec<Warning>
    ensures { result.items ≡ spec.reported tables.now warnings.items }
{
    let mut reported = warnings;
    reported.retain(|warning| is_reported(tables, warning));
    reported
}
