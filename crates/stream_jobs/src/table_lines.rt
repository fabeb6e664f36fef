//! The lines of private tables in the description of a job.

ghost use Rattle.std.specs.Prelude.{◌≡◌, ◌++◌, OnOk, find, option_map, string_bytes};
ghost use Rattle.job_text.specs.Texts.{table_text};
ghost use Rattle.job_programs.specs.JobStreams.{is_stream_of};
ghost use Rattle.job_programs.specs.JobTables as spec;

use job_inputs::JobTable;
use job_programs::TimedStream;
use job_programs::job_stream::is_stream_of;
use job_text::TablePart;
use pes_packet::Unit;
use std::alloc::{AllocError, Global};

// Returns the time from the DTS of the first unit to the DTS of the last, in units of 90 kHz.
#[tactic(auto, unfolding(job_programs::specs::JobTables::dts_at, job_programs::specs::JobTables::tick_span))]
fn tick_span(units: &[Unit]) -> u64
    ensures { result ≡ spec.tick_span units.now }
{
    let first = match units.first() {
        Some(unit) => unit.dts,
        None => 0,
    };
    match units.last() {
        Some(unit) => unit.dts.saturating_sub(first),
        None => 0,
    }
}

// Returns the first stream of a program.
fn first_of(number: u16, streams: &[TimedStream]) -> Option<&TimedStream>
    ensures { option_map (λ s. s.now) result ≡ find (is_stream_of number) streams.now }
{
    streams.iter().find(|stream| is_stream_of(number, stream))
}

// Returns the time between the DTS of the first unit and the last unit of a program's first stream.
#[tactic(auto, unfolding(job_programs::specs::JobTables::ticks_if))]
fn ticks_of(number: u16, streams: &[TimedStream]) -> u64
    ensures { result ≡ spec.ticks_if (find (is_stream_of number) streams.now) }
{
    match first_of(number, streams) {
        Some(stream) => tick_span(&stream.units),
        None => 0,
    }
}

// Returns the time of `gap` packets in ms, rounded up, if `packets` packets take `ticks` ticks of 90 kHz. At least 1
// and at most 30,000; 30,000 if `packets` is 0.
#[tactic(auto, unfolding(job_programs::specs::JobTables::limit_of))]
fn limit_of(gap: u64, packets: u64, ticks: u64) -> u16
    ensures { result ≡ spec.limit_of gap packets ticks }
{
    if packets == 0 {
        return 30_000;
    }
    let time = (u128::from(gap) * u128::from(ticks)).div_ceil(u128::from(packets) * 90);
    time.min(30_000).max(1) as u16
}

// Appends the lines of a table.
#[tactic(auto, unfolding(job_programs::specs::JobTables::table_part))]
fn write_table(
    alloc: Global,
    streams: &[TimedStream],
    table: &JobTable,
    text: &mut String,
) -> Result<(), AllocError>
    ensures { OnOk result (string_bytes text.new ≡ string_bytes text.old
        ++ table_text (spec.table_part streams.now table.now)) }
{
    let entry = TablePart {
        pid: table.pid,
        limit: limit_of(table.gap, table.packets, ticks_of(table.program, streams)),
        sections: &table.sections,
        program: table.program,
        stream_type: table.stream_type,
        descriptors: &table.descriptors,
    };
    entry.write_text(alloc, text)
}

/// Appends the lines of all tables.
pub(crate) fn write_tables(
    alloc: Global,
    streams: &[TimedStream],
    tables: &[JobTable],
    text: &mut String,
) -> Result<(), AllocError>
    ensures { OnOk result (string_bytes text.new ≡ string_bytes text.old
        ++ spec.tables_text streams.now tables.now) }
{
    for table in tables {
        write_table(alloc, streams, table, text)?;
    }
    Ok(())
}
