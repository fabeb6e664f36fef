//! When the first unit of each clock is due.

ghost use Rattle.std.specs.Prelude.{◌≡◌, ◌-◌, ◌^◌, min, sum_by};
ghost use Rattle.std.specs.List.{list_any};
ghost use Rattle.job_units.specs.Moments as spec;

use crate::job_tables::JobTable;
use job_programs::job_stream::is_stream_of;
use job_programs::{JobProgram, WireStream};

/// The first unit is due two seconds after the first slot, in units of 90 kHz: its packets may be sent in the second
/// before it is due, and the tables that it needs in the second before that. If a program map section has more than one
/// packet, the first unit is due half a second later.
const EARLIEST: u64 = 180_000;

const LATER: u64 = 225_000;

// Returns the bytes of a stream in the program map section of a program.
#[tactic(auto, unfolding(job_units::specs::Moments::entry_size))]
fn entry_size(number: u16, stream: &WireStream<'_>) -> usize
    ensures { result ≡ spec.entry_size number stream.now }
{
    if is_stream_of(number, stream) {
        5 + stream.descriptors.len()
    } else {
        0
    }
}

// Returns the bytes of all streams, or the greatest number if they are more.
fn entries_size(number: u16, streams: &[WireStream<'_>]) -> usize
    ensures { result ≡ min (sum_by (spec.entry_size number) streams.now) (2 ^ 64 - 1) }
{
    let mut size: usize = 0;
    for stream in streams {
        size = size.saturating_add(entry_size(number, stream));
    }
    size
}

// Returns the bytes of sections in the program map section of a program.
#[tactic(auto, unfolding(job_units::specs::Moments::table_size))]
fn table_size(number: u16, table: &JobTable) -> usize
    ensures { result ≡ spec.table_size number table.now }
{
    if table.program == number {
        5 + table.descriptors.len()
    } else {
        0
    }
}

// Returns the bytes of all sections, or the greatest number if they are more.
fn tables_size(number: u16, tables: &[JobTable]) -> usize
    ensures { result ≡ min (sum_by (spec.table_size number) tables.now) (2 ^ 64 - 1) }
{
    let mut size: usize = 0;
    for table in tables {
        size = size.saturating_add(table_size(number, table));
    }
    size
}

// Returns whether the program map section of a program has more than one packet.
#[tactic(auto, unfolding(job_units::specs::Moments::map_size, job_units::specs::Moments::is_long_map))]
fn is_long_map(program: &JobProgram, tables: &[JobTable], streams: &[WireStream<'_>]) -> bool
    ensures { result ≡ spec.is_long_map tables.now streams.now program.now }
{
    let entries = entries_size(program.number, streams);
    let sections = tables_size(program.number, tables);
    let size = entries.saturating_add(16 + program.descriptors.len());
    size.saturating_add(sections) > 183
}

// Returns whether the program map section of any program has more than one packet.
fn has_long_map(programs: &[JobProgram], tables: &[JobTable], streams: &[WireStream<'_>]) -> bool
    ensures { result ≡ list_any (spec.is_long_map tables.now streams.now) programs.now }
{
    programs
        .iter()
        .any(|program| is_long_map(program, tables, streams))
}

/// Returns when the first unit of each clock is due, in units of 90 kHz.
#[tactic(auto, unfolding(job_units::specs::Moments::earliest))]
pub(crate) fn earliest_of(
    programs: &[JobProgram],
    tables: &[JobTable],
    streams: &[WireStream<'_>],
) -> u64
    ensures { result ≡ spec.earliest programs.now tables.now streams.now }
{
    if has_long_map(programs, tables, streams) {
        LATER
    } else {
        EARLIEST
    }
}
