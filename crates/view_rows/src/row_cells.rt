//! The cells of the row of each event that has one.
ghost use Rattle.std.specs.Prelude.{◌≡◌};
ghost use Rattle.view_rows.specs.RowCells as spec;

use crate::cells::{Cell, CellUnit, CellWord, limit_if, short};
use events::{
    BufferTotals, CheckTotals, ClockTotals, CounterFault, ElementaryLate, FaultKind, LateCause,
    LateUnit, NoVerdict, PidTotals, StreamBegin, SystemTotals, TableTotals, UnclockedPackets,
};

/// Returns the cells of a stream, after its PID and what the PID carries.
pub(crate) fn stream_cells(e: &StreamBegin) -> [Cell; 3]
    ensures { result ≡ spec.stream_cells e.now }
{
    [
        Cell::Number(u64::from(e.stream_type), CellUnit::Same),
        Cell::Number(u64::from(e.rx), CellUnit::Same),
        Cell::Number(u64::from(e.main), CellUnit::Same),
    ]
}

// Returns the cell of a count, if the row has it.
#[tactic(auto, unfolding(crate::specs::RowCells::count_cell))]
fn count_cell(count: Option<u64>, limit: Option<u64>) -> Cell
    ensures { result ≡ spec.count_cell count limit }
{
    match count {
        None => Cell::Word(CellWord::Nothing),
        Some(count) => Cell::Checked(count, limit, CellUnit::Same),
    }
}

/// Returns the cells of a buffer.
pub(crate) fn buffer_cells(e: &BufferTotals) -> [Cell; 10]
    ensures { result ≡ spec.buffer_cells e.now }
{
    [
        Cell::Number(u64::from(e.pid), CellUnit::Same),
        Cell::Carried(e.pid),
        Cell::Word(CellWord::Buffer(e.buffer)),
        Cell::Number(e.size, CellUnit::Same),
        Cell::Checked(short(e.most), Some(e.size), CellUnit::Same),
        Cell::Bar(short(e.most), Some(e.size)),
        Cell::Checked(short(e.excesses), Some(0), CellUnit::Same),
        count_cell(e.units, None),
        count_cell(e.late, Some(0)),
        count_cell(e.unread, Some(0)),
    ]
}

/// Returns the cells of the buffers of a program's tables.
pub(crate) fn system_cells(e: &SystemTotals) -> [Cell; 7]
    ensures { result ≡ spec.system_cells e.now }
{
    [
        Cell::Program(e.program),
        Cell::Checked(short(e.transport), Some(e.transport_size), CellUnit::Same),
        Cell::Bar(short(e.transport), Some(e.transport_size)),
        Cell::Checked(short(e.transport_excesses), Some(0), CellUnit::Same),
        Cell::Checked(short(e.main), Some(e.main_size), CellUnit::Same),
        Cell::Bar(short(e.main), Some(e.main_size)),
        Cell::Checked(short(e.main_excesses), Some(0), CellUnit::Same),
    ]
}

/// Returns the cells of clock references.
pub(crate) fn clock_cells(e: &ClockTotals) -> [Cell; 8]
    ensures { result ≡ spec.clock_cells e.now }
{
    [
        Cell::Number(u64::from(e.pid), CellUnit::Same),
        Cell::Number(e.references, CellUnit::Same),
        Cell::Number(e.announced, CellUnit::Same),
        Cell::Number(short(e.rate), CellUnit::Same),
        Cell::Checked(short(e.interval), Some(2_700_000), CellUnit::Ticks),
        Cell::Bar(short(e.interval), Some(2_700_000)),
        Cell::Checked(short(e.inaccuracy), Some(500), CellUnit::Same),
        Cell::Bar(short(e.inaccuracy), Some(500)),
    ]
}

/// Returns the cells of a table.
pub(crate) fn table_cells(e: &TableTotals) -> [Cell; 6]
    ensures { result ≡ spec.table_cells e.now }
{
    [
        Cell::Number(u64::from(e.pid), CellUnit::Same),
        Cell::Number(u64::from(e.table), CellUnit::Same),
        Cell::Number(e.sections, CellUnit::Same),
        Cell::Checked(short(e.interval), limit_if(e.limit), CellUnit::Ticks),
        Cell::Number(e.limit, CellUnit::Ticks),
        Cell::Bar(short(e.interval), limit_if(e.limit)),
    ]
}

/// Returns the cells of a PID.
pub(crate) fn pid_cells(e: &PidTotals) -> [Cell; 4]
    ensures { result ≡ spec.pid_cells e.now }
{
    [
        Cell::Number(u64::from(e.number), CellUnit::Same),
        Cell::Carried(e.number),
        Cell::Number(e.packets, CellUnit::Same),
        Cell::Number(e.pcrs, CellUnit::Same),
    ]
}

/// Returns the cells of a late unit.
pub(crate) fn late_cells(e: &LateUnit) -> [Cell; 6]
    ensures { result ≡ spec.late_cells e.now }
{
    [
        Cell::Word(CellWord::Fault(FaultKind::Late)),
        Cell::Number(u64::from(e.pid), CellUnit::Same),
        Cell::Number(e.packet, CellUnit::Same),
        Cell::Number(short(e.by), CellUnit::Ticks),
        Cell::Word(CellWord::Nothing),
        Cell::Word(CellWord::Millis),
    ]
}

// Returns the word for what makes a unit of video late.
#[tactic(auto, unfolding(crate::specs::RowCells::late_word))]
fn late_word(cause: LateCause) -> CellWord
    ensures { result ≡ spec.late_word cause }
{
    match cause {
        LateCause::Multiplex => CellWord::LateByMultiplex,
        LateCause::FullBuffer => CellWord::LateByFullBuffer,
    }
}

/// Returns the cells of a unit that is late in its elementary stream buffer.
pub(crate) fn elementary_late_cells(e: &ElementaryLate) -> [Cell; 6]
    ensures { result ≡ spec.elementary_late_cells e.now }
{
    [
        Cell::Word(late_word(e.cause)),
        Cell::Number(u64::from(e.pid), CellUnit::Same),
        Cell::Number(e.packet, CellUnit::Same),
        Cell::Number(short(e.by), CellUnit::Ticks),
        Cell::Word(CellWord::Nothing),
        Cell::Word(CellWord::Millis),
    ]
}

/// Returns the cells of packets without a moment.
pub(crate) fn unclocked_cells(e: &UnclockedPackets) -> [Cell; 6]
    ensures { result ≡ spec.unclocked_cells e.now }
{
    [
        Cell::Word(CellWord::Fault(FaultKind::Unclocked)),
        Cell::Word(CellWord::Nothing),
        Cell::Number(e.packet, CellUnit::Same),
        Cell::Number(e.packets, CellUnit::Same),
        Cell::Word(CellWord::Nothing),
        Cell::Word(CellWord::Packets),
    ]
}

/// Returns the cells of a PID and a kind of fault.
pub(crate) fn reference_cells(kind: FaultKind, pid: u16) -> [Cell; 2]
    ensures { result ≡ spec.reference_cells kind pid }
{
    [
        Cell::Number(u64::from(pid), CellUnit::Same),
        Cell::Word(CellWord::Fault(kind)),
    ]
}

/// Returns the cells of a continuity_counter that does not follow: its value, beside the expected value.
pub(crate) fn continuity_cells(e: &CounterFault) -> [Cell; 6]
    ensures { result ≡ spec.continuity_cells e.now }
{
    [
        Cell::Word(CellWord::Fault(FaultKind::Continuity)),
        Cell::Number(u64::from(e.pid), CellUnit::Same),
        Cell::Number(e.packet, CellUnit::Same),
        Cell::Number(u64::from(e.found), CellUnit::Same),
        Cell::Number(u64::from(e.expected), CellUnit::Same),
        Cell::Word(CellWord::Nothing),
    ]
}

// Returns the cell of how often a check failed, or of why the check can't be made.
#[tactic(auto, unfolding(crate::specs::RowCells::result_cell))]
fn result_cell(no_verdict: Option<NoVerdict>, faults: u64) -> Cell
    ensures { result ≡ spec.result_cell no_verdict faults }
{
    match no_verdict {
        None => Cell::Checked(faults, Some(0), CellUnit::Same),
        Some(NoVerdict::NoClock) => Cell::Word(CellWord::NoClock),
        Some(NoVerdict::VariableRate) => Cell::Word(CellWord::RateVaries),
    }
}

/// Returns the cells of a check: its number and name, its faults, and the packets of its first and its last fault.
pub(crate) fn check_cells(e: &CheckTotals) -> [Cell; 5]
    ensures { result ≡ spec.check_cells e.now }
{
    [
        Cell::CheckNumber(e.check),
        Cell::CheckName(e.check),
        result_cell(e.no_verdict, e.count.faults),
        Cell::Number(e.count.first, CellUnit::Same),
        Cell::Number(e.count.last, CellUnit::Same),
    ]
}
