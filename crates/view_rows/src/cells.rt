//! The cells of a row.
ghost use Rattle.std.specs.Prelude.{◌≡◌, ◌++◌, OnOk, flat_map, string_bytes};
ghost use Rattle.view_rows.specs.Cells as spec;

use events::{BufferKind, Check, FaultKind, FaultSource};
use packet_sync::FileForm;
use page_curves::{PidLabels, write_grouped, write_label, write_tenths};
use std::alloc::AllocError;
use std::fmt::Write;

/// The unit of a number, and in its cell: the same, or ticks of 27 MHz as ms.
#[derive(Clone, Copy)]
pub enum CellUnit {
    Same,
    Ticks,
}

/// A word of a cell: a buffer, a kind of fault, or another word.
#[derive(Clone, Copy)]
pub enum CellWord {
    Buffer(BufferKind),
    Fault(FaultKind),
    LateByMultiplex,
    LateByFullBuffer,
    PacketSize,
    Bytes,
    Packets,
    Millis,
    Nanos,
    BitRate,
    NoClock,
    RateVaries,
    Nothing,
}

/// A cell: a number, a number that is marked if it exceeds its limit, a bar of it beside its limit, a word, the number
/// or the name of a check, what a PID carries, a program, where a fault is, or what an input is that is no transport
/// stream.
#[derive(Clone, Copy)]
pub enum Cell {
    Number(u64, CellUnit),
    Checked(u64, Option<u64>, CellUnit),
    Bar(u64, Option<u64>),
    Word(CellWord),
    CheckNumber(Check),
    CheckName(Check),
    Carried(u16),
    Program(u16),
    Source(FaultSource),
    Form(FileForm),
}

/// Returns a number that stops at 2^64 - 1.
pub fn short(number: u128) -> u64
    ensures { result ≡ spec.short number }
{
    number.min(u128::from(u64::MAX)) as u64
}

/// Returns a limit, if there is one: the number 0 is no limit.
pub(crate) fn limit_if(limit: u64) -> Option<u64>
    ensures { result ≡ spec.limit_if limit }
{
    match limit {
        0 => None,
        limit => Some(limit),
    }
}

#[tactic(auto, unfolding(crate::specs::Cells::fault_text))]
fn fault_text(kind: FaultKind) -> &'static str
    ensures { result.now ≡ spec.fault_text kind }
{
    match kind {
        FaultKind::Slip => "bytes in no packet",
        FaultKind::Empty => "the input is empty",
        FaultKind::NoStream => "the input is no transport stream",
        FaultKind::OtherRate => "rate given, and another by the clock references",
        FaultKind::Unclocked => "packets without a moment",
        FaultKind::SyncByte => "packet without its sync byte",
        FaultKind::Header => "packet with a header that can't be read",
        FaultKind::TransportError => "packet with a transport error",
        FaultKind::Continuity => "continuity counter that does not follow",
        FaultKind::CheckWord => "section with a wrong check word",
        FaultKind::Excess => "transport buffer over its size",
        FaultKind::MainExcess => "main buffer over its size",
        FaultKind::MultiplexingExcess => "multiplexing buffer (MB) over its size",
        FaultKind::ElementaryExcess => "elementary stream buffer (EB) over its size",
        FaultKind::SystemExcess => "transport buffer of tables over its size",
        FaultKind::SystemMainExcess => "system buffer of tables over its size",
        FaultKind::Late => "late unit",
        FaultKind::ElementaryLate => "unit late in its elementary stream buffer (EB)",
        FaultKind::Ahead => "unit too far ahead",
        FaultKind::PcrRepetition => "clock reference too late",
        FaultKind::PcrDiscontinuity => "clock reference that jumps",
        FaultKind::PcrAccuracy => "inaccurate clock reference",
        FaultKind::PtsRepetition => "PTS too long after the one before",
        FaultKind::TableRepetition => "section too late",
        FaultKind::SectionDistance => "section too soon after the one before",
        FaultKind::OtherTable => "section that does not belong on its PID",
        FaultKind::ScrambledTable => "scrambled packet of a table",
        FaultKind::NoCat => "scrambled packets, and no conditional access table",
        FaultKind::NotEmpty => "buffer that is not empty for too long",
        FaultKind::Delayed => "byte that is in its buffer for too long",
        FaultKind::Unreferenced => "has packets, and no table names it",
        FaultKind::Missing => "has no packet, and the first tables name it",
        FaultKind::Rest => "bytes after the last whole packet",
        FaultKind::NoStamps => "packets without the arrival time stamps that are asked for",
        FaultKind::StampJump => "arrival time stamp that jumps",
        FaultKind::NoTable => "no whole section of the table",
        FaultKind::PidRepetition => "no packet of the PID for too long",
    }
}

#[tactic(auto, unfolding(crate::specs::Cells::buffer_text))]
fn buffer_text(buffer: BufferKind) -> &'static str
    ensures { result.now ≡ spec.buffer_text buffer }
{
    match buffer {
        BufferKind::Transport => "transport",
        BufferKind::Multiplexing => "multiplexing (MB)",
        BufferKind::Elementary => "elementary stream (EB)",
        BufferKind::Main => "main",
        BufferKind::TableTransport => "transport, of tables",
        BufferKind::System => "system",
    }
}

#[tactic(auto, unfolding(crate::specs::Cells::word_text))]
fn word_text(word: CellWord) -> &'static str
    ensures { result.now ≡ spec.word_text word }
{
    match word {
        CellWord::Buffer(buffer) => buffer_text(buffer),
        CellWord::Fault(kind) => fault_text(kind),
        CellWord::LateByMultiplex => {
            "unit late in its elementary stream buffer (EB): sent too late or too fast"
        }
        CellWord::LateByFullBuffer => "unit late in its elementary stream buffer (EB): EB was full",
        CellWord::PacketSize => "bytes from one packet to the next; 188 of them are viewed",
        CellWord::Bytes => "bytes",
        CellWord::Packets => "packets",
        CellWord::Millis => "ms",
        CellWord::Nanos => "ns",
        CellWord::BitRate => "bit/s",
        CellWord::NoClock => "can't be checked: no clock references",
        CellWord::RateVaries => "can't be checked: the rate varies",
        CellWord::Nothing => "",
    }
}

// Returns whether a number is over a limit.
#[tactic(auto, unfolding(crate::specs::Cells::is_over))]
fn is_over(value: u64, limit: Option<u64>) -> bool
    ensures { result ≡ spec.is_over value limit }
{
    match limit {
        None => false,
        Some(limit) => value > limit,
    }
}

#[tactic(auto, unfolding(crate::specs::Cells::scaled))]
fn write_scaled(text: &mut String, value: u64, unit: CellUnit) -> Result<(), AllocError>
    ensures { OnOk result (string_bytes text.new ≡ string_bytes text.old ++ spec.scaled value unit) }
{
    match unit {
        CellUnit::Same => write_grouped(text, value),
        CellUnit::Ticks => write_tenths(text, value, 27_000),
    }
}

// Returns the begin of the cell of a number.
fn cell_head(over: bool) -> &'static str
    ensures { result.now ≡ spec.cell_head over }
{
    if over {
        "<td class=\"bad\">&#9650; "
    } else {
        "<td>"
    }
}

fn write_checked(
    text: &mut String,
    value: u64,
    limit: Option<u64>,
    unit: CellUnit,
) -> Result<(), AllocError>
    ensures { OnOk result (string_bytes text.new ≡ string_bytes text.old ++ spec.checked value limit unit) }
{
    text.push_str(cell_head(is_over(value, limit)))?;
    write_scaled(text, value, unit)
}

// Returns the length of a bar whose limit lies at 100; a bar ends at 200.
fn bar_length(value: u64, limit: u64) -> u64
    ensures { result ≡ spec.bar_length value limit }
{
    (value.min(1 << 50) * 100 / limit.max(1)).min(200)
}

// Returns the class of a bar.
fn bar_class(over: bool) -> &'static str
    ensures { result.now ≡ spec.bar_class over }
{
    if over { "over" } else { "fill" }
}

fn write_bar_to(text: &mut String, class: &str, length: u64) -> Result<(), AllocError>
    ensures { OnOk result (string_bytes text.new ≡ string_bytes text.old ++ spec.bar_to class.now length) }
{
    write!(
        text,
        "<td><svg class=\"bar\" viewBox=\"0 0 200 12\" aria-hidden=\"true\"><path class=\"{class}\" d=\"M0 6H{length}\"/><path class=\"mark\" d=\"M100 0V12\"/></svg>"
    )
}

#[tactic(auto, unfolding(crate::specs::Cells::bar))]
fn write_bar(text: &mut String, value: u64, limit: Option<u64>) -> Result<(), AllocError>
    ensures { OnOk result (string_bytes text.new ≡ string_bytes text.old ++ spec.bar value limit) }
{
    match limit {
        None => text.push_str("<td>"),
        Some(limit) => write_bar_to(text, bar_class(value > limit), bar_length(value, limit)),
    }
}

fn write_word(text: &mut String, word: &str) -> Result<(), AllocError>
    ensures { OnOk result (string_bytes text.new ≡ string_bytes text.old ++ spec.word_cell word.now) }
{
    write!(text, "<td class=\"word\">{word}")
}

fn write_program(text: &mut String, number: u16) -> Result<(), AllocError>
    ensures { OnOk result (string_bytes text.new ≡ string_bytes text.old ++ spec.program_cell number) }
{
    write!(text, "<td>program {number}")
}

fn write_pid(text: &mut String, pid: u16) -> Result<(), AllocError>
    ensures { OnOk result (string_bytes text.new ≡ string_bytes text.old ++ spec.pid_cell pid) }
{
    write!(text, "<td>{pid}")
}

fn write_table(text: &mut String, pid: u16, table: u8) -> Result<(), AllocError>
    ensures { OnOk result (string_bytes text.new ≡ string_bytes text.old ++ spec.table_cell pid table) }
{
    write!(text, "<td>{pid}, table {table}")
}

#[tactic(auto, unfolding(crate::specs::Cells::source_cell))]
fn write_source(text: &mut String, source: FaultSource) -> Result<(), AllocError>
    ensures { OnOk result (string_bytes text.new ≡ string_bytes text.old ++ spec.source_cell source) }
{
    match source {
        FaultSource::Whole => text.push_str("<td>"),
        FaultSource::Stream(pid) => write_pid(text, pid),
        FaultSource::Program(number) => write_program(text, number),
        FaultSource::Table(pid, table) => write_table(text, pid, table),
    }
}

/// Appends the cell of what a PID carries.
pub fn write_carried(text: &mut String, labels: &PidLabels, pid: u16) -> Result<(), AllocError>
    ensures { OnOk result (string_bytes text.new ≡ string_bytes text.old ++ spec.carried_cell labels.now pid) }
{
    text.push_str("<td class=\"word\">")?;
    write_label(text, labels, pid)
}

#[tactic(auto, unfolding(crate::specs::Cells::cell))]
fn write_cell(text: &mut String, labels: &PidLabels, cell: Cell) -> Result<(), AllocError>
    ensures { OnOk result (string_bytes text.new ≡ string_bytes text.old ++ spec.cell labels.now cell) }
{
    match cell {
        Cell::Number(number, unit) => write_checked(text, number, None, unit),
        Cell::Checked(number, limit, unit) => write_checked(text, number, limit, unit),
        Cell::Bar(number, limit) => write_bar(text, number, limit),
        Cell::Word(word) => write_word(text, word_text(word)),
        Cell::CheckNumber(check) => write_word(text, check.number()),
        Cell::CheckName(check) => write_word(text, check.name()),
        Cell::Carried(pid) => write_carried(text, labels, pid),
        Cell::Program(number) => write_program(text, number),
        Cell::Source(source) => write_source(text, source),
        Cell::Form(form) => write_word(text, form.words()),
    }
}

/// Appends cells.
pub(crate) fn write_cells(
    text: &mut String,
    labels: &PidLabels,
    cells: &[Cell],
) -> Result<(), AllocError>
    ensures { OnOk result (string_bytes text.new
        ≡ string_bytes text.old ++ flat_map (spec.cell labels.now) cells.now) }
{
    for cell in cells {
        write_cell(text, labels, *cell)?;
    }
    Ok(())
}

/// Appends a row of these cells.
pub(crate) fn write_row(
    text: &mut String,
    labels: &PidLabels,
    cells: &[Cell],
) -> Result<(), AllocError>
    ensures { OnOk result (string_bytes text.new ≡ string_bytes text.old ++ spec.row labels.now cells.now) }
{
    text.push_str("<tr>")?;
    write_cells(text, labels, cells)?;
    text.push_str("\n")
}
