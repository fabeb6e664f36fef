//! The text of a plan, written.

ghost use Rattle.std.specs.Prelude.{◌≡◌, ◌+◌, ◌<◌, ◌++◌, OnOk, string_bytes, length, codes};
ghost use Rattle.slot_plan.specs.Text.{slot_word, stream_line, peak_words, program_line};
ghost use Rattle.slot_plan.specs.Words.{field};
ghost use Rattle.slot_plan.specs.Numbered.{numbered};

use crate::certificate::{MultiplexingEntry, ProgramEntry, StreamEntry};
use crate::slot::Slot;
use std::alloc::{AllocError, Allocator};
use std::fmt::Write;

/// The slots of one line of the text.
pub const SLOTS_ON_A_LINE: usize = 24;

/// Appends the first two lines.
pub fn write_head<A: Allocator>(text: &mut String<A>, period: usize) -> Result<(), AllocError>
    ensures { OnOk result (string_bytes text.new
        ≡ string_bytes text.old ++ codes "tsplan 1\n" ++ field (codes "period ") period 10) }
{
    write!(text, "tsplan 1\nperiod {period}\n")
}

/// Appends the slots of a period.
pub fn write_slots<A: Allocator>(text: &mut String<A>, slots: &[Slot]) -> Result<(), AllocError>
    ensures { OnOk result (string_bytes text.new
        ≡ string_bytes text.old ++ numbered (slot_word (length slots.now)) 0 slots.now) }
{
    for (index, slot) in slots.iter().enumerate() {
        write_slot(text, slots.len(), index, *slot)?;
    }
    Ok(())
}

/// Appends the lines of the streams' entries.
pub fn write_streams<A: Allocator>(
    text: &mut String<A>,
    entries: &[StreamEntry],
) -> Result<(), AllocError>
    ensures { OnOk result (string_bytes text.new ≡ string_bytes text.old ++ numbered stream_line 0 entries.now) }
{
    for (number, entry) in entries.iter().enumerate() {
        write_stream(text, number, *entry)?;
    }
    Ok(())
}

/// Appends the lines of the programs' entries.
pub fn write_programs<A: Allocator>(
    text: &mut String<A>,
    entries: &[ProgramEntry],
) -> Result<(), AllocError>
    ensures { OnOk result (string_bytes text.new ≡ string_bytes text.old ++ numbered program_line 0 entries.now) }
{
    for (number, entry) in entries.iter().enumerate() {
        write_program(text, number, *entry)?;
    }
    Ok(())
}

/// Appends slot number `index` of a period of `period` slots, with the space or LF that ends it.
fn write_slot<A: Allocator>(
    text: &mut String<A>,
    period: usize,
    index: usize,
    slot: Slot,
) -> Result<(), AllocError>
    requires { index < period }
    ensures { OnOk result (string_bytes text.new ≡ string_bytes text.old ++ slot_word period index slot) }
{
    let ending = if (index + 1) % SLOTS_ON_A_LINE == 0 || index + 1 == period {
        '\n'
    } else {
        ' '
    };
    match slot {
        Slot::Stream(number) => write!(text, "S{number}{ending}"),
        Slot::Pcr(number) => write!(text, "P{number}{ending}"),
        Slot::Table(number) => write!(text, "T{number}{ending}"),
        Slot::Null => write!(text, "-{ending}"),
    }
}

/// Appends the peak of a stream's transport buffer and the claim for its multiplexing buffer, if it has any, to the
/// end of the line.
fn write_peaks<A: Allocator>(
    text: &mut String<A>,
    peak: u64,
    multiplexing: Option<MultiplexingEntry>,
) -> Result<(), AllocError>
    ensures { OnOk result (string_bytes text.new ≡ string_bytes text.old ++ peak_words peak multiplexing) }
{
    match multiplexing {
        None => write!(text, "peak {peak}\n"),
        Some(MultiplexingEntry { start, peak: after }) => {
            write!(text, "peak {peak} mstart {start} mpeak {after}\n")
        }
    }
}

/// Appends the line of a stream's entry.
fn write_stream<A: Allocator>(
    text: &mut String<A>,
    number: usize,
    entry: StreamEntry,
) -> Result<(), AllocError>
    ensures { OnOk result (string_bytes text.new ≡ string_bytes text.old ++ stream_line number entry) }
{
    let StreamEntry {
        spread,
        start,
        peak,
        multiplexing,
    } = entry;
    write!(text, "stream {number} spread {spread} start {start} ")?;
    write_peaks(text, peak, multiplexing)
}

/// Appends the line of a program's entry.
fn write_program<A: Allocator>(
    text: &mut String<A>,
    number: usize,
    entry: ProgramEntry,
) -> Result<(), AllocError>
    ensures { OnOk result (string_bytes text.new ≡ string_bytes text.old ++ program_line number entry) }
{
    let ProgramEntry {
        transport_start,
        transport_peak,
        system_start,
        system_peak,
    } = entry;
    write!(
        text,
        "program {number} tstart {transport_start} tpeak {transport_peak} bstart {system_start} bpeak {system_peak}\n"
    )
}
