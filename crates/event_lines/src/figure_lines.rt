//! The lines of figures: of a window, and at the end of a stream.
ghost use Rattle.std.specs.Prelude.{◌≡◌, ◌++◌, OnOk, string_bytes};
ghost use Rattle.event_lines.specs.EventLines as spec;

use crate::lines::{number, write_line, write_number_if};
use events::{
    BufferTotals, ClockTotals, HeldFigures, PidTotals, ReportEnd, SystemTotals, TableTotals,
    UnitFigures,
};
use std::alloc::AllocError;

/// Appends `held`.
pub(crate) fn write_held(text: &mut String, json: bool, e: &HeldFigures) -> Result<(), AllocError>
    ensures { OnOk result (string_bytes text.new ≡ string_bytes text.old ++ spec.held_line json e.now) }
{
    let fields = [
        number("number", u128::from(e.number)),
        number("pid", u128::from(e.pid)),
        number("transport", e.transport),
        number("main", u128::from(e.main)),
        number("main_least", u128::from(e.main_least)),
    ];
    write_line(text, json, "held", &fields)
}

/// Appends `units`.
pub(crate) fn write_units(text: &mut String, json: bool, e: &UnitFigures) -> Result<(), AllocError>
    ensures { OnOk result (string_bytes text.new ≡ string_bytes text.old ++ spec.units_line json e.now) }
{
    let fields = [
        number("number", u128::from(e.number)),
        number("pid", u128::from(e.pid)),
        number("units", u128::from(e.units)),
        number("late", u128::from(e.late)),
        number("slack", e.slack),
    ];
    write_line(text, json, "units", &fields)
}

// Appends the bytes that a buffer held.
fn write_bytes(text: &mut String, json: bool, e: &BufferTotals) -> Result<(), AllocError>
    ensures { OnOk result (string_bytes text.new ≡ string_bytes text.old ++ spec.bytes_line json e.now) }
{
    let fields = [
        number("pid", u128::from(e.pid)),
        number("most", e.most),
        number("size", u128::from(e.size)),
        number("excesses", e.excesses),
    ];
    write_line(text, json, e.buffer.word(), &fields)
}

/// Appends the totals of a buffer, by its word.
pub(crate) fn write_buffer(
    text: &mut String,
    json: bool,
    e: &BufferTotals,
) -> Result<(), AllocError>
    ensures { OnOk result (string_bytes text.new ≡ string_bytes text.old ++ spec.buffer_line json e.now) }
{
    write_bytes(text, json, e)?;
    write_number_if(text, json, "units", e.units)?;
    write_number_if(text, json, "late", e.late)?;
    write_number_if(text, json, "unread", e.unread)
}

/// Appends `system`.
pub(crate) fn write_system(
    text: &mut String,
    json: bool,
    e: &SystemTotals,
) -> Result<(), AllocError>
    ensures { OnOk result (string_bytes text.new ≡ string_bytes text.old ++ spec.system_line json e.now) }
{
    let fields = [
        number("program", u128::from(e.program)),
        number("transport", e.transport),
        number("transport_size", u128::from(e.transport_size)),
        number("transport_excesses", e.transport_excesses),
        number("main", e.main),
        number("main_size", u128::from(e.main_size)),
        number("main_excesses", e.main_excesses),
    ];
    write_line(text, json, "system", &fields)
}

/// Appends `clock`.
pub(crate) fn write_clock(text: &mut String, json: bool, e: &ClockTotals) -> Result<(), AllocError>
    ensures { OnOk result (string_bytes text.new ≡ string_bytes text.old ++ spec.clock_line json e.now) }
{
    let fields = [
        number("pid", u128::from(e.pid)),
        number("references", u128::from(e.references)),
        number("announced", u128::from(e.announced)),
        number("rate", e.rate),
        number("interval", e.interval),
        number("inaccuracy", e.inaccuracy),
    ];
    write_line(text, json, "clock", &fields)
}

/// Appends `table`.
pub(crate) fn write_table(text: &mut String, json: bool, e: &TableTotals) -> Result<(), AllocError>
    ensures { OnOk result (string_bytes text.new ≡ string_bytes text.old ++ spec.table_line json e.now) }
{
    let fields = [
        number("pid", u128::from(e.pid)),
        number("table", u128::from(e.table)),
        number("sections", u128::from(e.sections)),
        number("interval", e.interval),
        number("packet", u128::from(e.packet)),
        number("limit", u128::from(e.limit)),
    ];
    write_line(text, json, "table", &fields)
}

/// Appends `pid`.
pub(crate) fn write_pid(text: &mut String, json: bool, e: &PidTotals) -> Result<(), AllocError>
    ensures { OnOk result (string_bytes text.new ≡ string_bytes text.old ++ spec.pid_line json e.now) }
{
    let fields = [
        number("number", u128::from(e.number)),
        number("packets", u128::from(e.packets)),
        number("pcrs", u128::from(e.pcrs)),
    ];
    write_line(text, json, "pid", &fields)
}

/// Appends `end`.
pub(crate) fn write_end(text: &mut String, json: bool, e: &ReportEnd) -> Result<(), AllocError>
    ensures { OnOk result (string_bytes text.new ≡ string_bytes text.old ++ spec.end_line json e.now) }
{
    let fields = [
        number("packets", u128::from(e.packets)),
        number("refused", u128::from(e.refused)),
        number("left", u128::from(e.left)),
    ];
    write_line(text, json, "end", &fields)
}
