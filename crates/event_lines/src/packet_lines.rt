//! The lines of events at a packet.
ghost use Rattle.std.specs.Prelude.{◌≡◌, ◌++◌, OnOk, string_bytes};
ghost use Rattle.event_lines.specs.EventLines as spec;

use crate::lines::{number, word, write_line};
use events::{
    BufferExcess, ClockFault, FarAhead, FaultKind, LateUnit, StreamBegin, TableFault,
    UnclockedPackets,
};
use std::alloc::AllocError;

/// Appends `stream`.
pub(crate) fn write_stream(text: &mut String, json: bool, e: &StreamBegin) -> Result<(), AllocError>
    ensures { OnOk result (string_bytes text.new ≡ string_bytes text.old ++ spec.stream_line json e.now) }
{
    let fields = [
        number("pid", u128::from(e.pid)),
        number("program", u128::from(e.program)),
        number("type", u128::from(e.stream_type)),
        word("coding", e.coding.line_word()),
        number("rx", u128::from(e.rx)),
        number("main", u128::from(e.main)),
        number("packet", u128::from(e.packet)),
    ];
    write_line(text, json, "stream", &fields)
}

/// Appends the excess of a buffer, by the word of its kind.
pub(crate) fn write_excess(
    text: &mut String,
    json: bool,
    e: &BufferExcess,
) -> Result<(), AllocError>
    ensures { OnOk result (string_bytes text.new ≡ string_bytes text.old ++ spec.excess_line json e.now) }
{
    let fields = [
        number(e.buffer.owner_word(), u128::from(e.number)),
        number("packet", u128::from(e.packet)),
        number("begin", e.begin),
        number("end", e.end),
        number("peak", e.peak),
        number("size", u128::from(e.size)),
    ];
    write_line(text, json, e.buffer.excess().word(), &fields)
}

/// Appends `late`.
pub(crate) fn write_late(text: &mut String, json: bool, e: &LateUnit) -> Result<(), AllocError>
    ensures { OnOk result (string_bytes text.new ≡ string_bytes text.old ++ spec.late_line json e.now) }
{
    let fields = [
        number("pid", u128::from(e.pid)),
        number("packet", u128::from(e.packet)),
        number("due", e.due),
        number("left", e.left),
        number("by", e.by),
        number("bytes", u128::from(e.bytes)),
    ];
    write_line(text, json, "late", &fields)
}

/// Appends `ahead`.
pub(crate) fn write_ahead(text: &mut String, json: bool, e: &FarAhead) -> Result<(), AllocError>
    ensures { OnOk result (string_bytes text.new ≡ string_bytes text.old ++ spec.ahead_line json e.now) }
{
    let fields = [
        number("pid", u128::from(e.pid)),
        number("packet", u128::from(e.packet)),
        number("by", u128::from(e.by)),
        number("limit", u128::from(e.limit)),
    ];
    write_line(text, json, "ahead", &fields)
}

/// Appends a fault of a clock, of a PTS or of a PID, by the word of its kind.
pub(crate) fn write_clock_fault(
    text: &mut String,
    json: bool,
    kind: FaultKind,
    e: &ClockFault,
) -> Result<(), AllocError>
    ensures { OnOk result (string_bytes text.new ≡ string_bytes text.old ++ spec.clock_fault_line json kind e.now) }
{
    let fields = [
        number("pid", u128::from(e.pid)),
        number("packet", u128::from(e.packet)),
        number("value", e.value),
        number("limit", u128::from(e.limit)),
    ];
    write_line(text, json, kind.word(), &fields)
}

/// Appends a section that begins too late or too soon, by the word of its kind.
pub(crate) fn write_table_fault(
    text: &mut String,
    json: bool,
    kind: FaultKind,
    e: &TableFault,
) -> Result<(), AllocError>
    ensures { OnOk result (string_bytes text.new ≡ string_bytes text.old ++ spec.table_fault_line json kind e.now) }
{
    let fields = [
        number("pid", u128::from(e.pid)),
        number("table", u128::from(e.table)),
        number("packet", u128::from(e.packet)),
        number("value", e.value),
        number("limit", u128::from(e.limit)),
    ];
    write_line(text, json, kind.word(), &fields)
}

/// Appends `unclocked`.
pub(crate) fn write_unclocked(
    text: &mut String,
    json: bool,
    e: &UnclockedPackets,
) -> Result<(), AllocError>
    ensures { OnOk result (string_bytes text.new ≡ string_bytes text.old ++ spec.unclocked_line json e.now) }
{
    let fields = [
        number("packet", u128::from(e.packet)),
        number("packets", u128::from(e.packets)),
    ];
    write_line(text, json, "unclocked", &fields)
}
