//! The numbers of curves as a table.
ghost use Rattle.std.specs.Prelude.{◌≡◌, ◌++◌, ◌<◌, ◌≤◌, OnOk, flat_map, length, string_bytes};
ghost use Rattle.page_charts.specs.ValueTables as spec;
ghost use Rattle.page_curves.specs.Paths.{numbered};

use page_curves::{
    Bounds, ChartUnit, Curve, Frame, PidCurve, slot_at, unit_name, write_tenths, write_value,
};
use std::alloc::AllocError;
use std::fmt::Write;

// When a slot begins, in ms; numbers stop at 2^64 - 1.
fn begin_of(frame: &Frame, span: u64, slot: u64) -> u64
    ensures { result ≡ spec.begin_of frame.now span slot }
{
    span.saturating_mul(slot)
        .saturating_mul(u64::from(frame.millis))
}

// The least and the greatest value of a slot.
#[tactic(auto, unfolding(crate::specs::ValueTables::values))]
fn write_values(text: &mut String, unit: ChartUnit, bounds: Bounds) -> Result<(), AllocError>
    ensures { OnOk result (string_bytes text.new ≡ string_bytes text.old ++ spec.values unit bounds) }
{
    text.push_str("<td>")?;
    write_value(text, unit, bounds.least)?;
    text.push_str("<td>")?;
    write_value(text, unit, bounds.greatest)?;
    text.push_str("\n")
}

// The least difference of two values that are written differently.
#[tactic(auto, unfolding(crate::specs::ValueTables::step_of))]
fn step_of(unit: ChartUnit) -> u64
    ensures same { result ≡ spec.step_of unit }
    ensures some { 0 < result }
{
    match unit {
        ChartUnit::BitRate => 100,
        ChartUnit::Bytes => 1,
        ChartUnit::Time => 100,
        ChartUnit::Nanoseconds | ChartUnit::Offset => 1,
    }
}

// Whether the values of two slots are written alike.
fn is_alike(step: u64, a: Bounds, b: Bounds) -> bool
    requires { 0 < step }
    ensures { result ≡ spec.is_alike step a b }
{
    a.least / step == b.least / step && a.greatest / step == b.greatest / step
}

// Whether two slots have the same values, as they are written, or both have none.
#[tactic(auto, unfolding(crate::specs::ValueTables::is_same))]
fn is_same(step: u64, a: Option<Bounds>, b: Option<Bounds>) -> bool
    requires { 0 < step }
    ensures { result ≡ spec.is_same step a b }
{
    match (a, b) {
        (None, None) => true,
        (None, Some(_)) => false,
        (Some(_), None) => false,
        (Some(a), Some(b)) => is_alike(step, a, b),
    }
}

// The bounds that are drawn for the slot before a slot; none before the first slot.
fn shown_before(frame: &Frame, curve: &Curve, slot: usize) -> Option<Bounds>
    ensures { result ≡ spec.shown_before frame.now curve.now slot }
{
    if slot == 0 {
        return None;
    }
    frame.shown(
        curve.span(),
        slot as u64 - 1,
        slot_at(curve.slots(), slot - 1),
    )
}

// The values of a slot, if it has some.
#[tactic(auto, unfolding(crate::specs::ValueTables::values_or))]
fn write_values_or(
    text: &mut String,
    unit: ChartUnit,
    shown: Option<Bounds>,
) -> Result<(), AllocError>
    ensures { OnOk result (string_bytes text.new ≡ string_bytes text.old ++ spec.values_or unit shown) }
{
    match shown {
        None => text.push_str("<td>none<td>none\n"),
        Some(bounds) => write_values(text, unit, bounds),
    }
}

// The row of values from a moment on.
#[tactic(auto, unfolding(crate::specs::ValueTables::row_of))]
fn write_row_of(
    text: &mut String,
    frame: &Frame,
    pid: u16,
    begin: u64,
    shown: Option<Bounds>,
) -> Result<(), AllocError>
    ensures { OnOk result (string_bytes text.new ≡ string_bytes text.old ++ spec.row_of frame.now pid begin shown) }
{
    write!(text, "<tr><td>{pid}<td>")?;
    write_tenths(text, begin, 1_000)?;
    write_values_or(text, frame.unit, shown)
}

// The row of a slot, unless the slot before has the same values.
fn write_slot(
    text: &mut String,
    frame: &Frame,
    entry: &PidCurve,
    slot: usize,
    bounds: Option<Bounds>,
) -> Result<(), AllocError>
    ensures { OnOk result (string_bytes text.new
        ≡ string_bytes text.old ++ spec.row frame.now entry.now slot bounds) }
{
    let span = entry.curve.span();
    let shown = frame.shown(span, slot as u64, bounds);
    if is_same(
        step_of(frame.unit),
        shown_before(frame, &entry.curve, slot),
        shown,
    ) {
        return Ok(());
    }
    write_row_of(
        text,
        frame,
        entry.pid,
        begin_of(frame, span, slot as u64),
        shown,
    )
}

// The rows of slots from the first one on.
fn write_slots(
    text: &mut String,
    frame: &Frame,
    entry: &PidCurve,
    slots: &[Option<Bounds>],
) -> Result<(), AllocError>
    ensures { OnOk result (string_bytes text.new
        ≡ string_bytes text.old ++ numbered (spec.row frame.now entry.now) 0 slots.now) }
{
    for (slot, bounds) in slots.iter().enumerate() {
        write_slot(text, frame, entry, slot, *bounds)?;
    }
    Ok(())
}

// The row of what follows the last slot, if windows do.
fn write_last(text: &mut String, frame: &Frame, entry: &PidCurve) -> Result<(), AllocError>
    ensures { OnOk result (string_bytes text.new ≡ string_bytes text.old ++ spec.last_row frame.now entry.now) }
{
    let count = entry.curve.slots().len();
    if (count as u64) < frame.slots_of(entry.curve.span()) {
        write_slot(text, frame, entry, count, None)
    } else {
        Ok(())
    }
}

fn write_rows(text: &mut String, frame: &Frame, entry: &PidCurve) -> Result<(), AllocError>
    ensures { OnOk result (string_bytes text.new ≡ string_bytes text.old ++ spec.rows frame.now entry.now) }
{
    write_slots(text, frame, entry, entry.curve.slots())?;
    write_last(text, frame, entry)
}

fn write_all_rows(text: &mut String, frame: &Frame, curves: &[PidCurve]) -> Result<(), AllocError>
    ensures { OnOk result (string_bytes text.new ≡ string_bytes text.old ++ flat_map (spec.rows frame.now) curves.now) }
{
    for entry in curves {
        write_rows(text, frame, entry)?;
    }
    Ok(())
}

// The head of a table of values in a unit, and what the curves are of.
#[tactic(auto, unfolding(crate::specs::ValueTables::head))]
fn write_head(text: &mut String, owner: &str, unit: &str) -> Result<(), AllocError>
    ensures { OnOk result (string_bytes text.new ≡ string_bytes text.old ++ spec.head owner.now unit.now) }
{
    write!(
        text,
        "<details><summary>These numbers</summary><table><caption>A row is left out if its values are those of the row above.</caption><tr><th scope=col>{owner}<th scope=col>from, s<th scope=col>least, {unit}<th scope=col>greatest, {unit}\n"
    )
}

/// Appends the numbers of curves as a table that opens, a row where they change; after the name of what they are of.
#[tactic(auto, unfolding(crate::specs::ValueTables::table))]
pub(crate) fn write_value_table(
    text: &mut String,
    owner: &str,
    frame: &Frame,
    curves: &[PidCurve],
) -> Result<(), AllocError>
    ensures { OnOk result (string_bytes text.new ≡ string_bytes text.old ++ spec.table owner.now frame.now curves.now) }
{
    write_head(text, owner, unit_name(frame.unit))?;
    write_all_rows(text, frame, curves)?;
    text.push_str("</table></details>\n")
}
