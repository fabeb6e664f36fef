//! The line, the marks and the row of a packet.
ghost use Rattle.std.specs.Prelude.{◌≡◌, ◌++◌, ◌≤◌, OnOk, string_bytes};
ghost use Rattle.page_charts.specs.Points as spec;

use events::TracePoint;
use page_curves::{write_grouped, write_tenths};
use std::alloc::AllocError;
use std::fmt::Write;

// No number that is drawn is greater.
const GREATEST: u128 = 1_000_000_000_000_000;

/// Returns a number as pictures show it, 10^15 at most.
pub(crate) fn drawn(value: u128) -> u64
    ensures { result ≡ spec.drawn value }
{
    value.min(GREATEST) as u64
}

/// Returns how far down a picture `value` bytes lie, with `peak` bytes at its top.
pub(crate) fn height_of(peak: u128, value: u128) -> u64
    ensures { result ≡ spec.height_of peak value }
{
    let peak = drawn(peak);
    2_200 - drawn(value).min(peak) * 2_000 / peak.max(1)
}

// Returns how far across a picture a packet begins, by its number, of 64.
fn across(row: u64) -> u64
    ensures { result ≡ spec.across row }
{
    900 + 8_600 * row.min(64) / 64
}

// Returns the least number of bytes in the buffer; the greatest number if the least is not known.
#[tactic(auto, unfolding(crate::specs::Points::least_or))]
fn least_of(point: &TracePoint) -> u128
    ensures { result ≡ spec.least_or point.now.most point.now.least }
{
    match point.least {
        None => point.most,
        Some(least) => u128::from(least),
    }
}

#[tactic(auto, unfolding(crate::specs::Points::step_text))]
fn write_heights(text: &mut String, x: u64, y: u64, z: u64, end: u64) -> Result<(), AllocError>
    ensures { OnOk result (string_bytes text.new ≡ string_bytes text.old ++ spec.step_text x y z end) }
{
    write!(text, " {x} {y} {end} {z}")
}

/// Appends the line of a packet of a number: from the least number of bytes up to the greatest one.
pub(crate) fn write_step(text: &mut String, row: u64, point: &TracePoint) -> Result<(), AllocError>
    ensures { OnOk result (string_bytes text.new ≡ string_bytes text.old ++ spec.step row point.now) }
{
    let low = height_of(point.peak, least_of(point));
    let high = height_of(point.peak, point.most);
    write_heights(text, across(row), low, high, across(row.min(64) + 1))
}

#[tactic(auto, unfolding(crate::specs::Points::unit_text))]
fn write_unit(text: &mut String, x: u64) -> Result<(), AllocError>
    ensures { OnOk result (string_bytes text.new ≡ string_bytes text.old ++ spec.unit_text x) }
{
    write!(
        text,
        "<path style=\"stroke:var(--s2);stroke-width:12;stroke-dasharray:40 30\" d=\"M{x} 200V2240\"/>\n"
    )
}

// Appends the mark of a unit, if a unit begins.
fn write_unit_if(text: &mut String, row: u64, point: &TracePoint) -> Result<(), AllocError>
    ensures { OnOk result (string_bytes text.new ≡ string_bytes text.old ++ spec.unit_if row point.now) }
{
    if point.begins {
        write_unit(text, across(row))
    } else {
        Ok(())
    }
}

#[tactic(auto, unfolding(crate::specs::Points::over_text))]
fn write_over(text: &mut String, x: u64, y: u64) -> Result<(), AllocError>
    ensures { OnOk result (string_bytes text.new ≡ string_bytes text.old ++ spec.over_text x y) }
{
    write!(
        text,
        "<path class=\"over\" d=\"M{x} {y}m-35 -80h70l-35 70z\"/>\n"
    )
}

// Appends the mark of the greatest number of bytes, if the buffer holds the most at this packet.
fn write_over_if(text: &mut String, row: u64, point: &TracePoint) -> Result<(), AllocError>
    ensures { OnOk result (string_bytes text.new ≡ string_bytes text.old ++ spec.over_if row point.now) }
{
    if point.most == point.peak {
        write_over(
            text,
            across(row.min(64) + 1),
            height_of(point.peak, point.most),
        )
    } else {
        Ok(())
    }
}

#[tactic(auto, unfolding(crate::specs::Points::moment_head))]
fn write_moment_head(text: &mut String, x: u64) -> Result<(), AllocError>
    ensures { OnOk result (string_bytes text.new ≡ string_bytes text.old ++ spec.moment_head x) }
{
    write!(
        text,
        "<path class=\"grid\" d=\"M{x} 200V2240\"/><text class=\"mid\" x=\"{x}\" y=\"2400\">"
    )
}

// Appends the moment of a packet.
#[tactic(auto, unfolding(crate::specs::Points::moment))]
fn write_moment(text: &mut String, x: u64, left: u128) -> Result<(), AllocError>
    ensures { OnOk result (string_bytes text.new ≡ string_bytes text.old ++ spec.moment x left) }
{
    write_moment_head(text, x)?;
    write_tenths(text, drawn(left), 27_000)?;
    text.push_str(" ms</text>\n")
}

// Appends the moment of every sixteenth packet.
fn write_moment_if(text: &mut String, row: u64, point: &TracePoint) -> Result<(), AllocError>
    ensures { OnOk result (string_bytes text.new ≡ string_bytes text.old ++ spec.moment_if row point.now) }
{
    if row % 16 == 0 {
        write_moment(text, across(row), point.left)
    } else {
        Ok(())
    }
}

/// Appends the marks of a packet of a number: its moment, the begin of a unit, and the greatest number of bytes.
#[tactic(auto, unfolding(crate::specs::Points::marks))]
pub(crate) fn write_marks(text: &mut String, row: u64, point: &TracePoint) -> Result<(), AllocError>
    ensures { OnOk result (string_bytes text.new ≡ string_bytes text.old ++ spec.marks row point.now) }
{
    write_moment_if(text, row, point)?;
    write_unit_if(text, row, point)?;
    write_over_if(text, row, point)
}

fn write_cell(text: &mut String, value: u64) -> Result<(), AllocError>
    ensures { OnOk result (string_bytes text.new ≡ string_bytes text.old ++ spec.cell value) }
{
    text.push_str("<td>")?;
    write_grouped(text, value)
}

// Appends the cell of a number that may not be known.
#[tactic(auto, unfolding(crate::specs::Points::cell_if))]
fn write_cell_if(text: &mut String, value: Option<u64>) -> Result<(), AllocError>
    ensures { OnOk result (string_bytes text.new ≡ string_bytes text.old ++ spec.cell_if value) }
{
    match value {
        None => text.push_str("<td>"),
        Some(value) => write_cell(text, drawn(u128::from(value))),
    }
}

// Appends whether a unit begins.
#[tactic(auto, unfolding(crate::specs::Points::begin_cell))]
fn write_begin(text: &mut String, begins: bool) -> Result<(), AllocError>
    ensures { OnOk result (string_bytes text.new ≡ string_bytes text.old ++ spec.begin_cell begins) }
{
    if begins {
        text.push_str("<td>begins\n")
    } else {
        text.push_str("<td>\n")
    }
}

// Appends the packet and its moment.
#[tactic(auto, unfolding(crate::specs::Points::place_cells))]
fn write_place(text: &mut String, point: &TracePoint) -> Result<(), AllocError>
    ensures { OnOk result (string_bytes text.new ≡ string_bytes text.old ++ spec.place_cells point.now) }
{
    text.push_str("<tr>")?;
    write_cell(text, drawn(u128::from(point.packet)))?;
    write_cell(text, drawn(point.left))
}

/// Appends the row of a packet in a table.
#[tactic(auto, unfolding(crate::specs::Points::row))]
pub(crate) fn write_row(text: &mut String, point: &TracePoint) -> Result<(), AllocError>
    ensures { OnOk result (string_bytes text.new ≡ string_bytes text.old ++ spec.row point.now) }
{
    write_place(text, point)?;
    write_cell_if(text, point.least)?;
    write_cell(text, drawn(point.most))?;
    write_begin(text, point.begins)
}
