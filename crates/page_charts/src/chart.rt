//! A picture of curves.
ghost use Rattle.std.specs.Prelude.{◌≡◌, ◌++◌, ◌<◌, ◌≤◌, OnOk, flat_map, string_bytes};
ghost use Rattle.page_charts.specs.Charts as spec;

use crate::value_table::write_value_table;
use page_curves::{
    ChartUnit, Frame, PidCurve, PidLabels, height_of, unit_name, write_lows_back, write_overs,
    write_pid, write_points, write_value,
};
use std::alloc::AllocError;
use std::fmt::Write;

// Whether a curve belongs to a PID.
fn is_of_pid(pid: u16, entry: &PidCurve) -> bool
    ensures { result ≡ spec.is_of_pid pid entry.now }
{
    entry.pid == pid
}

// The place of a PID among curves.
fn place_of(order: &[PidCurve], pid: u16) -> Option<usize>
    ensures { result ≡ spec.place_of order.now pid }
{
    order.iter().position(|entry| is_of_pid(pid, entry))
}

// The class of a PID, by its place among curves.
fn class_of(order: &[PidCurve], pid: u16) -> usize
    ensures { result ≡ spec.class_of order.now pid }
{
    place_of(order, pid).unwrap_or(0) % 16
}

// A piece of a line of a class.
#[tactic(auto, unfolding(crate::specs::Charts::sample_text))]
fn write_sample(text: &mut String, class: usize) -> Result<(), AllocError>
    ensures { OnOk result (string_bytes text.new ≡ string_bytes text.old ++ spec.sample_text class) }
{
    write!(
        text,
        "<span><svg class=\"sample\" viewBox=\"0 0 600 120\"><path class=\"line s{class}\" d=\"M0 60H600\"/></svg> "
    )
}

/// Appends a value with its unit.
pub(crate) fn write_with_unit(
    text: &mut String,
    unit: ChartUnit,
    value: u64,
) -> Result<(), AllocError>
    ensures { OnOk result (string_bytes text.new ≡ string_bytes text.old ++ spec.with_unit unit value) }
{
    write_value(text, unit, value)?;
    let name = unit_name(unit);
    write!(text, " {name}</span>\n")
}

// What a curve of a class says: its PID and its greatest value.
#[tactic(auto, unfolding(crate::specs::Charts::key))]
fn write_key(
    text: &mut String,
    unit: ChartUnit,
    labels: &PidLabels,
    order: &[PidCurve],
    entry: &PidCurve,
) -> Result<(), AllocError>
    ensures { OnOk result (string_bytes text.new
        ≡ string_bytes text.old ++ spec.key unit labels.now order.now entry.now) }
{
    write_sample(text, class_of(order, entry.pid))?;
    write_pid(text, labels, entry.pid, entry.name)?;
    text.push_str(", at most ")?;
    write_with_unit(text, unit, entry.curve.greatest())
}

fn write_each_key(
    text: &mut String,
    unit: ChartUnit,
    labels: &PidLabels,
    order: &[PidCurve],
    curves: &[PidCurve],
) -> Result<(), AllocError>
    ensures { OnOk result (string_bytes text.new
        ≡ string_bytes text.old ++ flat_map (spec.key unit labels.now order.now) curves.now) }
{
    for entry in curves {
        write_key(text, unit, labels, order, entry)?;
    }
    Ok(())
}

#[tactic(auto, unfolding(crate::specs::Charts::keys))]
fn write_keys(
    text: &mut String,
    unit: ChartUnit,
    labels: &PidLabels,
    order: &[PidCurve],
    curves: &[PidCurve],
) -> Result<(), AllocError>
    ensures { OnOk result (string_bytes text.new
        ≡ string_bytes text.old ++ spec.keys unit labels.now order.now curves.now) }
{
    text.push_str("<p class=\"key\">")?;
    write_each_key(text, unit, labels, order, curves)?;
    text.push_str("</p>\n")
}

// The outline of a curve: along its greatest values, and back along its least ones.
#[tactic(auto, unfolding(crate::specs::Charts::outline))]
fn write_outline(text: &mut String, frame: &Frame, entry: &PidCurve) -> Result<(), AllocError>
    ensures { OnOk result (string_bytes text.new ≡ string_bytes text.old ++ spec.outline frame.now entry.now) }
{
    write_points(text, frame, entry.curve.span(), entry.curve.slots())?;
    write_lows_back(text, frame, entry.curve.span(), entry.curve.slots())
}

// The band of a curve, from the least to the greatest value of each slot.
#[tactic(auto, unfolding(crate::specs::Charts::band))]
fn write_band(
    text: &mut String,
    frame: &Frame,
    class: usize,
    entry: &PidCurve,
) -> Result<(), AllocError>
    ensures { OnOk result (string_bytes text.new ≡ string_bytes text.old ++ spec.band frame.now class entry.now) }
{
    write!(text, "<path class=\"range s{class}\" d=\"M")?;
    write_outline(text, frame, entry)?;
    text.push_str("z\"/>")
}

// The PID of a curve, as the title of its line.
#[tactic(auto, unfolding(crate::specs::Charts::title))]
fn write_title(text: &mut String, labels: &PidLabels, entry: &PidCurve) -> Result<(), AllocError>
    ensures { OnOk result (string_bytes text.new ≡ string_bytes text.old ++ spec.title labels.now entry.now) }
{
    text.push_str("h20\"><title>")?;
    write_pid(text, labels, entry.pid, entry.name)?;
    text.push_str("</title></path>\n")
}

// The line of a curve's greatest values.
#[tactic(auto, unfolding(crate::specs::Charts::line))]
fn write_line(
    text: &mut String,
    frame: &Frame,
    labels: &PidLabels,
    class: usize,
    entry: &PidCurve,
) -> Result<(), AllocError>
    ensures { OnOk result (string_bytes text.new
        ≡ string_bytes text.old ++ spec.line frame.now labels.now class entry.now) }
{
    write!(text, "<path class=\"line s{class}\" d=\"M")?;
    write_points(text, frame, entry.curve.span(), entry.curve.slots())?;
    write_title(text, labels, entry)
}

#[tactic(auto, unfolding(crate::specs::Charts::limit_head))]
fn write_limit_head(text: &mut String, y: u64) -> Result<(), AllocError>
    ensures { OnOk result (string_bytes text.new ≡ string_bytes text.old ++ spec.limit_head y) }
{
    write!(
        text,
        "\"/><path class=\"limit\" d=\"M900 {y}H9500\"/><text class=\"end\" x=\"9490\" y=\"{y}\" dy=\"-.4em\">limit "
    )
}

// A limit: a line across the picture, and its value.
#[tactic(auto, unfolding(crate::specs::Charts::limit_line))]
fn write_limit_line(
    text: &mut String,
    unit: ChartUnit,
    limit: u64,
    y: u64,
) -> Result<(), AllocError>
    ensures { OnOk result (string_bytes text.new ≡ string_bytes text.old ++ spec.limit_line unit limit y) }
{
    write_limit_head(text, y)?;
    write_value(text, unit, limit)?;
    text.push_str("</text>\n")
}

// What of a curve lies over its limit, and the limit.
#[tactic(auto, unfolding(crate::specs::Charts::limit))]
fn write_limit(text: &mut String, frame: &Frame, entry: &PidCurve) -> Result<(), AllocError>
    ensures { OnOk result (string_bytes text.new ≡ string_bytes text.old ++ spec.limit frame.now entry.now) }
{
    text.push_str("<path class=\"over\" d=\"")?;
    write_overs(
        text,
        frame,
        entry.limit,
        entry.curve.span(),
        entry.curve.slots(),
    )?;
    let y = height_of(frame.top_value(), entry.limit);
    write_limit_line(text, frame.unit, entry.limit, y)
}

// The limit, if there is one.
fn write_limit_if(text: &mut String, frame: &Frame, entry: &PidCurve) -> Result<(), AllocError>
    ensures { OnOk result (string_bytes text.new ≡ string_bytes text.old ++ spec.limit_if frame.now entry.now) }
{
    if entry.limit > 0 {
        write_limit(text, frame, entry)
    } else {
        Ok(())
    }
}

// A curve with values.
#[tactic(auto, unfolding(crate::specs::Charts::values_text))]
fn write_values(
    text: &mut String,
    frame: &Frame,
    labels: &PidLabels,
    class: usize,
    entry: &PidCurve,
) -> Result<(), AllocError>
    ensures { OnOk result (string_bytes text.new
        ≡ string_bytes text.old ++ spec.values_text frame.now labels.now class entry.now) }
{
    write_band(text, frame, class, entry)?;
    write_line(text, frame, labels, class, entry)?;
    write_limit_if(text, frame, entry)
}

// A curve; nothing where no value has come.
fn write_curve(
    text: &mut String,
    frame: &Frame,
    labels: &PidLabels,
    order: &[PidCurve],
    entry: &PidCurve,
) -> Result<(), AllocError>
    ensures { OnOk result (string_bytes text.new
        ≡ string_bytes text.old ++ spec.curve frame.now labels.now order.now entry.now) }
{
    if entry.curve.slots().is_empty() {
        Ok(())
    } else {
        write_values(text, frame, labels, class_of(order, entry.pid), entry)
    }
}

fn write_curves(
    text: &mut String,
    frame: &Frame,
    labels: &PidLabels,
    order: &[PidCurve],
    curves: &[PidCurve],
) -> Result<(), AllocError>
    ensures { OnOk result (string_bytes text.new
        ≡ string_bytes text.old ++ flat_map (spec.curve frame.now labels.now order.now) curves.now) }
{
    for entry in curves {
        write_curve(text, frame, labels, order, entry)?;
    }
    Ok(())
}

/// Appends how a picture begins, with its name.
#[tactic(auto, unfolding(crate::specs::Charts::picture_head))]
pub(crate) fn write_picture_head(text: &mut String, name: &str) -> Result<(), AllocError>
    ensures { OnOk result (string_bytes text.new ≡ string_bytes text.old ++ spec.picture_head name.now) }
{
    write!(
        text,
        "<svg class=\"chart\" viewBox=\"0 -80 9900 2560\" role=\"img\" aria-label=\"{name}\">\n"
    )
}

// The picture itself.
#[tactic(auto, unfolding(crate::specs::Charts::picture))]
fn write_picture(
    text: &mut String,
    name: &str,
    frame: &Frame,
    labels: &PidLabels,
    order: &[PidCurve],
    curves: &[PidCurve],
) -> Result<(), AllocError>
    ensures { OnOk result (string_bytes text.new
        ≡ string_bytes text.old ++ spec.picture name.now frame.now labels.now order.now curves.now) }
{
    write_picture_head(text, name)?;
    frame.write_scales(text)?;
    write_curves(text, frame, labels, order, curves)?;
    text.push_str("</svg>\n")
}

/// Appends a picture of curves: their key, their lines beside their limits, and their numbers as a table; with what
/// each PID carries. The picture has a name for readers that do not see it; each PID has the colour and the dashes of
/// its place in `order`.
pub fn write_chart(
    text: &mut String,
    name: &str,
    frame: &Frame,
    labels: &PidLabels,
    order: &[PidCurve],
    curves: &[PidCurve],
) -> Result<(), AllocError>
    ensures { OnOk result (string_bytes text.new
        ≡ string_bytes text.old ++ spec.chart name.now frame.now labels.now order.now curves.now) }
{
    write_keys(text, frame.unit, labels, order, curves)?;
    write_picture(text, name, frame, labels, order, curves)?;
    write_value_table(text, "PID", frame, curves)
}
