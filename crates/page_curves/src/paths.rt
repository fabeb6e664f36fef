//! A curve as paths: what `d` of an SVG path says.
ghost use Rattle.std.specs.Prelude.{◌≡◌, ◌++◌, ◌<◌, ◌≤◌, OnOk, length, string_bytes};
ghost use Rattle.page_curves.specs.Slots.{slot_at};
ghost use Rattle.page_curves.specs.Paths as spec;
ghost use Rattle.page_curves.specs.Paths.{numbered, numbered_back};

use crate::bounds::Bounds;
use crate::frame::Frame;
use crate::scale::{across, height_of};
use std::alloc::AllocError;
use std::fmt::Write;

// Appends a point of the line of greatest values: lines join all points after the first `M`.
#[tactic(auto, unfolding(crate::specs::Paths::point_of))]
fn write_point(
    text: &mut String,
    frame: &Frame,
    span: u64,
    slot: u64,
    bounds: Option<Bounds>,
) -> Result<(), AllocError>
    requires some { 0 < span }
    requires early { slot < 512 }
    ensures { OnOk result (string_bytes text.new ≡ string_bytes text.old ++ spec.point frame.now span slot bounds) }
{
    match frame.shown(span, slot, bounds) {
        None => Ok(()),
        Some(shown) => {
            let x = across(frame.slots_of(span), slot);
            let y = frame.height(shown.greatest);
            write!(text, " {x} {y}")
        }
    }
}

// Appends a point of the line of least values.
#[tactic(auto, unfolding(crate::specs::Paths::low_of))]
fn write_low(
    text: &mut String,
    frame: &Frame,
    span: u64,
    slot: u64,
    bounds: Option<Bounds>,
) -> Result<(), AllocError>
    requires some { 0 < span }
    requires early { slot < 512 }
    ensures { OnOk result (string_bytes text.new ≡ string_bytes text.old ++ spec.low frame.now span slot bounds) }
{
    match frame.shown(span, slot, bounds) {
        None => Ok(()),
        Some(shown) => {
            let x = across(frame.slots_of(span), slot);
            let y = frame.height(shown.least);
            write!(text, " {x} {y}")
        }
    }
}

// Appends a line from a limit to a value over it, and a mark above that line.
fn write_over_to(
    text: &mut String,
    frame: &Frame,
    limit: u64,
    x: u64,
    greatest: u64,
) -> Result<(), AllocError>
    ensures { OnOk result (string_bytes text.new ≡ string_bytes text.old ++ spec.over_to frame.now limit x greatest) }
{
    let low = height_of(frame.top_value(), limit);
    let high = height_of(frame.top_value(), greatest);
    write!(text, "M{x} {low}V{high}m-35 -80h70l-35 70z")
}

// Appends the part of a slot that lies over a limit.
#[tactic(auto, unfolding(crate::specs::Paths::over))]
fn write_over(
    text: &mut String,
    frame: &Frame,
    limit: u64,
    span: u64,
    slot: u64,
    bounds: Option<Bounds>,
) -> Result<(), AllocError>
    requires some { 0 < span }
    requires early { slot < 512 }
    ensures { OnOk result (string_bytes text.new
        ≡ string_bytes text.old ++ spec.over frame.now limit span slot bounds) }
{
    let Some(bounds) = bounds else {
        return Ok(());
    };
    if bounds.greatest <= limit {
        return Ok(());
    }
    let x = across(frame.slots_of(span), slot);
    write_over_to(text, frame, limit, x, bounds.greatest)
}

/// Appends the points of all slots.
pub fn write_points(
    text: &mut String,
    frame: &Frame,
    span: u64,
    slots: &[Option<Bounds>],
) -> Result<(), AllocError>
    requires some { 0 < span }
    requires few { length slots.now ≤ 512 }
    ensures { OnOk result (string_bytes text.new
        ≡ string_bytes text.old ++ numbered (spec.point frame.now span) 0 slots.now) }
{
    for (slot, bounds) in slots.iter().enumerate() {
        write_point(text, frame, span, slot as u64, *bounds)?;
    }
    Ok(())
}

// Appends the point of a slot on the line of least values.
fn write_low_at(
    text: &mut String,
    frame: &Frame,
    span: u64,
    slots: &[Option<Bounds>],
    slot: usize,
) -> Result<(), AllocError>
    requires some { 0 < span }
    requires few { length slots.now ≤ 512 }
    requires within { slot < length slots.now }
    ensures { OnOk result (string_bytes text.new
        ≡ string_bytes text.old ++ spec.low frame.now span slot (slot_at slots.now slot)) }
{
    write_low(text, frame, span, slot as u64, slots[slot])
}

/// Appends the points of least values of all slots, the last one first.
pub fn write_lows_back(
    text: &mut String,
    frame: &Frame,
    span: u64,
    slots: &[Option<Bounds>],
) -> Result<(), AllocError>
    requires some { 0 < span }
    requires few { length slots.now ≤ 512 }
    ensures { OnOk result (string_bytes text.new
        ≡ string_bytes text.old ++ numbered_back (spec.low frame.now span) 0 slots.now) }
{
    for back in 0..slots.len() {
        write_low_at(text, frame, span, slots, slots.len() - 1 - back)?;
    }
    Ok(())
}

/// Appends the parts of all slots that lie over a limit.
pub fn write_overs(
    text: &mut String,
    frame: &Frame,
    limit: u64,
    span: u64,
    slots: &[Option<Bounds>],
) -> Result<(), AllocError>
    requires some { 0 < span }
    requires few { length slots.now ≤ 512 }
    ensures { OnOk result (string_bytes text.new
        ≡ string_bytes text.old ++ numbered (spec.over frame.now limit span) 0 slots.now) }
{
    for (slot, bounds) in slots.iter().enumerate() {
        write_over(text, frame, limit, span, slot as u64, *bounds)?;
    }
    Ok(())
}
