//! How full a buffer was over time, as a strip.
ghost use Rattle.std.specs.Prelude.{◌≡◌, ◌++◌, ◌<◌, ◌≤◌, OnOk, flat_map, length, string_bytes};
ghost use Rattle.page_curves.specs.Paths.{numbered};
ghost use Rattle.page_charts.specs.Strips as spec;

use page_curves::{Bounds, Curve, Frame, PidCurve, slot_at};
use std::alloc::AllocError;
use std::fmt::Write;

/// The width of a strip, in its units.
pub(crate) const STRIP: u64 = 4_000;

// The levels of a strip: five fifths of the buffer's size, and more than its size.
const LEVELS: [u64; 6] = [1, 2, 3, 4, 5, 6];

// How full a buffer is: 0 if nothing is known, 1 to 5 by fifths of its size, 6 over it.
#[tactic(auto, unfolding(crate::specs::Strips::fullness))]
fn fullness(size: u64, bounds: Option<Bounds>) -> u64
    ensures { result ≡ spec.fullness size bounds }
{
    match bounds {
        None => 0,
        Some(bounds) if bounds.greatest > size => 6,
        Some(bounds) => 1 + bounds.greatest.min(1 << 50) * 5 / (size.min(1 << 50) + 1),
    }
}

// How full the buffer is in the slot before a slot; before the first slot nothing is known.
fn fullness_before(entry: &PidCurve, slot: usize) -> u64
    ensures { result ≡ spec.fullness_before entry.now slot }
{
    if slot == 0 {
        0
    } else {
        fullness(entry.limit, slot_at(entry.curve.slots(), slot - 1))
    }
}

// How full the buffer is in the slot after a slot.
fn fullness_after(entry: &PidCurve, slot: usize) -> u64
    requires { slot < 512 }
    ensures { result ≡ spec.fullness_after entry.now slot }
{
    fullness(entry.limit, slot_at(entry.curve.slots(), slot + 1))
}

// Where a slot begins on a strip.
fn place_of(frame: &Frame, curve: &Curve, slot: u64) -> u64
    ensures { result ≡ spec.place_of frame.now curve.now slot }
{
    let windows = frame.window_count();
    let window = curve.span().saturating_mul(slot).min(windows);
    STRIP * window / windows.max(1)
}

// Where a slot begins slots of one fullness.
fn write_begin(
    text: &mut String,
    frame: &Frame,
    level: u64,
    entry: &PidCurve,
    slot: usize,
) -> Result<(), AllocError>
    requires { slot < 512 }
    ensures { OnOk result (string_bytes text.new
        ≡ string_bytes text.old ++ spec.begin_part frame.now level entry.now slot) }
{
    if fullness_before(entry, slot) == level {
        return Ok(());
    }
    let x = place_of(frame, &entry.curve, slot as u64);
    write!(text, "M{x} 5")
}

// Where a slot ends slots of one fullness.
fn write_end(
    text: &mut String,
    frame: &Frame,
    level: u64,
    entry: &PidCurve,
    slot: usize,
) -> Result<(), AllocError>
    requires { slot < 512 }
    ensures { OnOk result (string_bytes text.new
        ≡ string_bytes text.old ++ spec.end_part frame.now level entry.now slot) }
{
    if fullness_after(entry, slot) == level {
        return Ok(());
    }
    let x = place_of(frame, &entry.curve, slot as u64 + 1);
    write!(text, "H{x}")
}

// What a slot adds to the slots of one fullness.
fn write_part(
    text: &mut String,
    frame: &Frame,
    level: u64,
    entry: &PidCurve,
    slot: usize,
    bounds: Option<Bounds>,
) -> Result<(), AllocError>
    requires { slot < 512 }
    ensures { OnOk result (string_bytes text.new
        ≡ string_bytes text.old ++ spec.part frame.now level entry.now slot bounds) }
{
    if fullness(entry.limit, bounds) != level {
        return Ok(());
    }
    write_begin(text, frame, level, entry, slot)?;
    write_end(text, frame, level, entry, slot)
}

// The slots of one fullness.
fn write_parts(
    text: &mut String,
    frame: &Frame,
    level: u64,
    entry: &PidCurve,
    slots: &[Option<Bounds>],
) -> Result<(), AllocError>
    requires { length slots.now ≤ 512 }
    ensures { OnOk result (string_bytes text.new
        ≡ string_bytes text.old ++ numbered (spec.part frame.now level entry.now) 0 slots.now) }
{
    for (slot, bounds) in slots.iter().enumerate() {
        write_part(text, frame, level, entry, slot, *bounds)?;
    }
    Ok(())
}

// The path of one fullness.
#[tactic(auto, unfolding(crate::specs::Strips::level_path))]
fn write_level(
    text: &mut String,
    frame: &Frame,
    entry: &PidCurve,
    level: u64,
) -> Result<(), AllocError>
    ensures { OnOk result (string_bytes text.new ≡ string_bytes text.old ++ spec.level_path frame.now entry.now level) }
{
    write!(text, "<path class=\"f{level}\" d=\"")?;
    write_parts(text, frame, level, entry, entry.curve.slots())?;
    text.push_str("\"/>")
}

fn write_levels(
    text: &mut String,
    frame: &Frame,
    entry: &PidCurve,
    levels: &[u64],
) -> Result<(), AllocError>
    ensures { OnOk result (string_bytes text.new
        ≡ string_bytes text.old ++ flat_map (spec.level_path frame.now entry.now) levels.now) }
{
    for level in levels {
        write_level(text, frame, entry, *level)?;
    }
    Ok(())
}

/// Appends the cell of how full a buffer was, whose size is the limit of its curve.
#[tactic(auto, unfolding(crate::specs::Strips::strip))]
pub(crate) fn write_strip(
    text: &mut String,
    frame: &Frame,
    entry: &PidCurve,
) -> Result<(), AllocError>
    ensures { OnOk result (string_bytes text.new ≡ string_bytes text.old ++ spec.strip frame.now entry.now) }
{
    text.push_str(
        "<td><svg class=\"strip\" viewBox=\"0 0 4000 10\" preserveAspectRatio=\"none\" role=\"img\" aria-label=\"fullness over time\">",
    )?;
    write_levels(text, frame, entry, &LEVELS)?;
    text.push_str("</svg>\n")
}
