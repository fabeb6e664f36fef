//! A picture of the bit rates of programs, one upon another.
ghost use Rattle.std.specs.Prelude.{◌≡◌, ◌++◌, OnOk, string_bytes};
ghost use Rattle.page_curves.specs.Paths.{numbered};
ghost use Rattle.page_charts.specs.Stacks as spec;

use crate::chart::{write_picture_head, write_with_unit};
use crate::value_table::write_value_table;
use page_curves::{ChartUnit, Frame, PidCurve, PidLabels, across, write_points, write_service};
use std::alloc::AllocError;
use std::fmt::Write;

// A piece of an area.
#[tactic(auto, unfolding(crate::specs::Stacks::sample))]
fn write_sample(text: &mut String, class: usize) -> Result<(), AllocError>
    ensures { OnOk result (string_bytes text.new ≡ string_bytes text.old ++ spec.sample class) }
{
    write!(
        text,
        "<span><svg class=\"sample\" viewBox=\"0 0 600 120\"><path class=\"area s{class}\" d=\"M0 0H600V120H0z\"/></svg> "
    )
}

#[tactic(auto, unfolding(crate::specs::Stacks::number_text))]
fn write_number(text: &mut String, program: u16) -> Result<(), AllocError>
    ensures { OnOk result (string_bytes text.new ≡ string_bytes text.old ++ spec.number_text program) }
{
    write!(text, "program {program}")
}

/// Appends a program and the name of its service; 0 is none.
pub(crate) fn write_program(
    text: &mut String,
    labels: &PidLabels,
    program: u16,
) -> Result<(), AllocError>
    ensures { OnOk result (string_bytes text.new ≡ string_bytes text.old ++ spec.program_text labels.now program) }
{
    if program == 0 {
        text.push_str("no program")
    } else {
        write_number(text, program)?;
        write_service(text, labels.service_of(program))
    }
}

// What the area of a number says: its program and its greatest bit rate.
#[tactic(auto, unfolding(crate::specs::Stacks::key))]
fn write_key(
    text: &mut String,
    labels: &PidLabels,
    number: usize,
    entry: &PidCurve,
) -> Result<(), AllocError>
    ensures { OnOk result (string_bytes text.new ≡ string_bytes text.old ++ spec.key labels.now number entry.now) }
{
    write_sample(text, number % 16)?;
    write_program(text, labels, entry.pid)?;
    text.push_str(", at most ")?;
    write_with_unit(text, ChartUnit::BitRate, entry.curve.greatest())
}

fn write_each_key(
    text: &mut String,
    labels: &PidLabels,
    curves: &[PidCurve],
) -> Result<(), AllocError>
    ensures { OnOk result (string_bytes text.new
        ≡ string_bytes text.old ++ numbered (spec.key labels.now) 0 curves.now) }
{
    for (number, entry) in curves.iter().enumerate() {
        write_key(text, labels, number, entry)?;
    }
    Ok(())
}

// What all areas say.
#[tactic(auto, unfolding(crate::specs::Stacks::keys))]
fn write_keys(text: &mut String, labels: &PidLabels, curves: &[PidCurve]) -> Result<(), AllocError>
    ensures { OnOk result (string_bytes text.new ≡ string_bytes text.old ++ spec.keys labels.now curves.now) }
{
    text.push_str("<p class=\"key\">")?;
    write_each_key(text, labels, curves)?;
    text.push_str("</p>\n")
}

#[tactic(auto, unfolding(crate::specs::Stacks::area_head))]
fn write_area_head(text: &mut String, class: usize, x: u64) -> Result<(), AllocError>
    ensures { OnOk result (string_bytes text.new ≡ string_bytes text.old ++ spec.area_head class x) }
{
    write!(text, "<path class=\"area s{class}\" d=\"M{x} 2200")
}

// The area of a number, up to its curve's greatest values.
#[tactic(auto, unfolding(crate::specs::Stacks::area))]
fn write_area(
    text: &mut String,
    frame: &Frame,
    number: usize,
    entry: &PidCurve,
) -> Result<(), AllocError>
    ensures { OnOk result (string_bytes text.new ≡ string_bytes text.old ++ spec.area frame.now number entry.now) }
{
    let span = entry.curve.span();
    write_area_head(text, number % 16, across(frame.slots_of(span), 0))?;
    write_points(text, frame, span, entry.curve.slots())?;
    text.push_str("h20V2200z\"/>\n")
}

// The areas of all curves, each drawn over the areas before it.
fn write_areas(text: &mut String, frame: &Frame, curves: &[PidCurve]) -> Result<(), AllocError>
    ensures { OnOk result (string_bytes text.new
        ≡ string_bytes text.old ++ numbered (spec.area frame.now) 0 curves.now) }
{
    for (number, entry) in curves.iter().enumerate() {
        write_area(text, frame, number, entry)?;
    }
    Ok(())
}

// The picture itself: the scales are drawn over the areas.
#[tactic(auto, unfolding(crate::specs::Stacks::picture))]
fn write_picture(
    text: &mut String,
    name: &str,
    frame: &Frame,
    sums: &[PidCurve],
) -> Result<(), AllocError>
    ensures { OnOk result (string_bytes text.new ≡ string_bytes text.old ++ spec.picture name.now frame.now sums.now) }
{
    write_picture_head(text, name)?;
    write_areas(text, frame, sums)?;
    frame.write_scales(text)?;
    text.push_str("</svg>\n")
}

/// Appends a picture of bit rates by program: their key, an area for each program on the areas of all programs after
/// it, up to the greatest of its sums, and its rates as a table. A curve's PID is the number of its program, 0 for no
/// program.
#[tactic(auto, unfolding(crate::specs::Stacks::stack))]
pub fn write_stack(
    text: &mut String,
    name: &str,
    frame: &Frame,
    labels: &PidLabels,
    rates: &[PidCurve],
    sums: &[PidCurve],
) -> Result<(), AllocError>
    ensures { OnOk result (string_bytes text.new
        ≡ string_bytes text.old ++ spec.stack name.now frame.now labels.now rates.now sums.now) }
{
    write_keys(text, labels, rates)?;
    write_picture(text, name, frame, sums)?;
    write_value_table(text, "program", frame, rates)
}
