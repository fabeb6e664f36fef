//! A table of strips: how full each buffer was, by program, on one scale of times.
ghost use Rattle.std.specs.Prelude.{◌≡◌, ◌++◌, ◌<◌, OnOk, flat_map, length, string_bytes};
ghost use Rattle.std.specs.List.{list_any};
ghost use Rattle.page_curves.specs.Paths.{numbered};
ghost use Rattle.page_charts.specs.StripTables as spec;

use crate::strip::{STRIP, write_strip};
use page_curves::{Frame, PidCurve, PidLabels, TimeUnit, step_for, write_grouped, write_service};
use std::alloc::AllocError;
use std::fmt::Write;

// The numbers of steps of the scale of times that have a line, if the scale is that long.
const STEP_COUNTS: [u64; 7] = [0, 1, 2, 3, 4, 5, 6];

#[tactic(auto, unfolding(crate::specs::StripTables::axis_line))]
fn write_axis_line(text: &mut String, x: u64) -> Result<(), AllocError>
    ensures { OnOk result (string_bytes text.new ≡ string_bytes text.old ++ spec.axis_line x) }
{
    write!(
        text,
        "<path class=\"grid\" d=\"M{x} 0V160\"/><text dx=\"-20\" x=\"{x}\" y=\"125\">"
    )
}

// A moment of the scale of times.
#[tactic(auto, unfolding(crate::specs::StripTables::axis_text))]
fn write_axis_text(text: &mut String, x: u64, moment: u64, unit: TimeUnit) -> Result<(), AllocError>
    ensures { OnOk result (string_bytes text.new ≡ string_bytes text.old ++ spec.axis_text x moment unit) }
{
    let name = unit.name();
    let count = moment / unit.millis();
    write_axis_line(text, x)?;
    write!(text, "{count} {name}</text>")
}

// The line after a number of steps of the scale of times, if the scale is that long.
fn write_axis_step(text: &mut String, frame: &Frame, count: u64) -> Result<(), AllocError>
    ensures { OnOk result (string_bytes text.new ≡ string_bytes text.old ++ spec.axis_step frame.now count) }
{
    let length = frame.length();
    let step = step_for(length);
    let moment = step * count.min(6);
    if moment > length {
        return Ok(());
    }
    let x = STRIP * moment / length.max(1);
    write_axis_text(text, x, moment, TimeUnit::of_step(step))
}

fn write_axis_steps(text: &mut String, frame: &Frame, counts: &[u64]) -> Result<(), AllocError>
    ensures { OnOk result (string_bytes text.new
        ≡ string_bytes text.old ++ flat_map (spec.axis_step frame.now) counts.now) }
{
    for count in counts {
        write_axis_step(text, frame, *count)?;
    }
    Ok(())
}

// The head of the table, with the scale of times.
#[tactic(auto, unfolding(crate::specs::StripTables::head))]
fn write_head(text: &mut String, frame: &Frame) -> Result<(), AllocError>
    ensures { OnOk result (string_bytes text.new ≡ string_bytes text.old ++ spec.head frame.now) }
{
    text.push_str(
        "<div class=\"wide\"><table class=\"strips\" aria-labelledby=over-time><tr><th class=word scope=col>stream<th class=word scope=col>buffer<th scope=col>most<th scope=col>size<th scope=col><svg class=\"axis\" viewBox=\"0 0 4000 160\" role=\"img\" aria-label=\"time\">",
    )?;
    write_axis_steps(text, frame, &STEP_COUNTS)?;
    text.push_str("</svg>\n")
}

// How the cell of a number begins.
fn most_head(over: bool) -> &'static str
    ensures { result.now ≡ spec.most_head over }
{
    if over {
        "<td class=\"bad\">&#9650; "
    } else {
        "<td>"
    }
}

// The most bytes of a buffer, marked if they exceed its size.
fn write_most(text: &mut String, most: u64, size: u64) -> Result<(), AllocError>
    ensures { OnOk result (string_bytes text.new ≡ string_bytes text.old ++ spec.most_cells most size) }
{
    text.push_str(most_head(most > size))?;
    write_grouped(text, most)?;
    text.push_str("<td>")?;
    write_grouped(text, size)
}

// The stream and the name of a buffer.
#[tactic(auto, unfolding(crate::specs::StripTables::name_cells))]
fn write_names(text: &mut String, buffer: &str, entry: &PidCurve) -> Result<(), AllocError>
    ensures { OnOk result (string_bytes text.new ≡ string_bytes text.old ++ spec.name_cells buffer.now entry.now) }
{
    let pid = entry.pid;
    let word = entry.name.word();
    write!(
        text,
        "<tr><th class=word scope=row>PID {pid} {word}<td class=word>{buffer}"
    )
}

// The row of a buffer.
fn write_row(
    text: &mut String,
    frame: &Frame,
    buffer: &str,
    entry: &PidCurve,
) -> Result<(), AllocError>
    ensures { OnOk result (string_bytes text.new ≡ string_bytes text.old ++ spec.row frame.now buffer.now entry.now) }
{
    write_names(text, buffer, entry)?;
    write_most(text, entry.curve.greatest(), entry.limit)?;
    write_strip(text, frame, entry)
}

// The row of the main buffer of a stream.
fn write_main_if(
    text: &mut String,
    frame: &Frame,
    pid: u16,
    main: &PidCurve,
) -> Result<(), AllocError>
    ensures { OnOk result (string_bytes text.new ≡ string_bytes text.old ++ spec.main_if frame.now pid main.now) }
{
    if main.pid == pid {
        write_row(text, frame, "main", main)
    } else {
        Ok(())
    }
}

fn write_main(
    text: &mut String,
    frame: &Frame,
    pid: u16,
    mains: &[PidCurve],
) -> Result<(), AllocError>
    ensures { OnOk result (string_bytes text.new
        ≡ string_bytes text.old ++ flat_map (spec.main_if frame.now pid) mains.now) }
{
    for main in mains {
        write_main_if(text, frame, pid, main)?;
    }
    Ok(())
}

// The rows of a stream, if it is of a program.
fn write_stream_if(
    text: &mut String,
    frame: &Frame,
    labels: &PidLabels,
    mains: &[PidCurve],
    program: u16,
    entry: &PidCurve,
) -> Result<(), AllocError>
    ensures { OnOk result (string_bytes text.new
        ≡ string_bytes text.old ++ spec.stream_if frame.now labels.now mains.now program entry.now) }
{
    if is_of(labels, program, entry) {
        write_row(text, frame, "transport", entry)?;
        write_main(text, frame, entry.pid, mains)
    } else {
        Ok(())
    }
}

fn write_streams(
    text: &mut String,
    frame: &Frame,
    labels: &PidLabels,
    mains: &[PidCurve],
    program: u16,
    transports: &[PidCurve],
) -> Result<(), AllocError>
    ensures { OnOk result (string_bytes text.new
        ≡ string_bytes text.old ++ flat_map (spec.stream_if frame.now labels.now mains.now program) transports.now) }
{
    for entry in transports {
        write_stream_if(text, frame, labels, mains, program, entry)?;
    }
    Ok(())
}

#[tactic(auto, unfolding(crate::specs::StripTables::program_head))]
fn write_program_head(text: &mut String, program: u16) -> Result<(), AllocError>
    ensures { OnOk result (string_bytes text.new ≡ string_bytes text.old ++ spec.program_head program) }
{
    write!(
        text,
        "<tr><th class=word scope=rowgroup colspan=5>program {program}"
    )
}

// The row that names a program; 0 is none.
#[tactic(auto, unfolding(crate::specs::StripTables::program_row))]
fn write_program(text: &mut String, labels: &PidLabels, program: u16) -> Result<(), AllocError>
    ensures { OnOk result (string_bytes text.new ≡ string_bytes text.old ++ spec.program_row labels.now program) }
{
    write_program_head(text, program)?;
    write_service(text, labels.service_of(program))?;
    text.push_str("\n")
}

// Whether a stream belongs to a program.
fn is_of(labels: &PidLabels, program: u16, entry: &PidCurve) -> bool
    ensures { result ≡ spec.is_of labels.now program entry.now }
{
    labels.program_number(entry.pid) == program
}

// Whether a stream of a list belongs to a program.
fn has_program(labels: &PidLabels, transports: &[PidCurve], program: u16) -> bool
    ensures { result ≡ list_any (spec.is_of labels.now program) transports.now }
{
    transports.iter().any(|entry| is_of(labels, program, entry))
}

// The rows of a program.
fn write_group(
    text: &mut String,
    frame: &Frame,
    labels: &PidLabels,
    transports: &[PidCurve],
    mains: &[PidCurve],
    program: u16,
) -> Result<(), AllocError>
    ensures { OnOk result (string_bytes text.new
        ≡ string_bytes text.old ++ spec.group_of frame.now labels.now transports.now mains.now program) }
{
    write_program(text, labels, program)?;
    write_streams(text, frame, labels, mains, program, transports)
}

// The rows of the program of a stream, unless a stream before it is of the same.
#[tactic(auto, unfolding(crate::specs::StripTables::group_if))]
fn write_group_if(
    text: &mut String,
    frame: &Frame,
    labels: &PidLabels,
    transports: &[PidCurve],
    mains: &[PidCurve],
    number: usize,
    entry: &PidCurve,
) -> Result<(), AllocError>
    requires { number < length transports.now }
    ensures { OnOk result (string_bytes text.new
        ≡ string_bytes text.old ++ spec.group_if frame.now labels.now transports.now mains.now number entry.now) }
{
    let program = labels.program_number(entry.pid);
    if has_program(labels, &transports[..number], program) {
        return Ok(());
    }
    write_group(text, frame, labels, transports, mains, program)
}

// The rows of all programs.
fn write_groups(
    text: &mut String,
    frame: &Frame,
    labels: &PidLabels,
    transports: &[PidCurve],
    mains: &[PidCurve],
) -> Result<(), AllocError>
    ensures { OnOk result (string_bytes text.new
        ≡ string_bytes text.old
        ++ numbered (spec.group_if frame.now labels.now transports.now mains.now) 0 transports.now) }
{
    for (number, entry) in transports.iter().enumerate() {
        write_group_if(text, frame, labels, transports, mains, number, entry)?;
    }
    Ok(())
}

/// Appends a table of how full the transport buffer and the main buffer of each stream were, whose sizes are the limits
/// of their curves: a row a buffer, by program, on one scale of times.
#[tactic(auto, unfolding(crate::specs::StripTables::table))]
pub fn write_strips(
    text: &mut String,
    frame: &Frame,
    labels: &PidLabels,
    transports: &[PidCurve],
    mains: &[PidCurve],
) -> Result<(), AllocError>
    ensures { OnOk result (string_bytes text.new
        ≡ string_bytes text.old ++ spec.table frame.now labels.now transports.now mains.now) }
{
    write_head(text, frame)?;
    write_groups(text, frame, labels, transports, mains)?;
    text.push_str("</table></div>\n")
}
