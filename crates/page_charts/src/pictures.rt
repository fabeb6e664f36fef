//! The title, the scale and the size of a picture.
ghost use Rattle.std.specs.Prelude.{◌≡◌, ◌++◌, OnOk, string_bytes};
ghost use Rattle.page_charts.specs.Pictures as spec;

use crate::points::{drawn, height_of};
use events::TracePoint;
use page_curves::{PidLabels, write_grouped, write_label};
use std::alloc::AllocError;
use std::fmt::Write;

#[tactic(auto, unfolding(crate::specs::Pictures::title_head))]
fn write_title_head(text: &mut String, pid: u16, word: &str) -> Result<(), AllocError>
    ensures { OnOk result (string_bytes text.new ≡ string_bytes text.old ++ spec.title_head pid word.now) }
{
    write!(text, "<details id=trace-{pid}-{word}><summary>PID {pid} ")
}

#[tactic(auto, unfolding(crate::specs::Pictures::title_word))]
fn write_title_word(text: &mut String, word: &str) -> Result<(), AllocError>
    ensures { OnOk result (string_bytes text.new ≡ string_bytes text.old ++ spec.title_word word.now) }
{
    write!(text, ", {word} buffer: at most ")
}

// Appends the size of the buffer, at the end of the title.
#[tactic(auto, unfolding(crate::specs::Pictures::title_size))]
fn write_title_size(text: &mut String, size: u64) -> Result<(), AllocError>
    ensures { OnOk result (string_bytes text.new ≡ string_bytes text.old ++ spec.title_size size) }
{
    write_grouped(text, drawn(u128::from(size)))?;
    text.push_str(" bytes</summary>\n")
}

// Appends the most bytes that the buffer held, and its size.
#[tactic(auto, unfolding(crate::specs::Pictures::title_bytes))]
fn write_title_bytes(text: &mut String, point: &TracePoint) -> Result<(), AllocError>
    ensures { OnOk result (string_bytes text.new ≡ string_bytes text.old ++ spec.title_bytes point.now) }
{
    write_grouped(text, drawn(point.peak))?;
    text.push_str(" of ")?;
    write_title_size(text, point.size)
}

// Appends the name of the buffer, and the most bytes that it held.
#[tactic(auto, unfolding(crate::specs::Pictures::title))]
fn write_title(text: &mut String, labels: &PidLabels, point: &TracePoint) -> Result<(), AllocError>
    ensures { OnOk result (string_bytes text.new ≡ string_bytes text.old ++ spec.title labels.now point.now) }
{
    write_title_head(text, point.pid, point.buffer.word())?;
    write_label(text, labels, point.pid)?;
    write_title_word(text, point.buffer.word())?;
    write_title_bytes(text, point)
}

#[tactic(auto, unfolding(crate::specs::Pictures::picture_head))]
fn write_head(text: &mut String, pid: u16, word: &str) -> Result<(), AllocError>
    ensures { OnOk result (string_bytes text.new ≡ string_bytes text.old ++ spec.picture_head pid word.now) }
{
    write!(
        text,
        "<svg class=\"chart\" viewBox=\"0 -80 9900 2560\" role=\"img\" aria-label=\"bytes in the {word} buffer of PID {pid}, packet by packet\">\n"
    )
}

#[tactic(auto, unfolding(crate::specs::Pictures::level_head))]
fn write_level_head(text: &mut String, y: u64) -> Result<(), AllocError>
    ensures { OnOk result (string_bytes text.new ≡ string_bytes text.old ++ spec.level_head y) }
{
    write!(
        text,
        "<path class=\"grid\" d=\"M900 {y}H9500\"/><text class=\"end\" x=\"840\" y=\"{y}\" dy=\".35em\">"
    )
}

// Appends a line across the picture, with its number of bytes.
#[tactic(auto, unfolding(crate::specs::Pictures::level))]
fn write_level(text: &mut String, y: u64, value: u128) -> Result<(), AllocError>
    ensures { OnOk result (string_bytes text.new ≡ string_bytes text.old ++ spec.level y value) }
{
    write_level_head(text, y)?;
    write_grouped(text, drawn(value))?;
    text.push_str("</text>\n")
}

#[tactic(auto, unfolding(crate::specs::Pictures::limit_head))]
fn write_limit_head(text: &mut String, y: u64) -> Result<(), AllocError>
    ensures { OnOk result (string_bytes text.new ≡ string_bytes text.old ++ spec.limit_head y) }
{
    write!(
        text,
        "<path class=\"limit\" d=\"M900 {y}H9500\"/><text class=\"end\" x=\"9490\" y=\"{y}\" dy=\"-.4em\">size "
    )
}

// Appends the line of the size of the buffer.
#[tactic(auto, unfolding(crate::specs::Pictures::limit))]
fn write_limit(text: &mut String, y: u64, size: u64) -> Result<(), AllocError>
    ensures { OnOk result (string_bytes text.new ≡ string_bytes text.old ++ spec.limit y size) }
{
    write_limit_head(text, y)?;
    write_grouped(text, drawn(u128::from(size)))?;
    text.push_str("</text>\n")
}

// Appends the scale: the lines of 0 bytes, and of the most bytes that the buffer held.
#[tactic(auto, unfolding(crate::specs::Pictures::levels))]
fn write_levels(text: &mut String, point: &TracePoint) -> Result<(), AllocError>
    ensures { OnOk result (string_bytes text.new ≡ string_bytes text.old ++ spec.levels point.now) }
{
    write_level(text, 2_200, 0)?;
    write_level(text, 200, point.peak)?;
    text.push_str("<text class=\"end\" x=\"840\" y=\"30\">bytes</text>\n")
}

// Appends the line of all packets.
fn write_line(text: &mut String, line: &str) -> Result<(), AllocError>
    ensures { OnOk result (string_bytes text.new ≡ string_bytes text.old ++ spec.line_text line.now) }
{
    write!(text, "<path class=\"line s0\" d=\"M{line}\"/>\n")
}

// Appends the size of the buffer, and the end of the picture.
#[tactic(auto, unfolding(crate::specs::Pictures::limit_end))]
fn write_limit_end(text: &mut String, point: &TracePoint) -> Result<(), AllocError>
    ensures { OnOk result (string_bytes text.new ≡ string_bytes text.old ++ spec.limit_end point.now) }
{
    let size = u128::from(point.size);
    write_limit(text, height_of(point.peak, size), point.size)?;
    text.push_str("</svg>\n")
}

// Appends the line of all packets, and the size of the buffer.
#[tactic(auto, unfolding(crate::specs::Pictures::curve))]
fn write_curve(text: &mut String, point: &TracePoint, line: &str) -> Result<(), AllocError>
    ensures { OnOk result (string_bytes text.new ≡ string_bytes text.old ++ spec.curve point.now line.now) }
{
    write_line(text, line)?;
    write_limit_end(text, point)
}

// Appends the picture itself.
#[tactic(auto, unfolding(crate::specs::Pictures::drawing))]
fn write_drawing(
    text: &mut String,
    point: &TracePoint,
    line: &str,
    marks: &str,
) -> Result<(), AllocError>
    ensures { OnOk result (string_bytes text.new ≡ string_bytes text.old ++ spec.drawing point.now line.now marks.now) }
{
    write_head(text, point.pid, point.buffer.word())?;
    write_levels(text, point)?;
    text.push_str(marks)?;
    write_curve(text, point, line)
}

// Appends the numbers as a table, at the end of the picture's fold.
#[tactic(auto, unfolding(crate::specs::Pictures::numbers))]
fn write_numbers(text: &mut String, rows: &str) -> Result<(), AllocError>
    ensures { OnOk result (string_bytes text.new ≡ string_bytes text.old ++ spec.numbers rows.now) }
{
    text.push_str(
        "<details><summary>Numbers</summary><div class=\"wide tall\"><table><tr><th scope=col>packet<th scope=col>left the transport buffer, ticks<th scope=col>least<th scope=col>most<th scope=col>unit\n",
    )?;
    text.push_str(rows)?;
    text.push_str("</table></div></details></details>\n")
}

/// Appends a picture of the buffer of a point, by the line, the marks, and the rows of its packets.
#[tactic(auto, unfolding(crate::specs::Pictures::picture))]
pub(crate) fn write_picture(
    text: &mut String,
    labels: &PidLabels,
    point: &TracePoint,
    line: &str,
    marks: &str,
    rows: &str,
) -> Result<(), AllocError>
    ensures { OnOk result (string_bytes text.new
        ≡ string_bytes text.old ++ spec.picture labels.now point.now line.now marks.now rows.now) }
{
    write_title(text, labels, point)?;
    write_drawing(text, point, line, marks)?;
    write_numbers(text, rows)
}
