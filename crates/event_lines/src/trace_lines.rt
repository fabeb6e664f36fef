//! The lines of what a buffer held near its greatest excess.
ghost use Rattle.std.specs.Prelude.{◌≡◌, ◌++◌, OnOk, flat_map, string_bytes};
ghost use Rattle.event_lines.specs.ReportLines.{field_text};
ghost use Rattle.event_lines.specs.TraceLines as spec;

use crate::lines::{number, word, write_field, write_fields, write_line};
use events::TracePoint;
use std::alloc::AllocError;

// A number for whether a unit begins.
fn flag(begins: bool) -> u128
    ensures { result ≡ spec.flag begins }
{
    if begins { 1 } else { 0 }
}

// Where and when bytes enter the buffer.
fn write_place(text: &mut String, json: bool, e: &TracePoint) -> Result<(), AllocError>
    ensures { OnOk result (string_bytes text.new ≡ string_bytes text.old ++ spec.place_line json e.now) }
{
    let fields = [
        number("pid", u128::from(e.pid)),
        word("buffer", e.buffer.word()),
        number("packet", u128::from(e.packet)),
        number("left", e.left),
    ];
    write_line(text, json, "fault_trace", &fields)
}

// The bytes in the buffer.
fn write_bytes(text: &mut String, json: bool, e: &TracePoint) -> Result<(), AllocError>
    ensures { OnOk result (string_bytes text.new
        ≡ string_bytes text.old ++ flat_map (field_text json) (spec.byte_fields e.now)) }
{
    let fields = [
        number("most", e.most),
        number("size", u128::from(e.size)),
        number("peak", e.peak),
        number("begins", flag(e.begins)),
    ];
    write_fields(text, json, &fields)
}

// The least, if it is known.
#[tactic(auto, unfolding(crate::specs::TraceLines::least_text))]
fn write_least(text: &mut String, json: bool, least: Option<u64>) -> Result<(), AllocError>
    ensures { OnOk result (string_bytes text.new ≡ string_bytes text.old ++ spec.least_text json least) }
{
    match least {
        None => Ok(()),
        Some(least) => write_field(text, json, &number("least", u128::from(least))),
    }
}

/// Appends `fault_trace`.
pub(crate) fn write_trace(text: &mut String, json: bool, e: &TracePoint) -> Result<(), AllocError>
    ensures { OnOk result (string_bytes text.new ≡ string_bytes text.old ++ spec.trace_line json e.now) }
{
    write_place(text, json, e)?;
    write_bytes(text, json, e)?;
    write_least(text, json, e.least)
}
