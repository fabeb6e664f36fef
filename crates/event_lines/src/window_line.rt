//! The line of a PID in a window, which alone has fields that may be left out, and a text.
ghost use Rattle.std.specs.Prelude.{◌≡◌, ◌++◌, OnOk, flat_map, option_map, string_bytes};
ghost use Rattle.event_lines.specs.EventLines as spec;
ghost use Rattle.event_lines.specs.ReportLines.{field_text};

use crate::lines::{
    number, word, write_field, write_fields, write_first, write_name, write_quoted,
};
use events::WindowFigures;
use std::alloc::{AllocError, Global};

fn write_counts(text: &mut String, json: bool, window: &WindowFigures) -> Result<(), AllocError>
    ensures { OnOk result (string_bytes text.new
        ≡ string_bytes text.old ++ flat_map (field_text json) (spec.count_fields window.now)) }
{
    let fields = [
        number("number", u128::from(window.number)),
        number("pid", u128::from(window.pid)),
        number("packets", u128::from(window.packets)),
        number("pcrs", u128::from(window.pcrs)),
        number("rate", window.rate),
    ];
    write_fields(text, json, &fields)
}

#[tactic(auto, unfolding(crate::specs::EventLines::program_text))]
fn write_program(text: &mut String, json: bool, program: Option<u16>) -> Result<(), AllocError>
    ensures { OnOk result (string_bytes text.new ≡ string_bytes text.old ++ spec.program_text json program) }
{
    match program {
        None => Ok(()),
        Some(program) => write_field(text, json, &number("program", u128::from(program))),
    }
}

#[tactic(auto, unfolding(crate::specs::EventLines::service_text))]
fn write_service(
    alloc: Global,
    text: &mut String,
    json: bool,
    name: &Option<String>,
) -> Result<(), AllocError>
    ensures { OnOk result (string_bytes text.new
        ≡ string_bytes text.old ++ spec.service_text json (option_map string_bytes name.now)) }
{
    match name {
        None => Ok(()),
        Some(name) => {
            write_name(text, json, "service")?;
            write_quoted(alloc, text, name.as_str())
        }
    }
}

// What the PID carries.
fn write_label(
    alloc: Global,
    text: &mut String,
    json: bool,
    window: &WindowFigures,
) -> Result<(), AllocError>
    ensures { OnOk result (string_bytes text.new ≡ string_bytes text.old ++ spec.label_text json window.now) }
{
    write_program(text, json, window.program)?;
    write_field(text, json, &word("coding", window.coding.line_word()))?;
    write_service(alloc, text, json, &window.service)
}

/// Appends `window`, without its end.
pub(crate) fn write_window(
    alloc: Global,
    text: &mut String,
    json: bool,
    window: &WindowFigures,
) -> Result<(), AllocError>
    ensures { OnOk result (string_bytes text.new ≡ string_bytes text.old ++ spec.window_line json window.now) }
{
    write_first(text, json, "window")?;
    write_counts(text, json, window)?;
    write_label(alloc, text, json, window)
}
