//! What PIDs carry, by their events in windows.
ghost use Rattle.std.specs.Prelude.{◌≡◌, OnOk, option_map, string_bytes};
ghost use Rattle.view_rows.specs.PageLabels as spec;

use crate::html_text::html_text;
use events::{Event, WindowFigures};
use page_curves::{PidLabels, PidProgram};
use std::alloc::{AllocError, Global};

// Takes the name of a program's service, if it is known.
#[tactic(auto, unfolding(crate::specs::PageLabels::with_name))]
fn take_name(
    alloc: Global,
    labels: &mut PidLabels,
    program: u16,
    name: &Option<String>,
) -> Result<(), AllocError>
    ensures { OnOk result (labels.new ≡ spec.with_name program (option_map string_bytes name.now) labels.old) }
{
    match name {
        None => Ok(()),
        Some(name) => labels.take_service(program, html_text(alloc, name.as_str())?),
    }
}

// Takes what a PID of a program carries, and the name of the program's service.
fn take_named(
    alloc: Global,
    labels: &mut PidLabels,
    window: &WindowFigures,
    program: u16,
) -> Result<(), AllocError>
    ensures { OnOk result (labels.new ≡ spec.with_named labels.old window.now program) }
{
    let carried = PidProgram {
        program,
        name: window.coding,
    };
    labels.take(window.pid, carried)?;
    take_name(alloc, labels, program, &window.service)
}

// Takes what a PID carries, by its figures in a window.
fn take_window(
    alloc: Global,
    labels: &mut PidLabels,
    window: &WindowFigures,
) -> Result<(), AllocError>
    ensures { OnOk result (labels.new ≡ spec.with_window labels.old window.now) }
{
    labels.take_pid(window.pid, window.coding)?;
    let program = window.program.unwrap_or(0);
    if program == 0 {
        Ok(())
    } else {
        take_named(alloc, labels, window, program)
    }
}

/// Takes an event.
#[tactic(auto, unfolding(crate::specs::PageLabels::with_event))]
pub fn take_label(alloc: Global, labels: &mut PidLabels, event: &Event) -> Result<(), AllocError>
    ensures { OnOk result (labels.new ≡ spec.with_event labels.old event.now) }
{
    match event {
        Event::Window(window) => take_window(alloc, labels, window),
        _ => Ok(()),
    }
}
