//! The line that reports on an output.
ghost use Rattle.std.specs.Prelude.{◌≡◌, ◌++◌, IfOk, OnOk, string_bytes};
ghost use Rattle.devices.specs.Devices.{writes};
ghost use Rattle.tsremux_cli.specs.Lines as spec;

use crate::figures::{Figures, UnkeptFrames};
use counted_io::Sink;
use devices::report_text;
use std::alloc::{AllocError, Global};
use std::fmt::Write;

// Returns the length of an output, in tenths of a second.
fn tenths_of(figures: Figures) -> u128
    ensures { result ≡ spec.tenths_of figures }
{
    u128::from(figures.packets) * 15_040 / u128::from(figures.rate.max(1))
}

// Appends a length in tenths of a second.
fn write_time(text: &mut String, tenths: u128) -> Result<(), AllocError>
    ensures { OnOk result (string_bytes text.new ≡ string_bytes text.old ++ spec.time_text tenths) }
{
    let (seconds, tenth) = (tenths / 10, tenths % 10);
    write!(text, "{seconds}.{tenth} s, ")
}

// Appends the figures of an output.
fn write_figures(text: &mut String, figures: Figures) -> Result<(), AllocError>
    ensures { OnOk result (string_bytes text.new ≡ string_bytes text.old ++ spec.figures_text figures) }
{
    let Figures { rate, packets, .. } = figures;
    write!(text, ": {rate} bit/s, ")?;
    write_time(text, tenths_of(figures))?;
    write!(text, "{packets} packets")
}

// Appends the number of further streams, if there are any.
fn write_others(text: &mut String, others: usize) -> Result<(), AllocError>
    ensures { OnOk result (string_bytes text.new ≡ string_bytes text.old ++ spec.others_text others) }
{
    if others == 0 {
        return Ok(());
    }
    write!(text, " and {others} more")
}

// Appends the exception of streams of sound that leave their main buffers in units with several frames.
fn write_unkept(text: &mut String, unkept: UnkeptFrames) -> Result<(), AllocError>
    ensures { OnOk result (string_bytes text.new ≡ string_bytes text.old ++ spec.unkept_text unkept) }
{
    let UnkeptFrames { pid, others } = unkept;
    write!(text, " but perhaps main of pid {pid}")?;
    write_others(text, others)?;
    text.push_str(", frame by frame")
}

// Appends the exception of such streams, if there are any.
#[tactic(auto, unfolding(crate::specs::Lines::exception_text))]
fn write_exception(text: &mut String, unkept: Option<UnkeptFrames>) -> Result<(), AllocError>
    ensures { OnOk result (string_bytes text.new ≡ string_bytes text.old ++ spec.exception_text unkept) }
{
    match unkept {
        None => Ok(()),
        Some(unkept) => write_unkept(text, unkept),
    }
}

// Appends the promises that the packets of an output keep.
fn write_held(text: &mut String, unkept: Option<UnkeptFrames>) -> Result<(), AllocError>
    ensures { OnOk result (string_bytes text.new ≡ string_bytes text.old ++ spec.held_text unkept) }
{
    text.push_str(": every accepted unit by its DTS, no buffer over its size")?;
    write_exception(text, unkept)?;
    text.push_str("\n")
}

// Returns the line about the output of this name: its rate, length and packets, and the promises that they keep.
fn held_line(alloc: Global, name: &str, figures: Figures) -> Result<String, AllocError>
    ensures { IfOk result (λ text. string_bytes text ≡ spec.held_line name.now figures) }
{
    let mut text = String::new(alloc);
    text.push_str(name)?;
    write_figures(&mut text, figures)?;
    write_held(&mut text, figures.unkept)?;
    Ok(text)
}

/// Reports the figures and promises of the output of this name, unless only refusals are reported or memory runs out.
pub(crate) fn report_held<E: Sink>(
    alloc: Global,
    quiet: bool,
    name: &str,
    figures: Figures,
    faults: &mut E,
)
    ensures { spec.ReportsHeld quiet name.now figures (writes E.Sink faults.old faults.new) }
{
    if quiet {
        return;
    }
    if let Ok(text) = held_line(alloc, name, figures) {
        report_text(faults, text.as_str());
    }
}
