//! The tables of faults, with links to the pictures of their buffers.
ghost use Rattle.std.specs.Prelude.{◌≡◌, ◌++◌, OnOk, flat_map, string_bytes};
ghost use Rattle.view_page.specs.FaultTables as spec;

use page_charts::TracePictures;
use std::alloc::AllocError;
use view_rows::{FaultBuffer, FaultRow};

// A link to the picture of a buffer, if there is one.
#[tactic(auto, unfolding(crate::specs::FaultTables::link))]
fn write_link(
    text: &mut String,
    traces: &TracePictures,
    buffer: Option<FaultBuffer>,
) -> Result<(), AllocError>
    ensures { OnOk result (string_bytes text.new ≡ string_bytes text.old ++ spec.link traces.now buffer) }
{
    match buffer {
        None => Ok(()),
        Some(buffer) => traces.write_link(text, buffer.pid, buffer.kind),
    }
}

// The row of a fault.
#[tactic(auto, unfolding(crate::specs::FaultTables::fault_row))]
fn write_row(text: &mut String, traces: &TracePictures, row: &FaultRow) -> Result<(), AllocError>
    ensures { OnOk result (string_bytes text.new ≡ string_bytes text.old ++ spec.fault_row traces.now row.now) }
{
    text.push_str(row.cells.as_str())?;
    write_link(text, traces, row.buffer)?;
    text.push_str("\n")
}

// The rows of faults.
fn write_rows(
    text: &mut String,
    traces: &TracePictures,
    rows: &[FaultRow],
) -> Result<(), AllocError>
    ensures { OnOk result (string_bytes text.new
        ≡ string_bytes text.old ++ flat_map (spec.fault_row traces.now) rows.now) }
{
    for row in rows {
        write_row(text, traces, row)?;
    }
    Ok(())
}

/// Appends a table of faults: its head and its rows.
pub(crate) fn write_fault_table(
    text: &mut String,
    head: &str,
    traces: &TracePictures,
    rows: &[FaultRow],
) -> Result<(), AllocError>
    ensures { OnOk result (string_bytes text.new
        ≡ string_bytes text.old ++ (head.now ++ flat_map (spec.fault_row traces.now) rows.now)) }
{
    text.push_str(head)?;
    write_rows(text, traces, rows)
}
