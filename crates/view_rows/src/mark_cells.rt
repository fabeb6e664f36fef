//! The table of the marks of units: its head, and the cells of a row.
ghost use Rattle.std.specs.Prelude.{◌≡◌};
ghost use Rattle.view_rows.specs.MarkCells as spec;

use crate::cells::{Cell, CellUnit};
use events::MarkTotals;

const MARKS: &str =
    "</table></div><h2 id=marks>Random access</h2><div class=\"wide\"><table aria-labelledby=marks><tr><th scope=col>PID<th class=word scope=col>carries<th scope=col>units<th scope=col>random access points<th scope=col>greatest distance, ms<th scope=col>aligned\n";

/// Returns the head of the table.
#[tactic(auto, unfolding(crate::specs::MarkCells::marks_text))]
pub fn marks_text() -> &'static str
    ensures { result.now ≡ spec.marks_text }
{
    MARKS
}

/// Returns the cells of the marks of a stream's units.
pub(crate) fn mark_cells(e: &MarkTotals) -> [Cell; 6]
    ensures { result ≡ spec.mark_cells e.now }
{
    [
        Cell::Number(u64::from(e.pid), CellUnit::Same),
        Cell::Carried(e.pid),
        Cell::Number(e.units, CellUnit::Same),
        Cell::Number(e.access, CellUnit::Same),
        Cell::Number(e.distance, CellUnit::Ticks),
        Cell::Number(e.aligned, CellUnit::Same),
    ]
}
