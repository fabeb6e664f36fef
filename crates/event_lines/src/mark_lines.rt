//! The line of the marks of a stream's units.
ghost use Rattle.std.specs.Prelude.{◌≡◌, ◌++◌, OnOk, string_bytes};
ghost use Rattle.event_lines.specs.MarkLines as spec;

use crate::lines::{number, write_line};
use events::MarkTotals;
use std::alloc::AllocError;

/// Appends `marks`.
pub(crate) fn write_marks(text: &mut String, json: bool, e: &MarkTotals) -> Result<(), AllocError>
    ensures { OnOk result (string_bytes text.new ≡ string_bytes text.old ++ spec.marks_line json e.now) }
{
    let fields = [
        number("pid", u128::from(e.pid)),
        number("units", u128::from(e.units)),
        number("access", u128::from(e.access)),
        number("distance", u128::from(e.distance)),
        number("aligned", u128::from(e.aligned)),
    ];
    write_line(text, json, "marks", &fields)
}
