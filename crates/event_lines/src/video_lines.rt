//! The line of a late unit of video.
ghost use Rattle.std.specs.Prelude.{◌≡◌, ◌++◌, OnOk, string_bytes};
ghost use Rattle.event_lines.specs.VideoLines as spec;

use crate::lines::{number, word, write_line};
use events::ElementaryLate;
use std::alloc::AllocError;

/// Appends `elementary_late`.
pub(crate) fn write_elementary_late(
    text: &mut String,
    json: bool,
    e: &ElementaryLate,
) -> Result<(), AllocError>
    ensures { OnOk result (string_bytes text.new ≡ string_bytes text.old ++ spec.elementary_late_line json e.now) }
{
    let fields = [
        number("pid", u128::from(e.pid)),
        number("packet", u128::from(e.packet)),
        number("due", e.due),
        number("left", e.left),
        number("by", e.by),
        number("bytes", u128::from(e.bytes)),
        word("cause", e.cause.word()),
    ];
    write_line(text, json, "elementary_late", &fields)
}
