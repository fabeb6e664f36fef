//! The access units of a stream's units in a service description.

ghost use Rattle.std.specs.Prelude.{◌≡◌, ◌++◌, OnOk, string_bytes};
ghost use Rattle.job_text.specs.DescriptionParts.{framing_view};
ghost use Rattle.job_text.specs.Texts.{framing_text};

use crate::key_line::{write_number, write_numbers, write_sums};
use std::alloc::{AllocError, Allocator};

/// The access units of a stream's units, if these are PES packets that hold several (ISO/IEC 13818-1, 2.4.2.3).
#[derive(Clone, Copy)]
pub struct FramingPart<'a> {
    /// The most access units of a unit.
    pub frames: u8,
    /// The longest time from one access unit of a unit to the next, in units of 90 kHz.
    pub frame: u32,
    /// The least time from the last access unit of a unit to the next unit, in units of 90 kHz.
    pub rest: u32,
    /// The most bytes of the last 1, 2, .. access units of a unit that has more.
    pub left: &'a [u32],
}

/// Appends the lines of access units.
pub(crate) fn write_framing<A: Allocator>(
    framing: FramingPart<'_>,
    text: &mut String<A>,
) -> Result<(), AllocError>
    ensures { OnOk result (string_bytes text.new ≡ string_bytes text.old
        ++ framing_text (framing_view framing.entry)) }
{
    let numbers = [
        ("frame_rest", framing.rest as u64),
        ("frames", framing.frames as u64),
    ];
    write_number(text, "frame", framing.frame as u64)?;
    write_sums(text, "frame_left", framing.left)?;
    write_numbers(text, &numbers)
}
