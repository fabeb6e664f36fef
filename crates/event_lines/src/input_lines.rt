//! The lines of events of the input.
ghost use Rattle.std.specs.Prelude.{◌≡◌, ◌++◌, OnOk, string_bytes};
ghost use Rattle.event_lines.specs.InputLines as spec;

use crate::lines::{number, word, write_line};
use events::{InputEvent, OtherRate, RestBytes, SlippedBytes, StampJump};
use packet_sync::FileForm;
use std::alloc::AllocError;

// Appends `slip`.
fn write_slip(text: &mut String, json: bool, e: &SlippedBytes) -> Result<(), AllocError>
    ensures { OnOk result (string_bytes text.new ≡ string_bytes text.old ++ spec.slip_line json e.now) }
{
    let fields = [
        number("packet", u128::from(e.packet)),
        number("place", u128::from(e.place)),
        number("bytes", u128::from(e.bytes)),
    ];
    write_line(text, json, "slip", &fields)
}

// Appends `packet_size`.
fn write_packet_size(text: &mut String, json: bool, size: u64) -> Result<(), AllocError>
    ensures { OnOk result (string_bytes text.new ≡ string_bytes text.old ++ spec.packet_size_line json size) }
{
    let fields = [number("bytes", u128::from(size))];
    write_line(text, json, "packet_size", &fields)
}

// Appends `no_stream`.
fn write_no_stream(text: &mut String, json: bool, form: FileForm) -> Result<(), AllocError>
    ensures { OnOk result (string_bytes text.new ≡ string_bytes text.old ++ spec.no_stream_line json form) }
{
    let fields = [word("form", form.line_word())];
    write_line(text, json, "no_stream", &fields)
}

// Appends `other_rate`.
fn write_other_rate(text: &mut String, json: bool, e: &OtherRate) -> Result<(), AllocError>
    ensures { OnOk result (string_bytes text.new ≡ string_bytes text.old ++ spec.other_rate_line json e.now) }
{
    let fields = [
        number("pid", u128::from(e.pid)),
        number("given", u128::from(e.given)),
        number("references", e.references),
    ];
    write_line(text, json, "other_rate", &fields)
}

// Appends `rest`.
fn write_rest(text: &mut String, json: bool, e: &RestBytes) -> Result<(), AllocError>
    ensures { OnOk result (string_bytes text.new ≡ string_bytes text.old ++ spec.rest_line json e.now) }
{
    let fields = [
        number("packet", u128::from(e.packet)),
        number("bytes", u128::from(e.bytes)),
    ];
    write_line(text, json, "rest", &fields)
}

// Appends `stamp_jump`.
fn write_stamp_jump(text: &mut String, json: bool, e: &StampJump) -> Result<(), AllocError>
    ensures { OnOk result (string_bytes text.new ≡ string_bytes text.old ++ spec.stamp_jump_line json e.now) }
{
    let fields = [
        number("packet", u128::from(e.packet)),
        number("value", u128::from(e.value)),
        number("limit", u128::from(e.limit)),
    ];
    write_line(text, json, "stamp_jump", &fields)
}

/// Appends the line of an event of the input.
#[tactic(auto, unfolding(crate::specs::InputLines::input_line))]
pub(crate) fn write_input(
    text: &mut String,
    json: bool,
    event: &InputEvent,
) -> Result<(), AllocError>
    ensures { OnOk result (string_bytes text.new ≡ string_bytes text.old ++ spec.input_line json event.now) }
{
    match event {
        InputEvent::Slip(e) => write_slip(text, json, e),
        InputEvent::PacketSize(size) => write_packet_size(text, json, *size),
        InputEvent::Empty => write_line(text, json, "empty", &[]),
        InputEvent::NoStream(form) => write_no_stream(text, json, *form),
        InputEvent::OtherRate(e) => write_other_rate(text, json, e),
        InputEvent::Rest(e) => write_rest(text, json, e),
        InputEvent::NoStamps => write_line(text, json, "no_stamps", &[]),
        InputEvent::StampJump(e) => write_stamp_jump(text, json, e),
    }
}
