//! The lines of faults of packets and sections.
ghost use Rattle.std.specs.Prelude.{◌≡◌, ◌++◌, OnOk, string_bytes};
ghost use Rattle.event_lines.specs.FaultLines as spec;

use crate::lines::{number, word, write_line};
use events::{CheckWordFault, CounterFault, RefusalCause, RefusedPacket};
use std::alloc::AllocError;

#[tactic(auto, unfolding(crate::specs::FaultLines::cause_word))]
fn cause_word(cause: RefusalCause) -> &'static str
    ensures { result.now ≡ spec.cause_word cause }
{
    match cause {
        RefusalCause::SyncByte => "sync_byte",
        RefusalCause::Header => "header",
        RefusalCause::TransportError => "transport_error",
    }
}

/// Appends `refused`.
pub(crate) fn write_refused(
    text: &mut String,
    json: bool,
    e: &RefusedPacket,
) -> Result<(), AllocError>
    ensures { OnOk result (string_bytes text.new ≡ string_bytes text.old ++ spec.refused_line json e.now) }
{
    let fields = [
        number("packet", u128::from(e.packet)),
        word("cause", cause_word(e.cause)),
    ];
    write_line(text, json, "refused", &fields)
}

/// Appends `continuity`.
pub(crate) fn write_continuity(
    text: &mut String,
    json: bool,
    e: &CounterFault,
) -> Result<(), AllocError>
    ensures { OnOk result (string_bytes text.new ≡ string_bytes text.old ++ spec.continuity_line json e.now) }
{
    let fields = [
        number("pid", u128::from(e.pid)),
        number("packet", u128::from(e.packet)),
        number("expected", u128::from(e.expected)),
        number("found", u128::from(e.found)),
    ];
    write_line(text, json, "continuity", &fields)
}

/// Appends `check_word`.
pub(crate) fn write_check_word(
    text: &mut String,
    json: bool,
    e: &CheckWordFault,
) -> Result<(), AllocError>
    ensures { OnOk result (string_bytes text.new ≡ string_bytes text.old ++ spec.check_word_line json e.now) }
{
    let fields = [
        number("pid", u128::from(e.pid)),
        number("packet", u128::from(e.packet)),
    ];
    write_line(text, json, "check_word", &fields)
}
