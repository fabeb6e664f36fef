//! The lines of faults by checks of ETSI TR 101 290.
ghost use Rattle.std.specs.Prelude.{◌≡◌, ◌++◌, OnOk, string_bytes};
ghost use Rattle.event_lines.specs.RuleLines as spec;

use crate::lines::{number, signed, word, write_line};
use crate::trace_lines::write_trace;
use events::{
    AbsentTable, BufferStay, ClockFigures, OtherTable, RuleEvent, ScrambledPacket, VariableRate,
};
use std::alloc::AllocError;

// Appends `other_table`.
fn write_other_table(text: &mut String, json: bool, e: &OtherTable) -> Result<(), AllocError>
    ensures { OnOk result (string_bytes text.new ≡ string_bytes text.old ++ spec.other_table_line json e.now) }
{
    let fields = [
        number("pid", u128::from(e.pid)),
        number("table", u128::from(e.table)),
        number("packet", u128::from(e.packet)),
    ];
    write_line(text, json, "other_table", &fields)
}

// Appends `scrambled_table` and `no_cat`.
fn write_scrambled(
    text: &mut String,
    json: bool,
    line: &str,
    e: &ScrambledPacket,
) -> Result<(), AllocError>
    ensures { OnOk result (string_bytes text.new ≡ string_bytes text.old ++ spec.scrambled_line json line.now e.now) }
{
    let fields = [
        number("pid", u128::from(e.pid)),
        number("packet", u128::from(e.packet)),
    ];
    write_line(text, json, line, &fields)
}

// Appends `no_table`.
fn write_no_table(text: &mut String, json: bool, e: &AbsentTable) -> Result<(), AllocError>
    ensures { OnOk result (string_bytes text.new ≡ string_bytes text.old ++ spec.no_table_line json e.now) }
{
    let fields = [
        number("pid", u128::from(e.pid)),
        number("table", u128::from(e.table)),
    ];
    write_line(text, json, "no_table", &fields)
}

// Appends `not_empty` and `delayed`.
fn write_stay(text: &mut String, json: bool, line: &str, e: &BufferStay) -> Result<(), AllocError>
    ensures { OnOk result (string_bytes text.new ≡ string_bytes text.old ++ spec.stay_line json line.now e.now) }
{
    let fields = [
        number(e.buffer.owner_word(), u128::from(e.number)),
        word("buffer", e.buffer.word()),
        number("packet", u128::from(e.packet)),
        number("begin", e.begin),
        number("end", e.end),
        number("limit", u128::from(e.limit)),
    ];
    write_line(text, json, line, &fields)
}

// Appends `variable_rate`.
fn write_variable(text: &mut String, json: bool, e: &VariableRate) -> Result<(), AllocError>
    ensures { OnOk result (string_bytes text.new ≡ string_bytes text.old ++ spec.variable_line json e.now) }
{
    let fields = [
        number("packet", u128::from(e.packet)),
        number("pairs", u128::from(e.pairs)),
        number("apart", u128::from(e.apart)),
    ];
    write_line(text, json, "variable_rate", &fields)
}

// Appends `clock_window`.
fn write_clock_window(text: &mut String, json: bool, e: &ClockFigures) -> Result<(), AllocError>
    ensures { OnOk result (string_bytes text.new ≡ string_bytes text.old ++ spec.clock_window_line json e.now) }
{
    let fields = [
        number("number", u128::from(e.number)),
        number("pid", u128::from(e.pid)),
        number("references", u128::from(e.references)),
        number("interval", e.interval),
        number("inaccuracy", e.inaccuracy),
        signed("drift", e.ahead, e.behind),
    ];
    write_line(text, json, "clock_window", &fields)
}

/// Appends the line of a fault by a check, of a check that can't be made, of the clock references of a window, or of
/// what a buffer held near its greatest excess.
#[tactic(auto, unfolding(crate::specs::RuleLines::rule_line))]
pub(crate) fn write_rule(text: &mut String, json: bool, event: &RuleEvent) -> Result<(), AllocError>
    ensures { OnOk result (string_bytes text.new ≡ string_bytes text.old ++ spec.rule_line json event.now) }
{
    match event {
        RuleEvent::OtherTable(e) => write_other_table(text, json, e),
        RuleEvent::ScrambledTable(e) => write_scrambled(text, json, "scrambled_table", e),
        RuleEvent::NoCat(e) => write_scrambled(text, json, "no_cat", e),
        RuleEvent::NoTable(e) => write_no_table(text, json, e),
        RuleEvent::NotEmpty(e) => write_stay(text, json, "not_empty", e),
        RuleEvent::Delayed(e) => write_stay(text, json, "delayed", e),
        RuleEvent::VariableRate(e) => write_variable(text, json, e),
        RuleEvent::ClockWindow(e) => write_clock_window(text, json, e),
        RuleEvent::FaultTrace(e) => write_trace(text, json, e),
    }
}
