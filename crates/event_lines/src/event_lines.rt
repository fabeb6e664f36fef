//! An event as a line, plain or as a JSON object.
ghost use Rattle.std.specs.Prelude.{◌≡◌, ◌++◌, OnOk, string_bytes};
ghost use Rattle.event_lines.specs.EventLines as spec;
ghost use Rattle.event_lines.specs.SummaryLines.{is_sentence};

use crate::fault_lines::{write_check_word, write_continuity, write_refused};
use crate::figure_lines::{
    write_buffer, write_clock, write_end, write_held, write_pid, write_system, write_table,
    write_units,
};
use crate::input_lines::write_input;
use crate::lines::{number, write_last, write_line};
use crate::mark_lines::write_marks;
use crate::packet_lines::{
    write_ahead, write_clock_fault, write_excess, write_late, write_stream, write_table_fault,
    write_unclocked,
};
use crate::rule_lines::write_rule;
use crate::summary_lines::{write_check, write_fault_time, write_summary};
use crate::video_lines::write_elementary_late;
use crate::window_line::write_window;
use events::{Event, SummaryEvent, TimedEvent};
use std::alloc::{AllocError, Global};

/// How lines are written: each as a JSON object or plain, and of all events or of the verdict alone.
#[derive(Clone, Copy)]
pub struct LineForm {
    pub json: bool,
    pub quiet: bool,
}

fn write_reference(text: &mut String, json: bool, word: &str, pid: u16) -> Result<(), AllocError>
    ensures { OnOk result (string_bytes text.new ≡ string_bytes text.old ++ spec.reference_line json word.now pid) }
{
    let fields = [number("pid", u128::from(pid))];
    write_line(text, json, word, &fields)
}

#[tactic(auto, unfolding(crate::specs::EventLines::event_line))]
fn write_event(
    alloc: Global,
    text: &mut String,
    json: bool,
    event: &Event,
) -> Result<(), AllocError>
    ensures { OnOk result (string_bytes text.new ≡ string_bytes text.old ++ spec.event_line json event.now) }
{
    match event {
        Event::Input(e) => write_input(text, json, e),
        Event::Stream(e) => write_stream(text, json, e),
        Event::Window(window) => write_window(alloc, text, json, window),
        Event::Held(e) => write_held(text, json, e),
        Event::Units(e) => write_units(text, json, e),
        Event::Excess(e) => write_excess(text, json, e),
        Event::Late(e) => write_late(text, json, e),
        Event::ElementaryLate(e) => write_elementary_late(text, json, e),
        Event::Ahead(e) => write_ahead(text, json, e),
        Event::ClockFault(kind, e) => write_clock_fault(text, json, *kind, e),
        Event::TableFault(kind, e) => write_table_fault(text, json, *kind, e),
        Event::Unclocked(e) => write_unclocked(text, json, e),
        Event::Refused(e) => write_refused(text, json, e),
        Event::Continuity(e) => write_continuity(text, json, e),
        Event::CheckWord(e) => write_check_word(text, json, e),
        Event::Buffer(e) => write_buffer(text, json, e),
        Event::Marks(e) => write_marks(text, json, e),
        Event::System(e) => write_system(text, json, e),
        Event::Clock(e) => write_clock(text, json, e),
        Event::Table(e) => write_table(text, json, e),
        Event::Pid(e) => write_pid(text, json, e),
        Event::Unreferenced(pid) => write_reference(text, json, "unreferenced", *pid),
        Event::Missing(pid) => write_reference(text, json, "missing", *pid),
        Event::Check(e) => write_check(text, json, e),
        Event::End(e) => write_end(text, json, e),
        Event::Rule(e) => write_rule(text, json, e),
        Event::Summary(e) => write_summary(text, json, e),
    }
}

// Appends the line of an event: when a fault is comes last.
fn write_timed(
    alloc: Global,
    text: &mut String,
    json: bool,
    e: &TimedEvent,
) -> Result<(), AllocError>
    ensures { OnOk result (string_bytes text.new ≡ string_bytes text.old ++ spec.timed_line json e.now) }
{
    write_event(alloc, text, json, &e.event)?;
    write_fault_time(text, json, &e.fault)?;
    write_last(text, json)
}

#[tactic(auto, unfolding(crate::specs::SummaryLines::is_sentence))]
fn is_sentence(event: &SummaryEvent) -> bool
    ensures { result ≡ is_sentence event.now }
{
    match event {
        SummaryEvent::Verdict(_) => true,
        SummaryEvent::Faults(_) => false,
    }
}

// Returns whether an event is a sentence of the verdict.
#[tactic(auto, unfolding(crate::specs::EventLines::is_verdict))]
fn is_verdict(event: &Event) -> bool
    ensures { result ≡ spec.is_verdict event.now }
{
    match event {
        Event::Summary(e) => is_sentence(e),
        _ => false,
    }
}

// Appends the line of an event, unless only the verdict is asked for.
fn write_in(
    alloc: Global,
    text: &mut String,
    form: LineForm,
    e: &TimedEvent,
) -> Result<(), AllocError>
    ensures { OnOk result (string_bytes text.new ≡ string_bytes text.old ++ spec.line_in form e.now) }
{
    if form.quiet && !is_verdict(&e.event) {
        return Ok(());
    }
    write_timed(alloc, text, form.json, e)
}

/// Appends the lines of events.
pub fn write_events(
    alloc: Global,
    text: &mut String,
    form: LineForm,
    events: &[TimedEvent],
) -> Result<(), AllocError>
    ensures { OnOk result (string_bytes text.new ≡ string_bytes text.old ++ spec.lines_of form events.now) }
{
    for event in events {
        write_in(alloc, text, form, event)?;
    }
    Ok(())
}
