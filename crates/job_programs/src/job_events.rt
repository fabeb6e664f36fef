//! The events of a job's programs, the moment at which its run begins, and what of service information is left out.

ghost use Rattle.std.specs.Prelude.{◌≡◌, ◌++◌, IfOk, OnOk, map, option_map, string_bytes};
ghost use Rattle.pid_findings.specs.Shown.{finding_view};
ghost use Rattle.job_text.specs.Texts.{event_text};
ghost use Rattle.service_information.specs.ShortEvents.{short_event, short_event_view};
ghost use Rattle.job_programs.specs.Events as spec;
ghost use Rattle.job_programs.specs.declared.warning.Warning.TheVariants.{Information};
ghost use Rattle.job_programs.specs.Events.{event_loop, events_text};
ghost use Rattle.job_programs.specs.GivenLoops.{is_loop};

use crate::given_loops::{given_event, is_loop_of, kept_loop};
use crate::job_programs::JobProgram;
use crate::named_service::copied;
use crate::warning::Warning;
use dvb_texts::decode_text;
use job_text::EventPart;
use pid_findings::Finding;
use service_information::{
    FoundEvent, InformationWarning, ShortEvent, civil_text, information_warnings, short_event,
    stream_events, stream_time,
};
use std::alloc::{AllocError, Global};
use std::marker::Model;

/// The moment of the first slot, if nothing says it.
const DEFAULT_START: &str = "2000-01-01T00:00:00";

/// The bytes of a language.
const LANGUAGE: usize = 3;

/// The most bytes of an event's name, as written in a descriptor.
const LONGEST_NAME: usize = 100;

/// The most bytes of an event's text.
const LONGEST_TEXT: usize = 150;

/// The most bytes of an event's descriptors.
const MOST_BYTES: usize = 4_000;

// Returns the numbers of programs.
fn numbers_of(alloc: Global, programs: &[JobProgram]) -> Result<Vec<u16>, AllocError>
    ensures { IfOk result (λ numbers. numbers.items ≡ spec.numbers_of programs.now) }
{
    programs.iter().map(|program| program.number).collect(alloc)
}

/// Returns the events of these programs.
#[tactic(auto, unfolding(crate::specs::Events::job_events))]
pub(crate) fn job_events<'f>(
    alloc: Global,
    programs: &[JobProgram],
    findings: &'f [Finding<'_>],
) -> Result<Vec<FoundEvent<'f>>, AllocError>
    ensures { IfOk result (λ events. events.items ≡ spec.job_events (map finding_view findings.now) programs.now) }
{
    let numbers = numbers_of(alloc, programs)?;
    stream_events(alloc, &numbers, findings)
}

// Returns when the first event begins.
#[tactic(auto, unfolding(crate::specs::Events::first_start))]
fn first_start(events: &[FoundEvent<'_>]) -> Option<u32>
    ensures { result ≡ spec.first_start events.now }
{
    match events.first() {
        Some(event) => Some(event.start),
        None => None,
    }
}

// Returns a moment as text, if there is one.
#[tactic(auto, unfolding(crate::specs::Events::start_found))]
fn start_found(alloc: Global, moment: Option<u32>) -> Result<String, AllocError>
    ensures { IfOk result (λ text. string_bytes text ≡ spec.start_found moment) }
{
    match moment {
        Some(moment) => civil_text(alloc, moment),
        None => copied(alloc, DEFAULT_START),
    }
}

/// Returns the moment of the first slot: `given`, or the time in the stream's TDT, or the start of its first event, or
/// 2000-01-01T00:00:00, in this order.
#[tactic(auto, unfolding(crate::specs::Events::start_of))]
pub(crate) fn start_of(
    alloc: Global,
    given: Option<&str>,
    events: &[FoundEvent<'_>],
    findings: &[Finding<'_>],
) -> Result<String, AllocError>
    ensures { IfOk result (λ text. string_bytes text ≡ spec.start_of (option_map (λ s. s.now) given.entry) events.now
        (map finding_view findings.now)) }
{
    match given {
        Some(text) => copied(alloc, text),
        None => start_found(alloc, stream_time(findings).or(first_start(events))),
    }
}

/// An event of a description, its texts as characters, and all of its descriptors if these texts do not give exactly
/// these.
#[derive(Drop)]
pub struct JobEvent {
    pub program: u16,
    pub id: u16,
    pub start: String,
    pub duration: u32,
    pub language: String,
    pub name: String,
    pub text: String,
    pub descriptors: Option<Vec<u8>>,
}

// A contract sees its texts and its descriptors as lists.
impl Model for JobEvent {
    ghost use Rattle.std.specs.Prelude.{option_map, string_bytes};
    ghost use Rattle.job_text.specs.DescriptionParts.{EventPartView};

    ghost Value = { EventPartView };

    ghost view = { λ e. record {
      program = e.program;
      id = e.id;
      start = string_bytes e.start;
      duration = e.duration;
      language = string_bytes e.language;
      name = string_bytes e.name;
      text = string_bytes e.text;
      descriptors = option_map (λ b. b.items) e.descriptors;
    } };
}

impl JobEvent {
    /// Returns whether a description has these descriptors of the event.
    pub fn has_loop(&self, descriptors: &[u8]) -> bool
        ensures { result ≡ is_loop descriptors.now (event_loop self.now) }
    {
        let given = given_event(&self.language, &self.name, &self.text);
        is_loop_of(descriptors, &self.descriptors, &given)
    }
}

// Returns the texts of an event's first short event descriptor; empty texts without one.
#[tactic(auto, unfolding(crate::specs::Events::texts_of))]
fn texts_of<'f>(descriptors: &'f [u8]) -> ShortEvent<'f>
    ensures { short_event_view result ≡ spec.texts_of (short_event descriptors.now) }
{
    match short_event(descriptors) {
        Some(said) => said,
        None => ShortEvent {
            language: &[],
            name: &[],
            text: &[],
        },
    }
}

// Returns an event with these texts.
#[tactic(auto, unfolding(crate::specs::Events::event_with))]
fn event_with(
    alloc: Global,
    event: &FoundEvent<'_>,
    language: String,
    name: String,
    text: String,
) -> Result<JobEvent, AllocError>
    ensures { IfOk result (λ e. e ≡ spec.event_with event.now (string_bytes language) (string_bytes name)
        (string_bytes text)) }
{
    let given = given_event(&language, &name, &text);
    Ok(JobEvent {
        program: event.program,
        id: event.id,
        start: civil_text(alloc, event.start)?,
        duration: event.duration,
        language,
        name,
        text,
        descriptors: kept_loop(alloc, MOST_BYTES, &given, event.descriptors)?,
    })
}

// Returns an event that is found.
#[tactic(auto, unfolding(crate::specs::Events::event_by))]
fn event_of(alloc: Global, event: &FoundEvent<'_>) -> Result<JobEvent, AllocError>
    ensures { IfOk result (λ e. e ≡ spec.event_part event.now) }
{
    let said = texts_of(event.descriptors);
    let language = decode_text(alloc, said.language, LANGUAGE)?;
    let name = decode_text(alloc, said.name, LONGEST_NAME)?;
    let text = decode_text(alloc, said.text, LONGEST_TEXT)?;
    event_with(alloc, event, language, name, text)
}

// Appends the events that are found.
fn push_events(
    alloc: Global,
    found: &[FoundEvent<'_>],
    events: &mut Vec<JobEvent>,
) -> Result<(), AllocError>
    ensures { OnOk result (events.new.items ≡ events.old.items ++ spec.event_parts found.now) }
{
    for event in found {
        events.push(event_of(alloc, event)?)?;
    }
    Ok(())
}

/// Returns what a description says of these events.
pub(crate) fn event_parts(
    alloc: Global,
    found: &[FoundEvent<'_>],
) -> Result<Vec<JobEvent>, AllocError>
    ensures { IfOk result (λ events. events.items ≡ spec.event_parts found.now) }
{
    let mut events = Vec::new(alloc);
    push_events(alloc, found, &mut events)?;
    Ok(events)
}

// Appends the lines of an event.
fn write_event(event: &JobEvent, text: &mut String) -> Result<(), AllocError>
    ensures { OnOk result (string_bytes text.new ≡ string_bytes text.old ++ event_text event.now) }
{
    let entry = EventPart {
        program: event.program,
        id: event.id,
        start: &event.start,
        duration: event.duration,
        language: &event.language,
        name: &event.name,
        text: &event.text,
        descriptors: event.descriptors.as_deref(),
    };
    entry.write_text(text)
}

/// Appends the lines of all events.
pub fn write_events(events: &[JobEvent], text: &mut String) -> Result<(), AllocError>
    ensures { OnOk result (string_bytes text.new ≡ string_bytes text.old ++ events_text events.now) }
{
    for event in events {
        write_event(event, text)?;
    }
    Ok(())
}

// Appends these warnings.
fn push_all(found: &[InformationWarning], warnings: &mut Vec<Warning>) -> Result<(), AllocError>
    ensures { OnOk result (warnings.new.items ≡ warnings.old.items ++ map Information found.now) }
{
    for warning in found {
        warnings.push(Warning::Information(*warning))?;
    }
    Ok(())
}

/// Appends the warnings about service information of these programs.
pub fn push_information_warnings(
    alloc: Global,
    programs: &[JobProgram],
    findings: &[Finding<'_>],
    warnings: &mut Vec<Warning>,
) -> Result<(), AllocError>
    ensures { OnOk result (warnings.new.items ≡ warnings.old.items
        ++ spec.programs_information (map finding_view findings.now) programs.now) }
{
    let numbers = numbers_of(alloc, programs)?;
    let found = information_warnings(alloc, &numbers, findings)?;
    push_all(&found, warnings)
}
