//! The events of a stream's programs (EN 300 468, 5.2.4).

ghost use Rattle.std.specs.Prelude.{◌≡◌, ◌≤◌, IfOk, OnOk, length, map, option_map};
ghost use Rattle.std.specs.List.{list_any};
ghost use Rattle.pid_findings.specs.Shown.{finding_view};
ghost use Rattle.dvb_tables.specs.EventEntries.{event_view, events_of};
ghost use Rattle.service_information.specs.EventSections.{event_section_view};
ghost use Rattle.service_information.specs.Events as spec;

use crate::coded_times::{moment_in, seconds_in};
use crate::event_sections::{EventSection, event_section_found};
use dvb_tables::{EventEntries, EventEntry, are_whole_descriptors};
use pid_findings::Finding;
use std::alloc::{AllocError, Global};
use std::marker::Model;

/// The most events that a description has, and the most bytes of the descriptors of an event.
const MOST_EVENTS: usize = 1_024;

const MOST_BYTES: usize = 4_000;

/// An event of a program, as its present and following event information says it.
#[derive(Drop)]
pub struct FoundEvent<'f> {
    /// The number of its program.
    pub program: u16,
    /// event_id.
    pub id: u16,
    /// When it begins, in seconds since 1 January 1970 UTC, up to the end of 2037.
    pub start: u32,
    /// In seconds, less than 100 hours.
    pub duration: u32,
    /// All of its descriptors, in their order: whole descriptors, 4,000 bytes at most.
    pub descriptors: &'f [u8],
}

// A contract sees its descriptors as a list.
impl<'f> Model for FoundEvent<'f> {
    ghost use Rattle.service_information.specs.Events.{FoundEventView};

    ghost Value = { FoundEventView };

    ghost view = { λ e. record {
      program = e.program;
      id = e.id;
      start = e.start;
      duration = e.duration;
      descriptors = e.descriptors.now;
    } };
}

// Returns whether a description can have an event.
#[tactic(auto, unfolding(crate::specs::Events::can_be_said))]
fn can_be_said(event: &FoundEvent<'_>) -> bool
    ensures { result ≡ spec.can_be_said event.now }
{
    (event.descriptors.len() <= MOST_BYTES && are_whole_descriptors(event.descriptors))
        && event.duration > 0
}

#[tactic(auto, unfolding(crate::specs::Events::if_said))]
fn if_said<'f>(event: FoundEvent<'f>) -> Option<FoundEvent<'f>>
    ensures { result ≡ spec.if_said event.entry }
{
    if can_be_said(&event) {
        Some(event)
    } else {
        None
    }
}

#[tactic(auto, unfolding(crate::specs::Events::timed_event))]
fn timed_event<'f>(program: u16, entry: EventEntry<'f>, start: u32, duration: u32) -> FoundEvent<'f>
    ensures { result ≡ spec.timed_event program (event_view entry.entry) start duration }
{
    FoundEvent {
        program,
        id: entry.event_id,
        start,
        duration,
        descriptors: entry.descriptors,
    }
}

/// Returns what an entry says of an event of a program, if a description can say it.
#[tactic(auto, unfolding(crate::specs::Events::event_in))]
pub(crate) fn event_in<'f>(program: u16, entry: EventEntry<'f>) -> Option<FoundEvent<'f>>
    ensures { result ≡ spec.event_in program (event_view entry.entry) }
{
    let start = moment_in(entry.start_time)?;
    let duration = seconds_in(entry.duration)?;
    if_said(timed_event(program, entry, start, duration))
}

// Returns whether events of one program overlap.
#[tactic(auto, unfolding(crate::specs::Events::overlaps))]
fn overlaps(one: &FoundEvent<'_>, other: &FoundEvent<'_>) -> bool
    ensures { result ≡ spec.overlaps one.now other.now }
{
    let one_end = u64::from(one.start) + u64::from(one.duration);
    let other_end = u64::from(other.start) + u64::from(other.duration);
    one.program == other.program
        && (u64::from(one.start) < other_end && u64::from(other.start) < one_end)
}

// Returns whether an event overlaps any event taken.
fn overlaps_any(event: &FoundEvent<'_>, taken: &[FoundEvent<'_>]) -> bool
    ensures { result ≡ list_any (spec.overlaps event.now) taken.now }
{
    taken.iter().any(|other| overlaps(event, other))
}

// Returns whether there is room for an event, and no event taken overlaps it.
#[tactic(auto, unfolding(crate::specs::Events::is_free))]
fn is_free(taken: &[FoundEvent<'_>], event: &FoundEvent<'_>) -> bool
    ensures { result ≡ spec.is_free taken.now event.now }
{
    taken.len() < MOST_EVENTS && !overlaps_any(event, taken)
}

// Returns how many of these events begin before one.
#[tactic(auto, unfolding(crate::specs::Events::place_of))]
fn place_of(taken: &[FoundEvent<'_>], event: &FoundEvent<'_>) -> usize
    ensures value { result ≡ spec.place_of taken.now event.now }
    ensures bound { result ≤ length taken.now }
{
    let start = event.start;
    taken.iter().filter(|other| other.start < start).count()
}

// Takes an event, unless it overlaps an event already taken.
#[tactic(auto, unfolding(crate::specs::Events::with_event))]
fn take_event<'f>(event: FoundEvent<'f>, taken: &mut Vec<FoundEvent<'f>>) -> Result<(), AllocError>
    ensures { OnOk result (taken.new.items ≡ spec.with_event taken.old.items event.entry) }
{
    if !is_free(taken, &event) {
        return Ok(());
    }
    let place = place_of(taken, &event);
    taken.insert(place, event)?;
    Ok(())
}

#[tactic(auto, unfolding(crate::specs::Events::with_if_said))]
fn take_if_said<'f>(
    program: u16,
    entry: EventEntry<'f>,
    taken: &mut Vec<FoundEvent<'f>>,
) -> Result<(), AllocError>
    ensures { OnOk result (taken.new.items
        ≡ spec.with_if_said taken.old.items (spec.event_in program (event_view entry.entry))) }
{
    match event_in(program, entry) {
        None => Ok(()),
        Some(event) => take_event(event, taken),
    }
}

// Takes the events of a section.
#[tactic(auto, unfolding(crate::specs::Events::with_entries))]
fn take_entries<'f>(
    program: u16,
    entries: EventEntries<'f>,
    taken: &mut Vec<FoundEvent<'f>>,
) -> Result<(), AllocError>
    ensures { OnOk result (taken.new.items ≡ spec.with_entries program taken.old.items (events_of entries.entry)) }
{
    for entry in entries {
        take_if_said(program, entry, taken)?;
    }
    Ok(())
}

/// Returns whether a number is among `numbers`.
#[tactic(auto, unfolding(crate::specs::Events::is_among))]
pub(crate) fn is_among(number: u16, numbers: &[u16]) -> bool
    ensures { result ≡ spec.is_among number numbers.now }
{
    numbers.iter().any(|other| *other == number)
}

// Takes the events of a section, if its program is among `numbers`.
#[tactic(auto, unfolding(crate::specs::Events::with_section))]
fn take_section<'f>(
    numbers: &[u16],
    section: Option<EventSection<'f>>,
    taken: &mut Vec<FoundEvent<'f>>,
) -> Result<(), AllocError>
    ensures { OnOk result (taken.new.items
        ≡ spec.with_section numbers.now taken.old.items (option_map event_section_view section.entry)) }
{
    match section {
        None => Ok(()),
        Some(section) => {
            if is_among(section.program, numbers) {
                take_entries(section.program, section.events, taken)
            } else {
                Ok(())
            }
        }
    }
}

/// Returns the events of programs, by their numbers: from the sections in force on PID 0x12 (table_id 0x4E) the events,
/// in their order, that overlap no earlier event of the same program, 1,024 at most; in the order of their starts.
/// An event needs a time from 1970 to 2037, a length, and whole descriptors of at most 4,000 bytes.
#[tactic(auto, unfolding(crate::specs::Events::stream_events))]
pub fn stream_events<'f>(
    alloc: Global,
    numbers: &[u16],
    findings: &'f [Finding<'_>],
) -> Result<Vec<FoundEvent<'f>>, AllocError>
    ensures { IfOk result (λ events. events.items ≡ spec.stream_events numbers.now (map finding_view findings.now)) }
{
    let mut taken = Vec::new(alloc);
    for finding in findings {
        take_section(numbers, event_section_found(finding), &mut taken)?;
    }
    Ok(taken)
}
