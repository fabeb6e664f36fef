//! Present and following event information beyond the events taken.

ghost use Rattle.std.specs.Prelude.{◌≡◌, map, option_map};
ghost use Rattle.std.specs.List.{list_all, list_any};
ghost use Rattle.pid_findings.specs.Shown.{finding_view};
ghost use Rattle.dvb_tables.specs.EventEntries.{event_view, events_of};
ghost use Rattle.service_information.specs.EventSections.{event_section_view};
ghost use Rattle.service_information.specs.EventSurplus as spec;

use crate::event_sections::{EventSection, event_section_found};
use crate::events::{FoundEvent, event_in, is_among};
use crate::table_sections::has_table_id;
use dvb_tables::{EIT_TABLE_ID, EventEntries, EventEntry};
use pid_findings::Finding;

#[tactic(auto, unfolding(crate::specs::EventSurplus::is_same))]
fn is_same(one: &FoundEvent<'_>, other: &FoundEvent<'_>) -> bool
    ensures { result ≡ spec.is_same one.now other.now }
{
    ((one.program == other.program && one.id == other.id)
        && (one.start == other.start && one.duration == other.duration))
        && one.descriptors == other.descriptors
}

fn is_one_of(event: &FoundEvent<'_>, taken: &[FoundEvent<'_>]) -> bool
    ensures { result ≡ list_any (spec.is_same event.now) taken.now }
{
    taken.iter().any(|other| is_same(event, other))
}

#[tactic(auto, unfolding(crate::specs::EventSurplus::is_taken))]
fn is_taken(taken: &[FoundEvent<'_>], event: Option<FoundEvent<'_>>) -> bool
    ensures { result ≡ spec.is_taken taken.now event.entry }
{
    match event {
        None => false,
        Some(event) => is_one_of(&event, taken),
    }
}

// Returns whether an event is taken.
#[tactic(auto, unfolding(crate::specs::EventSurplus::is_said))]
fn is_said(program: u16, taken: &[FoundEvent<'_>], entry: EventEntry<'_>) -> bool
    ensures { result ≡ spec.is_said program taken.now (event_view entry.entry) }
{
    is_taken(taken, event_in(program, entry))
}

fn are_said(program: u16, taken: &[FoundEvent<'_>], entries: EventEntries<'_>) -> bool
    ensures { result ≡ list_all (spec.is_said program taken.now) (events_of entries.entry) }
{
    for entry in entries {
        if !is_said(program, taken, entry) {
            return false;
        }
    }
    true
}

#[tactic(auto, unfolding(crate::specs::EventSurplus::says_more))]
fn says_more(numbers: &[u16], taken: &[FoundEvent<'_>], section: Option<EventSection<'_>>) -> bool
    ensures { result ≡ spec.says_more numbers.now taken.now (option_map event_section_view section.entry) }
{
    match section {
        None => true,
        Some(section) => {
            is_among(section.program, numbers) && !are_said(section.program, taken, section.events)
        }
    }
}

#[tactic(auto, unfolding(crate::specs::EventSurplus::is_surplus))]
fn is_surplus(numbers: &[u16], taken: &[FoundEvent<'_>], finding: &Finding<'_>) -> bool
    ensures { result ≡ spec.is_surplus numbers.now taken.now (finding_view finding.now) }
{
    has_table_id(EIT_TABLE_ID, &finding.what)
        && says_more(numbers, taken, event_section_found(finding))
}

/// Returns the packet where the first section with table_id 0x4E ends that is not in force, can't be read, or has an
/// event of a program that is not taken.
#[tactic(auto, unfolding(crate::specs::EventSurplus::event_surplus))]
pub(crate) fn event_surplus(
    numbers: &[u16],
    taken: &[FoundEvent<'_>],
    findings: &[Finding<'_>],
) -> Option<u64>
    ensures { result ≡ spec.event_surplus numbers.now taken.now (map finding_view findings.now) }
{
    for finding in findings {
        if is_surplus(numbers, taken, finding) {
            return Some(finding.packet);
        }
    }
    None
}
