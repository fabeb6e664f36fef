//! The sections of present and following events that findings have (EN 300 468, 5.2.4).

ghost use Rattle.std.specs.Prelude.{◌≡◌, option_map};
ghost use Rattle.psi_tables.specs.Views.{section_view};
ghost use Rattle.pid_findings.specs.Shown.{finding_view};
ghost use Rattle.dvb_tables.specs.EventInformation.{eit_at, eit_body_at};
ghost use Rattle.dvb_tables.specs.EventEntries.{events_of};
ghost use Rattle.service_information.specs.EventSections as spec;

use dvb_tables::{EIT_TABLE_ID, EventEntries};
use pid_findings::Finding;
use program_tables::section_on;
use psi_tables::{GREATEST_LENGTH, LongHeader, Section, table_header_at};

// The PID of event information sections.
const EIT_PID: u16 = 0x12;

/// A section of present and following events of the actual transport stream, in force now.
#[derive(Clone, Copy)]
pub(crate) struct EventSection<'f> {
    /// service_id: the number of a program.
    pub program: u16,
    pub events: EventEntries<'f>,
}

// Returns a table with these events that is in force now.
#[tactic(auto, unfolding(crate::specs::EventSections::if_in_force))]
fn if_in_force<'f>(header: LongHeader, events: EventEntries<'f>) -> Option<EventSection<'f>>
    ensures { option_map spec.event_section_view result ≡ spec.if_in_force header (events_of events.entry) }
{
    if header.current_next {
        Some(EventSection {
            program: header.table_id_extension,
            events,
        })
    } else {
        None
    }
}

// Returns the table of this header and body.
#[tactic(auto, unfolding(crate::specs::EventSections::in_force, dvb_tables::specs::EventInformation::eit_body_at, dvb_tables::specs::EventInformation::eit_after))]
fn with_body<'f>(header: LongHeader, body: &'f [u8]) -> Option<EventSection<'f>>
    ensures { option_map spec.event_section_view result ≡ spec.in_force (eit_body_at header body.now) }
{
    if body.len() < 6 {
        return None;
    }
    let (_, rest) = body.split_at(6);
    match EventEntries::read(rest) {
        Err(_) => None,
        Ok(events) => if_in_force(header, events),
    }
}

#[tactic(auto, unfolding(crate::specs::EventSections::in_force, dvb_tables::specs::EventInformation::eit_at))]
fn of_section<'f>(section: &Section<'f>) -> Option<EventSection<'f>>
    ensures { option_map spec.event_section_view result ≡ spec.in_force (eit_at (section_view section.now)) }
{
    match table_header_at(EIT_TABLE_ID, GREATEST_LENGTH, section) {
        Err(_) => None,
        Ok(header) => with_body(header, section.body),
    }
}

#[tactic(auto, unfolding(crate::specs::EventSections::event_section_in, crate::specs::EventSections::of_section))]
fn event_section_in(bytes: &[u8]) -> Option<EventSection<'_>>
    ensures { option_map spec.event_section_view result ≡ spec.event_section_in bytes.now }
{
    match Section::read(bytes) {
        Err(_) => None,
        Ok((section, _)) => of_section(&section),
    }
}

/// Returns the section that a finding has.
#[tactic(auto, unfolding(crate::specs::EventSections::event_section_found))]
pub(crate) fn event_section_found<'f>(finding: &'f Finding<'_>) -> Option<EventSection<'f>>
    ensures { option_map spec.event_section_view result ≡ spec.event_section_found (finding_view finding.now) }
{
    match section_on(EIT_PID, finding) {
        None => None,
        Some(bytes) => event_section_in(bytes),
    }
}
