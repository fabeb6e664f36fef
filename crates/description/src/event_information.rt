//! The event information sections of a program, of its present and of its following event (EN 300 468,
//! 5.2.4).

ghost use Rattle.std.specs.Prelude.{◌≡◌, ◌≤◌, ◌<◌, [], ◌∷◌, length, map, find, option_map};
ghost use Rattle.std.specs.List.{count_by};
ghost use Rattle.std.specs.Option.{option_to_list};
ghost use Rattle.dvb_tables.specs.EventEntries.{event_view as entry_view};
ghost use Rattle.psi_tables.specs.Encoding.{section_bytes};
ghost use Rattle.dvb_tables.specs.EventInformation.{event_loop_of, eit_section};
ghost use Rattle.description.specs.SectionBytes as spec;

use crate::description::Description;
use crate::section_bytes::part_header;
use crate::service_description::program_status;
use arrayvec::ArrayVec;
use description_parts::{EventDescription, ProgramDescription};
use dvb_tables::{
    EIT_TABLE_ID, EitPf, EventEntry, EventLoop, RunningStatus, duration_digits, utc_time,
};

fn has_begun(event: &EventDescription, moment: u64) -> bool
    ensures { result ≡ spec.has_begun moment event.now }
{
    event.start() <= moment
}

fn has_ended(event: &EventDescription, moment: u64) -> bool
    ensures { result ≡ spec.has_ended moment event.now }
{
    event.start() <= moment && event.duration() as u64 <= moment - event.start()
}

// Returns how many events have begun.
fn begun(events: &[EventDescription], moment: u64) -> usize
    ensures { result ≡ count_by (spec.has_begun moment) events.now }
{
    let mut count = 0;
    for event in events {
        if has_begun(event, moment) {
            count += 1;
        }
    }
    count
}

// Returns how many events have ended.
fn ended(events: &[EventDescription], moment: u64) -> usize
    ensures { result ≡ count_by (spec.has_ended moment) events.now }
{
    let mut count = 0;
    for event in events {
        if has_ended(event, moment) {
            count += 1;
        }
    }
    count
}

/// Returns the version of both sections of a program at a moment.
pub(crate) fn version(program: &ProgramDescription, moment: u64) -> u8
    ensures value { result ≡ spec.eit_version moment program.now }
    ensures five_bits { result < 32 }
{
    let begun = begun(program.events(), moment) % 32;
    let ended = ended(program.events(), moment) % 32;
    ((program.eit_count() as usize + begun + ended) % 32) as u8
}

fn is_present(event: &EventDescription, moment: u64) -> bool
    ensures { result ≡ spec.is_present_event moment event.now }
{
    event.start() <= moment && moment - event.start() < event.duration() as u64
}

fn present_event(events: &[EventDescription], moment: u64) -> Option<&EventDescription>
    ensures { option_map (λ e. e.now) result ≡ find (spec.is_present_event moment) events.now }
{
    events.iter().find(|event| is_present(event, moment))
}

fn is_following(event: &EventDescription, moment: u64) -> bool
    ensures { result ≡ spec.is_following_event moment event.now }
{
    moment < event.start()
}

fn following_event(events: &[EventDescription], moment: u64) -> Option<&EventDescription>
    ensures { option_map (λ e. e.now) result ≡ find (spec.is_following_event moment) events.now }
{
    events.iter().find(|event| is_following(event, moment))
}

// Returns a loop of one entry, for which a section always has room.
#[tactic(auto, using(crate::proofs::LoopLengths::one_event_entry))]
fn one_entry(entry: &EventEntry<'_>) -> EventLoop
    requires { length entry.now.descriptors.now ≤ 4000 }
    ensures { event_loop_of result ≡ entry_view entry.now ∷ [] }
{
    let mut entries = EventLoop::new();
    match entries.push(entry) {
        Ok(()) => {}
        Err(_) => unreachable!(),
    }
    entries
}

fn one_event(event: &EventDescription, status: RunningStatus, free_ca: bool) -> EventLoop
    ensures { event_loop_of result ≡ spec.event_says free_ca status event.now ∷ [] }
{
    one_entry(&EventEntry {
        event_id: event.id(),
        start_time: utc_time(event.start()),
        duration: duration_digits(event.duration()),
        running_status: status,
        free_ca_mode: free_ca,
        descriptors: event.descriptors(),
    })
}

// Returns a loop of the event, if there is one.
fn loop_of(event: Option<&EventDescription>, status: RunningStatus, free_ca: bool) -> EventLoop
    ensures { event_loop_of result ≡ map (spec.event_says free_ca status) (option_to_list (option_map
        (λ e. e.now) event.entry)) }
{
    match event {
        None => EventLoop::new(),
        Some(event) => one_event(event, status, free_ca),
    }
}

fn section_events(program: &ProgramDescription, number: u8, moment: u64) -> EventLoop
    ensures { event_loop_of result ≡ spec.section_events moment program.now number }
{
    let free_ca = program.free_ca();
    if number == 0 {
        let present = present_event(program.events(), moment);
        loop_of(present, program_status(program), free_ca)
    } else {
        let following = following_event(program.events(), moment);
        loop_of(following, RunningStatus::NotRunning, free_ca)
    }
}

impl Description {
    /// Writes section 0 or 1 of a program's event information table under a version.
    pub(crate) fn write_eit(
        &self,
        program: &ProgramDescription,
        version: u8,
        number: u8,
        moment: u64,
        out: &mut ArrayVec<u8, 4096>,
    )
        requires { version < 32 }
        ensures { out.new.items ≡ section_bytes (eit_section (spec.eit_of self.now moment program.now version number)) }
    {
        let section = EitPf {
            header: part_header(program.number(), version, number, 1),
            transport_stream_id: self.transport_stream_id(),
            original_network_id: self.original_network_id(),
            segment_last_section_number: 1,
            last_table_id: EIT_TABLE_ID,
            events: section_events(program, number, moment),
        };
        match section.write_to(out) {
            Ok(()) => {}
            Err(_) => unreachable!(),
        }
    }
}
