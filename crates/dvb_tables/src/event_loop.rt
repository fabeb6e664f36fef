//! The loop of events that an event information section holds.

ghost use Rattle.std.specs.Prelude.{◌≡◌, ◌+◌, ◌≤◌, length, is_some, true};
ghost use Rattle.psi_tables.specs.Loops.{loop_at};
ghost use Rattle.dvb_tables.specs.declared.event_loop.TheConstants.{GREATEST_EVENT_LOOP};

use crate::event_entry::{EventEntries, EventEntry};
use arrayvec::ArrayVec;
use bit_fields::append;
use psi_tables::{SectionError, is_whole_loop};

/// The bytes that a section has room for after the front of an event information table.
pub const GREATEST_EVENT_LOOP: usize = 4078;

/// Whole events, kept as their bytes one after another, without memory: as many as one section has room
/// for.
#[derive(Drop)]
pub struct EventLoop {
    bytes: ArrayVec<u8, 4078>,
    ghost whole: { is_some (loop_at 12 bytes.items) ≡ true },
}

impl EventLoop {
    ghost use Rattle.std.specs.Prelude.{◌↔◌, [], ◌∷◌, ◌++◌, IsOk, OnOk, OnErr, IfErr};
    ghost use Rattle.arrayvec.specs.ArrayVec.{array_vec_len};
    ghost use Rattle.bit_fields.specs.Reading.{Gives};
    ghost use Rattle.dvb_tables.specs.EventEntries.{event_view, events_at, events_of, events_bytes};
    ghost use Rattle.dvb_tables.specs.EventInformation.{event_loop_of};

    /// Returns no events.
    #[tactic(auto, unfolding(crate::specs::EventInformation::event_loop_of))]
    pub fn new() -> EventLoop
        ensures { event_loop_of result ≡ [] }
    {
        EventLoop {
            bytes: ArrayVec::new(),
        }
    }

    /// Returns the events that bytes are; `Body` if they end within an entry.
    #[tactic(auto, unfolding(crate::specs::EventInformation::event_loop_of, crate::specs::EventEntries::events_at))]
    pub fn read(bytes: &[u8]) -> Result<EventLoop, SectionError>
        requires { length bytes.now ≤ GREATEST_EVENT_LOOP }
        ensures { Gives event_loop_of result (events_at bytes.now) }
    {
        if is_whole_loop(12, bytes) {
            let mut held = ArrayVec::new();
            append(&mut held, bytes);
            Ok(EventLoop { bytes: held })
        } else {
            Err(SectionError::Body)
        }
    }

    /// Returns the events, in order.
    #[tactic(auto, unfolding(crate::specs::EventInformation::event_loop_of))]
    pub fn events(&self) -> EventEntries<'_>
        ensures { events_of result ≡ event_loop_of self.now }
    {
        EventEntries::of_whole(self.bytes.as_slice())
    }

    /// Returns how many bytes are written for them.
    #[tactic(auto, unfolding(crate::specs::EventInformation::event_loop_of))]
    pub fn byte_length(&self) -> usize
        ensures value { result ≡ length (events_bytes (event_loop_of self.now)) }
        ensures most { result ≤ GREATEST_EVENT_LOOP }
    {
        self.bytes.len()
    }

    // Appends them as they are written.
    #[tactic(auto, unfolding(crate::specs::EventInformation::event_loop_of))]
    pub(crate) fn append_all_to(&self, out: &mut ArrayVec<u8, 4096>)
        requires { array_vec_len out.old + length (events_bytes (event_loop_of self.now)) ≤ 4096 }
        ensures items { out.new.items ≡ out.old.items ++ events_bytes (event_loop_of self.now) }
        ensures len { array_vec_len out.new ≡ array_vec_len out.old + length (events_bytes (event_loop_of self.now)) }
    {
        let bytes = self.bytes.as_slice();
        append(out, bytes);
    }

    /// Appends an event, or refuses it as `TooLong` if the section has no room for it.
    #[tactic(auto, unfolding(crate::specs::EventInformation::event_loop_of))]
    pub fn push(&mut self, event: &EventEntry<'_>) -> Result<(), SectionError>
        ensures variant { IsOk result ↔ (length (events_bytes (event_loop_of self.old ++ event_view event.now ∷ []))
            ≤ GREATEST_EVENT_LOOP) }
        ensures ok { OnOk result (event_loop_of self.new ≡ event_loop_of self.old ++ event_view event.now ∷ []) }
        ensures too_long { IfErr result (λ e. e ≡ SectionError.TooLong) }
        ensures unchanged { OnErr result (self.new ≡ self.old) }
    {
        let room = GREATEST_EVENT_LOOP - self.bytes.len();
        if room < 12 + event.descriptors.len() {
            return Err(SectionError::TooLong);
        }
        event.append_to(&mut self.bytes);
        Ok(())
    }
}
