//! An event in an event information section (EN 300 468, 5.2.4).

ghost use Rattle.std.specs.Prelude.{◌≡◌, length, is_some, true};
ghost use Rattle.psi_tables.specs.Loops.{loop_at};

use crate::running_status::RunningStatus;
use arrayvec::ArrayVec;
use bit_fields::append;
use psi_tables::{Entry, SectionError, entry_at, is_whole_loop};

/// An event of an event information section. The times are the section's bytes, decimal digits or
/// not, and the descriptors are kept as bytes, whole descriptors or not.
#[derive(Clone, Copy)]
pub struct EventEntry<'a> {
    pub event_id: u16,
    /// The Modified Julian Date and hhmmss, as `utc_time` writes them.
    pub start_time: [u8; 5],
    /// hhmmss, as `duration_digits` writes them.
    pub duration: [u8; 3],
    pub running_status: RunningStatus,
    /// Whether a component may be scrambled.
    pub free_ca_mode: bool,
    pub descriptors: &'a [u8],
}

/// The events of a section, in order: an iterator over the bytes of the loop.
#[derive(Clone, Copy)]
pub struct EventEntries<'a> {
    bytes: &'a [u8],
    ghost whole: { is_some (loop_at 12 bytes.now) ≡ true },
}

impl<'a> EventEntries<'a> {
    ghost use Rattle.bit_fields.specs.Reading.{Gives};
    ghost use Rattle.dvb_tables.specs.EventEntries.{events_at, events_in, events_of};

    // Returns the events of a whole loop.
    #[tactic(auto, unfolding(crate::specs::EventEntries::events_of))]
    pub(crate) fn of_whole(bytes: &'a [u8]) -> EventEntries<'a>
        requires { is_some (loop_at 12 bytes.now) ≡ true }
        ensures { events_of result ≡ events_in bytes.entry.now }
    {
        EventEntries { bytes }
    }

    /// Returns the events that bytes are; `Body` if they end within an entry.
    #[tactic(auto, unfolding(crate::specs::EventEntries::events_at, crate::specs::EventEntries::events_of))]
    pub fn read(bytes: &'a [u8]) -> Result<EventEntries<'a>, SectionError>
        ensures { Gives events_of result (events_at bytes.now) }
    {
        if is_whole_loop(12, bytes) {
            Ok(EventEntries { bytes })
        } else {
            Err(SectionError::Body)
        }
    }
}

impl<'a> Iterator for EventEntries<'a> {
    ghost use Rattle.std.specs.Iterator.{YieldsFirstBy, item_count};
    ghost use Rattle.dvb_tables.specs.EventEntries.{event_view, events_of};

    type Item = EventEntry<'a>;

    ghost next_gives = { YieldsFirstBy event_view events_of };

    ghost remaining = { item_count events_of };

    #[tactic(auto, unfolding(crate::specs::EventEntries::events_of, crate::specs::EventEntries::events_in))]
    fn next(&mut self) -> Option<EventEntry<'a>> {
        match entry_at(12, self.bytes) {
            None => None,
            Some((entry, rest)) => {
                self.bytes = rest;
                Some(EventEntry::of_entry(entry))
            }
        }
    }
}

impl<'a> EventEntry<'a> {
    ghost use Rattle.std.specs.Prelude.{◌+◌, ◌<◌, ◌≤◌, ◌++◌};
    ghost use Rattle.arrayvec.specs.ArrayVec.{array_vec_len};
    ghost use Rattle.psi_tables.specs.Loops.{entry_view};
    ghost use Rattle.dvb_tables.specs.EventEntries.{event_view, event_of, event_status, event_bytes};

    // Returns the event that an entry of the loop encodes.
    #[tactic(auto, unfolding(crate::specs::EventEntries::event_of))]
    fn of_entry(from: Entry<'a>) -> EventEntry<'a>
        requires { length from.head.now ≡ 12 }
        ensures { event_view result ≡ event_of (entry_view from.entry) }
    {
        let head = from.head;
        let status = head[10];
        EventEntry {
            event_id: u16::from_be_bytes([head[0], head[1]]),
            start_time: [head[2], head[3], head[4], head[5], head[6]],
            duration: [head[7], head[8], head[9]],
            running_status: RunningStatus::of_code(status >> 5),
            free_ca_mode: status >> 4 & 1 == 1,
            descriptors: from.descriptors,
        }
    }

    /// Appends the event to the loop of an event information section.
    #[tactic(auto, unfolding(crate::specs::EventEntries::event_bytes))]
    pub fn append_to<const N: usize>(&self, out: &mut ArrayVec<u8, N>)
        requires length { length self.now.descriptors.now < 4096 }
        requires room { array_vec_len out.old + 12 + length self.now.descriptors.now ≤ N }
        ensures items { out.new.items ≡ out.old.items ++ event_bytes (event_view self.now) }
        ensures len { array_vec_len out.new ≡ array_vec_len out.old + 12 + length self.now.descriptors.now }
    {
        append(out, &self.event_id.to_be_bytes());
        append(out, &self.start_time);
        append(out, &self.duration);
        append(out, &self.status());
        append(out, self.descriptors);
    }

    // Returns the two bytes before the descriptors.
    #[tactic(auto, unfolding(crate::specs::EventEntries::event_status))]
    fn status(&self) -> [u8; 2]
        requires { length self.now.descriptors.now < 4096 }
        ensures { result ≡ event_status (event_view self.now) }
    {
        let scrambled = if self.free_ca_mode { 1 } else { 0 };
        let status = self.running_status.code() << 1 | scrambled;
        let [high, low] = (self.descriptors.len() as u16).to_be_bytes();
        [status << 4 | high, low]
    }
}
