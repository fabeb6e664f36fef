//! What a stream's service information says of events and of the time (EN 300 468, 5.2.4 and 5.2.5).
//!
//! `stream_events` gives the events that a description can say (`specs/Events`), from the sections of present and
//! following events (`specs/EventSections`) and their coded times (`specs/CodedTimes`), `short_event` the texts among
//! the descriptors of an event (`specs/ShortEvents`); `stream_time` the time of the first time and date section
//! (`specs/StreamTime`), and `civil_text` a moment as a description writes it (`specs/CivilTimes`). What of these tables
//! is not taken, and sections that can't be read, are in `information_warnings` (`specs/EventSurplus`,
//! `specs/Warnings`).
#![tactic(auto)]

mod civil_times;
mod coded_times;
mod event_sections;
mod event_surplus;
mod events;
mod short_events;
mod table_sections;
mod time_table;
mod warning;

pub use civil_times::civil_text;
pub use events::{FoundEvent, stream_events};
pub use short_events::{ShortEvent, short_event};
pub use time_table::stream_time;
pub use warning::{InformationWarning, information_warnings};
