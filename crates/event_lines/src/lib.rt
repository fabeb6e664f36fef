//! Lines of events, plain or as JSON objects.
//!
//! - [`write_events`]: appends the lines of events, or of the verdict alone, to a text (`specs/EventLines`,
//!   `specs/ReportLines`).
//! - [`write_verdict_text`]: appends a verdict as sentences (`specs/VerdictTexts`).
#![tactic(auto)]

mod event_lines;
mod fault_lines;
mod figure_lines;
mod input_lines;
mod lines;
mod mark_lines;
mod packet_lines;
mod rule_lines;
mod summary_lines;
mod trace_lines;
mod verdict_text;
mod video_lines;
mod window_line;

pub use event_lines::{LineForm, write_events};
pub use lines::write_seconds;
pub use verdict_text::write_verdict_text;
