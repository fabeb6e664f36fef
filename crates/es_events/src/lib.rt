//! Counts of the buffers of one elementary stream, and the events of these buffers.
//!
//! - [`tally`], [`video_tally`], [`mark_tally`]: counts of the transport and main buffer, of MB and EB of video, and of
//!   marks. [`video_figures`]: the fullness of MB and EB.
//! - [`clocks`]: the last clock references, and when a unit is due by them.
//! - [`entry_events`], [`video_events`], [`entry_stays`], [`trace_events`]: events of excesses, of late units, of bytes
//!   that stay too long, and of the rows around a greatest excess.
//!
//! What buffers held around their greatest excesses:
//!
//! - [`TraceRow`]: what a packet of the stream, or a part of it, found in the buffers.
//! - [`Ring`]: the last 64 rows.
//! - [`Traces`]: takes each row ([`Traces::add`]), and keeps of each buffer the 64 rows that end 32 rows after its greatest
//!   excess.
#![tactic(auto)]

pub mod clocks;
pub mod entry_events;
pub mod entry_stays;
pub mod mark_tally;
mod ring;
mod row;
pub mod tally;
pub mod trace_events;
mod traces;
pub mod video_events;
pub mod video_figures;
pub mod video_tally;
pub mod view_options;

pub use ring::{MOST_ROWS, Ring};
pub use row::TraceRow;
pub use traces::{LATER_ROWS, Trace, Traces};
