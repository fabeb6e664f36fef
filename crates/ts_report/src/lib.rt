//! The events of a stream as it arrives: what an analyst asks first.
//!
//! - [`ClockedView`]: takes packets, and appends the events that they settle to a list; `end` appends the last ones.
//!   Without a rate packets wait for the line between two clock references on which they arrive; then each goes to the
//!   view of packets with arrivals (`view`).
//! - [`ViewRequest`]: the request of a view, in two parts: [`ViewOptions`], how the packets arrive and the length of a
//!   window; and [`ViewChoice`], the programs whose streams are viewed, and buffers that are given.
//!
//! The main buffer of sound whose frames have headers is viewed by access units (`es_view/specs/EntryFrames`), unless its
//! buffers are given; all other main buffers by PES packets.
//!
//! Memory does not grow with the stream: the counts and the last clock reference of each PID, what the first packets
//! name, and for each named stream its buffers, with the units that wait in the main buffer. These have no bound of
//! their own: the caller stops when a view is crowded, with 4,096 waiting units or more in a stream (`is_crowded`).
#![tactic(auto)]

pub mod absent_tables;
mod arrival_options;
mod clocked_view;
mod counter_events;
mod moments;
pub mod reference_events;
mod seen;
pub mod stopped_clocks;
pub mod stopped_pids;
mod stopped_tables;
mod stream_table;
mod timings;
mod view;

pub use clocked_view::ClockedView;
pub use es_events::view_options::ViewOptions;
pub use ts_watch::view_choice::ViewChoice;
pub use ts_watch::view_request::{ViewRequest, ViewSpan};
