//! The buffers of one elementary stream, as its packets arrive, and the events of each packet.
//!
//! [`stream_entry`]: a stream of the tables, from its first packet on. The main buffer of sound whose frames have
//! headers is viewed by access units (`specs/EntryFrames`), unless the sizes of its buffers are given; all other main
//! buffers by PES packets; video in two buffers, MB and EB. `es_events` counts, and writes the events.
#![tactic(auto)]

pub mod counted_buffers;
pub mod entry_frames;
mod entry_packets;
mod held_events;
pub mod last_payload;
mod main_now;
pub mod stream_entry;
