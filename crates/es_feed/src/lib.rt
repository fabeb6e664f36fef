//! The units of a description's streams while a stream arrives.
//!
//! A [`UnitFeed`] takes the findings of a stream one by one, and gives each unit at its moment as soon as it is whole,
//! in constant memory: one unit of each stream (`Feeding` of `fed_streams`). `laws` say that later findings feed after
//! earlier ones and change none of them, and that the fed units of each stream are the units that its PID carries, at
//! their moments by one constant, in the order of their DTS (`specs/EachStream`, `specs/MovedApart`). A [`StreamFeed`]
//! takes the bytes of a stream in pieces of any size, the packets in step (`specs/StreamFeeding`): at its end it has
//! fed what the whole stream feeds, and at each moment a beginning of it. A `WatchedFeed` takes packets of 192 and 204
//! bytes, too (`specs/StreamPackets`), and finds where packets are out of step (`specs/Watching`). `specs/FedLines` says
//! which records the feed writes.
//!
//! Records of units are written on an output in large pieces: [`write_job`] writes a job's texts and the records of units
//! that are given (`specs/Records`); [`pass_stream`] reads a stream as it arrives, and writes all units that a read makes
//! whole before the next read, with a report on each unit that has no moment. `specs/Passing` says what has gone out of a
//! stream at each end.
#![tactic(auto)]

mod clock_feed;
mod fed_records;
mod laws;
mod packet_ends;
mod packet_feed;
mod passing;
mod pending;
mod records;
mod slip_watch;
mod stops;
mod stream_feed;
mod stream_lines;
mod stream_packets;
mod unit_feed;
pub mod watched_feed;

pub use laws::{
    damage_moves_nothing, fed_apart, fed_as_carried, fed_by_one_constant, fed_in_order,
    fed_in_turn, fed_so_far, fed_without_clock, ticks_are_past,
};
pub use passing::pass_stream;
pub use records::write_job;
pub use stream_feed::StreamFeed;
pub use unit_feed::UnitFeed;
