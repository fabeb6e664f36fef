//! Streams of a feed: unfinished units, and moments.
//!
//! A finding continues the unit of its stream, or ends it (`specs/Feeding`). The first unit of all fixes the constant
//! that makes stamps of 33 bits moments of the run (`specs/Origins`). Clock references advance time while streams are
//! silent, and show a clock that jumps (`specs/Clocks`, `specs/Ticks`); without them stamps that fall show an encoder
//! that restarts (`specs/Restarts`). The program map tables say which streams there are (`specs/Maps`). A `FeedFault`
//! is what a feed reports.
#![tactic(auto)]

// The map of each program, and the reports.
pub mod fed_map;
pub mod feed_fault;

// Moments.
pub mod clock_jump;
pub mod due;
pub mod late;
mod moments;
pub mod origin;
pub mod restart;

// Streams.
mod fed_stream;
pub mod fed_streams;

pub use fed_map::{CurrentMap, FedMap, NamedStream};
pub use fed_stream::FedStream;
pub use feed_fault::{
    ClockJump, CutCause, CutUnits, FeedFault, Loss, NewMap, PacketFault, Restart,
};
