//! The words of `tsair`, over any reader and two writers (`run`): a job is multiplexed without end, its records as they
//! arrive.
//!
//! `options` is the table of options, with the usage; `arguments` reads the command line by it; `front` reads the
//! description and the plans, as far as the last line `end`; `hearing` takes records up to the last, and reports each
//! refused record at once; `ending` writes the rest of the run, and reports why it ended. `program` is `run`; for
//! `--unframe` it calls `pass_frames`.
//!
//! Frames of unit records: a reader finds the next record after a cut record, for example of a feeder that was killed.
//! `pass_frames` reads frames as they arrive and writes their whole records; a line says where it drops bytes. An
//! `OpenFrame` takes one byte after another, a `FrameFeed` keeps the records and drops that follow. `stuffed_byte` is a
//! byte of a record as a frame has it, after `MARK`. `specs/Frames` is the format, `specs/FramePassing` what
//! `pass_frames` does; the law `writers_are_read` says that no byte of a half record gets into another.
#![tactic(auto)]

mod arguments;
mod ending;
mod frame;
mod frame_fault;
mod frame_feed;
mod frame_laws;
mod frame_passing;
mod front;
mod hearing;
mod options;
mod program;
mod repeats;
mod state;
mod stuffing;

pub use arguments::writes_bytes;
pub use frame::OpenFrame;
pub use frame_fault::FrameFault;
pub use frame_feed::FrameFeed;
pub use frame_laws::writers_are_read;
pub use frame_passing::pass_frames;
pub use program::{report_usage, run};
pub use stuffing::{MARK, stuffed_byte};
