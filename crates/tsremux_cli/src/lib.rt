//! What the program `tsremux` does, over any files, a reader and two writers (`run`): `tsjob` and `tsmux mux` in one
//! step.
//!
//! `options` is the table of options, with the usage; `words` sorts the words of the command line, and has the words
//! for `tsjob` and the name of the output file. `remuxing` runs `tsjob` into memory and writes the packets of its job,
//! by `muxing`; `by_hand` does so for a description, a plan and records in files. `packets` serves the request of the
//! words; `outputs` writes to standard output or to a file, and reports by `lines` which promises the packets keep:
//! `unkept_frames` finds the streams of sound whose main buffers are kept by whole packets alone. `program` is `run`.
#![tactic(auto)]

mod by_hand;
mod figures;
mod lines;
mod muxing;
mod options;
mod outputs;
mod packets;
mod program;
mod remuxing;
mod unkept_frames;
mod words;

pub use program::{report_usage, run};
