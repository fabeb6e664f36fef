//! A transport stream, analysed as it arrives.
//!
//! - [`Analyser`]: takes packets, and appends the events that they settle, with their faults, to a list; `end` appends
//!   the last events, and `conclude` the summary: a row for each check of ETSI TR 101 290, faults by kind and stream,
//!   and a verdict (`fault_summary`).
//!
//! Memory does not grow with the stream, except for units that wait in a buffer: the caller stops when the analyser is
//! crowded.
#![tactic(auto)]

mod analyser;

pub use analyser::Analyser;
