//! The words of `tsview`, over any reader and two writers (`run`): a stream is viewed as it comes.
//!
//! `options` is the table of options, with the usage; `arguments` reads the command line by it; `captured` views the
//! packets of a capture (`specs/CapturedStreams`); `viewing` reads the input piece by piece, and writes the lines of
//! the events that each piece settles before it reads the next; `drawing` draws a page of the events, and writes it at
//! the end; `plan_drawing` a page of the plan in a job; `program` is `run`.
#![tactic(auto)]

mod arguments;
mod captured;
mod drawing;
pub mod laws;
mod options;
mod plan_drawing;
mod program;
mod request;
mod viewing;

pub use program::{report_usage, run};
