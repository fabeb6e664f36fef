//! The subcommands of `tsmux`, over any reader and two writers (`run`).
//!
//! `options` has the table of options of each subcommand, and the usage; `command_line` and `request` read the command
//! line by them. Each subcommand has a module: `carrying`; `demultiplexing`, with the lines of `finding_lines`;
//! `planning`; `checking`; `monitoring`; `mux` is `multiplex_job` of the crate `checked_jobs`, which defines a job and
//! its first fault. `program` is `run`; [`laws`] states what `mux` wrote if its status is 0.
#![tactic(auto)]

mod carrying;
mod checking;
mod command_line;
mod demultiplexing;
mod finding_lines;
pub mod laws;
mod monitoring;
mod options;
mod planning;
mod program;
mod request;

pub use planning::make_plan;
pub use program::{report_usage, run};
