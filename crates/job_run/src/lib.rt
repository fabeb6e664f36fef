//! What `tsjob` makes of a transport stream: a job or a part of it, or why there is none, its lines, and the status.
//!
//! `job_arguments` is the request. `reading` takes the bytes of a stream piece by piece (only the first 4 MiB of an
//! input that has no packets), `inner_stream` takes its packets, of 188, 192 or 204 bytes, and `carried_stream` puts
//! those in step through a demultiplexer (`specs/Streams`); `frame_packets` cuts PES packets of sound
//! (`specs/FramePackets`); `outcome` makes the job of its findings, and `reason_output` says why there is no plan
//! (`specs/Outcomes`). `written` reads a stream, makes its outcome and writes it to the program's writers.
//! `stream_files` takes streams from named files (`specs/StreamFiles`), and `files_outcome` makes one job of all these
//! (`specs/SeveralInputs`). The status is the same whichever lines are reported (`status_stays`).
//!
//! `Reporting` says which lines are reported: all, only losses, or only refusals. Each thing that is left out or
//! changed has a line, and so has a refusal; `specs/` has the text of each:
//!
//! - `slip_lines`: packets that are not in step, and inputs that are no transport stream.
//! - `field_lines`: fields that are not written again.
//! - `table_lines`: tables that no job is made of.
//! - `warning_lines`: the warnings of a job; `information_lines`: of its service information.
//! - `recoding_lines`, `gap_lines`: codings that change, clocks that pass over a time.
//! - `left_out_count`: the number of streams that are left out.
//! - `refusal_line`: a stream that is refused; `lacking_line`: for what a program would lack.
//! - `input_lines`: an input, if there are several.
#![tactic(auto)]

mod carried_stream;
mod field_lines;
mod files_outcome;
mod frame_packets;
mod gap_lines;
mod information_lines;
mod inner_stream;
mod input_lines;
mod job_arguments;
mod lacking_line;
mod laws;
mod left_out_count;
mod outcome;
mod reading;
mod reason_output;
mod recoding_lines;
mod refusal_line;
mod reporting;
mod slip_lines;
mod stream_files;
mod table_lines;
mod timed_text;
mod warning_lines;
mod written;

pub use files_outcome::perform_files;
pub use job_arguments::{JobArguments, Subcommand};
pub use laws::status_stays;
pub use outcome::{JobOutcome, JobText, only_text};
pub use reporting::Reporting;
pub use written::{perform, write_outcome};
