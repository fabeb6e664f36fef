//! Totals of the events of a transport stream: how often each check of ETSI TR 101 290 fails, faults by kind and
//! stream, and a verdict for a person.
//!
//! - [`Summary`]: takes events with their faults; `push_end` appends the rows and the verdict.
//! - [`FaultRows`]: faults by kind and source. [`BufferFigures`]: how many buffers were over their size, and which one
//!   most.
//! - [`laws`]: each row counts exactly its faults.
//!
//! Memory: one row for each kind and source that has a fault, whatever the length of the stream.
#![tactic(auto)]

mod buffer_figures;
mod fault_rows;
pub mod laws;
mod summary;
mod sync_runs;
mod verdicts;

pub use buffer_figures::{BufferFigures, BufferMost};
pub use fault_rows::{FaultRows, key_of};
pub use summary::Summary;
pub use sync_runs::SyncRun;
