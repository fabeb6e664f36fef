//! A job: a description, its plans, and the bytes after them.
//!
//! The first plan serves the description, and on request a second one may follow the first. `job_parts` is where
//! the plans begin, `jobs` reads and checks them, `job_fault` is the first fault in a job with its line, and
//! `fault_lines` has the lines for faults in records and units. `specs/JobSchedules` says which slots the plans of
//! a job give.
//!
//! A job is taken as its bytes arrive (`job_taker`, `found_fault`), and so are the bytes after its plans (`rest_taker`,
//! `unit_list`). `mux_jobs` reads a job with its units, and `multiplexing` writes its packets; without a number of slots
//! it takes that of `default_slots`.
#![tactic(auto)]

mod default_slots;
mod fault_lines;
mod found_fault;
mod job_fault;
mod job_taker;
mod jobs;
mod multiplexing;
mod mux_jobs;
mod rest_taker;
mod unit_list;

pub use fault_lines::{report_record, report_refusal, report_unit};
pub use found_fault::find_fault;
pub use job_fault::{JobFault, JobReadError, is_final, is_refusal, report_fault, write_fault};
pub use jobs::{CheckedJob, JobPlans, plans_at_front, read_description, read_job};
pub use multiplexing::{MuxOptions, multiplex_job, rate_of, report_error, slots_of, write_packets};
pub use mux_jobs::{MuxFault, MuxJob, MuxJobError, read_mux_job, report_mux_fault};
