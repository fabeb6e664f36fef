//! The parts of a job: where its description ends and its plans begin, and a plan that serves the description.
//!
//! Programs read jobs by these calls (`checked_jobs`), and a run without end reads its line-ups by them (`on_air`).
#![tactic(auto)]

mod parts;
mod plan;

pub use parts::parts_of;
pub use plan::{check_plan, read_plan};
