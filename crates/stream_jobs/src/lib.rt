//! Jobs from any transport stream: description, plan, and units of its streams.
//!
//! `describe` and `make_job` write the description of an input (`specs/Texts`; `specs/SharedClocks` which programs share
//! a clock, `specs/Transponders` whether it is of a whole transponder), find a rate with a plan
//! (`specs/Rates`), and give the units in order (`specs/Jobs`), or say why there is no job (`specs/WhyNoJob`).
#![tactic(auto)]

// The text of a description, and whether it is read as what it was written for.
mod declaration_check;
mod description_draft;
mod loop_check;
mod shared_clock;
mod table_check;
mod table_lines;
mod transponder;

// A rate with a plan, and a job.
mod job;
mod rates;

pub use job::{Job, describe, found_rate, make_job, units, unplanned_description};
