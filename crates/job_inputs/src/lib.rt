//! The inputs of a job, alone and joined.
//!
//! `mark_as_asked` sets the marks that options ask for on a demultiplexer's findings (`specs/AskedMarks`). `job_input`
//! says what a job takes from them, its warnings, and what it refuses (`specs/JobInput`,
//! `specs/LackingPrograms`): step by step, with the bytes of units last (`specs/InputDrafts`, `specs/ClockConstants`).
//! `join_inputs` joins several inputs (`specs/JoinedInputs`): program numbers and PIDs that earlier inputs have are
//! replaced (`specs/NewNumbers`, `specs/RenumberedInputs`, `specs/NumbersApart`).
#![tactic(auto)]

// The input of a job.
mod asked_marks;
mod earliest;
mod input;
mod input_draft;
pub mod job_tables;
mod lacking_programs;
mod nothing_carried;

// Several inputs as one.
mod joined_inputs;
mod new_numbers;
mod renumbered_inputs;

// Laws about inputs.
mod laws;

pub use asked_marks::mark_as_asked;
pub use input::{JobInput, job_input};
pub use job_tables::JobTable;
pub use joined_inputs::{InputNote, JoinedInputs, NoteCause, Origin, join_inputs};
pub use laws::{joined_are_apart, none_is_asked, places_are_apart};
pub use new_numbers::NewNumber;
