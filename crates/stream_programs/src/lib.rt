//! The programs of a transport stream and their elementary streams, from its tables.
//!
//! A program that the program association table names has the streams of its last map (`specs/Streams`,
//! `specs/Programs`, `specs/NumberPairs`). Maps and PCRs are assigned PIDs that nothing else has
//! (`specs/PidAssignment`); PES packets of no program are counted by PID (`specs/StrayPids`). The omissions of the
//! tables are reported. The laws say that the findings of PID 0 and of the maps' PIDs alone decide, and that no two
//! PIDs are equal.
#![tactic(auto)]

mod free_pids;
mod gathered;
mod gathering;
mod laws;
mod number_pairs;
mod omission;
mod pid_assignment;
mod pid_counts;
mod pid_list;
mod programs;
mod strays;
mod streams;

pub use free_pids::free_pid;
pub use laws::{
    each_has_pids, findings_of_pid_zero, findings_of_the_map, maps_decide, pids_are_distinct,
};
pub use omission::TableOmission;
pub use pid_assignment::{ProgramPids, assigned_pids};
pub use pid_counts::pes_counts;
pub use pid_list::PidList;
pub use programs::{FoundProgram, FoundPrograms, found_programs};
pub use strays::{mapped_pids, stray_pids};
pub use streams::FoundStream;
