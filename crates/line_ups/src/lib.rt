//! Whether a description with its plan may take the place of others on air.
//!
//! - [`line_up_fault`]: why it may not. What stays keeps its own slots, over all time, so each promise about what stays
//!   is a promise of the new plan alone.
//! - [`slot_in`]: what the other description has on the PID of a slot.
//! - [`follow_versions`]: the new description with the versions that follow those that were sent.
#![tactic(auto)]

mod fault;
mod names;
mod pids;
mod shapes;
mod slots;
mod versions;

// What a line-up without a fault has in common with the one before it.
pub mod laws;

pub use fault::{LineUpFault, description_fault, line_up_fault};
pub use names::{
    number_with, numbered_slot, pid_of, slot_by, slot_count, slot_in, slot_pid, slot_pids,
    slot_with,
};
pub use shapes::{is_gone, program_before, stream_before, table_before};
pub use versions::follow_versions;
