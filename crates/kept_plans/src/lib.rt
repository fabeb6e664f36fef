//! Plans in which what stays on air keeps its slots.
//!
//! - [`kept_plan`]: a plan that serves a description, and in which each PID that is on air keeps its slots.
//! - [`program_in_the_way`]: the program whose slots leave no room.
#![tactic(auto)]

mod fixed_slots;
mod search;
mod way;

pub use search::kept_plan;
pub use way::program_in_the_way;
