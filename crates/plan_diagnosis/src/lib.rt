//! Explains in words which conditions a plan breaks, or why no plan serves a description.
//!
//! `reasons` has a line for each number of a description that no plan can keep, with the least sufficient value
//! (`specs/ReasonLines`); `conditions` a line for each condition that a plan does not keep, with both its numbers in
//! the units of keys (`specs/ConditionLines`), by `shape_conditions`, `slot_conditions` and `buffer_conditions`.
//! `item_names` names streams, programs and tables; `stream_numbers` has the words of both for the numbers of a stream,
//! `program_limits` for the limit of clock references, `least_values` for a value that is too small.
#![tactic(auto)]

mod buffer_conditions;
mod conditions;
mod item_names;
mod least_values;
mod program_limits;
mod reasons;
mod shape_conditions;
mod slot_conditions;
mod stream_numbers;

pub use conditions::{write_conditions, write_switch};
pub use reasons::write_reasons;
