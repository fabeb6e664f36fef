//! Whether a plan serves a service description: the first condition on slots, gaps, buffers and deadlines that it does
//! not keep, or every one.
//!
//! - [`check`]: one plan, to a [`CheckedPlan`] or a [`Refusal`].
//! - [`failing`]: every condition that one plan does not keep.
//! - [`own_count`], [`greatest_gap`], [`spread_of`], [`work_of`], [`empty_slots`]: the numbers of an item's own slots
//!   that the conditions compare, each in one walk over a [`Period`]: by its links, if it has any. [`empty_slots`]
//!   walks over each slot.
//! - [`steady_packets`], [`steady_time`], [`packets_in_row`], [`waiting_slots`], [`bytes_by_units`], [`ahead_of`],
//!   [`left_of_unit`]: the numbers of a stream's declaration.
//!
//! A condition is an [`ItemCondition`](conditions::ItemCondition), which [`check_each`](conditions::check_each) checks
//! for each item. `switch_checker` checks its own in the same way.
#![tactic(auto)]

mod buffers;
mod checked_plan;
pub mod checking;
pub mod claims;
pub mod comparison;
pub mod condition_terms;
pub mod conditions;
mod empties;
pub mod failure_search;
mod frames;
mod gap;
pub mod leads;
pub mod main_buffers;
pub mod own_counts;
pub mod own_positions;
pub mod period;
mod plans;
mod recurrence;
mod refusal;
pub mod section_distances;
mod shape;
mod spread;
mod stream_slots;
mod timing;
pub mod waiting_units;
mod work;

pub use checked_plan::CheckedPlan;
pub use checking::{check, failing};
pub use empties::{EmptySlots, empty_slots};
pub use frames::{ahead_of, left_of_unit};
pub use gap::greatest_gap;
pub use leads::packets_in_row;
pub use main_buffers::{bytes_by_units, waiting_slots};
pub use own_counts::own_count;
pub use period::Period;
pub use recurrence::clock_item;
pub use refusal::Refusal;
pub use slot_plan::{Condition, Relation};
pub use spread::spread_of;
pub use stream_slots::{steady_packets, steady_time};
pub use work::{Work, work_of};
