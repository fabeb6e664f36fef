//! A map by PID, in the order of each PID's first packet.
//!
//! - [`PidMap`]: a map by PID that looks for an entry first at the place of the last PID with the same rest. The PIDs
//!   of a stream are few and recur, so few packets search.
//!
//! A contract sees it as an `IndexMap`: its entries in their order.
#![tactic(auto)]

mod pid_map;

pub use pid_map::{PidEntries, PidMap};
