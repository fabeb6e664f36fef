//! Whether a second plan may follow a checked one.
//!
//! - [`check_switch`]: a second plan after a checked one, to a [`CheckedSwitch`] or a refusal.
//!
//! The second plan has to serve the description alone (`plan_checker`); then come the conditions of the two plans
//! together, on gaps, buffers and deadlines across the switch.
#![tactic(auto)]

mod across;
mod checked_switch;
mod continued;
mod frames;
mod leads;
mod main_buffers;
mod plan_pair;
mod recurrence;
mod section_switches;
mod shares;
mod succession;
mod work;

pub use checked_switch::CheckedSwitch;
pub use succession::check_switch;
