//! The events of a transport stream that no elementary stream has: clock references, packets by PID, tables, the rules
//! of TR 101 290, and the buffers of system data.
#![tactic(auto)]

mod check_words;
pub mod clock_events;
mod pid_labels;
pub mod rule_watch;
mod section_pids;
mod stamp_pids;
pub mod system_events;
pub mod table_names;
pub mod table_watch;
pub mod view_choice;
pub mod view_request;
pub mod window_events;
