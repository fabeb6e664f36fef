//! The findings of a PID: PES packets, sections, and faults of the packets that carry them.
//!
//! The findings are a function of the packets of the PID (`specs/Findings`). `PidState` takes packet by packet, and
//! keeps the last packet and the open section or PES packet (`specs/Machine`, `specs/OpenUnits`); `specs/Marks` says
//! which packets are duplicates or follow a break, `specs/Roles` what a packet does with its payload. `specs/Bodies`
//! says what stays the same without the bodies of PES packets.
#![tactic(auto)]

mod appending;
mod beginnings;
mod endings;
mod finding;
mod going_on;
mod last;
mod marks;
mod open_unit;
mod payload_bytes;
mod pid_state;
mod place;
mod roles;
mod sections;
mod verdicts;

pub use finding::{Finding, Kind, Part, What};
pub use going_on::{is_plain, pid_in};
pub use last::Last;
pub use marks::{Mark, keep, mark_of};
pub use payload_bytes::PayloadBytes;
pub use pid_state::PidState;
pub use place::Place;
