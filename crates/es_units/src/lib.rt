//! Units of elementary streams from what a demultiplexer finds.
//!
//! The units of a PID are a function of its findings (`specs/CarriedUnits`): where they are found, copied, or moved out
//! of the findings (`specs/TakenUnits`), one by one as findings arrive (`specs/UnitSteps`, `specs/ApartSteps`). A
//! warning reports each finding that is no part of a unit (`specs/UnitWarnings`). The laws say that the stamps on the
//! wire are the moments with the constant modulo 2^33 (`es_moments`), and that the units keep their declaration, so
//! that a queue accepts each.
//!
//! Marks of PES packets that a user asks for are `random_access_indicator` where a decoder may begin, and
//! `data_alignment_indicator` on PES packets of some PIDs. [`Marking`] sets them on the findings of a stream, before units
//! are taken of them (`specs/Marking`): so units that are read as a whole and units that are read while the stream comes have
//! the same marks. Where a decoder may begin is for `stream_coding` to say, by the `stream_type` of a PID.
#![tactic(auto)]

mod apart_steps;
mod carried;
mod found;
mod laws;
pub mod mark_laws;
mod marking;
mod pes_role;
mod pid_links;
mod split_units;
mod taken;
mod unit_taker;
mod unit_warning;
mod warnings;

pub use apart_steps::{place_past, set_apart};
pub use carried::carried_units;
pub use found::found_units;
pub use laws::{
    apart_by_one, constant_is_least, findings_of_the_pid, given_as_carried, moved_by_one_constant,
    moved_in_turn, nothing_is_lost, taken_one_by_one, units_are_kept,
};
pub use marking::{Marking, TypedPid};
pub use pid_links::PidLinks;
pub use taken::taken_units;
pub use unit_taker::UnitTaker;
pub use unit_warning::{UnitWarning, UnitWarningCause};
pub use warnings::unit_warnings;
