//! Multiplexing without end: records of units in for as long as they come, packets out as soon as no later unit can
//! change them, in constant memory.
//!
//! `specs/Airing` is the rule: which units are accepted, and which slots are written after each record and at the end.
//! `specs/LineUps` and `specs/Courses` say how a description with a plan takes the place of those in force.
//! `specs/AirStates` says what an `OnAir` represents, and what may wait to be written, `specs/Hearing` what one record,
//! and records up to a reported record, leave, `specs/Laws` that records in order are all taken, and aired as a whole
//! job is multiplexed, and `specs/EndlessRuns` that what was written stays, whatever records come.
//!
//! The modules in reading order: the terms of a run, why a record is refused, what a call answers, the rooms and leads
//! of a description, a leap of the stamps, the slots that are settled, whether a read may wait, a unit judged and fed,
//! texts judged, line-ups read, PIDs that have gone, line-ups that take over, the run and its calls, how it begins; the
//! laws.
#![tactic(auto)]

mod admission;
mod airing;
mod answers;
mod beginning;
mod gone;
pub mod laws;
mod leads;
mod leap;
mod line_up;
mod options;
mod refusals;
mod slots;
mod taking_over;
mod texts;
mod waiting;

pub use airing::OnAir;
pub use answers::{Ending, Heard};
pub use leap::Leap;
pub use mux_core::{NewError, OutputFault};
pub use options::Terms;
pub use refusals::{AirRefusal, FarRecord, LineUpRefusal, RefusedUnit, TextsRefusal, refused_unit};
