//! The plan of a constant-rate transport stream: which packet slot of a period carries what, the claims
//! that a checker needs to see that no buffer overflows and no deadline is missed, and the plan's text.
//!
//! - [`Slot`] and [`Item`]: what a packet slot carries, and what owns it.
//! - [`Certificate`]: a plan's claims for its buffers.
//! - [`Plan`]: slots and certificate; their text, written and read.
//! - [`Condition`]: a condition on a plan; `specs/Conditions` and `specs/SwitchConditions` express it in numbers.
//! - [`laws`]: the plan's text is its only one; the own slots over a run.
//! - [`serving_plans`]: facts about a plan that serves a description.
//! - `words`: words and decimal numbers without leading zeros, read at the front of a text in lines; `specs/Words` has
//!   the readers and what they read, `proofs/WordReaders` that each accepts exactly that.
//!
//! `specs/Promised` has what an accepted plan promises, and an accepted switch between two plans, over the definitions
//! alone: in runs of any length each unit that keeps its stream's declaration arrives in time, no buffer of the transport
//! stream system target decoder (ISO/IEC 13818-1, 2.4.2) overflows, and PCRs and sections recur within their limits. A crate
//! above calls a function of [`timing_laws`] where it needs the fact.
#![tactic(auto)]

mod certificate;
mod condition;
mod entries;
pub mod laws;
mod links;
mod plan;
mod reader;
pub mod serving_plans;
mod slot;
mod text;
pub mod timing_laws;
mod words;

pub use certificate::{Certificate, MultiplexingEntry, ProgramEntry, StreamEntry};
pub use condition::{Condition, Relation};
pub use description::Description;
pub use description_parts::{
    Network, PrivateTable, ProgramDescription, StreamDescription, TableKind,
};
pub use links::links_of;
pub use plan::{Plan, PlanError};
pub use reader::PlanTextError;
pub use slot::{Item, Slot};
pub use words::{NUMBER_LIMIT, after_number, after_word, field_at, number_before};
