//! The slots that one item of a plan owns, over all time: a stream, the PCRs of a program, a table, or the system
//! tables of a program.
//!
//! A plan is a period of slots, repeated for all time; for one item it is a list of marks, or any function
//! `own : ℕ → Bool` of the slot number. The definitions are in `specs/`. Each function here is a law: it does
//! nothing, and its contract states a fact about the definitions. A crate above calls it where it needs the fact.
//!
//! - [`positions`]: the slot of each own slot number.
//! - [`parts`]: a part of an item's own slots.
//! - [`windows`]: gaps and spread of one period, as windows of slots over all time.
//! - [`work`]: work of a buffer that the own slots fill, from one period to all time.
//! - [`rounds`]: recurrence of PCRs and of the sections of a table.
//! - [`switch`]: two plans, the second from a period's end of the first on.
#![tactic(auto)]

pub mod parts;
pub mod positions;
pub mod rounds;
pub mod switch;
pub mod windows;
pub mod work;
