//! Explains in words why a description or its plan is refused.
//!
//! `explaining` names the first fault of a job (`specs/Explained`): why the description is refused (`fault_lines`),
//! with the names of keys and their allowed values (`key_words`), their tables (`key_tables`), the place of a key in
//! the text (`key_places`) and the lines of equal values (`equal_keys`); where a text is not valid TOML (`toml_note`),
//! and which key or table is unknown (`unknown_words`); the conditions that the plan breaks, or without a plan the
//! numbers of the description that no plan can meet, by `plan_diagnosis`.
#![tactic(auto)]

mod equal_keys;
mod explaining;
mod fault_lines;
mod key_places;
mod key_tables;
mod key_words;
mod toml_note;
mod unknown_words;

pub use explaining::explain;
pub use fault_lines::write_fault;
