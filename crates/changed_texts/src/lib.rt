//! Texts that take the place of others on air.
//!
//! - [`text_fault`]: whether a description has only other texts than the one that a multiplexer runs by, or why it
//!   has more.
//! - [`next_texts`]: the texts with the version of each sub-table, which rises if what the sub-table says changes and a
//!   receiver may have its version; [`changed`] says which sub-tables these are.
//! - [`read_description`]: the description in the bytes of a record.
#![tactic(auto)]

mod fault;
mod fixed;
mod private_versions;
mod reading;
mod shapes;
mod versions;

// Laws of the versions.
pub mod laws;

pub use fault::{TextFault, text_fault};
pub use fixed::{is_same_program, is_same_stream, is_same_table};
pub use reading::read_description;
pub use versions::{changed, next_texts, set_counts};
