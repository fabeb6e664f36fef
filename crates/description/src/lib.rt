//! The service description: what a constant-rate transport stream carries, read from a TOML document into
//! a `Description` or refused by number and place.
//!
//! `Description::read` reads it. A description knows its programs, streams and network, its tables by
//! number with their PIDs, limits and sections, and writes the bytes of each section as it is at a moment
//! (`Description::text`). Every description is in its ranges: numbers, counts, lengths, no PID twice.
#![tactic(auto)]

// A description, and reading one.
mod description;
mod reading;
mod table_lengths;

// The bytes of the sections of its tables.
mod event_information;
mod network_information;
mod program_association;
mod program_map;
mod section_bytes;
mod service_description;
pub mod sub_table;

// Laws for every description.
pub mod laws;

pub use description::Description;
pub use sub_table::SubTable;
