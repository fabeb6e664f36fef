//! The keys of a service description, their ranges and refusals.
//!
//! `keys::KEYS` has a row for each key, and `refusals::key_fault` returns the first refusal of a key in a document, in the
//! order of the rows. The modules of a stream and of a table read keys whose values depend on other keys.
#![tactic(auto)]

// Keys whose values depend on other keys, and the program of a part.
pub mod channels;
pub mod clock_keys;
pub mod eit_keys;
pub mod frame_keys;
pub mod limits;
pub mod loop_keys;
pub mod multiplexing_keys;
pub mod owner;
mod program_numbers;
pub mod sharers;
pub mod stream_keys;
pub mod table_keys;
pub mod version_keys;

// The keys by rows, the names of a part's keys, and refusals.
mod fault;
pub mod key_row;
pub mod keys;
pub mod known_keys;
mod parts;
pub mod refusals;
mod rules;

pub use fault::{DescError, DescFault};
pub use key_row::{KeyKind, KeyPart, KeyRow};
pub use program_numbers::ProgramNumbers;
