//! The words that every wire format of ISO/IEC 13818-1 and EN 300 468 shares: the number that bytes
//! make, a table of fields with their widths in bits, and reading from left to right with a first
//! refusal.
//!
//! The standards give each structure as a table of fields, each with a width ("bslbf" and "uimsbf",
//! ISO/IEC 13818-1, 2.2.6). In this workspace such a table is the statement
//! `number bytes ≡ fields ((8, sync) ∷ (1, error) ∷ (13, pid) ∷ ..)`, and each reader of a format is
//! proved against it. Definitions are in `specs/`, the lemmas that readers cite in `proofs/`.
//!
//! Writers append their bytes to a vector of fixed capacity: `append`.
#![tactic(auto)]

mod appending;
mod laws;

pub use appending::append;
pub use laws::{bytes_join, fields_join};
