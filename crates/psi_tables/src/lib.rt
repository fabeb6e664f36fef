//! Sections of ISO/IEC 13818-1, their check word, and the program specific information: PAT and PMT.
//!
//! Readers keep slices of the caller's bytes and take no memory; writers append to an `ArrayVec` that
//! the caller lends (`write_to`), or make a vector of their own (`write`). A table is read in two
//! steps, `Section::read` and then `Pat::read` or `Pmt::read`. The writers of other tables are made of
//! the same parts: `begin_section`, the body, `end_section`.
#![tactic(auto)]

mod crc;
mod entries;
mod error;
mod laws;
mod pat;
mod pmt;
mod section;
mod table;
mod writing;

pub use crc::check_word;
pub use entries::{Entry, entry_at, is_whole_loop};
pub use error::{SectionError, WriteError};
pub use laws::{
    check_word_ends, longer_reads_the_same, pats_are_read_again, pmts_are_read_again,
    sections_are_read_again,
};
pub use pat::{PAT_TABLE_ID, Pat, Program, ProgramLoop, Programs};
pub use pmt::{PMT_TABLE_ID, Pmt, Stream, StreamLoop, Streams};
pub use section::{LongHeader, Section, SectionHeader};
pub use table::table_header_at;
pub use writing::{GREATEST_LENGTH, GREATEST_TABLE_LENGTH, begin_section, end_section, to_vec};
