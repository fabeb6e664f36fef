//! The events of a stream as one HTML page with SVG pictures, drawn while events arrive.
//!
//! - [`Page`]: takes events (`Page::take`), and writes the page at the end (`Page::write`).
//!
//! `values` keeps the curves of PIDs, `services` the curves of programs. `summary_text` writes the head of the page,
//! `tree` the PIDs of each program, `fault_tables` the tables of faults; `page_heads` has the constant texts. Memory
//! does not grow with the stream: curves of 512 slots, for 256 PIDs each, the rows of `view_rows`, and the programs of
//! PIDs with the names of their services.
#![tactic(auto)]

mod fault_tables;
mod page;
mod page_heads;
mod page_text;
mod services;
mod summary_text;
mod tree;
mod values;

pub use page::Page;
