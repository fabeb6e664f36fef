//! Rows of the tables of a page, and what each PID carries.
//!
//! - [`Rows`]: takes events, and keeps the rows of the page's tables: the first 100 faults, and the rows of the last
//!   events.
//! - [`take_label`]: takes what a PID carries, its program and the name of its service (`page_labels`, `html_text`).
//!
//! `row_cells`, `input_cells`, `mark_cells` and `summary_cells` have the cells of an event's row; `cells` writes them.
#![tactic(auto)]

mod cells;
mod fault_rows;
mod html_text;
mod input_cells;
mod mark_cells;
mod page_labels;
mod row_cells;
mod rows;
mod summary_cells;

pub use cells::{short, write_carried};
pub use fault_rows::{FaultBuffer, FaultRow};
pub use mark_cells::marks_text;
pub use page_labels::take_label;
pub use rows::{Rows, StreamRow};
pub use summary_cells::kinds_text;
