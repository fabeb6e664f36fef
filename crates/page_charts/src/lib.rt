//! Pictures of curves as SVG in HTML: no script, and nothing from elsewhere.
//!
//! - [`write_chart`]: a picture of some curves over all windows, with a key and all its numbers as a table.
//! - [`write_strips`]: a table of how full buffers were, a row a buffer, on one scale of times.
//! - [`write_stack`]: a picture of the bit rates of programs, one upon another.
//! - [`write_branch`]: a program and its PIDs as an item of a list.
//!
//! A page has only this crate's texts, decimal numbers, and the names given to `PidLabels`.
//!
//! Pictures of buffers around their greatest excesses are drawn while events arrive: [`TracePictures`] takes events
//! (`TracePictures::take`), and writes the pictures at the end (`TracePictures::write`), each with its numbers as a table.
//! `points` draws a packet, `pictures` the title, the scale and the size around all packets of a buffer; `links` has links
//! to the pictures that are there.
#![tactic(auto)]

mod branch;
mod chart;
mod links;
mod pictures;
mod points;
mod stack;
mod strip;
mod strip_table;
mod trace_pictures;
mod value_table;

pub use branch::write_branch;
pub use chart::write_chart;
pub use stack::write_stack;
pub use strip_table::write_strips;
pub use trace_pictures::TracePictures;
