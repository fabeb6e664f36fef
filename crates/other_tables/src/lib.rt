//! The tables of a stream that no job is made of, in what `demux` finds.
//!
//! A job is made of the program association, the program maps, the network information of the actual network, the
//! service descriptions and the present and following events of the stream itself, and its time and date. Of each PID
//! with other sections [`other_tables`] says what table the first of them is of (`specs/TableKinds`) and how many there
//! are (`specs/OtherTables`). [`steady_sections`] gives the sections of a PID where they do not change
//! (`specs/SteadySections`).
#![tactic(auto)]

mod kinds;
mod steady;
mod tables;

pub use kinds::{TableKind, kind_of};
pub use steady::{SteadySections, steady_sections};
pub use tables::{OtherTable, other_tables};
