//! The buffers of the tables of each program, packet by packet (ISO/IEC 13818-1, 2.4.2.3).
//!
//! - [`SystemTables`]: the programs of a stream's first tables, and what their two buffers have held.
//! - [`ProgramTables`]: the buffers of one program.
//! - [`TableExcess`]: an excess of such a buffer.
#![tactic(auto)]

mod program_buffers;
mod system_tables;
mod table_excess;

pub use program_buffers::{DRAIN, ProgramTables};
pub use system_tables::SystemTables;
pub use table_excess::{TableBuffer, TableExcess};
