//! What the first tables of a transport stream name, as soon as they name it.
//!
//! - [`NamedStreams`]: takes the first packets of a stream, until each program of its program association table has a
//!   program map table.
//! - [`ServiceNames`]: the name of each program of the first tables, packet by packet, as the last service description
//!   table that has one says it (EN 300 468, 5.2.3 and 6.2.33).
//! - [`laws`]: these are the streams that the first tables name.
#![tactic(auto)]

pub mod laws;
mod mapped;
mod named_streams;
mod service_name;
mod service_names;

pub use named_streams::{FIRST_PACKETS, NamedStreams};
pub use service_name::ServiceName;
pub use service_names::ServiceNames;
