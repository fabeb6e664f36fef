//! What a service description declares: programs, streams, network, tables.
//!
//! `building::contents_of` makes them of a document whose keys are in their ranges, and
//! `consistency::joint_fault` returns what the parts are refused for together. `Contents` knows its
//! tables by number, with their PIDs, limits and the lengths of their sections.
#![tactic(auto)]

// What a description holds.
mod contents;
mod event;
mod map_entry;
mod network;
mod network_stream;
mod private_table;
mod program;
mod rooms;
mod stream;
mod versions;

// Tables: their numbers, the lengths of their sections, the services of the SDT. Whose clock references programs have.
mod clocks;
mod event_lengths;
pub mod laws;
mod nit_parts;
mod numbers;
mod sdt_parts;
pub mod section_lengths;
mod section_places;
pub mod table_kind;

// Parts of a document, and whether they are consistent.
pub mod building;
mod channels;
pub mod consistency;
mod networks;

pub use contents::Contents;
pub use event::EventDescription;
pub use map_entry::MapEntry;
pub use network::{Network, NetworkDescriptors};
pub use network_stream::{NetworkStream, NetworkStreams};
pub use private_table::PrivateTable;
pub use program::ProgramDescription;
pub use rooms::Rooms;
pub use stream::StreamDescription;
pub use table_kind::TableKind;
pub use versions::Versions;
