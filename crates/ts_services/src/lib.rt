//! Services and network of a transport stream, from its tables.
//!
//! Among the findings of a demultiplexer, the service description table has a service's names, as bytes
//! (`specs/Services`, `specs/ServicePlaces`), and its original network (`specs/Networks`); the network information
//! table has its network (`specs/NetworkInformation`).
#![tactic(auto)]

mod network_information;
mod networks;
mod service_description;
mod service_index;
mod services;

pub use network_information::{FoundNetwork, is_network_section, nit_found, stream_network};
pub use networks::original_network;
pub use service_index::{FoundServices, found_services};
pub use services::{FoundService, last_service, length_prefixed};
