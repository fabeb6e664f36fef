//! The service information tables of EN 300 468 that a constant-rate multiplex carries: network
//! information (NIT), service description (SDT), present and following events (EIT p/f), and time and
//! date (TDT); with their descriptors, their texts and their times.
//!
//! Each table reads itself from a section of `psi_tables` (`read`), keeping loops of descriptors as bytes,
//! and writes itself as a section, into a vector of fixed capacity (`write_to`) or into its own vector
//! (`write`). Loops are built without memory by `TransportStreamLoop`, `ServiceLoop` and
//! `EventLoop`. Reserved bits are written 1 and not looked at when they are read.
#![tactic(auto)]

// Times: dates, moments, the events of a service.
mod coded_times;
mod julian_date;
mod present_and_following;
mod schedule;

// Texts and descriptors.
mod character_coding;
mod descriptor_loop;
mod descriptors;

// The tables, each after the entries of its loop.
mod event_entry;
mod event_information;
mod event_loop;
pub mod laws;
mod network_information;
mod running_status;
mod service;
mod service_description;
mod service_loop;
mod time_and_date;
mod transport_stream;
mod transport_stream_loop;

pub use character_coding::{Text, TextError, UTF_8, is_plain};
pub use coded_times::{duration_digits, utc_time};
pub use descriptor_loop::are_whole_descriptors;
pub use descriptors::{
    push_iso_639_language, push_network_name, push_service, push_short_event,
    push_stream_identifier,
};
pub use event_entry::{EventEntries, EventEntry};
pub use event_information::{EIT_TABLE_ID, EitPf};
pub use event_loop::{EventLoop, GREATEST_EVENT_LOOP};
pub use julian_date::{MjdError, mjd};
pub use network_information::{NIT_TABLE_ID, Nit};
pub use present_and_following::present_following;
pub use running_status::RunningStatus;
pub use schedule::Event;
pub use service::{Service, Services};
pub use service_description::{SDT_TABLE_ID, Sdt};
pub use service_loop::{GREATEST_SERVICE_LOOP, ServiceLoop};
pub use time_and_date::{TDT_TABLE_ID, Tdt};
pub use transport_stream::{TransportStream, TransportStreams};
pub use transport_stream_loop::{GREATEST_TRANSPORT_STREAM_LOOP, TransportStreamLoop};
