//! The clock reference of a packet (ISO/IEC 13818-1, 2.4.3.4 and 2.4.3.5).
//!
//! [`found_pcr`] finds it in a packet that was read, and [`pcr_at`] in the bytes of one (`specs/PacketPcr`).
#![tactic(auto)]

mod pcr_reading;

pub use pcr_reading::{FoundPcr, found_pcr, pcr_at};
