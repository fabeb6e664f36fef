//! The findings of a transport stream: PES packets, sections, and faults of the packets that carry them.
//!
//! The findings of a PID are a function of the packets of that PID alone (`pid_findings`). `Demux` takes a stream in
//! pieces of any size or packet by packet and keeps a state for each PID, which finds the same (`packet_by_packet`,
//! `each_pid_alone`). `HeaderDemux` does so without the bodies of PES packets (`specs/StreamBodies`).
#![tactic(auto)]

mod demultiplexer;
mod error;
mod headers;
mod laws;
mod packets;
mod states;

pub use demultiplexer::{Demux, whole};
pub use error::DemuxError;
pub use headers::HeaderDemux;
pub use laws::{
    each_pid_alone, each_pid_so_far, headers_alone, nothing_is_lost, others_decide_nothing,
    packet_by_packet, packets_decide, pieces_join, taken_as_pushed,
};
