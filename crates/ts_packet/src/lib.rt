//! Transport packets of ISO/IEC 13818-1 (2.4.3).
//!
//! A packet is 188 bytes: a `Header`, an `Adaptation` field or none, and a payload or none. `read_packet` borrows all
//! three from the caller's bytes, or names the first of four faults; `write_packet` writes what `fits` accepts. A
//! multiplexer writes three kinds of packet: `write_payload`, `write_pcr` and `null_packet`. No call takes memory.
//! The readers and writers of `counted_io` are exported here as well.
//!
//! The definitions are in `specs/`: `Syntax` has the standard's tables of fields as a relation, `Reading` the
//! function on lists that names the refusals, `Writing` and `Packets` the written bytes, `PidList` the packets of one
//! PID in a byte stream, `Beginnings` what begins with a payload, and `PcrBytes` which bytes of a packet are its
//! program clock reference. The functions of `laws` say how these are related.
#![tactic(auto)]

// What a packet is.
mod adaptation;
mod header;
mod packet;
mod start;

// Reading, from the first byte on.
mod field_reading;
mod packet_reading;
mod pcr_bytes;

// Writing.
mod field_writing;
mod fitting;
mod fixed_fields;
mod packet_writing;
mod plain_packets;

// How the definitions are related.
pub mod laws;

pub use adaptation::{Adaptation, AdaptationField, ClockReference};
pub use counted_io::{Counted, DeviceFault, Failing, Sink, Source, read_part, write_part};
pub use fitting::fits;
pub use header::Header;
pub use packet::{Packet, PacketError};
pub use packet_reading::read_packet;
pub use packet_writing::write_packet;
pub use pcr_bytes::{has_pcr, is_same_without_pcr};
pub use plain_packets::{
    MAX_PAYLOAD, NULL_PID, null_packet, write_null_packet_into, write_payload, write_payload_into,
    write_pcr, write_pcr_into, write_split_payload_into,
};
pub use start::Start;
