//! Which packets a capture holds, while its bytes arrive.
//!
//! A capture may begin inside a packet, gain or lose bytes between packets (`packet_sync/specs/Slips`), or have packets
//! of 192 or 204 bytes (`packet_sync/specs/OtherPackets`). `specs/Captures` defines its parts: packets of 188 bytes,
//! slips, and the bytes after the last packet; `packet_sync/specs/FrontForms` what it is by its first bytes if it is no
//! transport stream.
//!
//! - [`CaptureReader`]: takes the bytes piece by piece (`CaptureReader::take`), gives the parts that they settle to a
//!   [`PartTaker`], and keeps less than 1,128 bytes that do not settle yet.
//! - [`laws`]: a stream in step is read as it is, and the parts are the slips and the carried bytes of `packet_sync`.
#![tactic(auto)]

pub mod laws;
mod part_taker;
mod place;
mod reader;
mod settled;
mod settling;

pub use part_taker::PartTaker;
pub use place::Place;
pub use reader::{CaptureEnd, CaptureReader};
pub use settled::{Front, Settled};
