//! Timing of the units of a stream, in the buffers of the transport stream system target decoder
//! (ISO/IEC 13818-1, 2.4.2), over the definitions alone.
//!
//! A stream's own slots are a function `own : ℕ → Bool` of the slot number, for one plan or for two;
//! its units are a list of PES packets, each with its size and its decoding time stamp. The declaration of
//! their packets is an allowance, a function of time. The definitions in `specs/` say which own slot carries
//! which part of a unit, when its bytes leave the transport buffer, and the fullness of each buffer. Each
//! function of a module here is a law: it does nothing, and its contract states a fact about the definitions.
//!
//! - [`allowance`]: a stream's declaration of its packets.
//! - [`allowances`]: that as a function of time, and as the level of a leaky bucket.
//! - [`buffers`]: the buffers that have one size for all.
//! - [`transport`]: the transport buffer never overflows, and each packet leaves in time.
//! - [`deadlines`]: from the pace of the own slots to the deadline of each unit.
//! - [`arrived`]: each due unit has left the transport buffer whole by its stamp.
//! - [`main_buffer`]: the fullness of the main buffer.
//! - [`framing`]: a stream's declaration of the access units of a PES packet.
//! - [`access_units`]: the main buffer when each access unit of a PES packet is removed at its own time.
//! - [`moments`]: moments that are not whole.
//! - [`multiplexing_buffer`]: a video stream's declaration of its multiplexing buffer.
//! - [`system_buffers`]: the two buffers of a program's tables.
//! - [`video_buffers`]: the multiplexing buffer and the elementary stream buffer of a video stream.
//! - [`schedule`]: slot by slot is unit by unit.
//! - [`units`]: one unit more within the declaration.
//! - [`shares`]: the unit of an output's shares.
//! - [`plans`]: all of this for one plan and for two, from the conditions on their slots.
#![tactic(auto)]

pub mod access_units;
pub mod allowance;
pub mod allowances;
pub mod arrived;
pub mod buffers;
pub mod deadlines;
pub mod framing;
pub mod main_buffer;
pub mod moments;
pub mod multiplexing_buffer;
pub mod plans;
pub mod schedule;
pub mod shares;
pub mod system_buffers;
pub mod transport;
pub mod units;
pub mod video_buffers;
