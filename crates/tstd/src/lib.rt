//! The transport stream system target decoder (ISO/IEC 13818-1, 2.4.2), byte by byte: the fullness of its buffers, and
//! the late units, measured on the finished bytes of a transport stream.
//!
//! - [`measure`]: the whole. `specs/Measured` says what it finds, over the buffer model of docs/TIMING.md, and
//!   `specs/Refusals` what it refuses.
//! - [`measure_unit`]: one unit after another, from the transport buffer of its stream into the main buffer: whether
//!   it left the transport buffer in time, and how full the main buffer becomes.
//! - [`Queue`]: a buffer that bytes pass one after another, as transport and system buffers.
//! - [`Departures`]: a walk over the payload bytes of a PID (`pid_packets`) as they leave their transport buffer.
//! - [`PayloadBytes`]: the same bytes as they enter the main buffer, or the elementary stream buffer after a
//!   multiplexing buffer.
//! - [`MainBuffer`]: the main buffer of a stream; the bytes of a unit stay in it until its decoding time.
//!
//! The modules of [`measure`], from the bottom up: `fullness` and `refusal` are its results; `packets` reads what a
//! packet carries; `units` and `streams` measure the units of a stream in its two buffers, or in the three of video,
//! one after another; `tables` are a program's two buffers; `payloads` and `carried` compare payloads with units;
//! `unreadable` and `declared` test the input; `all_streams` goes through the streams and programs of a description.
//!
//! Times are whole numbers on the scale of the buffer, as in docs/TIMING.md. `tstd_rows` has the same buffers row by
//! row.
#![tactic(auto)]

mod all_streams;
mod buffered_units;
mod carried;
mod declared;
mod departures;
mod fullness;
mod main_buffer;
mod measurement;
mod packets;
mod payload_bytes;
mod payloads;
mod pid_packets;
mod queue;
mod refusal;
mod streams;
mod tables;
mod units;
mod units_in_buffer;
mod unreadable;

pub use buffered_units::BufferedUnit;
pub use departures::Departures;
pub use fullness::{Fullness, LateUnit, StreamFullness, SystemFullness, VideoFullness};
pub use main_buffer::MainBuffer;
pub use measurement::measure;
pub use payload_bytes::PayloadBytes;
pub use queue::Queue;
pub use refusal::MeasureError;
pub use units_in_buffer::measure_unit;
