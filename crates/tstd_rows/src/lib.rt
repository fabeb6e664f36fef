//! The buffers of the transport stream system target decoder (ISO/IEC 13818-1, 2.4.2.3), row by row, as the bytes of
//! any stream arrive: what they hold, each excess, and each unit with its time, in a few steps a row whatever its
//! length.
//!
//! - [`Leaving`]: the bytes of a row as they leave, one row or two.
//! - [`TransportBuffer`]: the transport buffer of a stream. Its state is when the last byte leaves, which determines
//!   its fullness at any later moment.
//! - [`ExcessWatch`]: when it holds more than its size, from when to when and by how much; row by row, or byte by byte.
//! - [`enter_row`]: enters the bytes of a row into the main buffer, unless they are too late; returns the fewest bytes
//!   that they find.
//! - [`enter_leaving`]: the bytes of a row enter as they leave the transport buffer; [`MainFound`] is what they found.
//! - [`MainWatch`]: excesses of the main buffer.
//! - [`StreamView`]: both buffers of one elementary stream; the most that each holds, each excess, and each unit with
//!   the time at which it has left the transport buffer. For video a second view holds the multiplexing buffer and the
//!   elementary stream buffer, filled as bytes leave the first view.
//! - [`RowFound`], [`Carried`], [`VideoFound`]: what the bytes of one row found, and how they leave.
//! - [`DueTime`], [`UnitSeen`]: when a unit is due, and when it arrived. [`late_cause`]: why a unit of video is late,
//!   by its multiplexing buffer alone or by a full elementary stream buffer.
//! - [`SystemView`]: the two buffers of a program's tables, each a [`WatchedQueue`], with each excess of both.
//! - [`StreamBuffers`]: the buffers of one PID packet by packet, and its current unit; [`Arriving`] is a packet of the
//!   PID, [`UnitPart`] an access unit that begins within a payload, [`Entered`] the results of a packet.
//! - [`BusyWatch`]: how long a buffer is not empty.
//! - [`VideoBuffers`], [`VideoRates`], [`VideoEntered`]: the multiplexing buffer and the elementary stream buffer of
//!   video. [`VideoUnit`] is a unit in them, [`EbRooms`] when the second buffer has room for the next bytes.
//! - [`transport_laws`]: what the state of a transport buffer says about its fullness over all moments. [`view_laws`]:
//!   what the figures are over all moments, and that at a constant rate they are the figures of `tstd`.
//!
//! All bytes of a PID's packets enter the transport buffer as they arrive (the rows of the crate `arrival`), and each
//! takes one `step` to leave it, on any scale of times; the bytes of their payloads then enter the main buffer, PES
//! headers too, until their unit is decoded. The history of the stream says what the buffers hold (`specs/History`,
//! `specs/Held`). The answer for a row is large: calls that hand it on are inlined into their callers, so that it is
//! not moved.
#![tactic(auto)]

mod arriving;
mod busy_watch;
mod byte_excess;
mod eb_filling;
mod eb_rooms;
mod entered;
mod entering;
mod even_bytes;
mod excess;
mod late_causes;
mod leaving;
mod leaving_entry;
mod main_excess;
mod main_watch;
mod most_found;
mod over_bytes;
mod packet_entry;
mod row_arrival;
mod row_entry;
mod row_found;
mod stream_buffers;
mod system_buffers;
mod system_view;
mod transport_buffer;
pub mod transport_laws;
mod unit_seen;
mod video_buffers;
mod video_view;
mod view;
pub mod view_laws;
mod viewed_buffers;
mod watched_queue;

pub use arriving::{Arriving, UnitPart};
pub use busy_watch::{BusyWatch, Stay};
pub use eb_rooms::EbRooms;
pub use entered::Entered;
pub use entering::TRANSPORT_BYTES;
pub use excess::{Excess, ExcessWatch};
pub use late_causes::{LateCause, VideoUnit, late_cause};
pub use leaving::Leaving;
pub use leaving_entry::{MainFound, enter_leaving};
pub use main_watch::MainWatch;
pub use row_entry::{enter_row, lesser};
pub use row_found::{Carried, RowFound, VideoFound};
pub use stream_buffers::StreamBuffers;
pub use system_buffers::{EndedExcesses, SYSTEM_BYTES, SystemView, TABLE_TRANSPORT_BYTES};
pub use transport_buffer::TransportBuffer;
pub use unit_seen::{DueTime, UnitSeen};
pub use video_buffers::{VideoBuffers, VideoEntered, VideoRates};
pub use video_view::leak_step;
pub use viewed_buffers::StreamView;
pub use watched_queue::WatchedQueue;
