//! Times of packets: packets that wait for their arrival time, PIDs without a packet, and clock references by window.
//!
//! Packets wait for the next clock reference, which gives each an arrival time (ISO/IEC 13818-1, 2.4.2.2).
//!
//! - [`PacketQueue`]: takes the packets of a stream in turn, and says how the packets before a clock reference arrive.
//!   At most 65,536 packets wait.
//! - [`ClockPid`]: whose references count: the first PID that has any, or a program's PID.
//!
//! ETSI TR 101 290, 5.2.1, 1.6 PID_error: video and audio may be without a packet for 5 s.
//!
//! - [`PidGaps`]: the place of the last packet of each PID; `take` returns a time that is too long, `push_stopped` appends
//!   each that is too long at the end.
//! - [`push_gap_if`], [`push_gaps`]: their events, of PIDs that the first tables name as video or audio.
//! - [`windows`]: the references of each PID in the last window, and the drift of its clock from the clock of arrival.
#![tactic(auto)]

mod drift;
mod gap_events;
mod gaps;
pub mod laws;
mod packet_queue;
mod watched;
pub mod windows;

pub use gap_events::{push_gap_if, push_gaps};
pub use gaps::{LONGEST_GAP, LONGEST_SECONDS, PidGaps};
pub use packet_queue::{ClockPid, MOST_WAITING, PacketQueue};
