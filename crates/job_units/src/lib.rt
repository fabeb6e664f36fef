//! Units of a job's streams, and what is declared of them.
//!
//! `wire_streams::wire_streams` returns the streams with units that a job can carry (`specs/WireStreams`,
//! `specs/OddStreams`, `specs/StreamKinds`), `moved_streams::moved_streams` their moments (`specs/Moments`), and
//! `timed_streams::timed_streams` moves the bytes of the units out of the findings (`specs/TakenStreams`).
//! `declarations::count_units` and `choices::choices` return what a description declares of them
//! (`specs/Declarations`), `buffer_warnings::push_buffer_warnings` appends the warnings about their buffers
//! (`specs/BufferWarnings`). `crossing_frames` finds frames of sound that cross units (`specs/CrossingFrames`),
//! `frame_rests` the time after a unit's last frame (`specs/FrameRests`).
#![tactic(auto)]

// Units as on the wire.
mod odd_streams;
pub mod stream_kinds;
pub mod wire_streams;

// Units at moments of a run.
pub mod moved_streams;
pub mod pts_limit;
pub mod timed_streams;

// Declarations of units.
mod alike;
pub mod buffer_warnings;
pub mod choices;
pub mod crossing_frames;
pub mod declarations;
mod frame_choices;
mod frame_rests;
mod greater_buffers;
pub mod laws;
mod share_sums;
pub mod stream_measures;

pub use declarations::{StreamChoice, UnitCounts};
pub use moved_streams::FirstDts;
pub use stream_measures::StreamMeasures;
