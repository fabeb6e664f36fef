//! Buffers for an elementary stream, by its coding.
//!
//! A decoder has the buffers of the standards (`specs/Video`, `specs/Buffers`), or the buffers that are given.
//! `specs/Stays` says how long a byte of a stream may stay in a decoder.
#![tactic(auto)]

mod buffers;
mod stays;
mod video_buffers;

pub use buffers::{
    Buffers, PidBuffers, buffers_of, coding_holding, given_buffers, joined_buffers_of,
    multiplexing_of,
};
pub use stays::longest_stay;
