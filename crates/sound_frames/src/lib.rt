//! Frames of sound, counted, or found as bytes come.
//!
//! `specs/FrameHeaders` has their headers, `specs/Frames` counts the frames of a unit, and `specs/FrameWalks` says
//! which frames are found as the bytes of a unit come, and when each is due. By the law of `specs/FrameSizes` the sums of
//! the last frames of a unit are those of their sizes.
#![tactic(auto)]

mod ac3_frames;
mod frame;
mod frame_headers;
mod frame_walk;
mod frames;
pub mod laws;
mod layers;

pub use frame_headers::{FrameKind, frame_kind};
pub use frame_walk::{FramePart, FrameWalk};
pub use frames::{UnitFrames, unit_frames};
