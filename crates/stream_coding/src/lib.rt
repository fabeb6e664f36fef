//! How an elementary stream is coded.
//!
//! The coding is the coding of its entry in the program map (`specs/Codings`), with the profile, level, video buffer or
//! number of channels (`specs/Sequences`, `Avc`, `Hevc`, `Adts`) from the structures of its first access unit
//! (`specs/Structures`). `specs/AccessPoints` defines the units where a decoder may begin, `specs/Profiles` the profile
//! and level by their numbers.
#![tactic(auto)]

mod ac3;
mod access_points;
mod adts;
mod avc;
mod avc_vui;
mod coding;
mod hevc;
mod jpeg2000;
mod pcm;
mod profiles;
mod rbsp;
mod sei;
mod sequences;
mod structures;

pub use ac3::is_ac3;
pub use access_points::is_access_point;
pub use coding::{AvcSequence, Coding, HevcSequence, J2kLimits, MpegSequence, coding_of};
pub use profiles::{ProfileLevel, profile_level};
