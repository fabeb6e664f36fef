//! PES packets of sound, cut so that each has at most a number of frames.
//!
//! A PES packet may have any number of frames of sound (ISO/IEC 13818-1, 2.4.3.7); its PTS is that of the first one.
//! A packet that is whole frames is cut where frames begin; each new packet has the PTS of its own first frame.
//!
//! - [`SoundPid`]: a stream of sound, by its PID and the kind of its frames.
//! - [`cut_packets`]: the findings of a stream, in which its packets are cut (`specs/CutPackets`).
//! - [`same_bytes`], [`few_frames`]: laws over the definitions (`specs/Laws`).
#![tactic(auto)]

mod cutting;
mod known_frames;
mod laws;
mod pieces;

pub use cutting::cut_packets;
pub use known_frames::SoundPid;
pub use laws::{few_frames, same_bytes};
