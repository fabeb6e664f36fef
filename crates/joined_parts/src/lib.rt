//! A recording that was joined from several, its parts one after another.
//!
//! Where a clock falls, or jumps ahead by more than 10 s (ISO/IEC 13818-1, 2.4.3.5), a recording is cut, unless its
//! streams go on meanwhile. One constant moves the stamps and clock references of each part after a cut, so that the
//! part begins where the part before it ends.
//!
//! - `cuts`: where the clocks of a recording jump (`specs/Cuts`).
//! - `stamps`: the DTS of units, each by the clock of its program (`specs/UnitStamps`).
//! - `joins`: the part of each unit, and the constant of each part (`specs/Joins`).
//! - [`part_joins`], [`PartJoins`]: the findings and references of a recording, moved (`specs/Joined`).
//! - [`clock_gaps`]: where the stamps of units jump ahead with their clock (`specs/JumpsAhead`), and where a clock has no
//!   references while its streams go on (`specs/Holes`, `specs/ClockGaps`).
//! - [`falling_pids`]: the streams whose clock goes back (`specs/FallingClocks`).
//! - `map_streams`, `known_maps`, `whole_maps`: each map with the streams of all maps of its program, one PID for its
//!   clock references (`specs/MapStreams`, `specs/WholeMaps`).
//! - `map_pids`: one PID for the maps of each program (`specs/MapPids`).
//! - [`recodings_in`], `carried_pids`: what a PID carries before its coding changes, on a PID of its own
//!   (`specs/Recodings`).
//! - [`one_recording`]: the findings and references of a recording as if it had not been joined (`specs/Recordings`).
//! - [`nothing_else_moves`], [`whole_recording_stays`], [`parts_come_in_order`]: laws over the definitions
//!   (`specs/Laws`).
#![tactic(auto)]

mod carried_pids;
mod cuts;
mod falling_clocks;
mod gap_search;
mod holes;
mod joined;
mod joins;
mod jumps;
mod known_maps;
mod laws;
mod map_pids;
mod map_streams;
mod recodings;
mod recording;
mod stamps;
mod whole_maps;

pub use cuts::Cut;
pub use falling_clocks::falling_pids;
pub use gap_search::{ClockGap, clock_gaps};
pub use joined::{PartJoins, part_joins};
pub use joins::Join;
pub use laws::{nothing_else_moves, parts_come_in_order, whole_recording_stays};
pub use recodings::{Recoding, recodings_in};
pub use recording::one_recording;
pub use stamps::UnitStamp;
