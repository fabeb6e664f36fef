//! Moments of the units of elementary streams, and what a stream declares of them.
//!
//! A unit as a stream carries it (`specs/WireUnits`) has stamps of 33 bits, which become moments of a run by one
//! constant for a clock (`specs/Stamps`, `specs/UnitMoments`), with DTS of their own if several units of a data stream
//! share a DTS (`specs/ApartUnits`) or pictures are decoded in another order (`specs/MadeDts`, `specs/RisingDts`). The
//! least that a stream declares is counted from its units (`specs/Declaration`, `specs/CountedUnits`,
//! `specs/UnitRuns`). [`merged`] puts the units of many streams in the order of their decoding times.
#![tactic(auto)]

pub mod apart;
mod counted_packets;
mod counted_units;
mod declaration;
mod dts_from_pts;
mod made_units;
mod merging;
mod moments;
mod rising_dts;
mod stamps;
mod stream_ids;
mod unit;
mod unit_bytes;
mod unit_moments;
mod unit_runs;
mod unit_weights;
mod wire_unit;

pub use apart::apart_units;
pub use counted_packets::CountedPackets;
pub use counted_units::CountedUnits;
pub use declaration::{max_pts_after, max_unit_size, min_interval};
pub use dts_from_pts::{DtsError, DtsFault, made_dts};
pub use made_units::units_with_made_dts;
pub use merging::merged;
pub use rising_dts::dts_are_made;
pub use stamps::{StampFault, constant, distance, dts_at};
pub use stream_ids::{first_other, written_id};
pub use unit_bytes::{BodyBytes, LentBytes, UnitBytes};
pub use unit_moments::{StampError, UnitMoment, found_moments, moved_unit, units_at};
pub use unit_runs::UnitRuns;
pub use wire_unit::{FoundUnit, WireUnit};
