//! Curves over time, and the scales and paths of their pictures.
//!
//! - [`Curve`]: takes the values of windows by their numbers, in at most [`MOST_SLOTS`] slots, without losing a peak. A
//!   slot represents one window; for more windows, neighbours are joined, and each slot represents twice as many.
//! - [`Bounds`]: the number of values, the least and the greatest; [`joined`]: the bounds of two sets of values.
//! - [`laws`]: each value lies within the bounds of its slot, and each bound is a value of its slot.
//! - [`PidCurves`]: curves by PID, each with a name and a limit, [`MOST_CURVES`] at most.
//! - [`PidLabels`]: the programs of PIDs and the names of their services, written beside each PID ([`write_label`]).
//! - [`Frame`]: the scales of a picture; [`ChartUnit`]: the unit of its values; [`offset`]: a difference as a value.
//! - [`write_points`], [`write_lows_back`], [`write_overs`]: the paths of a curve.
//! - [`write_grouped`], [`write_tenths`]: a number in groups of three digits, and a number in a greater unit.
#![tactic(auto)]

mod bounds;
mod curve;
mod frame;
mod frame_text;
pub mod laws;
mod numbers;
mod paths;
mod pid_curves;
mod pid_labels;
mod scale;
mod slots;
mod time_scale;

pub use bounds::{Bounds, joined};
pub use curve::Curve;
pub use frame::{ChartUnit, Frame};
pub use frame_text::{unit_name, write_value};
pub use numbers::{write_grouped, write_tenths};
pub use paths::{write_lows_back, write_overs, write_points};
pub use pid_curves::{MOST_CURVES, PidCurve, PidCurves, greatest_value};
pub use pid_labels::{PidLabels, PidProgram, write_label, write_pid, write_service};
pub use scale::{across, height_of, offset};
pub use slots::{MOST_SLOTS, slot_at};
pub use time_scale::{TimeUnit, step_for};
