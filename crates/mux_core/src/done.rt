//! The end of a run, and why no multiplexer is made.

use thiserror::Error;

/// 2^40 slots are written.
#[derive(Clone, Copy, Debug, PartialEq, Eq, Error)]
#[error("2^40 slots are written")]
pub struct Done;

/// Why no multiplexer is made. The first that holds is given.
#[derive(Clone, Copy, Debug, PartialEq, Eq, Error)]
pub enum NewError {
    /// The capacity is not within 1 to 1,048,576 units.
    #[error("the capacity is not within 1 to 1048576 units")]
    Capacity,
    /// The first plan runs for no period, or for more than 2^40 slots.
    #[error("the first plan runs for no period, or for more than 2^40 slots")]
    Periods,
    /// There is no memory for the units that wait.
    #[error("there is no memory for the units that wait")]
    Memory,
}
