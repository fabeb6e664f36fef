//! Shares of the slots of an output.

/// Shares are counted in this number of parts of all slots, 2^40.
pub const PARTS: u64 = 1 << 40;
