//! When units may be due.

/// The moments between which a unit is due, in units of 90 kHz.
#[derive(Clone, Copy)]
pub struct Due {
    /// The due time of the first unit of all.
    pub earliest: u64,
    /// The greatest so far, where the clock of the stream is known: a unit comes within 10 s after it.
    pub greatest: Option<u64>,
}
