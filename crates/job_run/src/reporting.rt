//! Which lines are reported.

/// Which lines are reported.
#[derive(Clone, Copy)]
pub struct Reporting {
    /// Whether the input is declared to end with its last PES packets: then an unknown end is no warning.
    pub whole: bool,
    /// Whether only refusals are reported, and devices that fail.
    pub quiet: bool,
    /// Whether lines are reported too that say of no loss.
    pub all: bool,
}
