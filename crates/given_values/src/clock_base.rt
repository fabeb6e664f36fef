//! What the system clock shows as a run begins.

/// What the system clock shows as the run begins.
#[derive(Clone, Copy)]
pub enum ClockBase {
    /// What the first program's shows, if that does not pass the end of its 33 bits within 12 hours; else 0.
    Lasting,
    /// What the first program's shows, so that its stamps on the wire stay what they are.
    Input,
    /// This, in units of 90 kHz.
    At(u64),
}
