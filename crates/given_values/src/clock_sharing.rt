//! Which programs share one clock.

/// Which programs share one clock (ISO/IEC 13818-1, 2.4.4.9), if there are two or more of them.
#[derive(Clone, Copy)]
pub enum ClockSharing {
    /// The programs without video.
    WithoutVideo,
    /// No programs: each has a clock of its own.
    Each,
    /// All programs.
    One,
}
