//! The counts of the access units of a stream's units.

/// The number of last access units of a unit whose bytes are summed: all but the first of 64.
pub const SUMS: usize = 63;

/// The counts of the access units of a stream's units, each of which is removed from the main buffer at its own decoding
/// time (ISO/IEC 13818-1, 2.4.2.3).
#[derive(Clone, Copy)]
pub struct FrameCounts {
    /// The most access units of a unit.
    pub frames: u8,
    /// The longest time from one access unit of a unit to the next, in units of 90 kHz.
    pub frame: u32,
    /// The least time from the last access unit of a unit to the next unit, in units of 90 kHz.
    pub rest: u32,
    /// The most bytes of the last 1, 2, .. 63 access units of a unit, without its first.
    pub left: [u32; SUMS],
}
