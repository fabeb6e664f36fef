//! Marks of a stream's units in its packets, as plain data (ISO/IEC 13818-1, 2.4.3.5 and 2.4.3.7).

/// Totals of the marks of a stream's units whose PES header was read.
#[derive(Clone, Copy)]
pub struct MarkTotals {
    pub pid: u16,
    pub units: u64,
    /// Units with random_access_indicator: a decoder may begin with them.
    pub access: u64,
    /// The greatest time from one such unit to the next, by their DTS.
    pub distance: u64,
    /// Units with data_alignment_indicator.
    pub aligned: u64,
}
