//! What the bytes of a row found.

use crate::leaving::Leaving;

/// What the bytes of one row found in the buffers of their stream.
#[derive(Clone, Copy)]
pub struct RowFound {
    /// The most bytes that were in the transport buffer when any of them arrived, itself included.
    pub transport: u128,
    /// The most bytes that were in the main buffer when any of them entered it; 0 if none does.
    pub main: u64,
    /// The least that any of them found in the main buffer, itself not counted; `None` if none enters it.
    pub least: Option<u64>,
}

/// What the payload bytes of one row found in the buffers of their stream, and how they leave the first of them.
#[derive(Clone, Copy)]
pub struct Carried {
    pub found: RowFound,
    pub leaving: Leaving,
}

/// What bytes that left the transport buffer found in the two buffers of their video.
#[derive(Clone, Copy)]
pub struct VideoFound {
    /// The most bytes that were in the multiplexing buffer when any of them arrived, itself included.
    pub multiplexing: u128,
    /// The most bytes that were in the elementary stream buffer when any of them entered it.
    pub elementary: u64,
}
