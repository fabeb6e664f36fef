//! How a stream is viewed.
use arrival::Arrival;

/// How a stream is viewed.
#[derive(Clone, Copy)]
pub struct ViewOptions {
    /// How the packets arrive that come next.
    pub arrival: Arrival,
    /// The moment of the stream's first byte in ticks of 27 MHz, rounded down: 0 at a constant rate.
    pub origin: u64,
    /// The length of a window in milliseconds; of 0, one.
    pub window: u32,
}
