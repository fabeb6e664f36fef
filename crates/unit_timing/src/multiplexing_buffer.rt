//! A video stream's declaration of its multiplexing buffer.

/// The multiplexing buffer MB between a transport buffer and an elementary stream buffer EB (ISO/IEC 13818-1, 2.4.2.3).
/// Bytes of PES packets enter it as they leave the transport buffer, and leave it for EB by the leak method.
#[derive(Clone, Copy, PartialEq, Eq)]
pub struct MultiplexingBuffer {
    /// The rate of the leak into the elementary stream buffer, Rbx, in bits a second.
    pub rbx: u32,
    /// Its size, MBS, in bytes.
    pub size: u32,
}
