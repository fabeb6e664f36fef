//! What a packet of a stream found in its buffers.

/// What the bytes of a packet, or of a part of it, found in two buffers of their stream: the transport buffer and the
/// main buffer, or of video MB (`transport`) and EB (`main`).
#[derive(Clone, Copy)]
pub struct TraceRow {
    pub packet: u64,
    /// When the last of them leaves the transport buffer, in the time of the buffers.
    pub left: u128,
    /// The most bytes in the transport buffer when any of these bytes arrived, that byte included.
    pub transport: u128,
    /// The most bytes in the main buffer when any of these bytes entered it, that byte included; 0 if none did.
    pub main: u64,
    /// The least that any of these bytes found in the main buffer; `None` if none entered it.
    pub least: Option<u64>,
    /// Whether a unit begins with them that is not the first.
    pub begins: bool,
}
