//! Events of the two buffers of video, as plain data (ISO/IEC 13818-1, 2.4.2.3, the leak method).
ghost use Rattle.std.specs.Prelude.{◌≡◌};
ghost use Rattle.events.specs.LateCauses.{word_of};

/// Why a unit of video is not whole in the elementary stream buffer when it is decoded.
#[derive(Clone, Copy, Debug, PartialEq, Eq)]
pub enum LateCause {
    /// The multiplexing buffer alone makes it late: the multiplex sent its bytes too late, or too many of them at a
    /// time.
    Multiplex,
    /// The elementary stream buffer was full: the stream does not keep to its own video buffer.
    FullBuffer,
}

impl LateCause {
    /// Returns its word in a line.
    #[tactic(auto, unfolding(crate::specs::LateCauses::word_of))]
    pub fn word(self) -> &'static str
        ensures { result.now ≡ word_of self }
    {
        match self {
            LateCause::Multiplex => "mux",
            LateCause::FullBuffer => "full",
        }
    }
}

/// A unit of video is not whole in the elementary stream buffer when it is decoded.
#[derive(Clone, Copy)]
pub struct ElementaryLate {
    pub pid: u16,
    pub packet: u64,
    /// Its DTS.
    pub due: u128,
    /// When its last byte enters the elementary stream buffer, and how much later that is.
    pub left: u128,
    pub by: u128,
    pub bytes: u64,
    pub cause: LateCause,
}
