//! Why the demultiplexer does not go on.
use thiserror::Error;

/// Why bytes were not taken.
#[derive(Clone, Copy, Debug, PartialEq, Eq, Error)]
pub enum DemuxError {
    /// No memory. The first `taken` bytes were taken, each packet whole or not at all; the rest may be given again.
    #[error("out of memory")]
    Memory { taken: usize },
    /// The stream has ended.
    #[error("the stream has ended")]
    Ended,
}

impl DemuxError {
    ghost use Rattle.std.specs.Prelude.{◌≡◌};
    ghost use Rattle.demux.specs.Codes.{code_of};

    /// Returns the number of this refusal, from 1.
    pub fn code(self) -> u8
        ensures { result ≡ code_of self }
    {
        match self {
            DemuxError::Memory { .. } => 1,
            DemuxError::Ended => 2,
        }
    }
}
