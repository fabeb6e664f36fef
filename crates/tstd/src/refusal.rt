//! Why bytes can't be measured.

ghost use Rattle.std.specs.Prelude.{◌≡◌};

use thiserror::Error;
use ts_packet::PacketError;

/// Why bytes can't be measured. The first of these that holds is given; memory may run out before.
#[derive(Clone, Copy, Debug, PartialEq, Eq, Error)]
pub enum MeasureError {
    /// The bytes are no whole number of packets.
    #[error("the bytes are no whole number of packets")]
    Length,
    /// The packet of this index can't be read.
    #[error("packet {0} is none: {1}")]
    Packet(u64, PacketError),
    /// A unit names no stream of the description or has no size that its stream declares, or the payloads of a stream
    /// are no beginning of its units' PES packets.
    #[error("the bytes carry other units")]
    Carried,
    /// Out of memory.
    #[error("out of memory")]
    Memory,
}

impl MeasureError {
    ghost use Rattle.tstd.specs.Codes.{code_of};

    /// Returns the refusal's number, from 1 in the order of the checks; out of memory has none.
    pub fn code(self) -> Option<u8>
        ensures { result ≡ code_of self }
    {
        match self {
            MeasureError::Length => Some(1),
            MeasureError::Packet(_, _) => Some(2),
            MeasureError::Carried => Some(3),
            MeasureError::Memory => None,
        }
    }
}
