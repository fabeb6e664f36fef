//! Why bytes are no PES header.

ghost use Rattle.std.specs.Prelude.{◌≡◌};
ghost use Rattle.pes_packet.specs.Codes.{code_of};

use thiserror::Error;

/// Why `read_header` refused the bytes that it was given.
#[derive(Clone, Copy, Debug, PartialEq, Eq, Error)]
pub enum PesError {
    /// The header goes on past the bytes at hand.
    #[error("the bytes end inside the PES header")]
    Short,
    /// The bytes do not begin with packet_start_code_prefix, 00 00 01.
    #[error("the bytes do not begin with a PES start code prefix")]
    Prefix,
    /// The flag bytes do not begin with bits 10, or PTS_DTS_flags are the forbidden 01.
    #[error("the flag bytes of the PES header are none")]
    BadFlags,
    /// A marker bit of a time stamp is 0.
    #[error("a marker bit of a time stamp is 0")]
    Marker,
    /// PES_header_data_length is too small for the stamps, or PES_packet_length for the header.
    #[error("a length in the PES header is too small")]
    Length,
}

impl PesError {
    /// Returns the number of this refusal in lines of findings.
    pub fn code(self) -> u8
        ensures { result ≡ code_of self }
    {
        match self {
            PesError::Short => 1,
            PesError::Prefix => 2,
            PesError::BadFlags => 3,
            PesError::Marker => 4,
            PesError::Length => 5,
        }
    }
}
