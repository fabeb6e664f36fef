//! A packet and its refusals.
ghost use Rattle.std.specs.Prelude.{◌≡◌};

use crate::adaptation::Adaptation;
use crate::header::Header;
use thiserror::Error;

/// A transport packet (ISO/IEC 13818-1, 2.4.3.2). Its slices borrow from the 188 bytes that were read.
#[derive(Clone, Copy, Debug)]
pub struct Packet<'a> {
    pub header: Header,
    pub adaptation: Option<Adaptation<'a>>,
    pub payload: Option<&'a [u8]>,
}

/// Why 188 bytes are no packet. The first of these that holds is given.
#[derive(Clone, Copy, Debug, PartialEq, Eq, Error)]
pub enum PacketError {
    #[error("the first byte is not 0x47")]
    Sync,
    #[error("adaptation_field_control is 0, which is reserved")]
    ReservedControl,
    #[error("the adaptation field is longer than the packet")]
    FieldTooLong,
    #[error("a part of the adaptation field is longer than the field")]
    PartTooLong,
}

impl PacketError {
    ghost use Rattle.ts_packet.specs.Codes.{code_of};

    /// Returns the refusal's number, from 1 in the order of the checks.
    pub fn code(self) -> u8
        ensures { result ≡ code_of self }
    {
        match self {
            PacketError::Sync => 1,
            PacketError::ReservedControl => 2,
            PacketError::FieldTooLong => 3,
            PacketError::PartTooLong => 4,
        }
    }
}
