//! Why a description is refused.

ghost use Rattle.std.specs.Prelude.{◌≡◌};

use thiserror::Error;

/// Why a description is refused.
#[derive(Clone, Copy, Debug, PartialEq, Eq, Error)]
pub enum DescFault {
    #[error("the text is not TOML")]
    Text,
    #[error("a key is not one of a description")]
    UnknownKey,
    /// A key by the number of its refusal, and the place of the program, stream, event, private table or transport stream of
    /// the network in its array, from 0; 0 for the document and its network.
    #[error("a key is missing, of another type or out of range")]
    Key(u8, usize),
    #[error("two PIDs are equal")]
    EqualPids,
    #[error("two program numbers are equal")]
    EqualNumbers,
    #[error("an event begins before the one before it in its program ends")]
    EventOrder(usize),
    #[error("a PMT, the NIT or the SDT would be too long: the number is that of the table")]
    TooLong(usize),
}

impl DescFault {
    ghost use Rattle.description_keys.specs.Codes.{fault_code, fault_item};

    /// Returns the number of the refusal.
    pub fn code(self) -> u8
        ensures { result ≡ fault_code self }
    {
        match self {
            DescFault::Text => 1,
            DescFault::UnknownKey => 2,
            DescFault::Key(code, _) => code,
            DescFault::EqualPids => 80,
            DescFault::EqualNumbers => 81,
            DescFault::EventOrder(_) => 82,
            DescFault::TooLong(_) => 83,
        }
    }

    /// Returns the place of the refused part in its array, and 0 if there is no array; for a table that would
    /// be too long, its number.
    pub fn item(self) -> usize
        ensures { result ≡ fault_item self }
    {
        match self {
            DescFault::Key(_, item) | DescFault::EventOrder(item) | DescFault::TooLong(item) =>
                item,
            _ => 0,
        }
    }
}

/// Why no description is read.
#[derive(Clone, Copy, Debug, PartialEq, Eq, Error)]
pub enum DescError {
    #[error("the description is refused")]
    Refused(DescFault),
    #[error("no memory for the description")]
    Memory,
}
