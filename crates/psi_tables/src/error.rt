//! Why bytes are no section or no table, or why one is not written.

use std::fmt;
use thiserror::Error;

/// The refusals of sections and tables, in the order of their numbers.
#[derive(Clone, Copy, Debug, PartialEq, Eq, Error)]
pub enum SectionError {
    /// Fewer than 3 bytes, or fewer than section_length names.
    #[error("the section does not end in these bytes")]
    Short,
    /// section_length is over the greatest of its table, or too small for the long form.
    #[error("section_length is out of range")]
    Length,
    /// The check word over a section of the long form is not 0.
    #[error("the check word is wrong")]
    CheckWord,
    /// Another table_id or another form.
    #[error("the section is of another table")]
    Syntax,
    /// A loop or a length in the body does not fit.
    #[error("the body is not of whole parts")]
    Body,
    /// The section would be longer than its table allows.
    #[error("the section would be too long")]
    TooLong,
}

impl SectionError {
    ghost use Rattle.std.specs.Prelude.{◌≡◌};
    ghost use Rattle.psi_tables.specs.Codes.{code_of};

    /// Returns the number of this refusal, from 1.
    pub fn code(self) -> u8
        ensures { result ≡ code_of self }
    {
        match self {
            SectionError::Short => 1,
            SectionError::Length => 2,
            SectionError::CheckWord => 3,
            SectionError::Syntax => 4,
            SectionError::Body => 5,
            SectionError::TooLong => 6,
        }
    }
}

/// Why a section or a table is not written into a vector of its own.
#[derive(Clone, Copy, Debug, PartialEq, Eq, Error)]
pub enum WriteError {
    /// What `write_to` answers.
    #[error("{0}")]
    Refused(SectionError),
    #[error("out of memory")]
    Memory,
}

impl From<SectionError> for WriteError {
    ghost use Rattle.std.specs.Prelude.{◌≡◌};
    ghost use Rattle.psi_tables.specs.declared.error.WriteError.TheVariants.{Refused};

    ghost from_gives = { λ error made. made ≡ Refused error };

    fn from(error: SectionError) -> WriteError {
        WriteError::Refused(error)
    }
}
