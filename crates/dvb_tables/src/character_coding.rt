//! Texts as service information carries them (EN 300 468, annex A).

ghost use Rattle.std.specs.Prelude.{◌≡◌, ◌≤◌, ◌↔◌, List, ℕ, length, IsOk, IfOk};
ghost use Rattle.dvb_tables.specs.CharacterCoding.{is_plain_character, is_plain, text_bytes, text_error_code};

use arrayvec::ArrayVec;
use std::marker::Model;
use thiserror::Error;

/// Selects UTF-8 for the bytes after it (EN 300 468, annex A, table A.3).
pub const UTF_8: u8 = 0x15;

/// Why a text is refused.
#[derive(Clone, Copy, Debug, PartialEq, Eq, Error)]
pub enum TextError {
    #[error("the text takes more bytes than its place holds")]
    TooLong,
}

impl TextError {
    /// Returns the number of the refusal: 1 TooLong.
    pub fn code(self) -> u8
        ensures { result ≡ text_error_code self }
    {
        match self {
            TextError::TooLong => 1,
        }
    }
}

/// A text of at most `N` bytes, as it is written: a text of ASCII letters, digits and spaces alone (or
/// of nothing) is plain, in the default table; any other text is 0x15 and its UTF-8 bytes. A contract
/// sees these bytes.
#[derive(Drop)]
pub struct Text<const N: usize> {
    bytes: ArrayVec<u8, N>,
}

impl<const N: usize> Model for Text<N> {
    ghost Value = { List ℕ };

    ghost view = { λ t. t.bytes.items };
}

impl<const N: usize> Text<N> {
    /// Returns the coded text, or 1 TooLong if it takes more than `N` bytes.
    pub fn new(text: &str) -> Result<Self, TextError>
        ensures fits { IsOk result ↔ (length (text_bytes text.now) ≤ N) }
        ensures value { IfOk result (λ t. t ≡ text_bytes text.now) }
    {
        let mut bytes = ArrayVec::new();
        if !is_plain(text.as_bytes()) && bytes.try_push(UTF_8).is_err() {
            return Err(TextError::TooLong);
        }
        if bytes.try_extend_from_slice(text.as_bytes()).is_err() {
            return Err(TextError::TooLong);
        }
        Ok(Text { bytes })
    }

    /// Returns the bytes as they are written.
    pub fn as_bytes(&self) -> &[u8]
        ensures value { result.now ≡ self.now }
        ensures fits { length self.now ≤ N }
    {
        self.bytes.as_slice()
    }
}

/// Returns whether all bytes are ASCII letters, digits and spaces: the default character table has such a text as it is
/// (EN 300 468, annex A).
#[tactic(auto, unfolding(crate::specs::CharacterCoding::is_plain))]
pub fn is_plain(bytes: &[u8]) -> bool
    ensures { result ≡ is_plain bytes.now }
{
    bytes.iter().all(|byte| is_plain_character(*byte))
}

// Returns whether a byte is an ASCII letter, a digit or a space.
#[tactic(auto, unfolding(crate::specs::CharacterCoding::is_plain_character))]
fn is_plain_character(byte: u8) -> bool
    ensures { result ≡ is_plain_character byte }
{
    byte == b' ' || byte.is_ascii_alphanumeric()
}
