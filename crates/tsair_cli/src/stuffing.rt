//! The bytes of a record as its frame has them.

ghost use Rattle.std.specs.Prelude.{◌≡◌};
ghost use Rattle.tsair_cli.specs.Frames.{stuffed_byte};

use arrayvec::ArrayVec;

/// The byte before each record (END of RFC 1055).
pub const MARK: u8 = 192;

/// The byte before the code of `MARK` or of itself (ESC).
pub(crate) const ESCAPE: u8 = 219;

/// Means `MARK` after `ESCAPE` (ESC_END).
pub(crate) const ESCAPED_MARK: u8 = 220;

/// Means `ESCAPE` after `ESCAPE` (ESC_ESC).
pub(crate) const ESCAPED_ESCAPE: u8 = 221;

/// Returns the bytes that a byte of a record is written as.
#[tactic(auto, unfolding(crate::specs::Frames::stuffed_byte))]
pub fn stuffed_byte(byte: u8) -> ArrayVec<u8, 2>
    ensures { result.items ≡ stuffed_byte byte }
{
    let mut bytes = ArrayVec::new();
    if byte == MARK {
        bytes.push(ESCAPE);
        bytes.push(ESCAPED_MARK);
    } else if byte == ESCAPE {
        bytes.push(ESCAPE);
        bytes.push(ESCAPED_ESCAPE);
    } else {
        bytes.push(byte);
    }
    bytes
}
