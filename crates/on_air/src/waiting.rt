//! Whether a read of the next record may wait.

ghost use Rattle.std.specs.Prelude.{◌≡◌};
ghost use Rattle.on_air.specs.AirStates.{holds_record};

use byteorder::{BigEndian, ByteOrder};
use unit_records::size_in;

// The number of bytes of a record before its unit.
const HEAD_SIZE: usize = 21;

/// Returns whether the record at the front is whole in these bytes.
pub(crate) fn holds_record(held: &[u8]) -> bool
    ensures { result ≡ holds_record held.now }
{
    if held.len() < HEAD_SIZE {
        return false;
    }
    let size = size_in(BigEndian::read_u32(&held[1..]));
    size <= held.len() - HEAD_SIZE
}
