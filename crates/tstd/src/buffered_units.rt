//! Bytes in a main buffer, by the moment until which they stay.
ghost use Rattle.std.specs.Prelude.{◌≡◌, ◌<◌, ◌^◌, true, filter};
ghost use Rattle.tstd.specs.BufferedUnits.{is_buffered, all_bytes, all_until};

use std::alloc::Allocator;

/// The bytes of a unit, which stay until the same moment.
#[derive(Clone, Copy, Drop)]
pub struct BufferedUnit {
    pub until: u128,
    pub bytes: u64,
}

// Returns whether the bytes are still in the buffer at a moment.
fn is_buffered(unit: &BufferedUnit, moment: u128) -> bool
    ensures { result ≡ is_buffered moment unit.now }
{
    moment < unit.until
}

/// Drops the bytes that are no longer in the buffer.
pub fn drop_removed<A: Allocator>(units: &mut Vec<BufferedUnit, A>, moment: u128)
    ensures { units.new.items ≡ filter (is_buffered moment) units.old.items }
{
    units.retain(|unit| is_buffered(unit, moment));
}

/// Returns the number of bytes, and a moment until which all stay.
pub fn tally(units: &[BufferedUnit]) -> (u64, u128)
    requires { all_bytes units.now < 2 ^ 64 }
    ensures bytes { result.0 ≡ all_bytes units.now }
    ensures until { all_until result.1 units.now ≡ true }
{
    let mut bytes = 0;
    let mut until = u128::MAX;
    for unit in units {
        bytes += unit.bytes;
        until = until.min(unit.until);
    }
    (bytes, until)
}
