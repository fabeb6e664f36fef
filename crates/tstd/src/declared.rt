//! Whether units are within the declarations of their streams.
ghost use Rattle.std.specs.Prelude.{◌≡◌, length, slice_get};
ghost use Rattle.std.specs.List.{list_all};
ghost use Rattle.tstd.specs.Refusals.{is_within};

use description_parts::StreamDescription;
use pes_packet::Unit;
use std::alloc::Allocator;

// Returns the size of a unit in bytes.
fn size_of<B: Allocator>(entry: &(u8, Unit<B>)) -> usize
    ensures { result ≡ length entry.now.1.bytes }
{
    entry.1.bytes.len()
}

// Returns whether a unit has from one byte to the greatest size of its stream.
fn is_declared<B: Allocator>(streams: &[StreamDescription], entry: &(u8, Unit<B>)) -> bool
    ensures { result ≡ is_within (length entry.now.1.bytes) (slice_get streams.now entry.now.0) }
{
    let size = size_of(entry);
    match streams.get(entry.0 as usize) {
        None => false,
        Some(stream) => 1 <= size && size <= stream.size as usize,
    }
}

/// Returns whether each unit is within the declaration of its stream.
pub fn are_declared<B: Allocator>(streams: &[StreamDescription], units: &[(u8, Unit<B>)]) -> bool
    ensures { result ≡ list_all (λ unit. is_within (length unit.1.bytes) (slice_get streams.now unit.0)) units.now }
{
    units.iter().all(|entry| is_declared(streams, entry))
}
