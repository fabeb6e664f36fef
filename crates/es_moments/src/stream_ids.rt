//! The stream_id of a stream's units.

ghost use Rattle.std.specs.Prelude.{◌≡◌};
ghost use Rattle.es_moments.specs.StreamIds as spec;

use crate::wire_unit::FoundUnit;
use pes_packet::is_unit_id;
use std::alloc::Allocator;

/// Returns the place of the first unit of another stream_id than this one.
pub fn first_other<A: Allocator>(id: u8, units: &[FoundUnit<'_, A>]) -> Option<usize>
    ensures { result ≡ spec.first_other_at id 0 units.now }
{
    for (at, unit) in units.iter().enumerate() {
        if unit.stream_id != id {
            return Some(at);
        }
    }
    None
}

/// Returns the stream_id that is written for a stream_id of the input: AC-3 that has 253, extended_stream_id, is
/// written as private_stream_1; `None` for a stream_id that no unit may have.
#[tactic(auto, unfolding(crate::specs::StreamIds::written_id))]
pub fn written_id(id: u8, is_ac3: bool) -> Option<u8>
    ensures { result ≡ spec.written_id id is_ac3 }
{
    if id == 253 && is_ac3 {
        return Some(189);
    }
    if is_unit_id(id) { Some(id) } else { None }
}
