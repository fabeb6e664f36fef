//! A record judged, and its unit fed.

ghost use Rattle.std.specs.Prelude.{◌≡◌, false, option_map};
ghost use Rattle.on_air.specs.declared.refusals.AirRefusal.TheVariants.{Feed};
ghost use Rattle.on_air.specs.Airing.{Run, Air, changes_run, is_far_from, is_tick, job_of};
ghost use Rattle.on_air.specs.AirStates.{Carries, Admits};

use crate::refusals::{RefusedUnit, refused_unit};
use mux_core::Mux;
use pes_packet::Unit;
use std::alloc::Allocator;

// Returns whether a record is a tick: stream 255, without bytes.
fn is_tick<A: Allocator>(stream: u8, unit: &Unit<A>) -> bool
    ensures { result ≡ is_tick (stream, unit.now) }
{
    stream == 255 && unit.bytes.is_empty()
}

/// Feeds the unit of a record that is not too far ahead to its stream, and returns it with the cause if it is refused. A
/// tick is not fed.
pub(crate) fn admit<A: Allocator>(
    mux: &mut Mux<A>,
    stream: u8,
    unit: Unit<A>,
) -> Option<RefusedUnit>
    ensures { (run : Run) (a : Air) → Carries run (job_of a) mux.old →
        is_far_from run a (stream, unit) ≡ false → changes_run run (stream, unit) ≡ false →
        Admits run a (stream, unit) (option_map Feed result) mux.new }
{
    if is_tick(stream, &unit) {
        return None;
    }
    match mux.feed(stream, unit) {
        Ok(()) => None,
        Err((cause, unit)) => Some(refused_unit(stream, &unit, cause)),
    }
}
