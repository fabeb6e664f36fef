//! What a stream declares of its units.

ghost use Rattle.std.specs.Prelude.{◌≡◌, IfOk, map, option_map, slice_get};
ghost use Rattle.explained_jobs.specs.UnitWords as spec;

use description_parts::StreamDescription;
use std::alloc::{AllocError, Global};
use unit_timing::allowance::Allowance;

/// The limits of the units of a stream, times in units of 90 kHz.
#[derive(Clone, Copy)]
pub struct UnitLimits {
    pub pid: u16,
    /// The greatest unit, in bytes.
    pub size: u32,
    /// The least time between two units.
    pub interval: u32,
    /// The longest time from the arrival of a unit to its decoding.
    pub lead: u32,
    /// The longest time from the decoding of a unit to its presentation.
    pub pts_limit: u32,
    /// The most packets of units in a row.
    pub allowance: Allowance,
}

// Returns the limits that a stream declares.
fn limits_of(stream: &StreamDescription) -> UnitLimits
    ensures { result ≡ spec.limits_of stream.now }
{
    UnitLimits {
        pid: stream.pid,
        size: stream.size,
        interval: stream.interval,
        lead: stream.lead,
        pts_limit: stream.pts_limit,
        allowance: stream.allowance,
    }
}

/// Returns the limits that the stream of a number declares, if that stream exists.
pub(crate) fn declared_limits(streams: &[StreamDescription], number: u8) -> Option<UnitLimits>
    ensures { result ≡ option_map spec.limits_of (slice_get streams.now number) }
{
    match streams.get(number as usize) {
        Some(stream) => Some(limits_of(stream)),
        None => None,
    }
}

/// Returns the limits of a number, if there are any.
pub(crate) fn limits_at(streams: &[UnitLimits], number: u8) -> Option<UnitLimits>
    ensures { result ≡ slice_get streams.now number }
{
    match streams.get(number as usize) {
        Some(limits) => Some(*limits),
        None => None,
    }
}

/// Returns the limits of each stream.
pub fn stream_limits(
    alloc: Global,
    streams: &[StreamDescription],
) -> Result<Vec<UnitLimits>, AllocError>
    ensures { IfOk result (λ limits. limits.items ≡ map spec.limits_of streams.now) }
{
    streams
        .iter()
        .map(|stream| limits_of(stream))
        .collect(alloc)
}
