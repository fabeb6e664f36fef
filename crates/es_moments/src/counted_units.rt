//! All that is counted of the units of a stream.

ghost use Rattle.std.specs.Prelude.{◌≡◌, ◌≤◌, ◌<◌, ◌+◌, ◌^◌, All, IfOk};
ghost use Rattle.es_moments.specs.CountedUnits as spec;
ghost use Rattle.es_moments.specs.UnitMoments as at;

use crate::counted_packets::CountedPackets;
use crate::declaration::shorter;
use crate::unit_moments::UnitMoment;
use crate::unit_runs::UnitRuns;
use crate::unit_weights::{UnitWeight, found_weights, unit_weights};
use crate::wire_unit::FoundUnit;
use pes_packet::Unit;
use std::alloc::{AllocError, Allocator, Global};
use std::marker::Model;

/// All that is counted of the units of a stream.
#[derive(Drop)]
pub struct CountedUnits<A: Allocator = Global> {
    /// How many they are.
    pub count: usize,
    /// The least time from one DTS to the next, in units of 90 kHz: at most 90,000, and 90,000 for a single unit.
    pub interval: u32,
    /// The size of the largest unit in bytes, with what its marks take.
    pub largest: usize,
    /// Their packets in rows.
    pub packets: CountedPackets<A>,
    /// Their packets at any pace.
    pub runs: UnitRuns<A>,
}

// A contract sees its parts as they are seen.
impl<A: Allocator> Model for CountedUnits<A> {
    ghost use Rattle.es_moments.specs.CountedUnits.{CountedUnitsView};

    ghost Value = { CountedUnitsView };

    ghost view = { λ c. record {
      count = c.count;
      interval = c.interval;
      largest = c.largest;
      packets = c.packets;
      runs = c.runs;
    } };
}

/// Returns the size of the largest unit.
pub(crate) fn largest_of(weights: &[UnitWeight]) -> usize
    requires { All spec.IsWeight weights.now }
    ensures value { result ≡ spec.weighed_size weights.now }
    ensures bound { result < 2 ^ 63 + 28 }
{
    let mut greatest = 0;
    for weight in weights {
        greatest = greatest.max(weight.size);
    }
    greatest
}

// Returns the least time from one DTS to the next, of units after a DTS.
fn interval_after(before: u64, weights: &[UnitWeight]) -> u32
    ensures value { result ≡ spec.weighed_after before weights.now }
    ensures bound { result ≤ 90000 }
{
    let mut least = 90_000;
    let mut last = before;
    for weight in weights {
        least = shorter(least, weight.dts.saturating_sub(last));
        last = weight.dts;
    }
    least
}

// Returns the least time from one DTS to the next.
#[tactic(auto, unfolding(crate::specs::CountedUnits::weighed_interval))]
fn interval_of(weights: &[UnitWeight]) -> u32
    ensures { result ≡ spec.weighed_interval weights.now }
{
    match weights {
        [] => 90_000,
        [first, rest @ ..] => interval_after(first.dts, rest),
    }
}

// Returns all counts of units with these weights.
#[tactic(auto, unfolding(crate::specs::CountedUnits::weighed_units))]
fn weighed_units<A: Allocator + Clone>(
    alloc: A,
    weights: &[UnitWeight],
) -> Result<CountedUnits<A>, AllocError>
    requires { All spec.IsWeight weights.now }
    ensures { IfOk result (λ c. c ≡ spec.weighed_units weights.now) }
{
    let packets = CountedPackets::of_weights(alloc.clone()?, weights)?;
    let runs = UnitRuns::of_weights(alloc, weights)?;
    Ok(CountedUnits {
        count: weights.len(),
        interval: interval_of(weights),
        largest: largest_of(weights),
        packets,
        runs,
    })
}

impl<A: Allocator + Clone> CountedUnits<A> {
    /// Counts the units of a stream.
    pub fn of_units(alloc: A, all: &[Unit<A>]) -> Result<Self, AllocError>
        ensures { IfOk result (λ c. c ≡ spec.counted_units all.now) }
    {
        let weights = unit_weights(alloc.clone()?, 0, all)?;
        let units = weighed_units(alloc, &weights)?;
        Ok(units)
    }

    /// Counts the units of a stream at these moments, whose bytes stay where they are found.
    pub fn of_found(
        alloc: A,
        moments: &[UnitMoment],
        found: &[FoundUnit<'_, A>],
    ) -> Result<Self, AllocError>
        ensures { IfOk result (λ c. c ≡ spec.counted_units (at.units_at moments.now found.now)) }
    {
        let weights = found_weights(alloc.clone()?, 0, moments, found)?;
        let units = weighed_units(alloc, &weights)?;
        Ok(units)
    }
}
