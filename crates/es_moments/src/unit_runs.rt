//! The packets of a stream's units at any pace, with equal units in a row counted together.

ghost use Rattle.std.specs.Prelude.{◌≡◌, ◌≤◌, ◌-◌, ◌*◌, ◌^◌, ◌∷◌, ◌++◌, [], ℕ, All, IfOk, List, OnOk, max, min};
ghost use Rattle.std.specs.Prelude.{replicate};
ghost use Rattle.std.specs.List.{flat_map};
ghost use Rattle.pes_packet.specs.AccessUnits.{AccessUnit};
ghost use Rattle.es_moments.specs.CountedUnits.{IsWeight, weighed_runs, weighed_steps};
ghost use Rattle.es_moments.specs.Declaration.{burst_packets};
ghost use Rattle.es_moments.specs.UnitRuns as spec;

use crate::counted_units::largest_of;
use crate::declaration::max_unit_packets;
use crate::unit_weights::{UnitWeight, unit_weights};
use clock27::SLOT_UNITS_AT_1BPS;
use pes_packet::Unit;
use std::alloc::{AllocError, Allocator, Global};
use std::marker::Model;

/// The most units that are counted together.
const MOST_ALIKE: u64 = 65_536;

/// The greatest level that is counted: the greatest number of packets, as a level.
const MAX_LEVEL: u128 = u64::MAX as u128 * SLOT_UNITS_AT_1BPS;

/// Equal units in a row: each is due at the same time after the unit before it, and has as many packets.
#[derive(Clone, Copy)]
pub(crate) struct UnitRun {
    pub time: u64,
    pub packets: u64,
    pub count: u64,
}

/// The units of a stream, as far as their packets at any pace go: 24 bytes of memory for units in a row that come
/// alike.
#[derive(Drop)]
pub struct UnitRuns<A: Allocator = Global> {
    runs: Vec<UnitRun, A>,
    // of a unit of the largest size, with the longest header
    largest: u64,
}

// A contract sees the units one by one.
impl<A: Allocator> Model for UnitRuns<A> {
    ghost use Rattle.std.specs.Prelude.{All};
    ghost use Rattle.std.specs.List.{flat_map};
    ghost use Rattle.es_moments.specs.UnitRuns.{IsRun, UnitRunsView, steps_of};

    ghost Value = { UnitRunsView };

    ghost view = { λ r. record { steps = flat_map steps_of r.runs.items; largest = r.largest } };

    ghost invariant = { λ r. All IsRun r.runs.items };
}

// Counts a further unit, and returns its run; appends the run that it ends.
fn count_unit<A: Allocator>(
    runs: &mut Vec<UnitRun, A>,
    last: UnitRun,
    time: u64,
    packets: u64,
) -> Result<UnitRun, AllocError>
    requires packets { packets ≤ 2 ^ 56 }
    requires last { spec.IsRun last }
    requires runs { All spec.IsRun runs.old.items }
    ensures steps { IfOk result (λ next. flat_map spec.steps_of runs.new.items ++ spec.steps_of next
        ≡ (flat_map spec.steps_of runs.old.items ++ spec.steps_of last)
        ++ record { time = time; packets = packets } ∷ []) }
    ensures next { IfOk result (λ next. spec.IsRun next) }
    ensures runs { OnOk result (All spec.IsRun runs.new.items) }
{
    let is_alike = last.time == time && last.packets == packets;
    if is_alike && last.count < MOST_ALIKE {
        let count = last.count + 1;
        return Ok(UnitRun {
            time,
            packets,
            count,
        });
    }
    runs.push(last)?;
    Ok(UnitRun {
        time,
        packets,
        count: 1,
    })
}

// Returns the runs of units.
fn runs_of<A: Allocator>(alloc: A, weights: &[UnitWeight]) -> Result<Vec<UnitRun, A>, AllocError>
    requires { All IsWeight weights.now }
    ensures steps { IfOk result (λ runs. flat_map spec.steps_of runs.items ≡ weighed_steps 0 weights.now) }
    ensures runs { IfOk result (λ runs. All spec.IsRun runs.items) }
{
    let mut runs = Vec::new(alloc);
    let mut run = UnitRun {
        time: 0,
        packets: 0,
        count: 0,
    };
    let mut last = 0;
    for weight in weights {
        let time = weight.dts.saturating_sub(last);
        run = count_unit(&mut runs, run, time, weight.packets)?;
        last = weight.dts;
    }
    runs.push(run)?;
    Ok(runs)
}

// Returns the level of a pace after the first unit of a run.
fn first_level(pace: u32, level: u128, run: UnitRun) -> u128
    requires level { level ≤ 2 ^ 92 }
    requires run { spec.IsRun run }
    ensures value { result ≡ spec.step_level pace level (spec.step_of run) }
    ensures bound { result ≤ 2 ^ 93 }
{
    let off = u128::from(pace) * u128::from(run.time);
    level.saturating_sub(off) + u128::from(run.packets) * SLOT_UNITS_AT_1BPS
}

// Returns the level after `more` further units of a run.
fn later_level(pace: u32, first: u128, run: UnitRun, more: u64) -> u128
    requires first { first ≤ 2 ^ 93 }
    requires above { run.packets * SLOT_UNITS_AT_1BPS ≤ first }
    requires run { spec.IsRun run }
    requires more { more ≤ 65536 }
    ensures value { result ≡ spec.level_over pace first (replicate more (spec.step_of run)) }
{
    let on = u128::from(run.packets) * SLOT_UNITS_AT_1BPS;
    let off = u128::from(pace) * u128::from(run.time);
    let more = u128::from(more);
    (first + more * on).saturating_sub(more * off).max(on)
}

// Returns the level after the units of a run, and the greatest after any of them.
fn run_levels(pace: u32, level: u128, run: UnitRun) -> (u128, u128)
    requires level { level ≤ 2 ^ 92 }
    requires run { spec.IsRun run }
    ensures after { result.0 ≡ spec.level_over pace level (spec.steps_of run) }
    ensures greatest { result.1 ≡ spec.greatest_over pace level (spec.steps_of run) }
    ensures within { result.0 ≤ max level result.1 }
{
    if run.count == 0 {
        return (level, 0);
    }
    let first = first_level(pace, level, run);
    let last = later_level(pace, first, run, run.count - 1);
    (last, first.max(last))
}

impl<A: Allocator + Clone> UnitRuns<A> {
    /// Returns the units of a stream, with the clock's first value `base0`, which decides which of them have a DTS in
    /// their header.
    pub fn of_units(alloc: A, base0: u64, units: &[Unit<A>]) -> Result<Self, AllocError>
        ensures { IfOk result (λ runs. (id : ℕ) → runs ≡ spec.unit_runs id base0 units.now) }
    {
        let weights = unit_weights(alloc.clone()?, base0, units)?;
        let runs = UnitRuns::of_weights(alloc, &weights)?;
        Ok(runs)
    }
}

impl<A: Allocator> UnitRuns<A> {
    /// Returns the runs of units with these weights.
    pub(crate) fn of_weights(alloc: A, weights: &[UnitWeight]) -> Result<Self, AllocError>
        requires { All IsWeight weights.now }
        ensures { IfOk result (λ runs. runs ≡ weighed_runs weights.now) }
    {
        let runs = runs_of(alloc, weights)?;
        let largest = max_unit_packets(largest_of(weights));
        Ok(UnitRuns { runs, largest })
    }

    /// Returns the packets of the least burst that lets the units keep a pace in bits/s of whole packets, or the
    /// greatest number if they are more; at least as many as a unit of the largest size has, whatever its header.
    pub fn burst_packets(&self, pace: u32) -> u64
        ensures value { result ≡ min (spec.runs_burst pace self.now) (2 ^ 64 - 1) }
        ensures of_units { (id base0 : ℕ) (us : List AccessUnit) → self.now ≡ spec.unit_runs id base0 us →
            result ≡ min (burst_packets id base0 pace us) (2 ^ 64 - 1) }
    {
        let mut level: u128 = 0;
        let mut greatest: u128 = 0;
        for run in &self.runs {
            let (after, most) = run_levels(pace, level, *run);
            greatest = greatest.max(most);
            if MAX_LEVEL < greatest {
                return u64::MAX;
            }
            level = after;
        }
        let burst = greatest.div_ceil(SLOT_UNITS_AT_1BPS) as u64;
        self.largest.max(burst)
    }
}
