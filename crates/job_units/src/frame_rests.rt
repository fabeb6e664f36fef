//! The time from the last frame of a unit of sound to the next unit.

ghost use Rattle.std.specs.Prelude.{◌≡◌, ◌≤◌, ◌-◌, min};
ghost use Rattle.job_units.specs.FrameRests as spec;

use pes_packet::Unit;
use sound_frames::{FrameKind, UnitFrames, unit_frames};

// Returns the number of a unit's frames; 0 if it is not whole frames.
#[tactic(auto, unfolding(crate::specs::FrameRests::count_of))]
fn count_of(frames: Option<UnitFrames>) -> usize
    ensures { result ≡ spec.count_of frames }
{
    match frames {
        None => 0,
        Some(frames) => frames.count,
    }
}

// Returns the decoding time stamp of a unit.
fn due(unit: &Unit) -> u64
    ensures { result ≡ unit.now.dts }
{
    unit.dts
}

// Returns when the last frame of a unit leaves its buffer, if each frame is `time` after the frame before it.
fn last_due(kind: FrameKind, time: u64, unit: &Unit) -> u128
    ensures { result ≡ spec.last_due kind time unit.now }
{
    let count = count_of(unit_frames(kind, unit.bytes.as_slice()));
    let others = count.saturating_sub(1) as u128;
    u128::from(due(unit)) + others * u128::from(time)
}

// Returns the shorter of two times.
fn shorter(least: u32, time: u128) -> u32
    ensures { result ≡ min least time }
{
    if time < u128::from(least) {
        time as u32
    } else {
        least
    }
}

// Returns how long a unit is due after a moment.
fn time_after(due: u128, unit: &Unit) -> u128
    ensures { result ≡ unit.now.dts - due }
{
    u128::from(unit.dts).saturating_sub(due)
}

// Returns the least time to the next unit, for units after a unit whose last frame is due at `due`.
fn rest_after(kind: FrameKind, time: u64, due: u128, units: &[Unit]) -> u32
    ensures value { result ≡ spec.rest_after kind time due units.now }
    ensures bound { result ≤ 90000 }
{
    let mut least = 90_000;
    let mut last = due;
    for unit in units {
        least = shorter(least, time_after(last, unit));
        last = last_due(kind, time, unit);
    }
    least
}

/// Returns the least time from the last frame of a unit to the next unit, in units of 90 kHz, if each frame is `time`
/// after the frame before it: at most 90,000; 0 if a next unit is due no later.
#[tactic(auto, unfolding(crate::specs::FrameRests::least_rest))]
pub(crate) fn least_rest(kind: FrameKind, time: u64, units: &[Unit]) -> u32
    ensures value { result ≡ spec.least_rest kind time units.now }
    ensures bound { result ≤ 90000 }
{
    let Some((first, others)) = units.split_first() else {
        return 90_000;
    };
    rest_after(kind, time, last_due(kind, time, first), others)
}
