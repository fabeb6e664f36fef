//! What references in a row give.
ghost use Rattle.std.specs.Prelude.{◌≡◌, ◌<◌, ◌≤◌, ◌^◌, IfSome};
ghost use Rattle.arrival.specs.Clock.{IsClockLine};
ghost use Rattle.tr101290.specs.Measures as spec;

use crate::report::Inaccuracy;
use crate::watch::PcrTiming;
use arrival::{Line, PcrSample, TimedSample};
use clock27::Rate;
use clock27::units::BYTE_TICKS_AT_1BPS;

/// Returns the rate that two references give, in bits a second, rounded down.
pub(crate) fn rate_on(line: &Line) -> u128
    requires { IsClockLine line.now }
    ensures { result ≡ spec.rate_on line.now }
{
    u128::from(line.bytes) * BYTE_TICKS_AT_1BPS / u128::from(line.ticks)
}

// Returns the time of bytes at a constant rate, in ticks, rounded up.
fn time_of_bytes(rate: Rate, bytes: u64) -> u128
    ensures { result ≡ spec.time_of_bytes rate bytes }
{
    (u128::from(bytes) * BYTE_TICKS_AT_1BPS).div_ceil(u128::from(rate.bits_per_second()))
}

/// Returns the time since the reference before, in ticks, rounded up.
#[tactic(auto, unfolding(crate::specs::Measures::interval_after, crate::specs::Measures::interval_from))]
pub(crate) fn interval_after(
    timing: PcrTiming,
    last: &Option<TimedSample>,
    sample: &PcrSample,
    line: &Option<Line>,
) -> Option<u128>
    ensures { result ≡ spec.interval_after timing last.now sample.now line.now }
{
    let before = last.as_ref()?;
    match timing {
        PcrTiming::ConstantRate(rate) => Some(time_of_bytes(
            rate,
            sample.byte.saturating_sub(before.sample.byte),
        )),
        PcrTiming::References | PcrTiming::Stamps => {
            line.as_ref().map(|line| u128::from(line.ticks))
        }
    }
}

// Returns how far a reference is from an even clock through the reference before, in nanoseconds, rounded up.
fn nanoseconds_off(line: &Line, bytes: u64, ticks: u64) -> u128
    requires line { IsClockLine line.now }
    requires some { 0 < bytes }
    requires few { bytes ≤ 2 ^ 41 }
    requires short { ticks ≤ 2 ^ 28 }
    ensures { result ≡ spec.nanoseconds_off line.now bytes ticks }
{
    let value = u128::from(line.ticks) * u128::from(bytes);
    let place = u128::from(line.bytes) * u128::from(ticks);
    let parts = value.saturating_sub(place) + place.saturating_sub(value);
    (parts * 1000).div_ceil(27 * u128::from(bytes))
}

fn off_rate(rate: Rate, line: &Line) -> Inaccuracy
    requires { IsClockLine line.now }
    ensures { result ≡ spec.off_rate rate line.now }
{
    Inaccuracy {
        byte: line.byte + line.bytes,
        nanoseconds: nanoseconds_off(line, rate.bits_per_second(), BYTE_TICKS_AT_1BPS as u64),
    }
}

fn off_neighbours(before: &Line, line: &Line) -> Inaccuracy
    requires before { IsClockLine before.now }
    requires line { IsClockLine line.now }
    ensures { result ≡ spec.off_neighbours before.now line.now }
{
    Inaccuracy {
        byte: before.byte + before.bytes,
        nanoseconds: nanoseconds_off(before, before.bytes + line.bytes, before.ticks + line.ticks),
    }
}

/// Returns the inaccuracy that a reference makes known, after whose line and the one before it it is asked.
#[tactic(auto, unfolding(crate::specs::Measures::inaccuracy_by))]
pub(crate) fn inaccuracy_by(
    timing: PcrTiming,
    before: &Option<Line>,
    line: &Option<Line>,
) -> Option<Inaccuracy>
    requires before { IfSome before.now IsClockLine }
    requires line { IfSome line.now IsClockLine }
    ensures { result ≡ spec.inaccuracy_by timing before.now line.now }
{
    match (timing, before, line) {
        (_, _, None) | (PcrTiming::Stamps, _, _) => None,
        (PcrTiming::ConstantRate(rate), _, Some(line)) => Some(off_rate(rate, line)),
        (PcrTiming::References, None, Some(_)) => None,
        (PcrTiming::References, Some(before), Some(line)) => Some(off_neighbours(before, line)),
    }
}
