//! A second behind the clock.

ghost use Rattle.std.specs.Prelude.{◌≡◌, ◌≤◌, ◌<◌, ◌+◌, ◌^◌, IfSome};
ghost use Rattle.fed_streams.specs.Ticks as spec;

use es_moments::distance;

// How far behind the clock a tick is, in units of 90 kHz: a second.
const BEHIND: u64 = 90_000;

// The furthest that the clock is taken to be after the greatest DTS so far: 11 s.
const MAX_AFTER: u64 = 990_000;

// The range of stamps, and half of it.
const RANGE: u64 = 1 << 33;

const HALF: u64 = 1 << 32;

// The moment a second behind a clock that is so long after the greatest DTS so far, modulo 2^33.
#[tactic(auto, unfolding(crate::specs::Ticks::late_by))]
fn late_by(greatest: u64, ahead: u64) -> Option<u64>
    requires greatest { greatest ≤ 2 ^ 52 }
    requires ahead { ahead < 2 ^ 33 }
    ensures { result ≡ spec.late_by greatest ahead }
{
    if ahead <= MAX_AFTER {
        return Some((greatest + ahead).saturating_sub(BEHIND));
    }
    if ahead < HALF {
        return None;
    }
    Some(
        greatest
            .saturating_sub(RANGE - ahead)
            .saturating_sub(BEHIND),
    )
}

/// Returns the moment a second behind the clock, which shows `shown`, by the constant and the greatest DTS so far.
#[tactic(auto, unfolding(crate::specs::Ticks::late_of))]
pub fn late_of(base: Option<u64>, greatest: u64, shown: u64) -> Option<u64>
    requires base { IfSome base (λ base. base < 2 ^ 33) }
    requires greatest { greatest ≤ 2 ^ 52 }
    ensures { result ≡ spec.late_of base greatest shown }
{
    match base {
        None => None,
        Some(base) => late_by(greatest, distance(base + greatest, shown)),
    }
}
