//! Stamps of 33 bits as moments of a run.

ghost use Rattle.std.specs.Prelude.{◌≡◌, ◌≤◌, ◌<◌, ◌+◌, ◌^◌, IfSome};
ghost use Rattle.es_moments.specs.Stamps as spec;

use clock27::STAMP_MODULUS;

// The latest DTS of a unit.
const LAST_DTS: u64 = 1 << 52;

/// Why stamps can't be moments of units.
#[derive(Clone, Copy, PartialEq, Eq)]
pub enum StampFault {
    /// The DTS is this long before the DTS of the unit before it; 0 if they are equal.
    DtsNotIncreasing(u64),
    /// The PTS is this long after its DTS, modulo 2^33, which is more than the limit.
    PtsOutOfRange { after: u64, limit: u32 },
    /// The DTS is over 2^52 after the start.
    DtsTooFar,
}

/// Returns how long after a moment when the clock shows one stamp it next shows another stamp.
#[tactic(auto, unfolding(crate::specs::Stamps::distance))]
pub fn distance(from: u64, to: u64) -> u64
    ensures value { result ≡ spec.distance from to }
    ensures bound { result < 2 ^ 33 }
{
    (to % STAMP_MODULUS + STAMP_MODULUS - from % STAMP_MODULUS) % STAMP_MODULUS
}

/// Returns the moment of a DTS, after another DTS or at first.
#[tactic(auto, unfolding(crate::specs::Stamps::dts_at))]
pub fn dts_at(base: u64, before: Option<u64>, stamp: u64) -> u64
    requires base { base < 2 ^ 33 }
    requires before { IfSome before (λ dts. dts ≤ 2 ^ 52) }
    ensures value { result ≡ spec.dts_at base before stamp }
    ensures bound { result < 2 ^ 53 }
{
    match before {
        None => distance(base, stamp),
        Some(dts) => dts + distance(dts + base, stamp),
    }
}

// Returns the fault of a DTS that is not after the DTS before it.
#[tactic(auto, unfolding(crate::specs::Stamps::dts_not_increasing))]
fn dts_not_increasing(base: u64, before: Option<u64>, stamp: u64) -> Option<StampFault>
    requires base { base < 2 ^ 33 }
    requires before { IfSome before (λ dts. dts ≤ 2 ^ 52) }
    ensures { result ≡ spec.dts_not_increasing base before stamp }
{
    let Some(dts) = before else {
        return None;
    };
    let ahead = distance(dts + base, stamp);
    if ahead == 0 || ahead >= STAMP_MODULUS / 2 {
        Some(StampFault::DtsNotIncreasing(distance(stamp, dts + base)))
    } else {
        None
    }
}

// Returns the fault of a PTS that is not within a limit after its DTS.
fn pts_out_of_range(limit: u32, base: u64, dts: u64, stamp: u64) -> Option<StampFault>
    requires base { base < 2 ^ 33 }
    requires dts { dts < 2 ^ 53 }
    ensures { result ≡ spec.pts_out_of_range limit base dts stamp }
{
    let after = distance(dts + base, stamp);
    if after > u64::from(limit) {
        Some(StampFault::PtsOutOfRange { after, limit })
    } else {
        None
    }
}

// Returns the fault of a DTS that no unit may have.
fn dts_too_far(dts: u64) -> Option<StampFault>
    ensures { result ≡ spec.dts_too_far dts }
{
    if dts > LAST_DTS {
        Some(StampFault::DtsTooFar)
    } else {
        None
    }
}

/// Returns the fault of a unit's stamps, after a unit with the DTS `before`, or as the first unit.
#[tactic(auto, unfolding(crate::specs::Stamps::or_fault))]
pub(crate) fn unit_fault(
    limit: u32,
    base: u64,
    before: Option<u64>,
    dts: u64,
    pts: u64,
) -> Option<StampFault>
    requires base { base < 2 ^ 33 }
    requires before { IfSome before (λ dts. dts ≤ 2 ^ 52) }
    ensures { result ≡ spec.or_fault (spec.dts_not_increasing base before dts)
        (spec.or_fault (spec.pts_out_of_range limit base (spec.dts_at base before dts) pts)
        (spec.dts_too_far (spec.dts_at base before dts))) }
{
    if let Some(fault) = dts_not_increasing(base, before, dts) {
        return Some(fault);
    }
    let moment = dts_at(base, before, dts);
    if let Some(fault) = pts_out_of_range(limit, base, moment, pts) {
        return Some(fault);
    }
    dts_too_far(moment)
}

// Returns the least time, at most `most`, from a moment when the clock shows `from` until it shows a stamp.
fn min_distance(from: u64, most: u64, stamps: &[u64]) -> u64
    ensures value { result ≡ spec.min_distance from most stamps.now }
    ensures bound { result ≤ most }
{
    let mut least = most;
    for stamp in stamps {
        least = least.min(distance(from, *stamp));
    }
    least
}

/// Returns what the clock shows at moment 0, given the first DTS of each stream that counts by it, if the least of them
/// is to be at `earliest`. Of two stamps, which one is the earlier follows from the shorter way round the range; all
/// are compared with `first`.
pub fn constant(earliest: u64, first: u64, others: &[u64]) -> u64
    requires { first < 2 ^ 33 }
    ensures value { result ≡ spec.constant_of earliest first others.now }
    ensures bound { result < 2 ^ 33 }
{
    let from = first + STAMP_MODULUS / 2;
    distance(
        earliest,
        from + min_distance(from, STAMP_MODULUS / 2, others),
    )
}
