//! Where a clock jumps.

ghost use Rattle.std.specs.Prelude.{◌≡◌};
ghost use Rattle.fed_streams.specs.Clocks as spec;
ghost use Rattle.fed_streams.specs.Origins.{IsOrigin};

use crate::feed_fault::ClockJump;
use crate::origin::{DoubtfulClock, Origin};
use es_moments::distance;
use packet_pcr::FoundPcr;

/// The longest step of a clock from one reference to the next, in units of 90 kHz: 10 s.
const MAX_STEP: u64 = 900_000;

/// The longest step of a clock that moves time as a whole, in units of 90 kHz: a second.
const SURE_STEP: u64 = 90_000;

/// The range of stamps.
const RANGE: u64 = 1 << 33;

/// How a clock reference fits the clock.
#[derive(Clone, Copy)]
pub enum ClockStep {
    /// It continues the clock, from the last reference or the one before it.
    Continues,
    /// It jumps, as its discontinuity_indicator says.
    Leaps,
    /// It jumps, and continues the doubtful reference before it.
    Confirms,
    /// It jumps, and is doubtful.
    Doubts,
}

/// Returns whether the clock jumps to a reference from what it showed before.
#[tactic(auto, unfolding(crate::specs::Clocks::jumps))]
pub fn is_jump(pcr: FoundPcr, before: Option<u64>) -> bool
    ensures { result ≡ spec.jumps before pcr.base }
{
    match before {
        None => false,
        Some(before) => distance(before, pcr.base) > MAX_STEP,
    }
}

/// Returns the report on a reference after what the clock showed before, if it jumps.
#[tactic(auto, unfolding(crate::specs::Clocks::jump_of))]
pub fn jump(pcr: FoundPcr, before: Option<u64>) -> Option<ClockJump>
    ensures { result ≡ spec.jump_of before pcr }
{
    let Some(before) = before else {
        return None;
    };
    if pcr.discontinuity || distance(before, pcr.base) > MAX_STEP {
        return Some(ClockJump {
            pid: pcr.pid,
            packet: pcr.packet,
            before,
            after: pcr.base,
        });
    }
    None
}

// Returns whether a reference continues a doubtful reference.
#[tactic(auto, unfolding(crate::specs::Clocks::follows))]
fn follows(doubtful: Option<DoubtfulClock>, pcr: FoundPcr) -> bool
    ensures { result ≡ spec.follows doubtful pcr.base }
{
    match doubtful {
        None => false,
        Some(clock) => !is_jump(pcr, Some(clock.shown)),
    }
}

// Returns whether a reference continues the reference before the last one.
#[tactic(auto, unfolding(crate::specs::Clocks::returns))]
fn returns(earlier: Option<u64>, pcr: FoundPcr) -> bool
    ensures { result ≡ spec.returns earlier pcr.base }
{
    match earlier {
        None => false,
        Some(_) => !is_jump(pcr, earlier),
    }
}

/// Returns how a reference fits the clock, after what the clock showed at the last reference and at the one before it,
/// and after a doubtful reference.
#[tactic(auto, unfolding(crate::specs::Clocks::step_of))]
pub fn step_of(
    shown: Option<u64>,
    earlier: Option<u64>,
    doubtful: Option<DoubtfulClock>,
    pcr: FoundPcr,
) -> ClockStep
    ensures { result ≡ spec.step_of shown earlier doubtful pcr }
{
    if !is_jump(pcr, shown) {
        return ClockStep::Continues;
    }
    if pcr.discontinuity {
        return ClockStep::Leaps;
    }
    if follows(doubtful, pcr) {
        return ClockStep::Confirms;
    }
    if returns(earlier, pcr) {
        return ClockStep::Continues;
    }
    ClockStep::Doubts
}

/// Returns the report on a reference, if it jumps, unless it confirms a jump that was reported.
#[tactic(auto, unfolding(crate::specs::Clocks::report_of))]
pub fn report_of(step: ClockStep, shown: Option<u64>, pcr: FoundPcr) -> Option<ClockJump>
    ensures { result ≡ spec.report_of step shown pcr }
{
    match step {
        ClockStep::Confirms => None,
        ClockStep::Continues => jump(pcr, shown),
        ClockStep::Leaps => jump(pcr, shown),
        ClockStep::Doubts => jump(pcr, shown),
    }
}

/// Returns the constants after a reference. A clock that jumps shows it at a moment.
#[tactic(auto, unfolding(crate::specs::Clocks::origin_stepped))]
pub fn origin_stepped(
    step: ClockStep,
    origin: Origin,
    shown: Option<u64>,
    moment: u64,
    pcr: FoundPcr,
) -> Origin
    requires { IsOrigin origin }
    ensures value { result ≡ spec.origin_stepped step origin shown moment pcr }
    ensures bound { IsOrigin result }
{
    match step {
        ClockStep::Continues => origin.kept(),
        ClockStep::Leaps => origin.jumped(pcr.packet, moment, pcr.base),
        ClockStep::Confirms => origin.confirmed(),
        ClockStep::Doubts => origin.doubted(pcr.packet, moment, shown, pcr.base),
    }
}

/// Returns what the clock shows after a reference.
#[tactic(auto, unfolding(crate::specs::Clocks::shown_after))]
pub fn shown_after(step: ClockStep, shown: Option<u64>, pcr: FoundPcr) -> Option<u64>
    ensures { result ≡ spec.shown_after step shown pcr }
{
    match step {
        ClockStep::Doubts => shown,
        ClockStep::Continues => Some(pcr.base),
        ClockStep::Leaps => Some(pcr.base),
        ClockStep::Confirms => Some(pcr.base),
    }
}

/// Returns what the clock showed before the last reference, after a reference.
#[tactic(auto, unfolding(crate::specs::Clocks::earlier_after))]
pub fn earlier_after(step: ClockStep, shown: Option<u64>, earlier: Option<u64>) -> Option<u64>
    ensures { result ≡ spec.earlier_after step shown earlier }
{
    match step {
        ClockStep::Continues => shown,
        ClockStep::Leaps | ClockStep::Confirms => None,
        ClockStep::Doubts => earlier,
    }
}

// Returns the reference that a reference continues.
#[tactic(auto, unfolding(crate::specs::Clocks::continued))]
fn continued(shown: Option<u64>, earlier: Option<u64>, pcr: FoundPcr) -> Option<u64>
    ensures { result ≡ spec.continued shown earlier pcr.base }
{
    if is_jump(pcr, shown) { earlier } else { shown }
}

// Returns a reference, or what the clock shows a second after the one before it, if this is sooner.
#[tactic(auto, unfolding(crate::specs::Clocks::within_a_second))]
fn within_a_second(before: Option<u64>, base: u64) -> u64
    ensures { result ≡ spec.within_a_second before base }
{
    let Some(before) = before else {
        return base;
    };
    if distance(before, base) > SURE_STEP {
        return before % RANGE + SURE_STEP;
    }
    base
}

/// Returns what the clock shows a second after the moment to which a reference moves time.
#[tactic(auto, unfolding(crate::specs::Clocks::timed_by))]
pub fn timed_by(step: ClockStep, shown: Option<u64>, earlier: Option<u64>, pcr: FoundPcr) -> u64
    ensures { result ≡ spec.timed_by step shown earlier pcr.base }
{
    match step {
        ClockStep::Continues => within_a_second(continued(shown, earlier, pcr), pcr.base),
        _ => pcr.base,
    }
}

/// Returns the moment to which a reference moves time, unless it is doubtful.
#[tactic(auto, unfolding(crate::specs::Clocks::unless_doubtful))]
pub fn unless_doubtful(step: ClockStep, late: Option<u64>) -> Option<u64>
    ensures { result ≡ spec.unless_doubtful step late }
{
    match step {
        ClockStep::Doubts => None,
        ClockStep::Continues => late,
        ClockStep::Leaps => late,
        ClockStep::Confirms => late,
    }
}
