//! A unit that is whole, at its moment.

ghost use Rattle.std.specs.Prelude.{◌≡◌, ◌≤◌, ◌<◌, ◌^◌, IfOk, IfSome};
ghost use Rattle.fed_streams.specs.Feeding as spec;
ghost use Rattle.fed_streams.specs.Origins.{IsOrigin, origin_with};

use crate::due::Due;
use crate::feed_fault::FeedFault;
use crate::origin::Origin;
use es_moments::{WireUnit, distance, moved_unit};
use pes_packet::Unit;

/// The furthest that a unit is due after the greatest DTS so far, in units of 90 kHz: 10 s.
const MAX_AHEAD: u64 = 900_000;

/// The longest time from the DTS of a unit to its PTS that a description may have, in units of 90 kHz: a minute.
const GREATEST_PTS_LIMIT: u32 = 5_400_000;

// What the clock shows at moment 0, with the first unit of all at `earliest`.
#[tactic(auto, unfolding(crate::specs::Feeding::base_by))]
fn base_by(earliest: u64, base: Option<u64>, wire: &WireUnit) -> u64
    requires { IfSome base (λ base. base < 2 ^ 33) }
    ensures value { result ≡ spec.base_by earliest base wire.now.unit }
    ensures bound { result < 2 ^ 33 }
{
    match base {
        None => distance(earliest, wire.dts),
        Some(base) => base,
    }
}

// What the clock shows at moment 0 for a unit, which is kept.
fn fix(due: Due, origin: &mut Origin, wire: &WireUnit) -> u64
    requires { IsOrigin origin.old }
    ensures value { result ≡ spec.base_of due origin.old wire.now }
    ensures origin { origin.new
        ≡ origin_with origin.old wire.now.packet wire.now.unit.dts (spec.base_of due origin.old wire.now) }
    ensures clock { IsOrigin origin.new }
    ensures bound { result < 2 ^ 33 }
{
    let packet = wire.packet;
    let base = base_by(due.earliest, origin.base_for(packet, wire.dts), wire);
    *origin = origin.fixed(packet, wire.dts, base);
    base
}

// How long after the greatest DTS so far a moment lies, where that is over 10 s.
#[tactic(auto, unfolding(crate::specs::Feeding::ahead_of))]
fn ahead_of(greatest: Option<u64>, dts: u64) -> Option<u64>
    requires { IfSome greatest (λ greatest. greatest ≤ 2 ^ 52) }
    ensures { result ≡ spec.ahead_of greatest dts }
{
    match greatest {
        None => None,
        Some(greatest) => {
            if dts > greatest + MAX_AHEAD {
                Some(dts - greatest)
            } else {
                None
            }
        }
    }
}

// A unit at its moment, or why it can't have one.
#[tactic(auto, unfolding(crate::specs::Feeding::unless_fault, crate::specs::Feeding::unless_ahead))]
fn at_moment(
    greatest: Option<u64>,
    base: u64,
    before: Option<u64>,
    wire: WireUnit,
) -> Result<Unit, FeedFault>
    requires greatest { IfSome greatest (λ greatest. greatest ≤ 2 ^ 52) }
    requires base { base < 2 ^ 33 }
    requires before { IfSome before (λ dts. dts ≤ 2 ^ 52) }
    ensures value { result ≡ spec.at_moment greatest base before wire.unit }
    ensures bound { IfOk result (λ u. u.dts ≤ 2 ^ 52) }
{
    match moved_unit(GREATEST_PTS_LIMIT, base, before, wire) {
        Err(fault) => Err(FeedFault::Stamp(fault)),
        Ok(unit) => match ahead_of(greatest, unit.dts) {
            None => Ok(unit),
            Some(by) => {
                // By a call: at the end of a function the drop of each part would be a step of its proof.
                drop(unit);
                Err(FeedFault::Ahead(by))
            }
        },
    }
}

/// Returns a unit that is whole at its moment, if one is.
#[tactic(auto, unfolding(crate::specs::Feeding::origin_after, crate::specs::Feeding::before_with, crate::specs::Feeding::fed_with, crate::specs::Feeding::last_dts))]
pub(crate) fn feed(
    number: u8,
    before: &mut Option<u64>,
    due: Due,
    origin: &mut Origin,
    whole: Option<WireUnit>,
) -> Option<(u8, Result<Unit, FeedFault>)>
    requires due { IfSome due.greatest (λ greatest. greatest ≤ 2 ^ 52) }
    requires origin { IsOrigin origin.old }
    requires before { IfSome before.old (λ dts. dts ≤ 2 ^ 52) }
    ensures fed { result ≡ spec.fed_with due origin.old number before.old whole }
    ensures before { before.new ≡ spec.before_with due origin.old before.old whole }
    ensures origin { origin.new ≡ spec.origin_after due origin.old whole }
    ensures clock { IsOrigin origin.new }
    ensures bound { IfSome before.new (λ dts. dts ≤ 2 ^ 52) }
{
    let Some(wire) = whole else {
        return None;
    };
    let base = fix(due, origin, &wire);
    match at_moment(due.greatest, base, *before, wire) {
        Ok(unit) => {
            *before = Some(unit.dts);
            Some((number, Ok(unit)))
        }
        Err(fault) => Some((number, Err(fault))),
    }
}
