//! An encoder that restarts without a clock.

ghost use Rattle.std.specs.Prelude.{◌≡◌};
ghost use Rattle.fed_streams.specs.Feeding as feeding;
ghost use Rattle.fed_streams.specs.Origins.{IsOrigin};
ghost use Rattle.fed_streams.specs.Restarts as spec;

use crate::feed_fault::{FeedFault, Restart};
use crate::origin::Origin;
use es_moments::{StampFault, distance};
use pes_packet::Unit;

/// By how much the DTS of a unit has to fall to show a restart, in units of 90 kHz: more than a second.
const LEAST_FALL: u64 = 90_000;

/// How far from one another the stamps of two units may be that show a restart, in units of 90 kHz: 10 s.
const MAX_APART: u64 = 900_000;

/// What a finding makes whole.
#[derive(Clone, Copy)]
pub enum Seen {
    /// No unit.
    NoUnit,
    /// A unit that does not fall, or whose clock is known.
    Good,
    /// A unit that falls: the packet where it begins, and its DTS as its header has it.
    Falls { packet: u64, stamp: u64 },
}

// Whether the fault of a unit is that it falls by more than a second.
#[tactic(auto, unfolding(crate::specs::Restarts::is_fall, crate::specs::Restarts::is_stamp_fall))]
fn is_fall(fault: FeedFault) -> bool
    ensures { result ≡ spec.is_fall fault }
{
    match fault {
        FeedFault::Stamp(StampFault::DtsNotIncreasing(by)) => by > LEAST_FALL,
        _ => false,
    }
}

// Whether the fault of a unit is that it falls, if it has one.
#[tactic(auto, unfolding(crate::specs::Feeding::falls))]
fn falls(fed: &(u8, Result<Unit, FeedFault>)) -> bool
    ensures { result ≡ feeding.falls fed.now }
{
    match &fed.1 {
        Ok(_) => false,
        Err(fault) => is_fall(*fault),
    }
}

// Returns whether a unit is reported because its stamp falls.
#[tactic(auto, unfolding(crate::specs::Feeding::is_fallen))]
fn is_fallen(fed: &Option<(u8, Result<Unit, FeedFault>)>) -> bool
    ensures { result ≡ feeding.is_fallen fed.now }
{
    match fed {
        None => false,
        Some(fed) => falls(fed),
    }
}

/// Returns how a whole unit fits the clock, by its first packet, the DTS of its header, and its feed.
#[tactic(auto, unfolding(crate::specs::Feeding::seen_of))]
pub fn seen_of(
    shown: Option<u64>,
    start: Option<(u64, u64)>,
    fed: &Option<(u8, Result<Unit, FeedFault>)>,
) -> Seen
    ensures { result ≡ feeding.seen_of shown start fed.now }
{
    match start {
        None => Seen::NoUnit,
        Some((packet, stamp)) => {
            if shown.is_none() && is_fallen(fed) {
                Seen::Falls { packet, stamp }
            } else {
                Seen::Good
            }
        }
    }
}

// Returns whether the stamp of a unit that falls is near the stamp of the unit before.
#[tactic(auto, unfolding(crate::specs::Restarts::is_again))]
fn is_again(fallen: Option<u64>, stamp: u64) -> bool
    ensures { result ≡ spec.is_again fallen stamp }
{
    match fallen {
        None => false,
        Some(before) => {
            distance(before, stamp) <= MAX_APART || distance(stamp, before) <= MAX_APART
        }
    }
}

/// Returns the stamp of the last unit, if it falls and is the first that does.
#[tactic(auto, unfolding(crate::specs::Restarts::fallen_after))]
pub fn fallen_after(fallen: Option<u64>, seen: Seen) -> Option<u64>
    ensures { result ≡ spec.fallen_after fallen seen }
{
    match seen {
        Seen::NoUnit => fallen,
        Seen::Good => None,
        Seen::Falls { stamp, .. } => {
            if is_again(fallen, stamp) {
                None
            } else {
                Some(stamp)
            }
        }
    }
}

/// Returns the restart that a unit shows, at the greatest DTS so far.
#[tactic(auto, unfolding(crate::specs::Restarts::restart_of))]
pub fn restart_of(moment: u64, fallen: Option<u64>, seen: Seen) -> Option<Restart>
    ensures { result ≡ spec.restart_of moment fallen seen }
{
    match seen {
        Seen::NoUnit => None,
        Seen::Good => None,
        Seen::Falls { packet, stamp } => {
            if is_again(fallen, stamp) {
                Some(Restart {
                    packet,
                    stamp,
                    moment,
                })
            } else {
                None
            }
        }
    }
}

/// Returns the constants after a restart, if there is one.
#[tactic(auto, unfolding(crate::specs::Restarts::origin_by))]
pub fn origin_by(origin: Origin, restart: Option<Restart>) -> Origin
    requires { IsOrigin origin }
    ensures value { result ≡ spec.origin_by origin restart }
    ensures bound { IsOrigin result }
{
    match restart {
        None => origin,
        Some(restart) => origin.jumped(restart.packet, restart.moment, restart.stamp),
    }
}
