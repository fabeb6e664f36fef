//! What units need declared, and that a queue takes them, by hand.

ghost use Rattle.std.specs.Prelude.{◌≤◌};

use super::moments::moved;
use clock27::Rate;
use es_moments::{CountedPackets, UnitRuns, max_unit_size, min_interval};
use pes_packet::Unit;
use std::alloc::Global;
use unit_queue::{FeedError, StreamParameters, UnitQueue};
use unit_timing::allowance::Allowance;

// Four units of 1, 2, 1 and 1 packets.
static FOUR: [(u64, u64, usize); 4] = [
    (180_000, 180_000, 170),
    (183_600, 190_800, 340),
    (187_199, 187_199, 170),
    (190_800, 190_800, 170),
];

// Returns the most packets of `group` units in a row.
fn group_packets(alloc: Global, units: &[Unit], group: u8) -> Option<u64>
    requires { group ≤ 64 }
{
    let packets = CountedPackets::of_units(alloc, 0, units).ok()?;
    Some(packets.of_group(group))
}

// Returns the packets of their least burst at a pace.
fn burst_packets(alloc: Global, units: &[Unit], pace: u32) -> Option<u64> {
    let runs = UnitRuns::of_units(alloc, 0, units).ok()?;
    Some(runs.burst_packets(pace))
}

// Returns whether a stream declares the expected packets of these units. A packet takes 3,600 units of 90 kHz at 37,600
// bits a second, and a little less than 3,599 at 37,611.
fn is_declared(alloc: Global, units: &[Unit]) -> bool {
    min_interval(units) == 3_599
        && max_unit_size(units) == 340
        && group_packets(alloc, units, 1) == Some(2)
        && group_packets(alloc, units, 3) == Some(4)
        && burst_packets(alloc, units, 37_600) == Some(3)
        && burst_packets(alloc, units, 37_611) == Some(2)
}

// Declarations, and why a queue refuses a unit under each: the third unit is due 3,599 after the second.
static DECLARED: [(Allowance, Option<FeedError>); 4] = [
    (
        Allowance::Groups {
            units: 3,
            packets: 4,
        },
        None,
    ),
    (
        Allowance::Groups {
            units: 3,
            packets: 3,
        },
        Some(FeedError::Group),
    ),
    (
        Allowance::Pace {
            burst: 3,
            pace: 37_600,
        },
        None,
    ),
    (
        Allowance::Pace {
            burst: 2,
            pace: 37_600,
        },
        Some(FeedError::Pace),
    ),
];

// Returns a queue that declares it.
fn queue_of(alloc: Global, allowance: Allowance) -> Option<UnitQueue<Global>> {
    if allowance.rows() == 0 {
        return None;
    }
    let rate = Rate::new(1_504_000).ok()?;
    let rules = StreamParameters {
        rate,
        base0: 0,
        pid: 256,
        stream_id: 224,
        lead: 90_000,
        interval: 3_599,
        pts_limit: 90_000,
        size: 340,
        allowance,
    };
    UnitQueue::new(alloc, rules, 4).ok()
}

fn fed(queue: &mut UnitQueue<Global>, unit: Unit) -> Option<FeedError> {
    match queue.feed(0, unit) {
        Ok(()) => None,
        Err((cause, _unit)) => Some(cause),
    }
}

// Returns why the last of the units that the queue refuses is refused.
fn refusal_of(queue: &mut UnitQueue<Global>, units: Vec<Unit>) -> Option<FeedError> {
    let mut refused = None;
    for unit in units {
        refused = fed(queue, unit).or(refused);
    }
    refused
}

// Returns whether a queue that declares it gives this refusal of the units.
fn is_fed(alloc: Global, allowance: Allowance, wanted: Option<FeedError>) -> bool {
    let (Some(mut queue), Some(Ok(units))) = (queue_of(alloc, allowance), moved(alloc, 0, &FOUR))
    else {
        return false;
    };
    let is_well = is_declared(alloc, &units) && refusal_of(&mut queue, units) == wanted;
    drop(queue);
    is_well
}

// A single unit, and no unit.
fn are_few(alloc: Global) -> bool {
    let Some(Ok(units)) = moved(alloc, 0, &[(5, 5, 170)]) else {
        return false;
    };
    min_interval(&units) == 90_000
        && group_packets(alloc, &units, 64) == Some(2)
        && max_unit_size::<Global>(&[]) == 0
}

// What a stream declares of units, so that a queue takes each; with one packet less in a group of three, or in a burst,
// it refuses the third.
#[test]
fn a_declaration_that_units_keep(rt: HostRuntime) {
    for (allowance, wanted) in &DECLARED {
        assert!(rt; is_fed(rt.alloc(), *allowance, *wanted));
    }
    assert!(rt; are_few(rt.alloc()));
}
