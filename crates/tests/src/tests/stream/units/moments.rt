//! Stamps as moments of a run, and DTS made of PTS, by hand.

use super::{lent, wire, wire_unit};
use es_moments::{
    DtsError, DtsFault, FoundUnit, StampError, StampFault, UnitMoment, WireUnit, constant,
    distance, found_moments, made_dts, units_at, units_with_made_dts,
};
use pes_packet::Unit;
use std::alloc::Global;

// The range of stamps, 2^33.
const RANGE: u64 = 8_589_934_592;

// The first DTS of a stream, the first DTS of two further streams, and the constant: the least first DTS is moved to
// 180,000, whichever stream has it and wherever 2^33 lies.
static CONSTANTS: [(u64, [u64; 2], u64); 5] = [
    (1_000_000, [1_000_000, 1_000_001], 820_000),
    (1_000_000, [999_000, 999_500], 819_000),
    (RANGE - 3_600, [1_800, RANGE - 1_800], RANGE - 183_600),
    (0, [RANGE - 3_600, 3_600], RANGE - 183_600),
    (3_600, [0, RANGE - 1], RANGE - 180_001),
];

fn are_constants() -> bool {
    for (first, others, wanted) in &CONSTANTS {
        if constant(180_000, *first % RANGE, others) != *wanted {
            return false;
        }
    }
    distance(RANGE - 1, 1) == 2 && distance(1, RANGE - 1) == RANGE - 2
}

// Returns the moments of units.
fn moments_of(
    alloc: Global,
    constant: u64,
    units: &[WireUnit],
) -> Option<Result<Vec<UnitMoment>, StampError>> {
    let found = lent(alloc, units)?;
    Some(found_moments(alloc, 90_000, constant % RANGE, &found))
}

// Returns units of these stamps and sizes, at their moments; `None` if memory runs out.
pub fn moved(
    alloc: Global,
    constant: u64,
    stamps: &[(u64, u64, usize)],
) -> Option<Result<Vec<Unit>, StampError>> {
    let units = wire(alloc, stamps)?;
    match moments_of(alloc, constant % RANGE, &units)? {
        Ok(moments) => units_at(alloc, &moments, units).ok().map(Ok),
        Err(error) => Some(Err(error)),
    }
}

static ACROSS: [(u64, u64, usize); 3] = [
    (RANGE - 3_600, 3_600, 10),
    (0, 0, 20),
    (3_600, 7_200, 30),
];

fn is_moment(unit: &Unit, dts: u64, pts: u64, size: usize) -> bool {
    unit.dts == dts && unit.pts == pts && unit.bytes.len() == size
}

fn are_moments(units: &[Unit]) -> bool {
    match units {
        [first, second, third] => {
            is_moment(first, 180_000, 187_200, 10)
                && is_moment(second, 183_600, 183_600, 20)
                && is_moment(third, 187_200, 190_800, 30)
        }
        _ => false,
    }
}

// Pictures of 25 a second across the end of the range, one shown later than it is decoded.
fn are_across(alloc: Global) -> bool {
    match moved(alloc, RANGE - 183_600, &ACROSS) {
        Some(Ok(units)) => are_moments(&units),
        _ => false,
    }
}

// Third stamps, DTS first, and why they can't be moments.
static REFUSED: [(u64, u64, StampFault); 5] = [
    (7_200, 7_200, StampFault::DtsNotIncreasing(0)),
    (7_190, 7_200, StampFault::DtsNotIncreasing(10)),
    (
        7_200 + RANGE / 2,
        0,
        StampFault::DtsNotIncreasing(RANGE / 2),
    ),
    (
        7_201,
        97_202,
        StampFault::PtsOutOfRange {
            after: 90_001,
            limit: 90_000,
        },
    ),
    (
        7_201,
        7_200,
        StampFault::PtsOutOfRange {
            after: RANGE - 1,
            limit: 90_000,
        },
    ),
];

// Returns whether the third of three units is refused so.
fn is_refused(alloc: Global, dts: u64, pts: u64, fault: StampFault) -> bool {
    let stamps = [(3_600, 3_600, 1), (7_200, 97_200, 1), (dts, pts, 1)];
    match moved(alloc, 0, &stamps) {
        Some(Err(error)) => error == StampError::Unit { index: 2, fault },
        _ => false,
    }
}

fn are_refused(alloc: Global) -> bool {
    for (dts, pts, fault) in &REFUSED {
        if !is_refused(alloc, *dts, *pts, *fault) {
            return false;
        }
    }
    true
}

#[test]
fn stamps_and_moments(rt: HostRuntime) {
    assert!(rt; are_constants() && are_across(rt.alloc()) && are_refused(rt.alloc()));
}

// The first DTS of six pictures, 25 a second, in the order of decoding, across the end of the range.
const FIRST: u64 = RANGE - 10_000;

// Their PTS, and after that first DTS the DTS of each: 3,600 before the earliest that a PTS allows.
static PICTURES: [(u64, u64); 6] = [
    (FIRST + 3_600, 0),
    ((FIRST + 14_400) % RANGE, 3_600),
    (FIRST + 7_200, 7_200),
    ((FIRST + 10_800) % RANGE, 10_800),
    ((FIRST + 21_600) % RANGE, 14_400),
    ((FIRST + 18_000) % RANGE, 18_000),
];

// Returns units of these PTS, of one byte.
fn shown(alloc: Global) -> Option<Vec<WireUnit>> {
    let mut units = Vec::new(alloc);
    for (shown, _) in &PICTURES {
        let unit = wire_unit(alloc, 0, *shown, 1).ok()?;
        let Ok(()) = units.push(unit) else {
            return None;
        };
    }
    Some(units)
}

fn are_made(units: &[FoundUnit<'_>]) -> bool {
    let mut left = PICTURES.as_slice();
    for unit in units {
        let [row, rest @ ..] = left else {
            return false;
        };
        let dts = FIRST.saturating_add(row.1) % RANGE;
        if unit.dts != dts || unit.pts != row.0 || unit.bytes.body != [0xa5u8].as_slice() {
            return false;
        }
        left = rest;
    }
    left.is_empty()
}

// Returns whether the DTS made from the PTS are as expected.
fn are_pictures(alloc: Global, units: &[WireUnit]) -> bool {
    let Some(found) = lent(alloc, units) else {
        return false;
    };
    match units_with_made_dts(alloc, found) {
        Ok(made) => are_made(&made),
        Err(_) => false,
    }
}

// PTS that give no DTS, and why.
static UNMADE: [([u64; 3], DtsFault); 2] = [
    ([7_200, 3_600, 7_200], DtsFault::SamePts(7_200)),
    (
        [0, 100_000, 3_600],
        DtsFault::PtsTooLate {
            index: 0,
            after: 96_400,
        },
    ),
];

fn is_unmade(alloc: Global, pts: &[u64], fault: DtsFault) -> bool {
    match made_dts(alloc, pts) {
        Err(error) => error == DtsError::Fault(fault),
        Ok(_) => false,
    }
}

fn are_unmade(alloc: Global) -> bool {
    for (pts, fault) in &UNMADE {
        if !is_unmade(alloc, pts, *fault) {
            return false;
        }
    }
    true
}

#[test]
fn dts_of_pictures(rt: HostRuntime) {
    let is_well = match shown(rt.alloc()) {
        Some(units) => are_pictures(rt.alloc(), &units),
        None => false,
    };
    assert!(rt; is_well && are_unmade(rt.alloc()));
}
