//! Units and slots in turn, with the answers.

use crate::tests::mux::services::{GROUPED, LATE_CLOCK, PATIENT, SMALL, Service};
use mux_core::FeedError;

pub enum Step {
    /// A unit for a stream: its size, DTS and PTS, and why it is refused.
    Feed(u8, usize, u64, u64, Option<FeedError>),
    /// The packets of the slots before this one.
    Until(u64),
    /// The last packet has these bytes from one on.
    Carries(usize, &'static [u8]),
    /// This number of units of a stream waits.
    Waiting(u8, Option<usize>),
}

use Step::{Carries, Feed, Until, Waiting};

/// A service, the periods of its first plan if the second follows, how many units may wait, and the steps.
pub type Script = (Service, Option<u64>, usize, &'static [Step]);

/// The unit that most scripts begin with, and the next one.
const FIRST: Step = Feed(0, 576, 1_600, 1_600, None);

const SECOND: Step = Feed(0, 576, 3_760, 3_760, None);

/// The first slots with the first unit, and 120 slots later the following event, an empty one.
const SLOTS: [Step; 22] = [
    FIRST,
    Until(1),
    Carries(0, b"\x47\x41\x00\x10\x00\x00\x01\xc0\x02\x48\x80\x80"),
    // A clock reference.
    Until(2),
    Carries(0, b"\x47\x01\x01\x2f\xb7\x10\x00\x00\x00\x2f\x7e\xec\xff"),
    Until(5),
    Carries(0, b"\x47\x01\x00\x11\xa5"),
    // The present event.
    Until(8),
    Carries(
        5,
        b"\x4e\xf0\x26\x00\x01\xc3\x00\x01\x00\x01\x00\x01\x01\x4e\
          \x00\x07\xc0\x79\x12\x45\x00\x01\x30\x00\x80\x0b\x4d\x09eng\x04News\x00",
    ),
    Until(9),
    Carries(0, b"\x47\x01\x00\x12\xa5"),
    // The time.
    Until(10),
    Carries(
        0,
        b"\x47\x40\x14\x10\x00\x70\x70\x05\xc0\x79\x12\x45\x00\xff",
    ),
    // No packet.
    Until(11),
    Carries(0, b"\x47\x1f\xff\x10\xff"),
    Until(13),
    Carries(0, b"\x47\x01\x00\x33\x91\x00\xff"),
    Until(17),
    Carries(0, b"\x47\x1f\xff\x10\xff"),
    Until(128),
    Carries(
        5,
        b"\x4e\xf0\x0f\x00\x01\xc3\x01\x01\x00\x01\x00\x01\x01\x4e",
    ),
    // Many events have memory too.
    Until(6_000),
];

/// Stamps and clock references begin again at 0.
const OVER_THE_END: [Step; 5] = [
    Feed(0, 576, 1_600, 3_400, None),
    Until(1),
    Carries(
        4,
        b"\x00\x00\x01\xc0\x02\x4d\x80\xc0\x0a\x31\x00\x01\x19\xd9\x11\x00\x01\x0b\xc9",
    ),
    Until(2),
    Carries(6, b"\x00\x00\x00\x01\x7e\xec"),
];

/// A unit waits until it is sent whole.
const LEFT: [Step; 6] = [
    FIRST,
    Waiting(1, None),
    Until(12),
    Waiting(0, Some(1)),
    Until(13),
    Waiting(0, Some(0)),
];

const NEXT: [Step; 6] = [
    FIRST,
    Feed(0, 576, 3_759, 3_759, Some(FeedError::TooSoon)),
    SECOND,
    Feed(0, 576, 5_920, 5_920, Some(FeedError::Full)),
    Waiting(0, Some(2)),
    Feed(1, 576, 1_600, 1_600, Some(FeedError::UnknownStream)),
];

/// A unit without bytes, and one past the last DTS.
const OUT_OF_RANGE: [Step; 2] = [
    Feed(0, 0, 1_600, 1_600, Some(FeedError::Empty)),
    Feed(0, 576, LAST + 1, LAST + 1, Some(FeedError::TooFar)),
];

/// The last DTS.
const LAST: u64 = 1 << 52;

/// Any two units in a row have at most six packets.
const PAIRED: [Step; 4] = [
    FIRST,
    Feed(0, 355, 3_760, 3_760, Some(FeedError::Group)),
    Feed(0, 354, 3_760, 3_760, None),
    Feed(0, 576, 5_920, 5_920, None),
];

/// The second unit is fed when 24 slots are written.
const LATER: [Step; 16] = [
    FIRST,
    Until(1),
    Carries(0, b"\x47\x41\x00\x10"),
    Until(24),
    SECOND,
    Until(25),
    Carries(0, b"\x47\x41\x00\x14"),
    Until(29),
    Carries(0, b"\x47\x01\x00\x15"),
    Until(33),
    Carries(0, b"\x47\x01\x00\x16"),
    Until(37),
    Carries(0, b"\x47\x01\x00\x37"),
    Until(41),
    Carries(0, b"\x47\x1f\xff\x10"),
    Until(42),
];

/// A slot later it is refused.
const TOO_LATE: [Step; 4] = [
    FIRST,
    Until(25),
    Feed(0, 576, 3_760, 3_760, Some(FeedError::Late)),
    Until(42),
];

/// The second plan from its start: nothing, and then a clock reference.
const TURNED: [Step; 4] = [
    Until(122),
    Carries(0, b"\x47\x1f\xff\x10"),
    Until(123),
    Carries(6, b"\x00\x00\x15\x74\x7e\xec"),
];

pub static SCRIPTS: [Script; 17] = [
    (
        SMALL,
        None,
        2,
        &[Until(1), Feed(0, 576, 1_600, 1_600, Some(FeedError::Late))],
    ),
    (
        SMALL,
        None,
        2,
        &[Feed(0, 577, 1_600, 1_600, Some(FeedError::TooLarge))],
    ),
    (
        SMALL,
        None,
        2,
        &[Feed(0, 576, 1_600, 91_601, Some(FeedError::BadPts))],
    ),
    (
        SMALL,
        None,
        2,
        &[Feed(0, 576, 1_599, 1_599, Some(FeedError::Late))],
    ),
    (SMALL, None, 2, &OUT_OF_RANGE),
    (SMALL, None, 2, &[FIRST]),
    (SMALL, None, 2, &NEXT),
    (SMALL, None, 2, &[FIRST, Until(24), SECOND]),
    (SMALL, None, 2, &TOO_LATE),
    (
        SMALL,
        None,
        1,
        &[FIRST, Feed(0, 576, 3_760, 3_760, Some(FeedError::Full))],
    ),
    (
        SMALL,
        None,
        1,
        &[
            FIRST,
            Until(12),
            Feed(0, 576, 3_760, 3_760, Some(FeedError::Full)),
        ],
    ),
    (SMALL, None, 1, &[FIRST, Until(13), SECOND]),
    (GROUPED, None, 3, &PAIRED),
    (SMALL, None, 1, &SLOTS),
    (SMALL, None, 1, &LEFT),
    (LATE_CLOCK, None, 1, &OVER_THE_END),
    (PATIENT, Some(1), 1, &TURNED),
];

/// Two scripts, and whether they give the same packets: a unit that is fed early or late, or too late; a switch that
/// begins with the first plan alone.
pub static PAIRS: [(Script, Script, bool); 3] = [
    (
        (SMALL, None, 2, &[FIRST, SECOND, Until(42)]),
        (SMALL, None, 2, &LATER),
        true,
    ),
    (
        (SMALL, None, 2, &[FIRST, SECOND, Until(42)]),
        (SMALL, None, 2, &TOO_LATE),
        false,
    ),
    (
        (PATIENT, Some(1), 1, &[Until(120)]),
        (PATIENT, None, 1, &[Until(120)]),
        true,
    ),
];
