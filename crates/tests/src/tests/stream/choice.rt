//! Values of a second reading of the rules, and values worked by hand.

ghost use Rattle.std.specs.Prelude.{◌≤◌, ◌^◌};

use stream_choice::{
    Choice, Needs, PacedUnits, Recurring, are_max_packets, choose_groups, choose_pace,
    delay_before, leaking_needs, least_rate, least_share, preferred,
};
use unit_timing::allowance::Allowance;
use unit_timing::multiplexing_buffer::MultiplexingBuffer;

// A stream's interval, size, rx and main, its most packets, their least share, the wait and the greatest lead; then the
// share, the lead and the group that should be chosen.
type Row = (
    [u32; 4],
    &'static [u32],
    u64,
    u32,
    u32,
    Option<(u64, u32, u8)>,
);

// The first two are audio of 192 kbit/s, one and five frames to a unit.
static ROWS: [Row; 14] = [
    (
        [2_160, 576, 2_000_000, 3_584],
        &[4],
        2_036_132_645,
        1_805,
        90_000,
        Some((2_036_132_645, 4_505, 1)),
    ),
    (
        [10_800, 2_880, 2_000_000, 3_584],
        &[16],
        1_628_906_116,
        2_210,
        90_000,
        Some((2_184_550_608, 10_800, 1)),
    ),
    (
        [1_500, 435_951, 24_000_000, 1_300_000],
        &[2_370, 3_623],
        1_327_843_542_478,
        19,
        20_000,
        None,
    ),
    (
        [3_600, 69_414, 18_000_000, 600_000],
        &[378, 569, 742, 997],
        75_540_521_094,
        28,
        45_000,
        Some((75_540_521_094, 7_243, 3)),
    ),
    (
        [3_600, 369_624, 72_000_000, 1_300_000],
        &[2_009, 2_928],
        447_134_728_629,
        8,
        90_000,
        Some((447_134_728_629, 4_952, 2)),
    ),
    (
        [8_658, 159_201, 930_094, 7_261_517],
        &[866, 1_627],
        103_309_391_222,
        402,
        20_000,
        None,
    ),
    (
        [7_500, 66_955, 18_000_000, 239_376],
        &[364, 430, 519, 560, 619, 669],
        16_346_072_867,
        49,
        45_000,
        Some((16_346_072_867, 37_617, 6)),
    ),
    (
        [1_800, 33_211, 18_000_000, 239_376],
        &[181, 212],
        64_749_018_081,
        28,
        23_991,
        Some((64_749_018_081, 3_119, 2)),
    ),
    (
        [40_162, 232_354, 148_483_118, 9_629_720],
        &[1_263, 2_423, 3_318, 4_315],
        29_532_846_185,
        115,
        45_000,
        Some((32_669_901_919, 45_000, 3)),
    ),
    (
        [76_309, 160_650, 59_927_077, 1_573_640],
        &[874, 1_376, 1_878, 2_337, 2_678, 3_074],
        7_382_044_809,
        48,
        63_844,
        Some((15_080_475_852, 63_844, 1)),
    ),
    (
        [3_003, 230_524, 72_000_000, 3_766_000],
        &[1_253, 1_792, 2_109, 2_523, 2_949, 3_253],
        198_507_677_054,
        8,
        90_000,
        Some((198_507_677_054, 12_026, 6)),
    ),
    (
        [1_920, 2_579, 2_000_000, 5_696],
        &[15, 30, 41, 52],
        7_444_609_980,
        629,
        90_000,
        Some((7_444_609_980, 3_584, 4)),
    ),
    (
        [2_160, 2_455, 2_000_000, 5_696],
        &[14, 24],
        6_108_397_933,
        454,
        44_535,
        Some((6_108_397_933, 3_154, 2)),
    ),
    (
        [70_346, 338_696, 75_086_256, 8_602_849],
        &[1_841, 3_382, 4_736, 6_205, 7_685, 9_100],
        23_705_578_647,
        19,
        45_000,
        Some((45_026_268_057, 45_000, 1)),
    ),
];

// Returns the group of a choice, none by pace.
fn group_of(choice: &Choice) -> u8 {
    match choice.allowance {
        Allowance::Groups { units, .. } => units,
        Allowance::Pace { .. } => 0,
    }
}

fn is_chosen(row: &Row) -> bool {
    let (known, most, share, wait, lead, wanted) = *row;
    let [interval, size, rx, main] = known;
    let needs = Needs {
        interval,
        size,
        rx,
        main,
    };
    if !needs.is_in_range()
        || !are_max_packets(most)
        || lead > 90_000
        || least_share(needs, most) != share
    {
        return false;
    }
    match choose_groups(needs, most, wait, lead) {
        Some(choice) => Some((choice.share, choice.lead, group_of(&choice))) == wanted,
        None => wanted.is_none(),
    }
}

#[test]
fn chosen(rt: HostRuntime) {
    for row in &ROWS {
        assert!(rt; is_chosen(row));
    }
}

// Units that need one burst at every pace.
#[derive(Drop)]
struct Burst {
    packets: u64,
}

impl PacedUnits for Burst {
    ghost burst = { λ units pace. units.packets };

    fn burst_at(&self, pace: u32) -> u64 {
        self.packets
    }
}

// A stream's interval, size, rx and main, its burst, the delay and the greatest lead; then the share, the lead and the
// pace that should be chosen. The first row is video of main level, the second a page of subtitles a second.
type PaceRow = ([u32; 4], u64, u32, u32, Option<(u64, u32, u32)>);

static PACES: [PaceRow; 5] = [
    (
        [3_600, 120_000, 18_000_000, 239_376],
        1_295,
        60,
        90_000,
        Some((15_843_640_891, 90_000, 1_950_498)),
    ),
    (
        [90_000, 100, 400_000, 24_576],
        1,
        300,
        90_000,
        Some((24_522_944, 89_974, 3_019)),
    ),
    (
        [2_160, 576, 2_000_000, 3_584],
        4,
        1_805,
        90_000,
        Some((62_334_902, 90_000, 7_674)),
    ),
    ([90_000, 100, 400_000, 24_576], 1, 300, 300, None),
    (
        [3_600, 120_000, 18_000_000, 239_376],
        100_001,
        60,
        90_000,
        None,
    ),
];

// Returns the pace of a choice, none by groups.
fn pace_of(choice: &Choice) -> u32 {
    match choice.allowance {
        Allowance::Groups { .. } => 0,
        Allowance::Pace { pace, .. } => pace,
    }
}

fn is_paced(row: &PaceRow) -> bool {
    let (known, packets, delay, lead, wanted) = *row;
    let [interval, size, rx, main] = known;
    let needs = Needs {
        interval,
        size,
        rx,
        main,
    };
    if !needs.is_in_range() || lead > 90_000 {
        return false;
    }
    match choose_pace(needs, &Burst { packets }, delay, lead) {
        Some(choice) => Some((choice.share, choice.lead, pace_of(&choice))) == wanted,
        None => wanted.is_none(),
    }
}

// Groups are preferred up to a 64th more.
fn are_preferred() -> bool {
    let groups = |share| Choice {
        allowance: Allowance::Groups {
            units: 1,
            packets: 4,
        },
        lead: 1,
        share,
    };
    let pace = Choice {
        allowance: Allowance::Pace { burst: 4, pace: 1 },
        lead: 1,
        share: 64,
    };
    let kinds = [
        preferred(Some(groups(65)), Some(pace)),
        preferred(Some(groups(66)), Some(pace)),
        preferred(None, Some(pace)),
        preferred(Some(groups(66)), None),
    ];
    let found = kinds.map(|kind| kind.map_or(9, |choice| group_of(&choice)));
    found == [1, 0, 0, 1]
}

#[test]
fn paces(rt: HostRuntime) {
    for row in &PACES {
        assert!(rt; is_paced(row));
    }
    assert!(rt; are_preferred());
}

// Shares, what recurs, and the least rate.
static RATES: [(&[u64], &[Recurring], Option<u64>); 10] = [
    (
        &[2_036_132_645],
        &[Recurring {
            slots: 1,
            limit: 40,
        }],
        Some(292_445),
    ),
    (
        &[],
        &[Recurring {
            slots: 1,
            limit: 40,
        }],
        Some(100_000),
    ),
    (&[], &[Recurring { slots: 1, limit: 1 }], Some(1_504_000)),
    (&[], &[], Some(100_000)),
    (&[1_099_511_627_776], &[], None),
    (
        &[2_036_132_645],
        &[
            Recurring {
                slots: 1,
                limit: 40,
            },
            Recurring {
                slots: 1,
                limit: 500,
            },
            Recurring {
                slots: 3,
                limit: 500,
            },
        ],
        Some(300_800),
    ),
    (
        &[25_961_446_323, 2_036_132_645, 852_000_000],
        &[
            Recurring {
                slots: 1,
                limit: 40,
            },
            Recurring {
                slots: 1,
                limit: 100,
            },
            Recurring {
                slots: 1,
                limit: 500,
            },
            Recurring {
                slots: 2,
                limit: 2_000,
            },
        ],
        Some(3_609_257),
    ),
    (&[812_000_000_000], &[], Some(99_964_673)),
    (
        &[812_000_000_000],
        &[Recurring {
            slots: 1,
            limit: 40,
        }],
        None,
    ),
    (
        &[9_223_372_036_854_775_808, 9_223_372_036_854_775_808],
        &[],
        None,
    ),
];

// Returns the delay of a stream that is drained at a rate, or that has a multiplexing buffer of that size which leaks
// at the rate.
fn delay_at(size: Option<u32>, rate: u32, share: u64) -> u32
    requires rate { 1 ≤ rate }
    requires share { 2 ^ 17 ≤ share }
{
    let needs = Needs {
        interval: 1,
        size: 1,
        rx: rate,
        main: 1,
    };
    match size {
        None => delay_before(None, needs, share),
        Some(size) => {
            let buffer = Some(MultiplexingBuffer { rbx: rate, size });
            let faster = Needs {
                rx: 200_000_000,
                ..needs
            };
            let leaking = leaking_needs(buffer, faster);
            if leaking.rx == 0 {
                return 0;
            }
            delay_before(buffer, leaking, share)
        }
    }
}

// 512 bytes at a rate, rounded up, and three packets of a share; with a multiplexing buffer 753 bytes, 513 at least.
fn are_waits() -> bool {
    delay_at(None, 2_000_000, 1 << 40) == 188
        && delay_at(None, 64_000, 1 << 40) == 5_763
        && delay_at(None, 200_000_000, 1 << 17) == 25_165_826
        && delay_at(Some(9_981), 15_000_000, 1 << 40) == 40
        && delay_at(Some(600), 2_000_000, 1 << 40) == 220
        && delay_at(Some(1), 64_000, 1 << 40) == 5_775
}

fn are_ranges() -> bool {
    let needs = Needs {
        interval: 1,
        size: 1,
        rx: 64_000,
        main: 1,
    };
    let slow = Needs {
        rx: 63_999,
        ..needs
    };
    needs.is_in_range()
        && !slow.is_in_range()
        && are_max_packets(&[1])
        && !are_max_packets(&[])
        && !are_max_packets(&[1, 0])
}

#[test]
fn least_rates(rt: HostRuntime) {
    for (shares, recurring, wanted) in &RATES {
        assert!(rt; least_rate(shares, recurring) == *wanted);
    }
    assert!(rt; are_waits() && are_ranges());
}
