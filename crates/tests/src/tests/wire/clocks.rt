//! Numbers from outside: worked examples and the ends of ranges.
use clock27::{Pcr, Rate, Stamp33, byte_ticks, release_slot};

/// Rates, and the rate in bits a second, or the number of its refusal.
static RATES: [(u64, u64); 6] = [
    (0, 1),
    (99_999, 1),
    (100_000, 100_000),
    (1_504_000, 1_504_000),
    (100_000_000, 100_000_000),
    (100_000_001, 1),
];

fn rate_or_code(bits_per_second: u64) -> u64 {
    match Rate::new(bits_per_second) {
        Ok(rate) => rate.bits_per_second(),
        Err(refusal) => refusal.code() as u64,
    }
}

/// The clock reference of slot 1 is the reference of byte 198, `00 00 00 2F 7E EC`: its ticks, base and extension; a
/// base after 2^33 - 1 has passed; stamps of 33 bits.
const NUMBERS: [u64; 8] = [28_436, 94, 236, 28_436, 28_436, 2, 8_589_934_591, 1_508];

fn numbers(rate: Rate) -> [u64; 8] {
    let pcr = Pcr::at(rate, 0, 198);
    [
        byte_ticks(rate, 198) as u64,
        pcr.base(),
        pcr.extension() as u64,
        pcr.ticks(),
        Pcr::new(94, 236).ticks(),
        Pcr::at(rate, 8_589_934_500, 198).base(),
        Stamp33::of(8_589_934_591).units(),
        Stamp33::of(8_589_934_500 + 1_600).units(),
    ]
}

/// DTS, and the first slot of a unit 1,600 before it: at 1,504,000 bits a second a slot lasts 90 units of 90 kHz.
static RELEASES: [(u64, Option<u64>); 5] = [
    (1_599, None),
    (1_600, Some(0)),
    (1_601, Some(1)),
    (1_690, Some(1)),
    (1_691, Some(2)),
];

#[test]
fn rates_in_range(rt: HostRuntime) {
    for (bits, answer) in &RATES {
        assert!(rt; rate_or_code(*bits) == *answer);
    }
}

#[test]
fn worked_clock(rt: HostRuntime) {
    let Ok(rate) = Rate::new(1_504_000) else {
        return;
    };
    assert!(rt; numbers(rate) == NUMBERS);
    for (dts, slot) in &RELEASES {
        assert!(rt; release_slot(rate, *dts, 1_600) == *slot);
    }
}
