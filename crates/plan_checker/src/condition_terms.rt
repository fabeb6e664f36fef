//! The two numbers of the conditions that multiply: whole numbers of up to 128 bits.

ghost use Rattle.std.specs.Prelude.{◌≡◌, ◌+◌, ◌-◌, ◌*◌, ◌/◌, ◌^◌, ◌<◌, ◌≤◌};
ghost use Rattle.clock27.specs.Units.{slot_units_at_1bps, byte_units_at_1bps};
ghost use Rattle.own_slots.specs.Spread.{most_within};
ghost use Rattle.plan_checker.specs.SentBytes.{slots_of_time};

use clock27::{BYTE_UNITS_AT_1BPS, SLOT_UNITS_AT_1BPS};

/// Returns what the packets take in the long run from a period of `period` slots.
pub fn rate_needed(packets: u64, period: u64) -> u128
    requires period { period ≤ 65536 }
    ensures { result ≡ packets * period }
{
    packets as u128 * period as u128
}

/// Returns what `count` own slots a period give to them, in `time` units of 90 kHz.
pub fn rate_given(count: u64, time: u64, rate: u64) -> u128
    requires count { count ≤ 65536 }
    requires time { time ≤ 5760000 }
    requires rate { rate ≤ 100000000 }
    ensures { result ≡ count * time * rate }
{
    count as u128 * time as u128 * rate as u128
}

/// Returns the latest time at which the last of the packets that take `slots` slots has left a
/// buffer, if `count` is the product of the own slots of the periods.
pub fn time_needed(slots: u128, count: u128, rx: u64, peak: u64) -> u128
    requires slots { slots < 2 ^ 60 }
    requires count { count ≤ 2 ^ 32 }
    requires rx { rx ≤ 200000000 }
    requires peak { peak < 2 ^ 60 }
    ensures { result ≡ slots * slot_units_at_1bps * rx + count * peak * byte_units_at_1bps }
{
    slots * SLOT_UNITS_AT_1BPS * rx as u128 + count * peak as u128 * BYTE_UNITS_AT_1BPS
}

/// Returns its deadline: the decoding time of the last of `units` units in a row.
pub fn time_given(count: u128, lead: u64, units: u64, interval: u64, rate: u64, rx: u64) -> u128
    requires count { count ≤ 2 ^ 32 }
    requires lead { lead ≤ 90000 }
    requires units { units ≤ 64 }
    requires positive { 0 < units }
    requires interval { interval ≤ 90000 }
    requires rate { rate ≤ 100000000 }
    requires rx { rx ≤ 200000000 }
    ensures { result ≡ count * (lead + (units - 1) * interval) * rate * rx }
{
    let time = lead + (units - 1) * interval;
    count * time as u128 * rate as u128 * rx as u128
}

/// Returns the slots that begin in `time` units of 90 kHz, rounded up.
pub fn slots_of_time(time: u64, rate: u64) -> u64
    requires some_time { 0 < time }
    requires time { time ≤ 90000 }
    requires some_rate { 0 < rate }
    requires rate { rate ≤ 100000000 }
    ensures slots { result ≡ slots_of_time time rate }
    ensures positive { 0 < result }
    ensures bound { result ≤ 2 ^ 32 }
{
    (time * rate).div_ceil(SLOT_UNITS_AT_1BPS as u64)
}

/// Returns the most own slots in a window of `window` slots, with that spread.
pub fn slots_within(count: u64, period: u64, spread: u64, window: u64) -> u128
    requires count { count ≤ 65536 }
    requires positive { 0 < period }
    requires spread { spread < 10 ^ 18 }
    requires not_empty { 0 < window }
    requires window { window ≤ 2 ^ 32 }
    ensures slots { result ≡ most_within count period spread window }
    ensures bound { result < 2 ^ 64 }
{
    ((window as u128 - 1) * count as u128 + spread as u128) / period as u128 + 1
}
