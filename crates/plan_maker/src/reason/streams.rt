//! Streams whose units can't leave the transport buffer or the multiplexing buffer in time, or find no room in the main
//! buffer.

ghost use Rattle.std.specs.Prelude.{◌≡◌, ◌+◌, ◌<◌, ◌≤◌};
ghost use Rattle.std.specs.Option.{option_to_list};
ghost use Rattle.unit_timing.specs.Allowances.{allowance_rows};
ghost use Rattle.description_parts.specs.Ranges.{IsStream};
ghost use Rattle.plan_maker.specs.Reasons.{least_drain, units_lead, least_lead, least_main};
ghost use Rattle.plan_maker.specs.Reasons.{drain_reason, leak_reason, lead_reason, main_reason};

use crate::reason::Reason;
use clock27::SLOT_UNITS_AT_1BPS;
use plan_checker::{bytes_by_units, packets_in_row, steady_packets, steady_time, waiting_slots};
use slot_plan::{Description, StreamDescription};

/// Returns the least drain of a stream's transport buffer, in bits/s.
fn least_drain(stream: &StreamDescription) -> u64
    requires { IsStream stream.now }
    ensures { result ≡ least_drain stream.now }
{
    steady_packets(stream).div_ceil(steady_time(stream))
}

/// Returns a reason if the transport buffer of stream number `i` is drained slower than its units arrive.
pub fn drain_reason(i: usize, stream: &StreamDescription) -> Option<Reason>
    requires small { i < 256 }
    requires ranges { IsStream stream.now }
    ensures { option_to_list result ≡ drain_reason i stream.now }
{
    if steady_time(stream) * (stream.rx as u64) < steady_packets(stream) {
        Some(Reason::SlowDrain(i as u8, least_drain(stream)))
    } else {
        None
    }
}

/// Returns a reason if the multiplexing buffer of stream number `i`, if it has one, leaks slower than its units arrive.
#[tactic(auto, using(plan_checker::proofs::Leaks::leak_most))]
pub fn leak_reason(i: usize, stream: &StreamDescription) -> Option<Reason>
    requires small { i < 256 }
    requires ranges { IsStream stream.now }
    ensures { option_to_list result ≡ leak_reason i stream.now stream.now.multiplexing }
{
    let buffer = stream.multiplexing?;
    if steady_time(stream) * (buffer.rbx as u64) < steady_packets(stream) {
        Some(Reason::SlowLeak(i as u8, least_drain(stream)))
    } else {
        None
    }
}

/// Returns the least lead of a stream for `units` units in a row.
fn units_lead(description: &Description, stream: &StreamDescription, units: u8) -> u64
    requires ranges { IsStream stream.now }
    requires positive { 0 < units }
    requires rows { units ≤ allowance_rows stream.now.allowance }
    ensures lead { result ≡ units_lead description.now stream.now units }
{
    let rate = description.rate().bits_per_second() as u128;
    let drain = stream.rx as u128;
    let packets = packets_in_row(stream, units) as u128;
    let time = (packets * rate.max(drain) + drain + rate) * SLOT_UNITS_AT_1BPS;
    let before = (units as u64 - 1) * stream.interval as u64;
    (time.div_ceil(rate * drain) as u64).saturating_sub(before)
}

/// Returns the least lead of a stream.
fn least_lead(description: &Description, stream: &StreamDescription) -> u64
    requires ranges { IsStream stream.now }
    ensures lead { result ≡ least_lead description.now stream.now }
{
    let mut least = 0;
    for before in 0..stream.allowance.rows() {
        least = least.max(units_lead(description, stream, before + 1));
    }
    least
}

/// Returns a reason if the lead of stream number `i` is too short for its units.
pub fn lead_reason(
    description: &Description,
    i: usize,
    stream: &StreamDescription,
) -> Option<Reason>
    requires small { i < 256 }
    requires ranges { IsStream stream.now }
    ensures { option_to_list result ≡ lead_reason description.now i stream.now }
{
    let least = least_lead(description, stream);
    if (stream.lead as u64) < least {
        Some(Reason::ShortLead(i as u8, least))
    } else {
        None
    }
}

/// Returns the least main buffer of a stream, in bytes.
fn least_main(description: &Description, stream: &StreamDescription) -> u64
    requires ranges { IsStream stream.now }
    ensures main { result ≡ least_main description.now stream.now }
{
    let window = waiting_slots(description, stream) as u128 - 1;
    let rate = description.rate().bits_per_second() as u128;
    let given = steady_time(stream) as u128 * rate;
    let packets = window * steady_packets(stream) as u128 / given;
    let by_slots = 184 * (packets + 1);
    (bytes_by_units(stream) as u128).min(by_slots) as u64
}

/// Returns a reason if the main buffer of stream number `i` is too small for its lead.
pub fn main_reason(
    description: &Description,
    i: usize,
    stream: &StreamDescription,
) -> Option<Reason>
    requires small { i < 256 }
    requires ranges { IsStream stream.now }
    ensures { option_to_list result ≡ main_reason description.now i stream.now }
{
    let least = least_main(description, stream);
    if (stream.main as u64) < least {
        Some(Reason::SmallMain(i as u8, least))
    } else {
        None
    }
}
