//! Items that ask for more slots than there are.

ghost use Rattle.std.specs.Prelude.{◌≡◌, ◌^◌, ◌<◌, ◌≤◌};
ghost use Rattle.std.specs.Option.{option_to_list};
ghost use Rattle.description_parts.specs.Ranges.{IsStream};
ghost use Rattle.plan_maker.specs.Loads.{stream_load, recurring_load, clock_load, streams_load, pcrs_load};
ghost use Rattle.plan_maker.specs.Loads.{tables_load, has_slots, least_rate};
ghost use Rattle.plan_maker.specs.Reasons.{load_reason};

use crate::clocks::clock_limit;
use crate::reason::Reason;
use clock27::SLOT_MS_AT_1BPS;
use clock27::rate_search::{self, Load};
use plan_checker::{steady_packets, steady_time};
use slot_plan::{Description, ProgramDescription, StreamDescription};
use unit_timing::shares::PARTS;

/// Returns the least share of slots of a stream, at that rate.
fn stream_load(stream: &StreamDescription, rate: u64) -> u128
    requires ranges { IsStream stream.now }
    requires positive { 0 < rate }
    requires high { rate ≤ 100000000 }
    ensures load { result ≡ stream_load rate stream.now }
    ensures bound { result ≤ 2 ^ 90 }
{
    let time = steady_time(stream) as u128 * rate as u128;
    u128::from(PARTS) * steady_packets(stream) as u128 / time
}

/// Returns the least share of slots of rounds of `packets` packets, each round within `limit` ms.
fn recurring_load(limit: u64, packets: u64, rate: u64) -> u128
    requires limit { limit ≤ 30000 }
    requires packets { packets ≤ 20000 }
    requires high { rate ≤ 100000000 }
    ensures load { result ≡ recurring_load rate limit packets }
    ensures bound { result ≤ 2 ^ 90 }
{
    let gap = limit as u128 * rate as u128 / SLOT_MS_AT_1BPS;
    u128::from(PARTS) * packets as u128 / gap.max(1)
}

/// Returns the share of all streams.
fn streams_load(description: &Description, rate: u64) -> u128
    requires positive { 0 < rate }
    requires high { rate ≤ 100000000 }
    ensures load { result ≡ streams_load description.now rate }
    ensures bound { result ≤ 2 ^ 100 }
{
    let mut total = 0;
    for (i, stream) in description.streams().iter().enumerate() {
        total += stream_load(stream, rate);
    }
    total
}

/// Returns the least share of the clock references of program number `i`: 0 if another program's slots carry them.
fn clock_load(description: &Description, i: usize, program: &ProgramDescription, rate: u64) -> u128
    requires high { rate ≤ 100000000 }
    ensures load { result ≡ clock_load description.now rate i program.now }
    ensures bound { result ≤ 2 ^ 90 }
{
    if description.has_references(i) {
        recurring_load(clock_limit(description, program) as u64, 1, rate)
    } else {
        0
    }
}

/// Returns the share of the PCRs of all programs.
fn pcrs_load(description: &Description, rate: u64) -> u128
    requires high { rate ≤ 100000000 }
    ensures load { result ≡ pcrs_load description.now rate }
    ensures bound { result ≤ 2 ^ 100 }
{
    let mut total = 0;
    for (i, program) in description.programs().iter().enumerate() {
        total += clock_load(description, i, program, rate);
    }
    total
}

/// Returns the share of all tables.
fn tables_load(description: &Description, rate: u64) -> u128
    requires high { rate ≤ 100000000 }
    ensures load { result ≡ tables_load description.now rate }
    ensures bound { result ≤ 2 ^ 100 }
{
    description.keeps_ranges();
    let mut total = 0;
    for t in 0..description.tables() {
        let limit = description.table_limit(t) as u64;
        total += recurring_load(limit, description.round_packets(t) as u64, rate);
    }
    total
}

/// Returns whether an output of that rate has slots enough for the least shares of all items.
fn has_slots(description: &Description, rate: u64) -> bool
    requires positive { 0 < rate }
    requires high { rate ≤ 100000000 }
    ensures { result ≡ has_slots description.now rate }
{
    let streams = streams_load(description, rate);
    let pcrs = pcrs_load(description, rate);
    let tables = tables_load(description, rate);
    streams + pcrs + tables <= u128::from(PARTS)
}

/// The items of a description, on an output of any rate.
#[derive(Clone, Copy)]
struct DescribedLoad<'a> {
    description: &'a Description,
}

impl Load for DescribedLoad<'_> {
    ghost enough = { λ load. has_slots load.description.now };

    fn has_slots(&self, rate: u64) -> bool {
        has_slots(self.description, rate)
    }
}

/// Returns the least rate above the description's own that has.
fn least_rate(description: &Description) -> Option<u64>
    ensures { result ≡ least_rate description.now }
{
    description.keeps_ranges();
    let from = description.rate().bits_per_second() + 1;
    rate_search::least_rate(&DescribedLoad { description }, from)
}

/// Returns a reason if the items ask for more slots than there are.
pub fn load_reason(description: &Description) -> Option<Reason>
    ensures { option_to_list result ≡ load_reason description.now }
{
    description.keeps_ranges();
    if has_slots(description, description.rate().bits_per_second()) {
        None
    } else {
        Some(Reason::Overload(least_rate(description)))
    }
}
