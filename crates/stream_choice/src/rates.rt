//! The least rate of an output.

ghost use Rattle.std.specs.Prelude.{◌≡◌, ◌≤◌, ◌-◌, ◌^◌, min, sum_by, IfSome, IsNone};
ghost use Rattle.stream_choice.specs.Rates as spec;

use crate::recurring::Recurring;
use clock27::rate_search::{self, Load};
use clock27::{LEAST_RATE, SLOT_MS_AT_1BPS, SLOT_UNITS_AT_1BPS};
use unit_timing::shares::PARTS;

/// The items that an output carries: streams by their shares, and recurring items.
#[derive(Clone, Copy)]
struct Items<'a> {
    shares: &'a [u64],
    recurring: &'a [Recurring],
}

impl Load for Items<'_> {
    ghost enough = { λ items. spec.has_slots items.shares.now items.recurring.now };

    fn has_slots(&self, rate: u64) -> bool {
        let streams = streams_parts(rate, self.shares);
        streams.saturating_add(recurring_parts(rate, self.recurring)) <= u128::from(PARTS)
    }
}

/// Returns the slots of a stream of that share, in parts of all slots.
fn stream_part(rate: u64, share: u64) -> u128
    requires positive { 1 ≤ rate }
    ensures { result ≡ spec.stream_part rate share }
{
    (u128::from(share) * SLOT_UNITS_AT_1BPS).div_ceil(u128::from(rate))
}

/// Returns the parts of the slots that a recurring item takes; more than all parts if its slots don't fit into its
/// limit.
fn recurring_part(rate: u64, recurring: &Recurring) -> u128
    ensures { result ≡ spec.recurring_part rate recurring.now }
{
    let gap = u128::from(recurring.limit) * u128::from(rate) / SLOT_MS_AT_1BPS;
    let slots = u128::from(recurring.slots);
    if gap == 0 || gap < slots {
        return u128::from(PARTS) + 1;
    }
    (u128::from(PARTS) * slots).div_ceil(gap)
}

/// Returns the parts of all streams, or the greatest number if they exceed it.
fn streams_parts(rate: u64, shares: &[u64]) -> u128
    requires positive { 1 ≤ rate }
    ensures { result ≡ min (sum_by (spec.stream_part rate) shares.now) (2 ^ 128 - 1) }
{
    let mut total: u128 = 0;
    for share in shares {
        total = total.saturating_add(stream_part(rate, *share));
    }
    total
}

/// Returns the parts of all recurring items.
fn recurring_parts(rate: u64, recurring: &[Recurring]) -> u128
    ensures { result ≡ min (sum_by (spec.recurring_part rate) recurring.now) (2 ^ 128 - 1) }
{
    let mut total: u128 = 0;
    for item in recurring {
        total = total.saturating_add(recurring_part(rate, item));
    }
    total
}

/// Returns the least rate in bits/s, from 100,000 to 100,000,000, that makes the shares of all items sum to at most the
/// whole output: streams, in packets a unit of 90 kHz in parts of 2^40, and recurring items. `None` if no such rate
/// serves.
pub fn least_rate(shares: &[u64], recurring: &[Recurring]) -> Option<u64>
    ensures least { IfSome result (spec.IsLeastRate shares.now recurring.now) }
    ensures refused { IsNone result → spec.IsTooMuch shares.now recurring.now }
{
    rate_search::least_rate(&Items { shares, recurring }, LEAST_RATE)
}
