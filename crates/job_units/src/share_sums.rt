//! The sum of the shares of a multiplex that streams ask for.

ghost use Rattle.std.specs.Prelude.{◌≡◌, ◌≤◌, ◌-◌, ◌^◌, min, sum_by};
ghost use Rattle.job_units.specs.Declarations as spec;

use crate::choices::is_countable;
use crate::declarations::{StreamChoice, UnitCounts};
use clock27::{LEAST_RATE, SLOT_UNITS_AT_1BPS};
use stream_choice::least_share;
use unit_timing::shares::PARTS;

/// The share of an output of the least rate.
const LEAST_OUTPUT: u64 = (PARTS as u128 * LEAST_RATE as u128 / SLOT_UNITS_AT_1BPS) as u64;

/// The share of what recurs for one program: 29 packets a second.
const RECURRING: u64 = PARTS * 29 / 90_000;

// Returns the least share that a stream needs.
#[tactic(auto, unfolding(crate::specs::Declarations::share_of))]
fn share_of(unit_counts: &UnitCounts) -> u64
    ensures { result ≡ spec.share_of unit_counts.now }
{
    let max_group_packets = unit_counts.max_group_packets.as_slice();
    if is_countable(unit_counts.needs, max_group_packets) {
        least_share(unit_counts.needs, max_group_packets)
    } else {
        0
    }
}

// Returns the sum of the shares, or the greatest number if they are more.
fn shares_sum(all: &[UnitCounts]) -> u64
    ensures { result ≡ min (sum_by spec.share_of all.now) (2 ^ 64 - 1) }
{
    let mut sum: u64 = 0;
    for unit_counts in all {
        sum = sum.saturating_add(share_of(unit_counts));
    }
    sum
}

// Returns the sum of the shares of choices, or the greatest number if they are more.
fn chosen_sum(chosen: &[StreamChoice]) -> u64
    ensures { result ≡ min (sum_by (λ s. s.choice.share) chosen.now) (2 ^ 64 - 1) }
{
    let mut sum: u64 = 0;
    for one in chosen {
        sum = sum.saturating_add(one.choice.share);
    }
    sum
}

/// Returns the sum of the shares of the multiplex that these streams need by groups, at least the least output rate.
#[tactic(auto, unfolding(crate::specs::Declarations::shares_of))]
pub(crate) fn shares_of(all: &[UnitCounts]) -> u64
    ensures value { result ≡ spec.shares_of all.now }
    ensures least { 2 ^ 17 ≤ result }
{
    shares_sum(all).max(LEAST_OUTPUT)
}

/// Returns the sum of the shares that the streams ask for with these choices, and of what recurs for one program; at
/// least the least output rate.
#[tactic(auto, unfolding(crate::specs::Declarations::asked_shares))]
pub(crate) fn asked_shares(chosen: &[StreamChoice]) -> u64
    ensures value { result ≡ spec.asked_shares chosen.now }
    ensures least { 2 ^ 17 ≤ result }
{
    chosen_sum(chosen)
        .saturating_add(RECURRING)
        .max(LEAST_OUTPUT)
}
