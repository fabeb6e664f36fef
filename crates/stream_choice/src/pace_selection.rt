//! The choice of a pace.

ghost use Rattle.std.specs.Prelude.{◌≡◌, ◌≤◌, ◌^◌, ℕ, IfSome, IsNone, IsTrue};
ghost use Rattle.stream_choice.specs.Choices.{IsChoice};
ghost use Rattle.stream_choice.specs.Ranges.{IsNeeds};
ghost use Rattle.stream_choice.specs.Paces as spec;

use crate::buffers::drains;
use crate::choice::Choice;
use crate::needs::Needs;
use crate::shares::{lateness, pace_share};
use unit_timing::allowance::Allowance;
use unit_timing::shares::PARTS;

/// The greatest burst that can be declared, in packets.
const MAX_BURST: u64 = 100_000;

/// The greatest pace that can be declared, in bits/s.
const MAX_PACE: u32 = 100_000_000;

/// The times that a range of paces is halved.
const HALVES: u32 = 27;

/// Units whose packets are known at any pace.
pub trait PacedUnits {
    ghost burst: { Self → ℕ → ℕ };

    /// Returns the packets of the least burst that the units keep with a pace in bits/s, or the greatest number if they
    /// exceed it.
    fn burst_at(&self, pace: u32) -> u64
        requires some { 1 ≤ pace }
        requires most { pace ≤ 100000000 }
        ensures { result ≡ burst self.now pace };
}

/// Returns the longest lead that the main buffer allows for packets of this share: by the sizes of units, or by the
/// packets that arrive within the lead.
fn longest_lead(needs: Needs, max_lead: u32, share: u64) -> u64
    requires ranges { IsNeeds needs }
    requires positive { 1 ≤ share }
    ensures value { result ≡ spec.longest_lead needs max_lead share }
    ensures upper { result ≤ max_lead }
{
    let main = u64::from(needs.main);
    let by_sizes = main / (19 + u64::from(needs.size)) * u64::from(needs.interval);
    let by_share = ((main / 184).saturating_sub(1) * PARTS).saturating_sub(1) / share;
    by_sizes.max(by_share).min(u64::from(max_lead))
}

/// Returns whether a burst can be declared, and arrives within the longest lead at a share.
#[tactic(auto, unfolding(crate::specs::Ranges::is_within))]
fn comes_in_time(needs: Needs, delay: u32, max_lead: u32, burst: u64, share: u64) -> bool
    requires ranges { IsNeeds needs }
    requires lead { max_lead ≤ 90000 }
    requires some { 1 ≤ share }
    requires most { share ≤ 2 ^ 40 }
    ensures { result ≡ spec.comes_in_time needs delay max_lead burst share }
{
    if burst == 0 || MAX_BURST < burst {
        return false;
    }
    let free = longest_lead(needs, max_lead, share).saturating_sub(lateness(delay, share));
    PARTS * burst <= share * free
}

/// Returns whether a burst at a pace arrives in time, and the transport buffer is drained no slower.
fn serves_burst(needs: Needs, delay: u32, max_lead: u32, burst: u64, pace: u32) -> bool
    requires ranges { IsNeeds needs }
    requires lead { max_lead ≤ 90000 }
    requires some { 1 ≤ pace }
    requires most { pace ≤ 100000000 }
    ensures { result ≡ spec.serves_burst needs delay max_lead burst pace }
{
    let share = pace_share(pace);
    drains(needs, share) && comes_in_time(needs, delay, max_lead, burst, share)
}

/// Returns whether the burst that units need at a pace arrives in time, and the transport buffer is drained no slower.
fn serves<U: PacedUnits>(needs: Needs, units: &U, delay: u32, max_lead: u32, pace: u32) -> bool
    requires ranges { IsNeeds needs }
    requires lead { max_lead ≤ 90000 }
    requires most { pace ≤ 100000000 }
    ensures { result ≡ spec.serves needs (U.burst units.now) delay max_lead pace }
{
    0 < pace && serves_burst(needs, delay, max_lead, units.burst_at(pace), pace)
}

/// Returns the first pace that serves of the greatest pace, its half, its quarter and so on.
fn first_half<U: PacedUnits>(needs: Needs, units: &U, delay: u32, max_lead: u32) -> Option<u32>
    requires ranges { IsNeeds needs }
    requires lead { max_lead ≤ 90000 }
    ensures value { result ≡ spec.first_half 27 (spec.serves needs (U.burst units.now) delay max_lead)
        (spec.greatest_pace needs) }
    ensures upper { IfSome result (λ pace. pace ≤ 100000000) }
{
    let mut pace = (needs.rx - 1).min(MAX_PACE);
    for turn in 0..HALVES {
        if serves(needs, units, delay, max_lead, pace) {
            return Some(pace);
        }
        pace /= 2;
    }
    None
}

/// Returns a pace that serves when one bit/s less does not, by halving the range below `from`, a pace that serves.
fn halved<U: PacedUnits>(needs: Needs, units: &U, delay: u32, max_lead: u32, from: u32) -> u32
    requires ranges { IsNeeds needs }
    requires lead { max_lead ≤ 90000 }
    requires most { from ≤ 100000000 }
    ensures value { result ≡ spec.halved 27 (spec.serves needs (U.burst units.now) delay max_lead) 0 from }
    ensures upper { result ≤ from }
{
    let mut low = 0;
    let mut high = from;
    for turn in 0..HALVES {
        if low + 1 < high {
            let middle = (low + high) / 2;
            if serves(needs, units, delay, max_lead, middle) {
                high = middle;
            } else {
                low = middle;
            }
        }
    }
    high
}

/// Returns the declaration of units by a pace that serves, with the least lead that brings their burst in time.
fn paced<U: PacedUnits>(needs: Needs, units: &U, delay: u32, max_lead: u32, pace: u32) -> Choice
    requires ranges { IsNeeds needs }
    requires lead { max_lead ≤ 90000 }
    requires most { pace ≤ 100000000 }
    requires serves { IsTrue (spec.serves needs (U.burst units.now) delay max_lead pace) }
    ensures { result ≡ spec.paced (U.burst units.now) delay pace }
{
    let share = pace_share(pace);
    let burst = units.burst_at(pace);
    let lead = lateness(delay, share) + (PARTS * burst).div_ceil(share);
    Choice {
        allowance: Allowance::Pace {
            burst: burst as u32,
            pace,
        },
        lead: lead as u32,
        share,
    }
}

/// Returns a pace, with the burst that the units need at it and the least lead that brings the burst: it serves, and
/// one bit/s less does not; `None` if none of the first tries serves. `delay` is the longest time from a packet's slot
/// to its end in the transport buffer, and no lead is over `max_lead`; times are in units of 90 kHz.
///
/// The packets of the units are asked for at most 55 times.
pub fn choose_pace<U: PacedUnits>(
    needs: Needs,
    units: &U,
    delay: u32,
    max_lead: u32,
) -> Option<Choice>
    requires ranges { IsNeeds needs }
    requires lead { max_lead ≤ 90000 }
    ensures value { result ≡ spec.pace_choice needs (U.burst units.now) delay max_lead }
    ensures holds { IfSome result (IsChoice needs max_lead) }
    ensures pace { IfSome result (spec.IsPaceChoice needs (U.burst units.now) delay max_lead) }
    ensures refused { IsNone result → spec.HasNoPace needs (U.burst units.now) delay max_lead }
{
    let first = first_half(needs, units, delay, max_lead)?;
    let pace = halved(needs, units, delay, max_lead, first);
    Some(paced(needs, units, delay, max_lead, pace))
}
