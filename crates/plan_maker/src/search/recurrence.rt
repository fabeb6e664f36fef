//! PCRs and tables: what recurs within a time.

ghost use Rattle.std.specs.Prelude.{◌≡◌};
ghost use Rattle.plan_maker.specs.Recurrences as spec;

use crate::search::numbers::{all_narrowed, less, lesser, plus, product, rounded_up};
use clock27::SLOT_MS_AT_1BPS;

/// An item with `packets` own slots in a row within `gap` slots, and with each own slot at least `apart` slots after
/// the one before it if even spacing gives that distance; 0 if no distance is asked for.
#[derive(Clone, Copy)]
pub struct Recurrence {
    pub gap: u128,
    pub packets: u128,
    pub apart: u128,
}

/// Returns the least slots from the begin of a packet to the begin of a next one that leave `distance` ms between the
/// two; 0 if no distance is asked for.
fn slots_apart(distance: u64, rate: u64) -> u128
    ensures { result ≡ spec.slots_apart distance rate }
{
    if distance == 0 {
        return 0;
    }
    let between = (distance as u128 * rate as u128).div_ceil(SLOT_MS_AT_1BPS);
    plus(between, 1)
}

impl Recurrence {
    /// Returns the recurrence of `packets` own slots within `limit` ms, with `distance` ms between two of them, at that
    /// rate in bits/s.
    pub fn within(limit: u64, rate: u64, packets: u64, distance: u64) -> Recurrence
        ensures { result ≡ spec.recurrence_of limit rate packets distance }
    {
        Recurrence {
            gap: limit as u128 * rate as u128 / SLOT_MS_AT_1BPS,
            packets: packets as u128,
            apart: slots_apart(distance, rate),
        }
    }

    /// Returns the least own slots of a period; None if the packets don't fit into the gap.
    pub fn count(self, period: u64) -> Option<u64>
        ensures { result ≡ spec.recurrence_count self period }
    {
        if self.gap < self.packets {
            return None;
        }
        all_narrowed(rounded_up(product(&[self.packets, period as u128]), self.gap))
    }

    /// Returns the most that the own slots may stray from even spacing, in slots times own slots; None if they are
    /// too few.
    pub fn width(self, period: u64, count: u64) -> Option<u64>
        ensures { result ≡ spec.recurrence_width self period count }
    {
        let most = product(&[count as u128, plus(self.gap, 1)]);
        let least = plus(product(&[self.packets, period as u128]), 1);
        let apart = self.apart_width(period, count);
        all_narrowed(lesser(less(most, least), Some(apart)))
    }

    /// Returns the most that the own slots may stray such that each is `apart` slots after the one before it; the
    /// greatest number if no distance is asked for, or if even spacing does not give it.
    fn apart_width(self, period: u64, count: u64) -> u128
        ensures { result ≡ spec.apart_width self period count }
    {
        let taken = product(&[count as u128, self.apart]);
        let whole = period as u128 + (count as u128).saturating_sub(1);
        if self.apart == 0 {
            return u128::MAX;
        }
        if (period as u128) < taken {
            return u128::MAX;
        }
        whole - taken
    }
}
