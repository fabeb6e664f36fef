//! A stream's own slots in two plans in turn, and the slots that its packets take over the switch.

ghost use Rattle.std.specs.Prelude.{◌≡◌, ◌+◌, ◌*◌, ◌^◌, ◌<◌, ◌≤◌, max};
ghost use Rattle.unit_timing.specs.Conditions.{slots_across};
ghost use Rattle.switch_checker.specs.SwitchShares.{timed, peaked, AreSharesInRange};

/// A stream's own slots in one plan: their number in a period, the period's slots, how far they stray and the most work
/// after one.
#[derive(Clone, Copy)]
pub struct PlanShare {
    pub count: u64,
    pub period: u64,
    pub spread: u64,
    pub peak: u64,
}

impl PlanShare {
    /// Returns the same own slots, with that work after one.
    pub fn peaked(self, peak: u64) -> PlanShare
        ensures { result ≡ peaked self peak }
    {
        PlanShare {
            count: self.count,
            period: self.period,
            spread: self.spread,
            peak,
        }
    }
}

/// A stream's own slots in each of two plans, and how many slots later the second plan's own slots are.
#[derive(Clone, Copy)]
pub struct SwitchShares {
    pub first: PlanShare,
    pub second: PlanShare,
    pub shift: u64,
}

/// Returns the sum of both plans' spreads, each times the number of own slots in the opposite plan.
fn strayed(first: PlanShare, second: PlanShare) -> u64
    requires count { first.count ≤ 65536 }
    requires next_count { second.count ≤ 65536 }
    requires spread { first.spread < 2 ^ 33 }
    requires next_spread { second.spread < 2 ^ 33 }
    ensures strayed { result ≡ first.spread * second.count + second.spread * first.count }
    ensures bound { result ≤ 2 ^ 50 }
{
    first.spread * second.count + second.spread * first.count
}

/// Returns the slower of the two paces.
fn slower(first: PlanShare, second: PlanShare) -> u64
    requires count { first.count ≤ 65536 }
    requires next_count { second.count ≤ 65536 }
    requires period { first.period ≤ 65536 }
    requires next_period { second.period ≤ 65536 }
    ensures slower { result ≡ max (first.period * second.count) (second.period * first.count) }
    ensures bound { result ≤ 2 ^ 32 }
{
    u64::max(first.period * second.count, second.period * first.count)
}

/// Returns the shift of the second plan's own slots.
fn shifted(first: PlanShare, second: PlanShare, shift: u64) -> u64
    requires count { first.count ≤ 65536 }
    requires next_count { second.count ≤ 65536 }
    requires shift { shift ≤ 65536 }
    ensures shifted { result ≡ first.count * second.count * (shift + 1) }
    ensures bound { result ≤ 2 ^ 49 }
{
    first.count * second.count * (shift + 1)
}

/// Returns the slots that `packets` packets take over the switch, times the own slots of both periods: the spreads, the
/// slower of the two paces, the shift of the second plan's own slots.
pub fn slots_needed(shares: SwitchShares, packets: u64) -> u128
    requires in_range { AreSharesInRange shares }
    requires spread { shares.first.spread < 2 ^ 33 }
    requires next_spread { shares.second.spread < 2 ^ 33 }
    requires packets { packets ≤ 2 ^ 21 }
    ensures slots { result ≡ slots_across (timed shares.first) (timed shares.second) shares.shift packets }
    ensures bound { result < 2 ^ 54 }
{
    let SwitchShares {
        first,
        second,
        shift,
    } = shares;
    let strayed = strayed(first, second);
    let shifted = shifted(first, second, shift);
    (strayed + packets * slower(first, second) + shifted) as u128
}
