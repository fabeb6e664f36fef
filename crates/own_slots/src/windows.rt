//! Gaps and spread of one period, as windows of slots over all time, wherever a window begins.

ghost use Rattle.own_slots.specs.Gaps.{GapLaw, GapWalkLaw};
ghost use Rattle.own_slots.specs.Spread.{PaceLaw, ShareLaw, SpreadWalkLaw};

/// States that, if each own slot is at most g slots before the k-th own slot after it (round the period's end too),
/// each window of g slots has at least k own slots.
pub fn gaps()
    ensures { GapLaw }
{}

/// States that the greatest gap is the greatest of what one walk over the slots of the period finds at its own slots.
pub fn gap_walk()
    ensures { GapWalkLaw }
{}

/// States that a period of N slots with c own slots and a spread of at most a has a pace: m own slots come within
/// each window of w slots, where `a + m * N < c * (w + 1)`.
pub fn pace()
    ensures { PaceLaw }
{}

/// States that, with a spread of at most a, no window of w slots (w from 1 on) has more than `((w - 1) * c + a) / N +
/// 1` own slots.
pub fn share()
    ensures { ShareLaw }
{}

/// States that the spread over all pairs of own slots is the difference of two extremes, which one walk over the
/// slots of the period keeps: the greatest and the least of `c * s + (c - i) * N`, at slot s with own number i of the
/// period.
pub fn spread_walk()
    ensures { SpreadWalkLaw }
{}
