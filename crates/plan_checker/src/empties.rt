//! The slots of a period where a buffer becomes empty (ISO/IEC 13818-1, 2.4.2.6).

ghost use Rattle.std.specs.Prelude.{◌≡◌, ◌+◌, ◌*◌, ◌^◌, ◌<◌, ◌≤◌, length};
ghost use Rattle.own_slots.specs.Period.{per_period, position, back};
ghost use Rattle.own_slots.specs.Gaps.{gap};
ghost use Rattle.own_slots.specs.Work.{work_step};
ghost use Rattle.slot_plan.specs.EmptySlots.{becomes_empty, empty_slots};
ghost use Rattle.slot_plan.specs.Items.{marks};
ghost use Rattle.plan_checker.specs.EmptyWalks.{passed, rounded};

use slot_plan::{Item, Slot};

/// The slots of a period where a buffer becomes empty, in numbers.
#[derive(Clone, Copy, PartialEq, Eq)]
pub struct EmptySlots {
    /// How many there are.
    pub count: u64,
    /// The first such slot, 0 if there is none.
    pub first: u64,
    /// The slots from the last such slot to the period's end, the whole period if there is none.
    pub back: u64,
    /// The greatest distance in slots from one such slot to the next, also across the period's end.
    pub gap: u64,
}

/// The slots where a buffer becomes empty, among the slots that a walk over a period has passed.
#[derive(Clone, Copy, PartialEq, Eq)]
pub struct EmptyWalk {
    pub count: u64,
    pub first: u64,
    pub last: u64,
    /// The greatest distance from one such slot to the next.
    pub longest: u64,
}

impl EmptyWalk {
    /// Returns the walk past slot `at`; `is_empty` says whether the buffer becomes empty there.
    fn passed(self, at: u64, is_empty: bool) -> EmptyWalk
        requires count { self.count < 2 ^ 32 }
        requires later { self.last ≤ at }
        ensures { result ≡ passed self at is_empty }
    {
        if !is_empty {
            return self;
        }
        if self.count == 0 {
            return EmptyWalk {
                count: 1,
                first: at,
                last: at,
                longest: 0,
            };
        }
        EmptyWalk {
            count: self.count + 1,
            first: self.first,
            last: at,
            longest: self.longest.max(at - self.last),
        }
    }

    /// Returns what the walk over a whole period of `period` slots has found.
    fn rounded(self, period: u64) -> EmptySlots
        requires first { self.first ≤ period }
        requires last { self.last ≤ period }
        requires period { period ≤ 65536 }
        ensures { result ≡ rounded self period }
    {
        let back = period - self.last;
        let gap = if self.count == 0 {
            0
        } else {
            self.longest.max(self.first + back)
        };
        EmptySlots {
            count: self.count,
            first: self.first,
            back,
            gap,
        }
    }
}

/// Returns the work after a slot, which is the buffer's own or not.
fn next_work(rate: u64, drain: u64, work: u64, owns: bool) -> u64
    requires rate { rate ≤ 100000000 }
    requires drain { drain ≤ 200000000 }
    requires work { work < 2 ^ 62 }
    ensures next { result ≡ work_step rate drain work owns }
    ensures bound { result ≤ work + 188 * rate }
{
    let left = work.saturating_sub(188 * drain);
    if owns { left + 188 * rate } else { left }
}

/// Returns whether the buffer becomes empty in a slot: it is not its own, and drains all that is left at its begin.
fn is_emptied(drain: u64, work: u64, owns: bool) -> bool
    requires drain { drain ≤ 200000000 }
    ensures { result ≡ becomes_empty drain work owns }
{
    let drained = 188 * drain;
    !owns && work.saturating_sub(drained) < drained
}

/// Returns the slots of a period where the buffer of an item becomes empty, if the period begins with the work
/// `start`.
pub fn empty_slots(slots: &[Slot], item: Item, rate: u64, drain: u64, start: u64) -> EmptySlots
    requires short { length slots.now ≤ 65536 }
    requires rate { rate ≤ 100000000 }
    requires drain { drain ≤ 200000000 }
    requires start { start < 10 ^ 18 }
    ensures count { result.count ≡ per_period (empty_slots rate drain start (marks item slots.now)) }
    ensures first { result.first ≡ position (empty_slots rate drain start (marks item slots.now)) 0 }
    ensures back { result.back ≡ back (empty_slots rate drain start (marks item slots.now)) 1 }
    ensures gap { result.gap ≡ gap (empty_slots rate drain start (marks item slots.now)) 1 }
    ensures near { result.first ≤ 65536 }
    ensures far { result.back ≤ 65536 }
{
    let mut work = start;
    let mut walk = EmptyWalk {
        count: 0,
        first: 0,
        last: 0,
        longest: 0,
    };
    for (at, slot) in slots.iter().enumerate() {
        let owns = item.owns(*slot);
        walk = walk.passed(at as u64, is_emptied(drain, work, owns));
        work = next_work(rate, drain, work, owns);
    }
    walk.rounded(slots.len() as u64)
}
