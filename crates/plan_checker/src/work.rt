//! The work of a buffer that an item's own slots fill.

ghost use Rattle.std.specs.Prelude.{◌≡◌, ◌+◌, ◌*◌, ◌^◌, ◌<◌, ◌≤◌, length};
ghost use Rattle.own_slots.specs.Work.{most_before, most_after, work_left};
ghost use Rattle.slot_plan.specs.Items.{marks};

use crate::period::Period;
use slot_plan::Item;

/// The work of a buffer over one period, in units of 8 / (rate * drain) seconds: a byte is worth `rate`.
#[derive(Clone, Copy, PartialEq, Eq)]
pub struct Work {
    /// The greatest work before an own slot, with the slot's packet on top.
    pub most_before: u64,
    /// The greatest work right after an own slot.
    pub most_after: u64,
    /// The work after the period.
    pub left: u64,
}

/// Returns the work over one period that begins with `start`, of an output of `rate` bits/s and a buffer that drains
/// `drain` bits/s: each slot drains the time of 188 bytes, an own slot adds 188 bytes.
pub fn work_of(slots: &Period<'_>, item: Item, rate: u64, drain: u64, start: u64) -> Work
    requires short { length slots.now ≤ 65536 }
    requires rate { rate ≤ 100000000 }
    requires drain { drain ≤ 200000000 }
    requires start { start < 10 ^ 18 }
    ensures before { result.most_before ≡ most_before rate drain start (marks item slots.now) }
    ensures after { result.most_after ≡ most_after rate drain start (marks item slots.now) }
    ensures after_bound { result.most_after ≤ start + length slots.now * (188 * rate) }
    ensures left_bound { result.left ≤ start + length slots.now * (188 * rate) }
    ensures left { result.left ≡ work_left rate drain start (marks item slots.now) }
{
    let packet = 188 * rate;
    let drained = 188 * drain;
    let mut work = start;
    let mut most_before = 0;
    let mut most_after = 0;
    let period = slots.len();
    let mut at = 0;
    'walk: while at < period {
        let left = work.saturating_sub(drained);
        let next = slots.next(item, at);
        let rest = drained * (next - at - 1) as u64;
        if slots.owns(item, at) {
            most_before = most_before.max(work + packet);
            most_after = most_after.max(left + packet);
            work = (left + packet).saturating_sub(rest);
            at = next;
        } else {
            work = left.saturating_sub(rest);
            at = next;
        }
    }
    Work {
        most_before,
        most_after,
        left: work,
    }
}
