//! Bytes at an even pace that pass a buffer with room for each.
ghost use Rattle.std.specs.Prelude.{◌≡◌, ℕ, List, ◌+◌, ◌-◌, ◌*◌, ◌<◌, ◌≤◌, ◌^◌, max, IfSome};
ghost use Rattle.std.specs.Option.{option_to_list};
ghost use Rattle.clock27.specs.Departure.{departures, last_left};
ghost use Rattle.tstd.specs.Queues.{greatest_residence};
ghost use Rattle.arrival.specs.Rows.{IsTimed, times_of};
ghost use Rattle.tstd_rows.specs.EvenBytes.{AreEven, PassEvenly};
ghost use Rattle.tstd_rows.specs.WatchedQueues.{all_entered, ended_by};

use crate::excess::Excess;
use crate::watched_queue::WatchedQueue;
use arrival::Row;

/// One or more bytes one after another: when the first and the last arrive, and that each arrives `pace` / `parts`
/// after the byte before it.
#[derive(Clone, Copy)]
pub(crate) struct EvenBytes {
    pub first: u128,
    pub last: u128,
    pub pace: u64,
    pub parts: u64,
    pub bytes: u64,
}

/// Returns the bytes of a row, if it has any.
pub(crate) fn even_bytes(row: &Row) -> Option<EvenBytes>
    requires timed { IsTimed row.now }
    ensures even { IfSome result (λ even. AreEven even (times_of row.now)) }
    ensures bytes { IfSome result (λ even. even.bytes ≡ row.now.bytes) }
    ensures rising { IfSome result (λ even. even.first ≤ even.last) }
    ensures last { IfSome result (λ even. even.last ≤ 2 ^ 87) }
{
    if row.bytes == 0 {
        return None;
    }
    Some(EvenBytes {
        first: row.time(0),
        last: row.time(row.bytes - 1),
        pace: row.pace,
        parts: row.parts,
        bytes: row.bytes,
    })
}

// Returns how bytes leave a buffer, where a byte takes `step` to leave and the last byte before them leaves at `prev`,
// if they leave at an even pace: if they arrive no slower than they leave, all wait for the first; if they arrive no
// faster and the first does not wait, none waits.
fn leave_evenly(step: u64, prev: u128, even: &EvenBytes) -> Option<EvenBytes>
    requires step { step ≤ 2 ^ 33 }
    requires prev { prev < 2 ^ 100 }
    requires rising { even.now.first ≤ even.now.last }
    requires last { even.now.last < 2 ^ 100 }
    requires some { 0 < even.now.bytes }
    requires few { even.now.bytes ≤ 2 ^ 40 }
    ensures even { (times : List ℕ) → AreEven even.now times →
        IfSome result (λ left. AreEven left (departures step prev times)) }
    ensures last { (times : List ℕ) → AreEven even.now times →
        IfSome result (λ left. last_left step prev times ≡ left.last) }
    ensures longest { (times : List ℕ) → AreEven even.now times →
        IfSome result (λ left. greatest_residence step prev times ≡ left.last - even.now.last) }
    ensures bytes { IfSome result (λ left. left.bytes ≡ even.now.bytes) }
    ensures rising { IfSome result (λ left. left.first ≤ left.last) }
    ensures later { IfSome result (λ left. prev ≤ left.last) }
    ensures soon { IfSome result (λ left. left.last ≤ max even.now.last prev + even.now.bytes * step) }
{
    if u128::from(even.pace) <= u128::from(step) * u128::from(even.parts) {
        let first = even.first.max(prev);
        return Some(EvenBytes {
            first: first + u128::from(step),
            last: first + u128::from(even.bytes) * u128::from(step),
            pace: step,
            parts: 1,
            bytes: even.bytes,
        });
    }
    if even.first < prev {
        return None;
    }
    Some(EvenBytes {
        first: even.first + u128::from(step),
        last: even.last + u128::from(step),
        ..*even
    })
}

impl WatchedQueue {
    /// Returns how bytes leave, if they do so at an even pace and each of them finds room.
    pub(crate) fn leaving(&self, even: &EvenBytes) -> Option<EvenBytes>
        requires step { self.now.queue.step ≤ 2 ^ 33 }
        requires prev { self.now.queue.last < 2 ^ 100 }
        requires rising { even.now.first ≤ even.now.last }
        requires last { even.now.last < 2 ^ 100 }
        requires some { 0 < even.now.bytes }
        requires few { even.now.bytes ≤ 2 ^ 40 }
        ensures pass { IfSome result (λ left. PassEvenly self.now even.now left) }
        ensures bytes { IfSome result (λ left. left.bytes ≡ even.now.bytes) }
        ensures rising { IfSome result (λ left. left.first ≤ left.last) }
        ensures later { IfSome result (λ left. self.now.queue.last ≤ left.last) }
        ensures soon { IfSome result (λ left.
            left.last ≤ max even.now.last self.now.queue.last + even.now.bytes * self.now.queue.step) }
    {
        let left = leave_evenly(self.queue.step, self.queue.last, even)?;
        let room = u128::from(self.watch.size) * u128::from(self.queue.step);
        if left.last.saturating_sub(even.last) > room {
            return None;
        }
        Some(left)
    }

    /// Takes bytes that arrive and leave at these times; returns the excess that has ended before them.
    pub(crate) fn pass(&mut self, even: &EvenBytes, left: &EvenBytes) -> Option<Excess>
        requires some { 0 < self.old.queue.step }
        requires pass { PassEvenly self.old even.now left.now }
        ensures entered { (times : List ℕ) → AreEven even.now times → self.new ≡ all_entered self.old times }
        ensures ended { (times : List ℕ) → AreEven even.now times → option_to_list result ≡ ended_by self.old times }
        ensures step { self.new.queue.step ≡ self.old.queue.step }
        ensures last { self.new.queue.last ≡ left.now.last }
        ensures longest { self.new.queue.longest_residence
            ≡ max self.old.queue.longest_residence (left.now.last - even.now.last) }
    {
        let residence = left.last.saturating_sub(even.last);
        self.queue.longest_residence = self.queue.longest_residence.max(residence);
        self.queue.last = left.last;
        self.watch.under_way.take()
    }
}
