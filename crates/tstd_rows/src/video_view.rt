//! The two buffers of video after its transport buffer.
ghost use Rattle.std.specs.Prelude.{◌≡◌, ℕ, ◌+◌, ◌*◌, ◌<◌, ◌≤◌, ◌^◌, max, ◌∷◌, ◌++◌, List, None};
ghost use Rattle.std.specs.Option.{option_to_list};
ghost use Rattle.clock27.specs.Peak.{greatest_at, most_found};
ghost use Rattle.arrival.specs.Rows.{IsTimed, times_of};
ghost use Rattle.tstd_rows.specs.Buffers.{IsSoon, entered, times_left};
ghost use Rattle.tstd_rows.specs.Excesses.{excess_after, excesses_ended};
ghost use Rattle.tstd_rows.specs.History.{Part, left_after, main_fullness};
ghost use Rattle.tstd_rows.specs.History.Part.{Carries};
ghost use Rattle.tstd_rows.specs.VideoViewed.{leak_step};
ghost use Rattle.tstd_rows.specs.Viewed.{IsViewOf};

use crate::excess::Excess;
use crate::leaving::Leaving;
use crate::row_found::VideoFound;
use crate::viewed_buffers::StreamView;
use arrival::Row;
use std::alloc::Allocator;

/// Returns the time that a byte takes to leave a multiplexing buffer that leaks `rbx` bits a second, behind a transport
/// buffer that is drained at `rx` bits a second and that a byte takes `step` to leave.
#[tactic(auto, using(crate::proofs::LeakSteps::leaks, crate::proofs::LeakSteps::leak_slow))]
pub fn leak_step(step: u64, rx: u32, rbx: u32) -> u64
    requires some { 0 < step }
    requires slow { step ≤ 2 ^ 28 }
    requires drained { 0 < rx }
    requires rx { rx ≤ 200000000 }
    requires rbx { 64000 ≤ rbx }
    ensures value { result ≡ leak_step step rx rbx }
    ensures positive { 0 < result }
    ensures bound { result ≤ 2 ^ 40 }
{
    (step * u64::from(rx) + u64::from(rbx - 1)) / u64::from(rbx)
}

impl<A: Allocator> StreamView<A> {
    // Takes bytes of one row that left the transport buffer.
    #[inline(always)]
    fn leak_row(&mut self, row: &Row, ended: &mut Option<Excess>) -> VideoFound
        requires timed { IsTimed row.now }
        requires soon { IsSoon row.now }
        requires some { 0 < row.now.bytes }
        requires count { self.old.transport.bytes + row.now.bytes ≤ 2 ^ 40 }
        requires none { ended.old ≡ None }
        ensures view { (parts : List Part) → IsViewOf self.old parts →
            IsViewOf self.new (Carries (times_of row.now) ∷ parts) }
        ensures multiplexing { result.multiplexing
            ≡ most_found self.old.transport.step self.old.transport.last (times_of row.now) }
        ensures elementary { (parts : List Part) → IsViewOf self.old parts → result.elementary
            ≡ greatest_at (main_fullness self.old.transport.step (Carries (times_of row.now) ∷ parts))
            (left_after self.old.transport.step parts (times_of row.now)) }
        ensures ended { option_to_list ended.new
            ≡ excesses_ended self.old.transport.step self.old.watch.size self.old.transport.last
            self.old.watch.under_way (times_of row.now) }
        ensures buffer { self.new.transport ≡ entered self.old.transport (times_of row.now) }
        ensures under_way { self.new.watch.under_way
            ≡ excess_after self.old.transport.step self.old.watch.size self.old.transport.last
            self.old.watch.under_way (times_of row.now) }
        ensures size { self.new.watch.size ≡ self.old.watch.size }
        ensures bytes { self.new.transport.bytes ≡ self.old.transport.bytes + row.now.bytes }
    {
        let carried = self.carry(row, ended);
        VideoFound {
            multiplexing: carried.found.transport,
            elementary: carried.found.main,
        }
    }

    // Takes bytes if the first of them waited in the transport buffer. A call of its own: its code is large, and many
    // rows have no such byte.
    #[inline(never)]
    fn leak_waiting(
        &mut self,
        leaving: &Leaving,
        waiting: &mut Option<Excess>,
        free: &mut Option<Excess>,
    ) -> VideoFound
        requires timed { IsTimed leaving.now.waiting × IsTimed leaving.now.free }
        requires soon { IsSoon leaving.now.waiting × IsSoon leaving.now.free }
        requires waits { 0 < leaving.now.waiting.bytes }
        requires count { self.old.transport.bytes + (leaving.now.waiting.bytes + leaving.now.free.bytes) ≤ 2 ^ 40 }
        requires none { waiting.old ≡ None }
        requires none_free { free.old ≡ None }
        ensures view { (parts : List Part) → IsViewOf self.old parts →
            IsViewOf self.new (Carries (times_left leaving.now) ∷ parts) }
        ensures multiplexing { result.multiplexing
            ≡ most_found self.old.transport.step self.old.transport.last (times_left leaving.now) }
        ensures elementary { (parts : List Part) → IsViewOf self.old parts → result.elementary
            ≡ greatest_at (main_fullness self.old.transport.step (Carries (times_left leaving.now) ∷ parts))
            (left_after self.old.transport.step parts (times_left leaving.now)) }
        ensures ended { option_to_list waiting.new ++ option_to_list free.new
            ≡ excesses_ended self.old.transport.step self.old.watch.size self.old.transport.last
            self.old.watch.under_way (times_left leaving.now) }
        ensures step { self.new.transport.step ≡ self.old.transport.step }
        ensures size { self.new.watch.size ≡ self.old.watch.size }
        ensures bytes { self.new.transport.bytes
            ≡ self.old.transport.bytes + (leaving.now.waiting.bytes + leaving.now.free.bytes) }
    {
        if leaving.free.bytes == 0 {
            return self.leak_row(&leaving.waiting, waiting);
        }
        let first = self.leak_row(&leaving.waiting, waiting);
        let second = self.leak_row(&leaving.free, free);
        VideoFound {
            multiplexing: first.multiplexing.max(second.multiplexing),
            elementary: first.elementary.max(second.elementary),
        }
    }

    /// Takes the bytes of a row of video as they leave its transport buffer. They enter the multiplexing buffer, which
    /// is this view's transport buffer, and then the elementary stream buffer, which is its main buffer. Returns what
    /// they found. Writes the excesses of the multiplexing buffer that have ended into empty places: before a byte
    /// that waited in the transport buffer, and before a byte that found it empty.
    #[inline(always)]
    pub fn leak(
        &mut self,
        leaving: &Leaving,
        waiting: &mut Option<Excess>,
        free: &mut Option<Excess>,
    ) -> VideoFound
        requires timed { IsTimed leaving.now.waiting × IsTimed leaving.now.free }
        requires soon { IsSoon leaving.now.waiting × IsSoon leaving.now.free }
        requires some { 0 < leaving.now.waiting.bytes + leaving.now.free.bytes }
        requires count { self.old.transport.bytes + (leaving.now.waiting.bytes + leaving.now.free.bytes) ≤ 2 ^ 40 }
        requires none { waiting.old ≡ None }
        requires none_free { free.old ≡ None }
        ensures view { (parts : List Part) → IsViewOf self.old parts →
            IsViewOf self.new (Carries (times_left leaving.now) ∷ parts) }
        ensures multiplexing { result.multiplexing
            ≡ most_found self.old.transport.step self.old.transport.last (times_left leaving.now) }
        ensures elementary { (parts : List Part) → IsViewOf self.old parts → result.elementary
            ≡ greatest_at (main_fullness self.old.transport.step (Carries (times_left leaving.now) ∷ parts))
            (left_after self.old.transport.step parts (times_left leaving.now)) }
        ensures ended { option_to_list waiting.new ++ option_to_list free.new
            ≡ excesses_ended self.old.transport.step self.old.watch.size self.old.transport.last
            self.old.watch.under_way (times_left leaving.now) }
        ensures step { self.new.transport.step ≡ self.old.transport.step }
        ensures size { self.new.watch.size ≡ self.old.watch.size }
        ensures bytes { self.new.transport.bytes
            ≡ self.old.transport.bytes + (leaving.now.waiting.bytes + leaving.now.free.bytes) }
    {
        if leaving.waiting.bytes == 0 {
            return self.leak_row(&leaving.free, free);
        }
        self.leak_waiting(leaving, waiting, free)
    }
}
