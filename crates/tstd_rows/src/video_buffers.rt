//! The two buffers of video after its transport buffer.
ghost use Rattle.std.specs.Prelude.{◌≡◌, ℕ, List, [], ◌∷◌, ◌+◌, ◌<◌, ◌≤◌, ◌^◌, IfOk, OnOk, Option, None};
ghost use Rattle.arrival.specs.Rows.{IsTimed};
ghost use Rattle.tstd_rows.specs.Buffers.{IsSoon, times_left};
ghost use Rattle.tstd_rows.specs.History.{Part, left_after};
ghost use Rattle.tstd_rows.specs.History.Part.{Begins, Carries};
ghost use Rattle.tstd_rows.specs.VideoViewed.{elementary_peak, last_leaked, last_transferred, multiplexing_buffer, multiplexing_under_way, with_entry};
ghost use Rattle.tstd_rows.specs.VideoBytes.{bytes_in};
ghost use Rattle.tstd_rows.specs.Busy.{busy_under_way, leak_busy};
ghost use Rattle.tstd_rows.specs.HeldVideo.{HoldsVideo, IsVideoHeld, VideoSizes, elementary_under_way, nothing_of_video, sizes_of, video_entered, video_found, video_unit, video_unit_in, video_view};
ghost use Rattle.tstd_rows.specs.RoomTimes.{capped};

use crate::busy_watch::{BusyWatch, Stay};
use crate::eb_rooms::EbRooms;
use crate::excess::Excess;
use crate::late_causes::VideoUnit;
use crate::leaving::Leaving;
use crate::main_excess::see;
use crate::main_watch::MainWatch;
use crate::unit_seen::{DueTime, UnitSeen};
use crate::video_view::leak_step;
use crate::viewed_buffers::StreamView;
use std::alloc::{AllocError, Global};

/// The rates and the sizes of the buffers of video (ISO/IEC 13818-1, 2.4.2.3).
#[derive(Clone, Copy)]
pub struct VideoRates {
    /// The rate out of the multiplexing buffer in bits a second.
    pub rbx: u32,
    /// The size of the multiplexing buffer in bytes.
    pub multiplexing: u64,
    /// The size of the elementary stream buffer.
    pub elementary: u64,
}

/// The multiplexing buffer and the elementary stream buffer of a stream: the first is the transport buffer of the view,
/// the second its main buffer. Times are times of the stream's transport buffer.
#[derive(Drop)]
pub struct VideoBuffers {
    pub view: StreamView<Global>,
    /// The size of the elementary stream buffer, and its current excess.
    pub elementary: MainWatch,
    /// How long the multiplexing buffer is not empty.
    pub busy: BusyWatch,
    /// When the elementary stream buffer has room for the next bytes.
    pub rooms: EbRooms,
}

/// The results of a packet of video: an excess of the multiplexing buffer that ended before a byte that waited in the
/// transport buffer, or before another byte; an excess of the elementary stream buffer that ended; and the unit before
/// a unit that begins. Also the most bytes in each buffer when a byte of the packet entered it, including this byte; 0
/// if none did.
#[derive(Clone, Copy)]
pub struct VideoEntered {
    pub waiting: Option<Excess>,
    pub free: Option<Excess>,
    pub elementary: Option<Excess>,
    pub unit: Option<VideoUnit>,
    pub multiplexing_most: u128,
    pub elementary_most: u64,
}

impl VideoEntered {
    /// Returns the empty result: nothing has ended, and nothing was in the buffers.
    #[inline(always)]
    pub fn new() -> VideoEntered
        ensures { result ≡ nothing_of_video }
    {
        VideoEntered {
            waiting: None,
            free: None,
            elementary: None,
            unit: None,
            multiplexing_most: 0,
            elementary_most: 0,
        }
    }
}

impl VideoBuffers {
    /// Returns empty buffers behind a transport buffer that is drained at `rx` bits a second, where a byte takes
    /// `step` to leave.
    pub fn new(alloc: Global, step: u64, rx: u32, rates: &VideoRates) -> VideoBuffers
        requires some { 0 < step }
        requires slow { step ≤ 2 ^ 28 }
        requires drained { 0 < rx }
        requires rx { rx ≤ 200000000 }
        requires rbx { 64000 ≤ rates.now.rbx }
        requires size { 0 < rates.now.multiplexing }
        requires bound { rates.now.multiplexing ≤ 2 ^ 40 }
        ensures held { (rate : ℕ) → IsVideoHeld result (sizes_of step rx rates.now) rate [] }
        ensures bytes { result.view.transport.bytes ≡ 0 }
    {
        let leak = leak_step(step, rx, rates.rbx);
        VideoBuffers {
            view: StreamView::new(alloc, leak, rates.multiplexing),
            elementary: MainWatch::new(rates.elementary),
            busy: BusyWatch::new(u128::from(step) * u128::from(rx) / 8),
            rooms: EbRooms::new(alloc, rates.elementary),
        }
    }

    /// Takes payload bytes that leave the transport buffer; writes the results into `into`, which must be empty.
    #[inline(always)]
    pub fn take(&mut self, leaving: &Leaving, into: &mut VideoEntered)
        requires timed { IsTimed leaving.now.waiting × IsTimed leaving.now.free }
        requires soon { IsSoon leaving.now.waiting × IsSoon leaving.now.free }
        requires some { 0 < leaving.now.waiting.bytes + leaving.now.free.bytes }
        requires count { self.old.view.transport.bytes + (leaving.now.waiting.bytes + leaving.now.free.bytes) ≤ 2 ^ 40 }
        requires none { into.old.waiting ≡ None }
        requires none_free { into.old.free ≡ None }
        requires none_elementary { into.old.elementary ≡ None }
        ensures held { (sizes : VideoSizes) (rate : ℕ) (parts : List Part) (times : List ℕ) →
            IsVideoHeld self.old sizes rate parts →
            times_left leaving.now ≡ left_after rate parts times →
            IsVideoHeld self.new sizes rate (Carries times ∷ parts) }
        ensures entered { (sizes : VideoSizes) (rate : ℕ) (parts : List Part) (times : List ℕ) →
            IsVideoHeld self.old sizes rate parts →
            times_left leaving.now ≡ left_after rate parts times →
            video_view into.new ≡ video_entered sizes rate parts times }
        ensures unit { into.new.unit ≡ into.old.unit }
        ensures bytes { self.new.view.transport.bytes
            ≡ self.old.view.transport.bytes + (leaving.now.waiting.bytes + leaving.now.free.bytes) }
    {
        self.busy.see_leaving(self.view.transport.last, leaving);
        self.rooms.settle(self.view.transport.last);
        let found = self.view.leak(leaving, &mut into.waiting, &mut into.free);
        see(
            &mut self.elementary,
            found.elementary,
            self.view.transport.last,
            &mut into.elementary,
        );
        let count = leaving.waiting.bytes + leaving.free.bytes;
        self.rooms.take(self.view.transport.step, count);
        into.multiplexing_most = found.multiplexing;
        into.elementary_most = found.elementary;
    }

    /// Begins a unit with the next payload byte, and returns the unit before it. If memory runs out, drop the buffers.
    pub fn begin(&mut self, due: DueTime) -> Result<Option<VideoUnit>, AllocError>
        ensures held { (sizes : VideoSizes) (rate : ℕ) (parts : List Part) → IsVideoHeld self.old sizes rate parts →
            OnOk result (IsVideoHeld self.new sizes rate (Begins due ∷ parts)) }
        ensures unit { (sizes : VideoSizes) (rate : ℕ) (parts : List Part) → IsVideoHeld self.old sizes rate parts →
            IfOk result (λ unit. unit ≡ video_unit_in sizes rate parts) }
        ensures bytes { self.new.view.transport.bytes ≡ self.old.view.transport.bytes }
    {
        let entered = self.last_entry();
        self.rooms.begin(due.until)?;
        let before = self.view.begin(due)?;
        Ok(with_entry(before, entered))
    }

    /// Returns the most bytes that were in the multiplexing buffer.
    pub fn multiplexing_most(&self) -> u128
        ensures { (sizes : VideoSizes) (rate : ℕ) (parts : List Part) → IsVideoHeld self.now sizes rate parts →
            result ≡ (multiplexing_buffer rate sizes.leak parts).most }
    {
        self.view.transport.most
    }

    /// Returns the most bytes that were in the elementary stream buffer.
    pub fn elementary_most(&self) -> u64
        ensures { (sizes : VideoSizes) (rate : ℕ) (parts : List Part) → IsVideoHeld self.now sizes rate parts →
            result ≡ elementary_peak rate sizes.leak parts }
    {
        self.view.main.peak
    }

    /// Returns the current excess of the multiplexing buffer.
    pub fn multiplexing_excess(&self) -> Option<Excess>
        ensures { (sizes : VideoSizes) (rate : ℕ) (parts : List Part) → IsVideoHeld self.now sizes rate parts →
            result ≡ multiplexing_under_way rate sizes.leak sizes.multiplexing parts }
    {
        self.view.watch.under_way
    }

    /// Returns the current excess of the elementary stream buffer.
    pub fn elementary_excess(&self) -> Option<Excess>
        ensures { (sizes : VideoSizes) (rate : ℕ) (parts : List Part) → IsVideoHeld self.now sizes rate parts →
            result ≡ elementary_under_way rate sizes.leak sizes.elementary parts }
    {
        self.elementary.under_way
    }

    /// Returns the current [`Stay`] of the multiplexing buffer, if it is longer than a second.
    pub fn busy_under_way(&self) -> Option<Stay>
        ensures { (sizes : VideoSizes) (rate : ℕ) (parts : List Part) → IsVideoHeld self.now sizes rate parts →
            result ≡ busy_under_way (leak_busy rate sizes.leak sizes.second parts) (last_leaked rate sizes.leak parts) }
    {
        self.busy.under_way(self.view.transport.last)
    }

    // Returns when the last byte so far goes to the elementary stream buffer; no byte goes while that buffer is full.
    fn last_entry(&self) -> u128
        ensures { (sizes : VideoSizes) (rate : ℕ) (parts : List Part) → IsVideoHeld self.now sizes rate parts →
            capped result ≡ capped (last_transferred rate sizes.leak sizes.elementary parts) }
    {
        self.view.transport.last.max(self.rooms.last)
    }

    /// Returns the current unit.
    pub fn unit(&self) -> Option<VideoUnit>
        ensures { (sizes : VideoSizes) (rate : ℕ) (parts : List Part) → IsVideoHeld self.now sizes rate parts →
            result ≡ video_unit_in sizes rate parts }
    {
        with_entry(self.view.unit, self.last_entry())
    }
}

// Returns the unit with the time at which its last byte goes to the elementary stream buffer.
#[tactic(auto, unfolding(crate::specs::VideoViewed::with_entry))]
fn with_entry(unit: Option<UnitSeen>, time: u128) -> Option<VideoUnit>
    ensures { result ≡ with_entry unit time }
{
    match unit {
        None => None,
        Some(seen) => Some(VideoUnit {
            seen,
            entered: if seen.bytes == 0 { 0 } else { time },
        }),
    }
}

/// Takes payload bytes that leave the transport buffer into the buffers of video, if there are any.
#[inline(always)]
pub(crate) fn take_video(
    video: &mut Option<VideoBuffers>,
    leaving: &Leaving,
    into: &mut VideoEntered,
)
    requires timed { IsTimed leaving.now.waiting × IsTimed leaving.now.free }
    requires soon { IsSoon leaving.now.waiting × IsSoon leaving.now.free }
    requires some { 0 < leaving.now.waiting.bytes + leaving.now.free.bytes }
    requires count { bytes_in video.old + (leaving.now.waiting.bytes + leaving.now.free.bytes) ≤ 2 ^ 40 }
    requires none { into.old.waiting ≡ None }
    requires none_free { into.old.free ≡ None }
    requires none_elementary { into.old.elementary ≡ None }
    requires empty { into.old.multiplexing_most ≡ 0 }
    requires empty_elementary { into.old.elementary_most ≡ 0 }
    ensures held { (sizes : Option VideoSizes) (rate : ℕ) (parts : List Part) (times : List ℕ) →
        HoldsVideo video.old sizes rate parts →
        times_left leaving.now ≡ left_after rate parts times → HoldsVideo video.new sizes rate (Carries times ∷ parts) }
    ensures entered { (sizes : Option VideoSizes) (rate : ℕ) (parts : List Part) (times : List ℕ) →
        HoldsVideo video.old sizes rate parts →
        times_left leaving.now ≡ left_after rate parts times →
        video_view into.new ≡ video_found sizes rate parts times }
    ensures unit { into.new.unit ≡ into.old.unit }
    ensures bytes { bytes_in video.new ≤ bytes_in video.old + (leaving.now.waiting.bytes + leaving.now.free.bytes) }
{
    match video {
        None => {}
        Some(video) => {
            // A copy, made here alone: so the rows of other streams stay out of memory.
            let rows = *leaving;
            video.take(&rows, into);
        }
    }
}

/// Begins a unit in the buffers of video, if there are any; writes the unit before it into `unit`, which must be
/// empty.
pub(crate) fn begin_video(
    video: &mut Option<VideoBuffers>,
    due: DueTime,
    unit: &mut Option<VideoUnit>,
) -> Result<(), AllocError>
    requires none { unit.old ≡ None }
    ensures held { (sizes : Option VideoSizes) (rate : ℕ) (parts : List Part) → HoldsVideo video.old sizes rate parts →
        OnOk result (HoldsVideo video.new sizes rate (Begins due ∷ parts)) }
    ensures unit { (sizes : Option VideoSizes) (rate : ℕ) (parts : List Part) → HoldsVideo video.old sizes rate parts →
        OnOk result (unit.new ≡ video_unit sizes rate parts) }
    ensures bytes { bytes_in video.new ≡ bytes_in video.old }
{
    match video {
        None => {}
        Some(video) => *unit = video.begin(due)?,
    }
    Ok(())
}
