//! Both buffers of a stream.
ghost use Rattle.std.specs.Prelude.{◌≡◌, ◌+◌, ◌<◌, ◌≤◌, ◌^◌, None, OnOk, Option, Some, false, length, true, []};
ghost use Rattle.std.specs.Option.{option_to_list};
ghost use Rattle.arrival.specs.Arrivals.{has_times, step_of, times_at};
ghost use Rattle.tstd_rows.specs.Held.{Held, IsHeld, begun, carried, empty, main_ended, main_found, main_least_found, main_most, passed, transport_busy, transport_busy_under_way, transport_ended, transport_found, transport_most, transport_under_way, unit_before};
ghost use Rattle.tstd_rows.specs.HeldVideo.{HoldsVideoOf, VideoSizes, sizes_of, video_found, video_unit, video_view};
ghost use Rattle.tstd_rows.specs.EnteringVideo.{bytes_video, video_unit_ended};
ghost use Rattle.tstd_rows.specs.Entering.{after_begin, after_bytes, bytes_main, bytes_main_least, bytes_main_most, bytes_transport, bytes_transport_most, unit_ended};

use crate::busy_watch::{BusyWatch, Stay};
use crate::excess::Excess;
use crate::late_causes::VideoUnit;
use crate::main_excess::see;
use crate::main_watch::MainWatch;
use crate::row_found::RowFound;
use crate::stream_buffers::StreamBuffers;
use crate::unit_seen::{DueTime, UnitSeen};
use crate::video_buffers::{VideoBuffers, VideoEntered, VideoRates, begin_video, take_video};
use crate::viewed_buffers::StreamView;
use arrival::Arrival;
use std::alloc::{AllocError, Global};

/// The size of a transport buffer in bytes (ISO/IEC 13818-1, 2.4.2.3).
pub const TRANSPORT_BYTES: u64 = 512;

// The result for no bytes.
const NO_ROW: RowFound = RowFound {
    transport: 0,
    main: 0,
    least: None,
};

impl StreamBuffers {
    /// Returns empty buffers, the main buffer of `size` bytes, for packets with this arrival.
    #[tactic(auto, unfolding(crate::specs::Busy::busy_of))]
    pub fn new(alloc: Global, arrival: &Arrival, rx: u32, size: u64) -> StreamBuffers
        requires { rx ≤ 200000000 }
        ensures held { IsHeld result (empty (step_of arrival.now) rx size) }
        ensures video { result.video ≡ None }
    {
        StreamBuffers {
            rx,
            view: StreamView::new(alloc, arrival.step(), TRANSPORT_BYTES),
            main: MainWatch::new(size),
            busy: BusyWatch::new(u128::from(arrival.step()) * u128::from(rx) / 8),
            video: None,
        }
    }

    /// Adds the two buffers of video to the view; call it before anything has arrived.
    pub fn view_video(&mut self, alloc: Global, rates: &VideoRates)
        requires drained { 0 < self.old.rx }
        requires rbx { 64000 ≤ rates.now.rbx }
        requires size { 0 < rates.now.multiplexing }
        requires bound { rates.now.multiplexing ≤ 2 ^ 40 }
        ensures held { (h : Held) → IsHeld self.old h → IsHeld self.new h }
        ensures video { (h : Held) → IsHeld self.old h → h.parts ≡ [] →
            HoldsVideoOf self.new (Some (sizes_of h.rate h.rx rates.now)) h }
    {
        let step = self.view.transport.step;
        self.video = Some(VideoBuffers::new(alloc, step, self.rx, rates));
    }

    /// Returns the most bytes that were in the transport buffer.
    pub fn transport_most(&self) -> u128
        ensures { (h : Held) → IsHeld self.now h → result ≡ transport_most h }
    {
        self.view.transport.most
    }

    /// Returns the most bytes that were in the main buffer.
    pub fn main_most(&self) -> u64
        ensures { (h : Held) → IsHeld self.now h → result ≡ main_most h }
    {
        self.view.main.peak
    }

    /// Returns the current excess of the transport buffer.
    pub fn transport_excess(&self) -> Option<Excess>
        ensures { (h : Held) → IsHeld self.now h → result ≡ transport_under_way h }
    {
        self.view.watch.under_way
    }

    /// Returns the current excess of the main buffer.
    pub fn main_excess(&self) -> Option<Excess>
        ensures { (h : Held) → IsHeld self.now h → result ≡ h.main.under_way }
    {
        self.main.under_way
    }

    /// Returns the number of units before the current unit whose bytes wait in the main buffer.
    pub fn units_waiting(&self) -> usize
        ensures { result ≡ length self.now.view.main.earlier.items }
    {
        self.view.main.earlier.len()
    }

    /// Returns the current unit.
    pub fn unit(&self) -> Option<UnitSeen>
        ensures { (h : Held) → IsHeld self.now h → result ≡ unit_before h }
    {
        self.view.unit
    }

    /// Returns how often the transport buffer was not empty for longer than a second, and the last such time.
    pub fn busy(&self) -> BusyWatch
        ensures { (h : Held) → IsHeld self.now h → result ≡ transport_busy h }
    {
        self.busy
    }

    /// Returns the current [`Stay`] of the transport buffer, if it is longer than a second.
    pub fn busy_under_way(&self) -> Option<Stay>
        ensures { (h : Held) → IsHeld self.now h → result ≡ transport_busy_under_way h }
    {
        self.busy.under_way(self.view.transport.last)
    }

    // Takes bytes of the stream from byte `byte` on that stop at the transport buffer; returns the most bytes that a
    // byte found. Writes the excess that has ended into `ended`, which must be empty.
    #[inline(always)]
    fn pass(&mut self, arrival: &Arrival, byte: u64, count: u64, ended: &mut Option<Excess>) -> u128
        requires some { 0 < count }
        requires few { count ≤ 188 }
        requires times { has_times arrival.now byte count ≡ true }
        requires room { self.old.view.transport.bytes + count ≤ 2 ^ 40 }
        requires none { ended.old ≡ None }
        ensures held { (h : Held) → IsHeld self.old h →
            IsHeld self.new (passed h (times_at arrival.now h.rx byte count)) }
        ensures video { (h : Held) (sizes : Option VideoSizes) → IsHeld self.old h → HoldsVideoOf self.old sizes h →
            HoldsVideoOf self.new sizes (passed h (times_at arrival.now h.rx byte count)) }
        ensures ended { (h : Held) → IsHeld self.old h →
            option_to_list ended.new ≡ transport_ended h (times_at arrival.now h.rx byte count) }
        ensures most { (h : Held) → IsHeld self.old h →
            result ≡ transport_found h (times_at arrival.now h.rx byte count) }
        ensures bytes { self.new.view.transport.bytes ≡ self.old.view.transport.bytes + count }
    {
        let row = arrival.row(u64::from(self.rx), byte, count);
        self.busy.see(self.view.transport.last, &row);
        self.view.pass(&row, ended)
    }

    // Takes `count` bytes before a payload; `count` may be 0.
    #[inline(always)]
    #[tactic(auto, unfolding(crate::specs::Entering::after_payload, crate::specs::Entering::payload_transport, crate::specs::Entering::payload_transport_most))]
    pub(crate) fn pass_if(
        &mut self,
        arrival: &Arrival,
        byte: u64,
        count: u64,
        ended: &mut Option<Excess>,
    ) -> u128
        requires few { count ≤ 188 }
        requires times { has_times arrival.now byte count ≡ true }
        requires room { self.old.view.transport.bytes + count ≤ 2 ^ 40 }
        requires none { ended.old ≡ None }
        ensures held { (h : Held) → IsHeld self.old h → IsHeld self.new (after_bytes h arrival.now false byte count) }
        ensures video { (h : Held) (sizes : Option VideoSizes) → IsHeld self.old h → HoldsVideoOf self.old sizes h →
            HoldsVideoOf self.new sizes (after_bytes h arrival.now false byte count) }
        ensures ended { (h : Held) → IsHeld self.old h →
            option_to_list ended.new ≡ bytes_transport h arrival.now byte count }
        ensures most { (h : Held) → IsHeld self.old h → result ≡ bytes_transport_most h arrival.now byte count }
        ensures bytes { self.new.view.transport.bytes ≡ self.old.view.transport.bytes + count }
    {
        if count == 0 {
            0
        } else {
            self.pass(arrival, byte, count, ended)
        }
    }

    // Takes bytes of the current unit; returns what they found. Writes the excesses that have ended where none are
    // yet.
    #[inline(always)]
    fn carry(
        &mut self,
        arrival: &Arrival,
        byte: u64,
        count: u64,
        ended: &mut Option<Excess>,
        main: &mut Option<Excess>,
        video: &mut VideoEntered,
    ) -> RowFound
        requires some { 0 < count }
        requires few { count ≤ 188 }
        requires times { has_times arrival.now byte count ≡ true }
        requires room { self.old.view.transport.bytes + count ≤ 2 ^ 40 }
        requires none { ended.old ≡ None }
        requires none_main { main.old ≡ None }
        requires none_waiting { video.old.waiting ≡ None }
        requires none_free { video.old.free ≡ None }
        requires none_elementary { video.old.elementary ≡ None }
        requires empty { video.old.multiplexing_most ≡ 0 }
        requires empty_elementary { video.old.elementary_most ≡ 0 }
        ensures held { (h : Held) → IsHeld self.old h →
            IsHeld self.new (carried h (times_at arrival.now h.rx byte count)) }
        ensures video { (h : Held) (sizes : Option VideoSizes) → IsHeld self.old h → HoldsVideoOf self.old sizes h →
            HoldsVideoOf self.new sizes (carried h (times_at arrival.now h.rx byte count)) }
        ensures ended { (h : Held) → IsHeld self.old h →
            option_to_list ended.new ≡ transport_ended h (times_at arrival.now h.rx byte count) }
        ensures main { (h : Held) → IsHeld self.old h →
            option_to_list main.new ≡ main_ended h (times_at arrival.now h.rx byte count) }
        ensures most { (h : Held) → IsHeld self.old h →
            result.transport ≡ transport_found h (times_at arrival.now h.rx byte count) }
        ensures main_most { (h : Held) → IsHeld self.old h →
            result.main ≡ main_found h (times_at arrival.now h.rx byte count) }
        ensures main_least { (h : Held) → IsHeld self.old h →
            result.least ≡ main_least_found h (times_at arrival.now h.rx byte count) }
        ensures entered_video { (h : Held) (sizes : Option VideoSizes) → IsHeld self.old h →
            HoldsVideoOf self.old sizes h →
            video_view video.new ≡ video_found sizes h.rate h.parts (times_at arrival.now h.rx byte count) }
        ensures unit_video { video.new.unit ≡ video.old.unit }
        ensures bytes { self.new.view.transport.bytes ≡ self.old.view.transport.bytes + count }
    {
        let row = arrival.row(u64::from(self.rx), byte, count);
        let carried = self.view.carry(&row, ended);
        see(
            &mut self.main,
            carried.found.main,
            self.view.transport.last,
            main,
        );
        take_video(&mut self.video, &carried.leaving, video);
        carried.found
    }

    // Begins a unit, and writes the unit before it. A call of its own: few packets begin a unit.
    #[inline(never)]
    #[tactic(auto, unfolding(crate::specs::Busy::busy_of))]
    pub(crate) fn begin_unit(
        &mut self,
        due: DueTime,
        unit: &mut Option<UnitSeen>,
        video: &mut Option<VideoUnit>,
    ) -> Result<(), AllocError>
        requires none_video { video.old ≡ None }
        ensures held { (h : Held) → IsHeld self.old h → OnOk result (IsHeld self.new (begun h due)) }
        ensures video { (h : Held) (sizes : Option VideoSizes) → IsHeld self.old h → HoldsVideoOf self.old sizes h →
            OnOk result (HoldsVideoOf self.new sizes (begun h due)) }
        ensures unit { (h : Held) → IsHeld self.old h → OnOk result (unit.new ≡ unit_before h) }
        ensures unit_video { (h : Held) (sizes : Option VideoSizes) → IsHeld self.old h →
            HoldsVideoOf self.old sizes h →
            OnOk result (video.new ≡ video_unit sizes h.rate h.parts) }
        ensures bytes { self.new.view.transport.bytes ≡ self.old.view.transport.bytes }
    {
        *unit = self.view.begin(due)?;
        begin_video(&mut self.video, due, video)
    }

    // Begins a unit, if any, and writes the unit before it into `unit`, which must be empty.
    #[inline(always)]
    #[tactic(auto, unfolding(crate::specs::Entering::after_begin, crate::specs::Entering::unit_ended, crate::specs::EnteringVideo::video_unit_ended))]
    pub(crate) fn begin(
        &mut self,
        due: &Option<DueTime>,
        unit: &mut Option<UnitSeen>,
        video: &mut Option<VideoUnit>,
    ) -> Result<(), AllocError>
        requires none { unit.old ≡ None }
        requires none_video { video.old ≡ None }
        ensures held { (h : Held) → IsHeld self.old h → OnOk result (IsHeld self.new (after_begin h due.now)) }
        ensures video { (h : Held) (sizes : Option VideoSizes) → IsHeld self.old h → HoldsVideoOf self.old sizes h →
            OnOk result (HoldsVideoOf self.new sizes (after_begin h due.now)) }
        ensures unit { (h : Held) → IsHeld self.old h → OnOk result (unit.new ≡ unit_ended h due.now) }
        ensures unit_video { (h : Held) (sizes : Option VideoSizes) → IsHeld self.old h →
            HoldsVideoOf self.old sizes h →
            OnOk result (video.new ≡ video_unit_ended sizes h due.now) }
        ensures bytes { self.new.view.transport.bytes ≡ self.old.view.transport.bytes }
    {
        match due {
            None => Ok(()),
            Some(due) => self.begin_unit(*due, unit, video),
        }
    }

    // Takes `count` bytes of a payload from byte `byte` on; `count` may be 0. Returns what they found, and writes the
    // excesses that have ended where none are yet.
    #[inline(always)]
    #[tactic(auto, unfolding(crate::specs::Entering::after_payload, crate::specs::Entering::payload_transport, crate::specs::Entering::payload_main, crate::specs::Entering::payload_transport_most, crate::specs::Entering::payload_main_most, crate::specs::Entering::payload_main_least, crate::specs::EnteringVideo::payload_video))]
    pub(crate) fn take(
        &mut self,
        arrival: &Arrival,
        byte: u64,
        count: u64,
        enters: bool,
        ended: &mut Option<Excess>,
        main: &mut Option<Excess>,
        video: &mut VideoEntered,
    ) -> RowFound
        requires few { count ≤ 188 }
        requires times { has_times arrival.now byte count ≡ true }
        requires room { self.old.view.transport.bytes + count ≤ 2 ^ 40 }
        requires none { ended.old ≡ None }
        requires none_main { main.old ≡ None }
        requires none_waiting { video.old.waiting ≡ None }
        requires none_free { video.old.free ≡ None }
        requires none_elementary { video.old.elementary ≡ None }
        requires empty { video.old.multiplexing_most ≡ 0 }
        requires empty_elementary { video.old.elementary_most ≡ 0 }
        ensures held { (h : Held) → IsHeld self.old h → IsHeld self.new (after_bytes h arrival.now enters byte count) }
        ensures video { (h : Held) (sizes : Option VideoSizes) → IsHeld self.old h → HoldsVideoOf self.old sizes h →
            HoldsVideoOf self.new sizes (after_bytes h arrival.now enters byte count) }
        ensures ended { (h : Held) → IsHeld self.old h →
            option_to_list ended.new ≡ bytes_transport h arrival.now byte count }
        ensures main { (h : Held) → IsHeld self.old h →
            option_to_list main.new ≡ bytes_main h arrival.now enters byte count }
        ensures most { (h : Held) → IsHeld self.old h →
            result.transport ≡ bytes_transport_most h arrival.now byte count }
        ensures main_most { (h : Held) → IsHeld self.old h →
            result.main ≡ bytes_main_most h arrival.now enters byte count }
        ensures main_least { (h : Held) → IsHeld self.old h →
            result.least ≡ bytes_main_least h arrival.now enters byte count }
        ensures entered_video { (h : Held) (sizes : Option VideoSizes) → IsHeld self.old h →
            HoldsVideoOf self.old sizes h →
            video_view video.new ≡ bytes_video sizes h arrival.now enters byte count }
        ensures unit_video { video.new.unit ≡ video.old.unit }
        ensures bytes { self.new.view.transport.bytes ≡ self.old.view.transport.bytes + count }
    {
        if count == 0 {
            NO_ROW
        } else if enters {
            self.carry(arrival, byte, count, ended, main, video)
        } else {
            let transport = self.pass(arrival, byte, count, ended);
            RowFound {
                transport,
                main: 0,
                least: None,
            }
        }
    }
}
