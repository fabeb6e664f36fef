//! The buffers of a stream, and their counts.
ghost use Rattle.std.specs.Prelude.{◌≡◌, ◌++◌, ◌<◌, ◌^◌, OnOk, Option, if◌then◌else◌, is_some};
ghost use Rattle.tstd_rows.specs.Entering.{after, entered_view};
ghost use Rattle.tstd_rows.specs.Held.{Held, IsHeld};
ghost use Rattle.tstd_rows.specs.HeldVideo.{video_view};
ghost use Rattle.es_events.specs.VideoTallies.{video_row, video_tally_with};
ghost use Rattle.tstd_rows.specs.HeldVideo.{HoldsVideoOf, VideoSizes};
ghost use Rattle.es_view.specs.EntryFrames as spec;
ghost use Rattle.es_view.specs.EntryFrames.{AreCounted, Counted};
ghost use Rattle.es_events.specs.Tallies.{excess_counts, more, row_of, tally_with};
ghost use Rattle.tstd_rows.specs.History.{last_of};

use es_events::TraceRow;
use es_events::clocks::LONGEST_STAY;
use es_events::entry_events::{Place, push_ended};
use es_events::entry_stays::{overstay_of, push_delayed_if};
use es_events::tally::Tally;
use es_events::video_events::push_video_ended;
use es_events::video_figures::video_limits;
use es_events::video_tally::{VideoLimits, VideoTally};
use es_events::view_options::ViewOptions;
use events::{BufferKind, Event};
use sound_frames::FramePart;
use std::alloc::AllocError;
use tstd_rows::{
    Arriving, BusyWatch, DueTime, Entered, Stay, StreamBuffers, UnitPart, VideoEntered,
};

// No time in ticks that counts is after this one.
const LAST_TICK: u128 = (1 << 61) - 1;

/// The buffers of a stream, their counts, and how many units of the stream had bytes that stayed too long.
#[derive(Drop)]
pub struct CountedBuffers {
    pub buffers: StreamBuffers,
    pub tally: Tally,
    pub delayed: u64,
}

/// How long the transport buffer, and of video the multiplexing buffer, is not empty.
#[derive(Clone, Copy)]
pub(crate) struct BusySeen {
    pub transport: BusyWatch,
    pub multiplexing: Option<BusyWatch>,
}

/// How many times the transport buffer, and of video the multiplexing buffer, was not empty for too long.
#[derive(Clone, Copy)]
pub(crate) struct BusyCounts {
    pub transport: u64,
    pub multiplexing: u64,
}

/// Where the frames of a payload are: its packet, how long in ticks a byte may stay, the first of its bytes of frames,
/// and when the unit is due, in ticks from the stream's first byte.
#[derive(Clone, Copy)]
pub(crate) struct FramePlace {
    pub packet: u64,
    pub limit: u64,
    pub base: u64,
    pub tick: u128,
}

// Returns the number of excesses that ended.
fn excess_counts(entered: &Entered) -> (u64, u64)
    ensures { result ≡ excess_counts (entered_view entered.now) }
{
    let transport = u64::from(entered.lead.is_some())
        + u64::from(entered.header.is_some())
        + u64::from(entered.payload.is_some());
    (transport, u64::from(entered.main.is_some()))
}

// Returns when the last byte so far leaves the transport buffer.
#[inline(always)]
fn last_left(buffers: &StreamBuffers) -> u128
    ensures { (h : Held) → IsHeld buffers.now h → result ≡ last_of h.rate h.parts }
{
    buffers.view.transport.last
}

// Returns what a packet, or a part of it, found in the buffers.
#[inline(always)]
fn row_of(buffers: &StreamBuffers, packet: u64, entered: &Entered) -> TraceRow
    ensures { (h : Held) → IsHeld buffers.now h → result ≡ row_of h packet (entered_view entered.now) }
{
    TraceRow {
        packet,
        left: last_left(buffers),
        transport: entered.transport_most,
        main: entered.main_most,
        least: entered.main_least,
        begins: entered.unit.is_some(),
    }
}

/// Counts what has ended with a packet, or with a part of it, and keeps what it found in the buffers.
#[inline(always)]
pub(crate) fn add_entered(
    tally: &mut Tally,
    buffers: &StreamBuffers,
    packet: u64,
    window: u64,
    unread: bool,
    entered: &Entered,
)
    ensures { (h : Held) → IsHeld buffers.now h →
        tally.new ≡ tally_with tally.old window unread h packet (entered_view entered.now) }
{
    let (transport, main) = excess_counts(entered);
    tally.add_packet(window, entered);
    tally.add_excesses(transport, main, unread);
    tally.add_unit_if(window, &entered.unit);
    tally.add_row(buffers.main.size, row_of(buffers, packet, entered));
}

// Returns what a packet found in both buffers of video.
fn video_row_of(buffers: &StreamBuffers, packet: u64, entered: &VideoEntered) -> TraceRow
    ensures { (h : Held) → IsHeld buffers.now h →
        result ≡ video_row h packet (video_view entered.now) entered.now.unit }
{
    let begins = entered.unit.is_some();
    TraceRow {
        packet,
        left: last_left(buffers),
        transport: entered.multiplexing_most,
        main: entered.elementary_most,
        least: None,
        begins,
    }
}

// Counts what has ended in both buffers of video with a packet, and keeps what it found in them, if they are viewed.
#[tactic(auto, unfolding(es_events::specs::VideoTallies::with_video_row))]
fn add_video(
    tally: &mut VideoTally,
    limits: &Option<VideoLimits>,
    buffers: &StreamBuffers,
    packet: u64,
    entered: &VideoEntered,
)
    ensures { (h : Held) → IsHeld buffers.now h →
        tally.new ≡ video_tally_with tally.old limits.now h packet (video_view entered.now) entered.now.unit }
{
    tally.add_packet(entered);
    match limits {
        None => {}
        Some(limits) => tally.add_row(limits, video_row_of(buffers, packet, entered)),
    }
}

// Returns when a frame is due, in ticks.
fn frame_tick(tick: u128, part: &FramePart) -> u128
    ensures value { result ≡ spec.frame_tick tick part.now }
    ensures bound { result < 2 ^ 61 }
{
    let ahead = (u128::from(part.ahead) * 300).min(u128::from(LONGEST_STAY));
    tick.saturating_add(ahead).min(LAST_TICK)
}

// Returns a frame as the buffers see it.
fn unit_part(options: &ViewOptions, rx: u32, at: &FramePlace, part: &FramePart) -> UnitPart
    ensures { result ≡ spec.unit_part options.now rx at.now.base at.now.tick part.now }
{
    UnitPart {
        byte: at.base.saturating_add(part.place as u64),
        size: part.size as u64,
        due: DueTime::on_tick(options.arrival.step(), rx, frame_tick(at.tick, part)),
    }
}

impl CountedBuffers {
    /// Counts a unit whose bytes stay too long, if they do.
    pub(crate) fn add_delayed_if(&mut self, stay: &Option<Stay>)
        ensures delayed { self.new.delayed ≡ more self.old.delayed (if is_some stay.now then 1 else 0) }
        ensures buffers { self.new.buffers ≡ self.old.buffers }
        ensures tally { self.new.tally ≡ self.old.tally }
    {
        self.delayed = self.delayed.saturating_add(u64::from(stay.is_some()));
    }

    /// Returns how long the buffers are not empty.
    #[tactic(auto, unfolding(crate::specs::EntryFrames::leak_busy_of))]
    pub(crate) fn busy(&self) -> BusySeen
        ensures { (h : Held) (sizes : Option VideoSizes) → IsHeld self.now.buffers h →
            HoldsVideoOf self.now.buffers sizes h →
            result ≡ spec.busy_seen sizes h }
    {
        let multiplexing = match &self.buffers.video {
            None => None,
            Some(video) => Some(video.busy),
        };
        BusySeen {
            transport: self.buffers.busy(),
            multiplexing,
        }
    }

    /// Returns how many times the buffers were not empty for too long.
    #[tactic(auto, unfolding(crate::specs::EntryFrames::leak_busy_of, crate::specs::EntryFrames::leak_count))]
    pub(crate) fn busy_counts(&self) -> BusyCounts
        ensures { (h : Held) (sizes : Option VideoSizes) → IsHeld self.now.buffers h →
            HoldsVideoOf self.now.buffers sizes h →
            result ≡ spec.counts_of (spec.busy_seen sizes h) }
    {
        let multiplexing = match &self.buffers.video {
            None => 0,
            Some(video) => video.busy.count,
        };
        BusyCounts {
            transport: self.buffers.busy.count,
            multiplexing,
        }
    }

    /// Returns the time since when the multiplexing buffer of video is not empty, if it is longer than a second.
    pub(crate) fn leak_under_way(&self) -> Option<Stay>
        ensures { (h : Held) (sizes : Option VideoSizes) → HoldsVideoOf self.now.buffers sizes h →
            result ≡ spec.leak_under_way sizes h }
    {
        match &self.buffers.video {
            None => None,
            Some(video) => video.busy_under_way(),
        }
    }

    /// Takes a packet, and appends what has ended with it.
    #[inline(always)]
    pub(crate) fn enter_whole(
        &mut self,
        options: &ViewOptions,
        place: &Place,
        window: u64,
        unread: bool,
        arriving: &Arriving,
        video_tally: &mut VideoTally,
        events: &mut Vec<Event>,
    ) -> Result<(), AllocError>
        ensures counted { (c : Counted) → AreCounted self.old c →
            OnOk result (AreCounted self.new (spec.whole_after options.now window unread arriving.now c)) }
        ensures video { (c : Counted) (sizes : Option VideoSizes) → AreCounted self.old c →
            HoldsVideoOf self.old.buffers sizes c.held →
            OnOk result (HoldsVideoOf self.new.buffers sizes (after c.held options.now.arrival arriving.now)) }
        ensures tally { (c : Counted) (sizes : Option VideoSizes) → AreCounted self.old c →
            HoldsVideoOf self.old.buffers sizes c.held →
            OnOk result (video_tally.new
            ≡ spec.video_counted video_tally.old sizes c.held options.now.arrival arriving.now) }
        ensures found { (c : Counted) (sizes : Option VideoSizes) → AreCounted self.old c →
            HoldsVideoOf self.old.buffers sizes c.held →
            OnOk result (events.new.items
            ≡ events.old.items ++ spec.whole_events options.now place.now arriving.now sizes c.held) }
    {
        let limits = video_limits(&self.buffers);
        let mut entered = Entered::new();
        self.buffers
            .enter_into(&options.arrival, arriving, &mut entered)?;
        push_ended(events, options, place, &entered)?;
        push_video_ended(events, options, place, &limits, &entered.video)?;
        let packet = arriving.index;
        add_entered(
            &mut self.tally,
            &self.buffers,
            packet,
            window,
            unread,
            &entered,
        );
        add_video(video_tally, &limits, &self.buffers, packet, &entered.video);
        Ok(())
    }

    // Takes a packet with the first `count` bytes of its payload.
    pub(crate) fn enter_front(
        &mut self,
        options: &ViewOptions,
        place: &Place,
        window: u64,
        unread: bool,
        arriving: &Arriving,
        count: u64,
        events: &mut Vec<Event>,
    ) -> Result<(), AllocError>
        ensures counted { (c : Counted) → AreCounted self.old c →
            OnOk result (AreCounted self.new (spec.front_after options.now window unread arriving.now count c)) }
        ensures video { (c : Counted) (sizes : Option VideoSizes) → AreCounted self.old c →
            HoldsVideoOf self.old.buffers sizes c.held →
            OnOk result (HoldsVideoOf self.new.buffers sizes
            (spec.front_after options.now window unread arriving.now count c).held) }
        ensures found { (c : Counted) → AreCounted self.old c → OnOk result (events.new.items
            ≡ events.old.items ++ spec.front_events options.now place.now arriving.now count c.held) }
    {
        let mut entered = Entered::new();
        self.buffers
            .enter_front(&options.arrival, arriving, count, &mut entered)?;
        push_ended(events, options, place, &entered)?;
        let packet = arriving.index;
        add_entered(
            &mut self.tally,
            &self.buffers,
            packet,
            window,
            unread,
            &entered,
        );
        Ok(())
    }

    // Takes the bytes of a frame that begins within the payload.
    fn enter_frame(
        &mut self,
        options: &ViewOptions,
        place: &Place,
        at: &FramePlace,
        window: u64,
        frame: &FramePart,
        events: &mut Vec<Event>,
    ) -> Result<(), AllocError>
        ensures counted { (c : Counted) → AreCounted self.old c →
            OnOk result (AreCounted self.new (spec.frame_after options.now at.now window c frame.now)) }
        ensures video { (c : Counted) (sizes : Option VideoSizes) → AreCounted self.old c →
            HoldsVideoOf self.old.buffers sizes c.held →
            OnOk result (HoldsVideoOf self.new.buffers sizes
            (spec.frame_after options.now at.now window c frame.now).held) }
        ensures found { (c : Counted) → AreCounted self.old c → OnOk result (events.new.items
            ≡ events.old.items ++ spec.frame_events options.now place.now at.now c.held frame.now) }
    {
        let part = unit_part(options, self.buffers.rx, at, frame);
        let mut entered = Entered::new();
        self.buffers
            .enter_part(&options.arrival, &part, &mut entered)?;
        push_ended(events, options, place, &entered)?;
        let stay = overstay_of(options, at.limit, part.byte, frame_tick(at.tick, frame));
        push_delayed_if(events, options, place, BufferKind::Main, at.limit, &stay)?;
        add_entered(
            &mut self.tally,
            &self.buffers,
            at.packet,
            window,
            false,
            &entered,
        );
        self.add_delayed_if(&stay);
        Ok(())
    }

    /// Takes the bytes of the frames that begin within a payload, one after another, and appends their events.
    pub(crate) fn enter_frames(
        &mut self,
        options: &ViewOptions,
        place: &Place,
        at: &FramePlace,
        window: u64,
        frames: &[FramePart],
        events: &mut Vec<Event>,
    ) -> Result<(), AllocError>
        ensures counted { (c : Counted) → AreCounted self.old c →
            OnOk result (AreCounted self.new (spec.frames_after options.now at.now window c frames.now)) }
        ensures video { (c : Counted) (sizes : Option VideoSizes) → AreCounted self.old c →
            HoldsVideoOf self.old.buffers sizes c.held →
            OnOk result (HoldsVideoOf self.new.buffers sizes
            (spec.frames_after options.now at.now window c frames.now).held) }
        ensures found { (c : Counted) → AreCounted self.old c → OnOk result (events.new.items
            ≡ events.old.items ++ spec.frames_events options.now place.now at.now c.held frames.now) }
    {
        for frame in frames {
            self.enter_frame(options, place, at, window, frame, events)?;
        }
        Ok(())
    }
}
