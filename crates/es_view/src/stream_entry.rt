//! A stream of the tables, from the first packet of its buffers on.
ghost use Rattle.std.specs.Prelude.{◌≡◌, ◌++◌, OnOk, Option};
ghost use Rattle.tstd_rows.specs.Held.{Held, IsHeld};
ghost use Rattle.ts_packet.specs.Views.{packet_view};
ghost use Rattle.es_view.specs.Crowding.{is_entry_crowded};
ghost use Rattle.es_view.specs.Entries as spec;
ghost use Rattle.tstd_rows.specs.HeldVideo.{HoldsVideoOf, VideoSizes};
ghost use Rattle.es_view.specs.EntryFrames as frames;
ghost use Rattle.es_view.specs.Entries.{EntryState, IsEntry};

use crate::counted_buffers::{BusyCounts, CountedBuffers};
use crate::entry_frames::EntryFrames;
use crate::entry_packets::{ahead_by, arriving, beginning_in, is_unread, payload_of, unit_stay};
use crate::held_events::push_window_if;
use crate::last_payload::LastPayload;
use arrival::PcrSample;
use es_events::clocks::Beginning;
use es_events::entry_events::{Place, push_ahead_if, push_closing};
use es_events::entry_stays::{is_idle, push_busy_closing, push_busy_if, push_delayed_if};
use es_events::mark_tally::{MarkTally, push_marks};
use es_events::tally::Tally;
use es_events::trace_events::{push_traces, push_video_traces};
use es_events::video_events::push_video_closing;
use es_events::video_figures::{is_video_good, video_figures, video_limits};
use es_events::video_tally::VideoTally;
use es_events::view_options::ViewOptions;
use events::{BufferKind, Event};
use std::alloc::AllocError;
use ts_packet::Packet;
use tstd_rows::{BusyWatch, Stay, StreamBuffers, TRANSPORT_BYTES};

/// The most units of a stream that may wait in its main buffer while more of its transport stream is viewed.
const MOST_WAITING: usize = 4_096;

/// A stream: its PID, the PID of its program's clock references, its last payload, its buffers with their counts, and
/// the counts of MB and EB and of the marks of its units.
#[derive(Drop)]
pub struct StreamEntry {
    pub pid: u16,
    pub clock_pid: u16,
    pub last: LastPayload,
    pub seen: CountedBuffers,
    pub video_tally: VideoTally,
    pub mark_tally: MarkTally,
    /// The walk over its frames, if it is sound that is viewed by access units.
    pub frames: Option<EntryFrames>,
    /// How long in ticks a byte may stay.
    pub limit: u64,
}

// Returns the buffer that bytes leave when they are decoded.
#[tactic(auto, unfolding(crate::specs::Entries::last_buffer))]
fn last_buffer(buffers: &StreamBuffers) -> BufferKind
    ensures { (h : Held) (sizes : Option VideoSizes) → HoldsVideoOf buffers.now sizes h →
        result ≡ spec.last_buffer sizes }
{
    match &buffers.video {
        None => BufferKind::Main,
        Some(_) => BufferKind::Elementary,
    }
}

// Appends whether the multiplexing buffer was not empty for more than a second until a packet came, if there is one.
fn push_leak_stay(
    events: &mut Vec<Event>,
    options: &ViewOptions,
    place: &Place,
    count: u64,
    buffers: &StreamBuffers,
) -> Result<(), AllocError>
    ensures { (h held : Held) (sizes : Option VideoSizes) → count ≡ frames.leak_count (frames.leak_busy_of sizes held) →
        HoldsVideoOf buffers.now sizes h → OnOk result (events.new.items ≡ events.old.items
        ++ frames.leak_ended options.now place.now (frames.leak_busy_of sizes held) (frames.leak_busy_of sizes h)) }
{
    match &buffers.video {
        None => Ok(()),
        Some(video) => {
            let buffer = BufferKind::Multiplexing;
            push_busy_if(events, options, place, buffer, count, &video.busy)?;
            Ok(())
        }
    }
}

// Appends which buffers were not empty for more than a second until a packet came.
fn push_stays(
    events: &mut Vec<Event>,
    options: &ViewOptions,
    place: &Place,
    before: &BusyCounts,
    buffers: &StreamBuffers,
) -> Result<(), AllocError>
    ensures { (h held : Held) (sizes : Option VideoSizes) →
        before.now ≡ frames.counts_of (frames.busy_seen sizes held) →
        IsHeld buffers.now h → HoldsVideoOf buffers.now sizes h → OnOk result (events.new.items ≡ events.old.items
        ++ frames.stays_ended options.now place.now (frames.busy_seen sizes held) (frames.busy_seen sizes h)) }
{
    let buffer = BufferKind::Transport;
    let count = before.transport;
    push_busy_if(events, options, place, buffer, count, &buffers.busy)?;
    push_leak_stay(events, options, place, before.multiplexing, buffers)?;
    Ok(())
}

// Returns whether the multiplexing buffer was empty at least once a second, if there is one.
#[tactic(auto, unfolding(crate::specs::EntryFrames::is_leak_idle))]
fn is_leak_idle(busy: &Option<BusyWatch>, under_way: &Option<Stay>) -> bool
    ensures { result ≡ frames.is_leak_idle busy.now under_way.now }
{
    match busy {
        None => true,
        Some(busy) => is_idle(busy, under_way),
    }
}

impl StreamEntry {
    /// Returns the place of an event of it at a packet.
    pub(crate) fn place(&self, packet: u64) -> Place
        ensures { (e : EntryState) → IsEntry self.now e → result ≡ spec.place_at packet e }
    {
        Place {
            pid: self.pid,
            packet,
            rx: self.seen.buffers.rx,
            size: self.seen.buffers.main.size,
        }
    }

    // Takes a packet into the buffers: by access units, if they are viewed.
    #[inline(always)]
    fn enter(
        &mut self,
        options: &ViewOptions,
        index: u64,
        window: u64,
        place: &Place,
        clock: &Option<PcrSample>,
        beginning: Beginning,
        packet: &Packet<'_>,
        events: &mut Vec<Event>,
    ) -> Result<(), AllocError>
        requires { beginning ≡ spec.beginning_in self.old.last (packet_view packet.now) }
        ensures entry { (e : EntryState) → IsEntry self.old e → OnOk result
            (IsEntry self.new (spec.entry_entered options.now index window clock.now e (packet_view packet.now))) }
        ensures found { (e : EntryState) → IsEntry self.old e → OnOk result (events.new.items
            ≡ events.old.items ++ spec.events_entered options.now index clock.now place.now e
            (packet_view packet.now) e.framed) }
    {
        let unread = is_unread(beginning);
        let rx = self.seen.buffers.rx;
        match &mut self.frames {
            None => {
                let arriving = arriving(options, index, rx, &self.last, clock, beginning, packet);
                self.seen.enter_whole(
                    options,
                    place,
                    window,
                    unread,
                    &arriving,
                    &mut self.video_tally,
                    events,
                )?;
                Ok(())
            }
            Some(frames) => {
                let payload = payload_of(options, index, rx, &self.last, clock, beginning, packet);
                frames.enter(
                    options,
                    place,
                    window,
                    unread,
                    self.limit,
                    &payload,
                    &mut self.seen,
                    events,
                )?;
                Ok(())
            }
        }
    }

    /// Takes a packet of the stream, in a window, and appends its events.
    pub fn take(
        &mut self,
        options: &ViewOptions,
        index: u64,
        window: u64,
        clock: &Option<PcrSample>,
        packet: &Packet<'_>,
        events: &mut Vec<Event>,
    ) -> Result<(), AllocError>
        ensures entry { (e : EntryState) → IsEntry self.old e → OnOk result
            (IsEntry self.new (spec.entry_after options.now index window clock.now e (packet_view packet.now))) }
        ensures found { (e : EntryState) → IsEntry self.old e → OnOk result (events.new.items
            ≡ events.old.items ++ spec.entry_events options.now index clock.now e (packet_view packet.now)) }
    {
        let place = self.place(index);
        let beginning = beginning_in(&self.last, packet);
        let stay = unit_stay(
            options, index, clock, self.limit, &self.last, beginning, packet,
        );
        push_ahead_if(events, &place, ahead_by(clock, beginning))?;
        let buffer = last_buffer(&self.seen.buffers);
        push_delayed_if(events, options, &place, buffer, self.limit, &stay)?;
        let before = self.seen.busy_counts();
        self.enter(
            options, index, window, &place, clock, beginning, packet, events,
        )?;
        push_stays(events, options, &place, &before, &self.seen.buffers)?;
        self.last.keep(packet)?;
        self.seen.add_delayed_if(&stay);
        self.mark_tally.add_packet(beginning, packet);
        Ok(())
    }

    /// Returns whether enough units wait in its main buffer to stop the view of its transport stream.
    pub fn is_crowded(&self) -> bool
        ensures { result ≡ is_entry_crowded self.now }
    {
        self.seen.buffers.units_waiting() >= MOST_WAITING
    }

    // Returns the counts, with the current unit as the last one.
    fn closed(&self, window: u64) -> Tally
        ensures { (e : EntryState) → IsEntry self.now e → result ≡ spec.closed_seen window e }
    {
        let mut tally = self.seen.tally;
        tally.add_unit_if(window, &self.seen.buffers.unit());
        tally
    }

    /// Appends its events in a window: what its buffers held, and the units that ended, if any did.
    pub fn push_units(
        &self,
        events: &mut Vec<Event>,
        options: &ViewOptions,
        window: u64,
    ) -> Result<(), AllocError>
        ensures { (e : EntryState) → IsEntry self.now e → OnOk result (events.new.items
            ≡ events.old.items ++ spec.units_of options.now window e) }
    {
        push_window_if(
            events,
            options,
            window,
            &self.place(0),
            &self.seen.tally,
            &self.seen.buffers,
        )
    }

    // Appends which buffers are not empty for more than a second at the end.
    fn push_stays_closing(
        &self,
        events: &mut Vec<Event>,
        options: &ViewOptions,
        place: &Place,
    ) -> Result<(), AllocError>
        ensures { (e : EntryState) → IsEntry self.now e → OnOk result (events.new.items
            ≡ events.old.items ++ spec.stays_closing options.now place.now e) }
    {
        let transport = self.seen.buffers.busy_under_way();
        push_busy_closing(events, options, place, BufferKind::Transport, &transport)?;
        let multiplexing = self.seen.leak_under_way();
        push_busy_closing(
            events,
            options,
            place,
            BufferKind::Multiplexing,
            &multiplexing,
        )
    }

    // Appends the totals of its buffers.
    fn push_totals(
        &self,
        events: &mut Vec<Event>,
        options: &ViewOptions,
        place: &Place,
        tally: &Tally,
    ) -> Result<(), AllocError>
        ensures { (e : EntryState) → IsEntry self.now e → OnOk result (events.new.items
            ≡ events.old.items ++ spec.totals_of options.now place.now tally.now e) }
    {
        push_closing(events, options, place, &self.seen.buffers, tally)?;
        let figures = video_figures(&self.seen.buffers);
        push_video_closing(
            events,
            options,
            place,
            &figures,
            tally.units,
            &self.video_tally,
        )?;
        self.push_stays_closing(events, options, place)?;
        push_marks(events, self.pid, &self.mark_tally)
    }

    /// Appends its events at the end, after `packets` packets, the last of them in a window.
    pub fn push_end(
        &self,
        events: &mut Vec<Event>,
        options: &ViewOptions,
        packets: u64,
        window: u64,
    ) -> Result<(), AllocError>
        ensures { (e : EntryState) → IsEntry self.now e → OnOk result (events.new.items
            ≡ events.old.items ++ spec.end_events options.now packets window e) }
    {
        let tally = self.closed(window);
        let place = self.place(packets);
        push_window_if(events, options, window, &place, &tally, &self.seen.buffers)?;
        self.push_totals(events, options, &place, &tally)
    }

    /// Appends what its buffers held near the greatest excess of each.
    pub fn push_traces(
        &self,
        events: &mut Vec<Event>,
        options: &ViewOptions,
    ) -> Result<(), AllocError>
        ensures { (e : EntryState) → IsEntry self.now e → OnOk result (events.new.items
            ≡ events.old.items ++ spec.traces_of options.now e) }
    {
        let place = self.place(0);
        push_traces(events, options, &place, &self.seen.tally.traces)?;
        let limits = video_limits(&self.seen.buffers);
        push_video_traces(events, options, &place, &limits, &self.video_tally.traces)?;
        Ok(())
    }

    // Returns whether neither the transport buffer nor the main buffer held more than its size, and no unit was late.
    fn is_sound(&self) -> bool
        ensures { (e : EntryState) → IsEntry self.now e → result ≡ spec.is_sound e }
    {
        self.seen.buffers.transport_most() <= u128::from(TRANSPORT_BYTES)
            && self.seen.buffers.main_most() <= self.seen.buffers.main.size
            && self.closed(0).late == 0
    }

    // Returns whether no byte stayed too long, and no buffer was not empty for more than a second.
    fn is_timely(&self) -> bool
        ensures { (e : EntryState) → IsEntry self.now e → result ≡ spec.is_timely e }
    {
        let busy = self.seen.busy();
        self.seen.delayed == 0
            && is_idle(&busy.transport, &self.seen.buffers.busy_under_way())
            && is_leak_idle(&busy.multiplexing, &self.seen.leak_under_way())
    }

    /// Returns whether no buffer held more than its size, no unit was late, no byte stayed too long, and no buffer was
    /// not empty for more than a second.
    pub fn is_good(&self) -> bool
        ensures { (e : EntryState) → IsEntry self.now e → result ≡ spec.is_good e }
    {
        self.is_sound()
            && is_video_good(&video_figures(&self.seen.buffers), &self.video_tally)
            && self.is_timely()
    }
}
