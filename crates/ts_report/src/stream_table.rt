//! The streams whose buffers have begun.
ghost use Rattle.std.specs.Prelude.{◌≡◌, ◌++◌, ◌≤◌, List, Some, OnOk, false, flat_map, nat_eq, option_map};
ghost use Rattle.std.specs.List.{list_all};
ghost use Rattle.std.specs.Map.{lookup};
ghost use Rattle.ts_packet.specs.Views.{packet_view};
ghost use Rattle.ts_watch.specs.Choices as choices;
ghost use Rattle.ts_report.specs.Crowding as crowding;
ghost use Rattle.ts_report.specs.StreamTables as spec;
ghost use Rattle.es_view.specs.Entries.{AreFrames, EntryState, IsEntry, end_events, traces_of, units_of};
ghost use Rattle.es_view.specs.EntryFrames.{unit_in};
ghost use Rattle.tstd_rows.specs.Held.{Held};
ghost use Rattle.es_view.specs.Entries.{is_good as entry_is_good};
ghost use Rattle.ts_report.specs.StreamTables.{AreEntries, IsTable, TableState};

use es_buffers::{Buffers, longest_stay};
use es_events::clocks::Clocks;
use es_events::entry_events::stream_event;
use es_events::mark_tally::MarkTally;
use es_events::tally::Tally;
use es_events::video_figures::view_video_if;
use es_events::video_tally::VideoTally;
use es_events::view_options::ViewOptions;
use es_view::counted_buffers::CountedBuffers;
use es_view::entry_frames::{EntryFrames, unit_in};
use es_view::last_payload::LastPayload;
use es_view::stream_entry::StreamEntry;
use events::Event;
use pid_map::PidMap;
use sound_frames::FrameKind;
use std::alloc::{AllocError, Global};
use stream_coding::{Coding, coding_of};
use stream_programs::FoundStream;
use ts_packet::Packet;
use ts_tables::NamedStreams;
use ts_watch::view_choice::ViewChoice;
use tstd_rows::{StreamBuffers, VideoRates};

/// Which streams are viewed; the streams whose buffers have begun, and the place of each PID among them.
#[derive(Drop)]
pub struct StreamTable {
    alloc: Global,
    choice: ViewChoice,
    places: PidMap<usize, Global>,
    entries: Vec<StreamEntry>,
}

// Returns the place of a PID.
#[inline(always)]
fn place_of(places: &mut PidMap<usize, Global>, pid: u16) -> Option<usize>
    ensures place { result ≡ lookup (nat_eq pid) places.old.entries }
    ensures same { places.new.entries ≡ places.old.entries }
{
    let index = places.index_of(pid)?;
    let (_, place) = places.entries().get_index(index)?;
    Some(*place)
}

fn coding_by(stream: &FoundStream, packet: &Packet<'_>) -> Coding
    ensures { result ≡ spec.coding_by stream.now (packet_view packet.now) }
{
    let payload = packet.payload.unwrap_or(&[]);
    coding_of(stream.stream_type, &stream.descriptors, unit_in(payload))
}

// Returns a stream, if its program is viewed.
#[tactic(auto, unfolding(ts_watch::specs::Choices::chosen))]
fn chosen<'n>(choice: &ViewChoice, stream: Option<&'n FoundStream>) -> Option<&'n FoundStream>
    ensures { option_map (λ s. s.now) result ≡ choices.chosen choice.now (option_map (λ s. s.now) stream.entry) }
{
    let stream = stream?;
    if choice.takes(stream.program) {
        Some(stream)
    } else {
        None
    }
}

// Returns the walk over the frames of a stream before its first packet, if they are viewed.
#[tactic(auto, unfolding(crate::specs::StreamTables::new_framed, es_view::specs::Entries::AreFrames))]
fn frames_of(alloc: Global, kind: Option<FrameKind>) -> Option<EntryFrames>
    ensures { (h : Held) → AreFrames result (spec.new_framed h kind) }
{
    match kind {
        None => None,
        Some(kind) => Some(EntryFrames::new(alloc, kind)),
    }
}

// Returns a stream before its first packet.
fn new_entry(
    alloc: Global,
    options: &ViewOptions,
    pid: u16,
    clock_pid: u16,
    buffers: Buffers,
    rates: &Option<VideoRates>,
    kind: Option<FrameKind>,
    limit: u64,
) -> StreamEntry
    requires { buffers.rx ≤ 200000000 }
    ensures { IsEntry result (spec.new_entry options.now pid clock_pid buffers rates.now kind limit) }
{
    let mut held = StreamBuffers::new(alloc, &options.arrival, buffers.rx, u64::from(buffers.main));
    view_video_if(&mut held, alloc, rates);
    let last = LastPayload::new(alloc);
    StreamEntry {
        pid,
        clock_pid,
        last,
        seen: CountedBuffers {
            buffers: held,
            tally: Tally::new(),
            delayed: 0,
        },
        video_tally: VideoTally::new(),
        mark_tally: MarkTally::new(),
        frames: frames_of(alloc, kind),
        limit,
    }
}

fn push_all_units(
    events: &mut Vec<Event>,
    options: &ViewOptions,
    window: u64,
    entries: &[StreamEntry],
) -> Result<(), AllocError>
    ensures { (es : List EntryState) → AreEntries entries.now es → OnOk result (events.new.items
        ≡ events.old.items ++ flat_map (units_of options.now window) es) }
{
    for entry in entries {
        entry.push_units(events, options, window)?;
    }
    Ok(())
}

fn push_all_ends(
    events: &mut Vec<Event>,
    options: &ViewOptions,
    packets: u64,
    window: u64,
    entries: &[StreamEntry],
) -> Result<(), AllocError>
    ensures { (es : List EntryState) → AreEntries entries.now es → OnOk result (events.new.items
        ≡ events.old.items ++ flat_map (end_events options.now packets window) es) }
{
    for entry in entries {
        entry.push_end(events, options, packets, window)?;
    }
    Ok(())
}

fn push_all_traces(
    events: &mut Vec<Event>,
    options: &ViewOptions,
    entries: &[StreamEntry],
) -> Result<(), AllocError>
    ensures { (es : List EntryState) → AreEntries entries.now es → OnOk result (events.new.items
        ≡ events.old.items ++ flat_map (traces_of options.now) es) }
{
    for entry in entries {
        entry.push_traces(events, options)?;
    }
    Ok(())
}

fn are_good(entries: &[StreamEntry]) -> bool
    ensures { (es : List EntryState) → AreEntries entries.now es → result ≡ list_all entry_is_good es }
{
    for entry in entries {
        if !entry.is_good() {
            return false;
        }
    }
    true
}

fn are_crowded(entries: &[StreamEntry]) -> bool
    ensures { result ≡ crowding.are_crowded entries.now }
{
    entries.iter().any(|entry| entry.is_crowded())
}

impl StreamTable {
    /// Returns a table without streams.
    #[tactic(auto, unfolding(crate::specs::StreamTables::AreEntries))]
    pub fn new(alloc: Global, choice: ViewChoice) -> StreamTable
        ensures table { IsTable result (spec.no_streams choice) }
        ensures calm { crowding.are_crowded result.entries.items ≡ false }
    {
        StreamTable {
            alloc,
            choice,
            places: PidMap::new(alloc),
            entries: Vec::new(alloc),
        }
    }

    /// Returns which streams are viewed.
    pub fn choice(&self) -> &ViewChoice
        ensures { (t : TableState) → IsTable self.now t → result.now ≡ t.choice }
    {
        &self.choice
    }

    // Returns the stream whose buffers begin with a packet.
    fn beginning<'n>(&self, named: &'n NamedStreams, packet: &Packet<'_>) -> Option<&'n FoundStream>
        ensures { (t : TableState) → IsTable self.now t →
            option_map (λ s. s.now) result ≡ spec.beginning named.now t (packet_view packet.now) }
    {
        if packet.header.payload_unit_start_indicator && !self.places.contains(packet.header.pid) {
            chosen(&self.choice, named.stream(packet.header.pid))
        } else {
            None
        }
    }

    // Adds a stream.
    fn add(&mut self, pid: u16, entry: StreamEntry) -> Result<(), AllocError>
        ensures { (t : TableState) (e : EntryState) → IsTable self.old t → IsEntry entry e →
            OnOk result (IsTable self.new (spec.with_entry t pid e)) }
    {
        self.places.insert(pid, self.entries.len())?;
        self.entries.push(entry)?;
        Ok(())
    }

    /// Begins the buffers of a packet's stream with the packet, if the packet is the first that begins a PES packet of
    /// a stream that is named, of a program that is viewed.
    #[tactic(auto, unfolding(crate::specs::StreamTables::begun_if, crate::specs::StreamTables::begin_events_if))]
    pub fn begin(
        &mut self,
        options: &ViewOptions,
        index: u64,
        named: &NamedStreams,
        packet: &Packet<'_>,
        events: &mut Vec<Event>,
    ) -> Result<(), AllocError>
        ensures table { (t : TableState) → IsTable self.old t → OnOk result
            (IsTable self.new (spec.begun options.now named.now t (packet_view packet.now))) }
        ensures found { (t : TableState) → IsTable self.old t → OnOk result (events.new.items
            ≡ events.old.items ++ spec.begin_events index named.now t (packet_view packet.now)) }
    {
        match self.beginning(named, packet) {
            None => Ok(()),
            Some(stream) => self.begin_stream(options, index, named, stream, packet, events),
        }
    }

    // Begins the buffers of a stream with a packet. A call of its own: few packets begin one.
    #[inline(never)]
    #[tactic(auto, unfolding(crate::specs::StreamTables::begun_if, crate::specs::StreamTables::begin_events_if))]
    fn begin_stream(
        &mut self,
        options: &ViewOptions,
        index: u64,
        named: &NamedStreams,
        stream: &FoundStream,
        packet: &Packet<'_>,
        events: &mut Vec<Event>,
    ) -> Result<(), AllocError>
        ensures table { (t : TableState) → IsTable self.old t → OnOk result
            (IsTable self.new (spec.begun_if options.now named.now t (packet_view packet.now) (Some stream.now))) }
        ensures found { (t : TableState) → IsTable self.old t → OnOk result (events.new.items
            ≡ events.old.items ++ spec.begin_events_if index t (packet_view packet.now) (Some stream.now)) }
    {
        let coding = coding_by(stream, packet);
        let buffers = self.choice.buffers_for(packet.header.pid, coding);
        events.push(stream_event(index, stream, coding, buffers))?;
        let clock_pid = named.clock_pid(stream.program);
        let rates = self.choice.rates_for(packet.header.pid, coding);
        let pid = packet.header.pid;
        let kind = self
            .choice
            .frames_for(pid, stream.stream_type, &stream.descriptors);
        let limit = u64::from(longest_stay(stream.stream_type, &stream.descriptors)) * 27_000_000;
        let entry = new_entry(
            self.alloc, options, pid, clock_pid, buffers, &rates, kind, limit,
        );
        self.add(packet.header.pid, entry)
    }

    /// Takes the packet at an index into the buffers of its PID, if there are any.
    #[tactic(auto, unfolding(crate::specs::StreamTables::taken_at, crate::specs::StreamTables::taken_if, crate::specs::StreamTables::events_in, crate::specs::StreamTables::events_if))]
    pub fn take(
        &mut self,
        options: &ViewOptions,
        index: u64,
        window: u64,
        clocks: &Clocks,
        packet: &Packet<'_>,
        events: &mut Vec<Event>,
    ) -> Result<(), AllocError>
        ensures table { (t : TableState) → IsTable self.old t → OnOk result
            (IsTable self.new (spec.taken options.now index window clocks.now t (packet_view packet.now))) }
        ensures found { (t : TableState) → IsTable self.old t → OnOk result (events.new.items
            ≡ events.old.items ++ spec.events_of options.now index clocks.now t (packet_view packet.now)) }
    {
        let Some(place) = place_of(&mut self.places, packet.header.pid) else {
            return Ok(());
        };
        let Some(entry) = self.entries.get_mut(place) else {
            return Ok(());
        };
        let clock = clocks.last(entry.clock_pid);
        entry.take(options, index, window, &clock, packet, events)
    }

    /// Returns whether the buffers of a PID have begun.
    pub fn has_stream(&self, pid: u16) -> bool
        ensures { (t : TableState) → IsTable self.now t → result ≡ spec.has_stream t pid }
    {
        self.places.contains(pid)
    }

    /// Appends the events of each stream in a window.
    pub fn push_units(
        &self,
        events: &mut Vec<Event>,
        options: &ViewOptions,
        window: u64,
    ) -> Result<(), AllocError>
        ensures { (t : TableState) → IsTable self.now t → OnOk result (events.new.items
            ≡ events.old.items ++ spec.table_units options.now window t) }
    {
        push_all_units(events, options, window, &self.entries)
    }

    /// Appends the events of all streams at the end of a stream of `packets` packets, the last of them in a window.
    pub fn push_end(
        &self,
        events: &mut Vec<Event>,
        options: &ViewOptions,
        packets: u64,
        window: u64,
    ) -> Result<(), AllocError>
        ensures { (t : TableState) → IsTable self.now t → OnOk result (events.new.items
            ≡ events.old.items ++ spec.table_end options.now packets window t) }
    {
        push_all_ends(events, options, packets, window, &self.entries)?;
        push_all_traces(events, options, &self.entries)
    }

    /// Returns whether a stream has enough waiting units to stop the view.
    pub fn is_crowded(&self) -> bool
        ensures { result ≡ crowding.are_crowded self.now.entries.items }
    {
        are_crowded(&self.entries)
    }

    /// Returns whether no buffer held more than its size, no unit was late, no byte stayed too long, and no buffer was
    /// not empty for more than a second.
    pub fn is_good(&self) -> bool
        ensures { (t : TableState) → IsTable self.now t → result ≡ spec.is_good t }
    {
        are_good(&self.entries)
    }
}
