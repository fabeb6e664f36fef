//! A stream, packet by packet, each with its arrival.
ghost use Rattle.std.specs.Prelude.{◌≡◌, ◌++◌, OnOk, Result, false};
ghost use Rattle.bit_fields.specs.Reading.{Gives};
ghost use Rattle.ts_packet.specs.Reading.{packet_at};
ghost use Rattle.ts_packet.specs.Views.{PacketView, packet_view};
ghost use Rattle.ts_packet.specs.declared.packet.PacketError.{PacketError};
ghost use Rattle.ts_report.specs.Crowding.{is_view_crowded};
ghost use Rattle.ts_report.specs.Seen.{arrival_events, next_window};
ghost use Rattle.ts_report.specs.Seen as seeing;
ghost use Rattle.ts_report.specs.Views as spec;
ghost use Rattle.ts_report.specs.Views.{IsView, ViewState};

use crate::seen::Seen;
use crate::stream_table::StreamTable;
use arrival::Arrival;
use events::{Event, RefusalCause};
use std::alloc::{AllocError, Global};
use ts_packet::{Packet, PacketError, read_packet};
use ts_watch::system_events::{all_fit, push_systems};
use ts_watch::view_request::ViewRequest;

/// A stream so far, without its packets.
///
/// After an `AllocError` it describes no stream: drop it.
#[derive(Drop)]
pub struct View {
    pub seen: Seen,
    pub table: StreamTable,
}

#[tactic(auto, unfolding(crate::specs::Seen::cause_of))]
fn cause_of(error: PacketError) -> RefusalCause
    ensures { result ≡ seeing.cause_of error }
{
    match error {
        PacketError::Sync => RefusalCause::SyncByte,
        _ => RefusalCause::Header,
    }
}

impl View {
    /// Returns the state before the first packet.
    pub fn new(alloc: Global, request: ViewRequest) -> View
        ensures view { IsView result (spec.start request) }
        ensures calm { is_view_crowded result ≡ false }
    {
        View {
            seen: Seen::new(alloc, request.options, request.stamps),
            table: StreamTable::new(alloc, request.choice),
        }
    }

    /// Says how the next `count` packets arrive.
    pub fn arrive(
        &mut self,
        arrival: Arrival,
        count: usize,
        events: &mut Vec<Event>,
    ) -> Result<(), AllocError>
        ensures view { (s : ViewState) → IsView self.old s →
            OnOk result (IsView self.new (spec.arriving s arrival count)) }
        ensures found { (s : ViewState) → IsView self.old s → OnOk result (events.new.items
            ≡ events.old.items ++ arrival_events s.seen arrival count) }
    {
        self.seen.arrive(arrival, count, events)
    }

    // Appends the events of the last packet's window.
    fn push_window(&self, events: &mut Vec<Event>) -> Result<(), AllocError>
        ensures { (s : ViewState) → IsView self.now s → OnOk result (events.new.items
            ≡ events.old.items ++ spec.all_window_events s) }
    {
        self.seen.push_window(events)?;
        self.table
            .push_units(events, &self.seen.options, self.seen.window.number())
    }

    // Appends the same, if a packet of this window lies in another one.
    fn end_window(&self, window: u64, events: &mut Vec<Event>) -> Result<(), AllocError>
        requires { window ≡ next_window self.now.seen }
        ensures { (s : ViewState) → IsView self.now s → OnOk result (events.new.items
            ≡ events.old.items ++ spec.last_window s) }
    {
        if self.seen.window.number() == window {
            return Ok(());
        }
        self.push_window(events)
    }

    // Takes a packet of a window into the buffers of its stream.
    fn buffer(
        &mut self,
        window: u64,
        packet: &Packet<'_>,
        events: &mut Vec<Event>,
    ) -> Result<(), AllocError>
        requires { window ≡ next_window self.old.seen }
        ensures seen { self.new.seen ≡ self.old.seen }
        ensures view { (s : ViewState) → IsView self.old s → OnOk result
            (IsView self.new (spec.with_buffers s (packet_view packet.now))) }
        ensures found { (s : ViewState) → IsView self.old s → OnOk result
            (events.new.items ≡ events.old.items ++ spec.buffer_events_at s (packet_view packet.now)) }
    {
        let seen = &self.seen;
        let index = seen.packets;
        self.table
            .begin(&seen.options, index, &seen.named, packet, events)?;
        self.table
            .take(&seen.options, index, window, &seen.clocks, packet, events)
    }

    // Takes a packet that is not refused.
    fn count(&mut self, packet: &Packet<'_>, events: &mut Vec<Event>) -> Result<(), AllocError>
        ensures view { (s : ViewState) → IsView self.old s → OnOk result
            (IsView self.new (spec.with_packet s (packet_view packet.now))) }
        ensures found { (s : ViewState) → IsView self.old s → OnOk result
            (events.new.items ≡ events.old.items ++ spec.packet_events s (packet_view packet.now)) }
    {
        let window = self.seen.next_window();
        self.end_window(window, events)?;
        self.seen.take_clock(packet, events)?;
        self.buffer(window, packet, events)?;
        self.seen.count(window, self.table.choice(), packet, events)
    }

    // Takes a packet as it was read.
    #[tactic(auto, unfolding(crate::specs::Views::after_read, crate::specs::Views::events_read))]
    fn note(
        &mut self,
        read: &Result<Packet<'_>, PacketError>,
        events: &mut Vec<Event>,
    ) -> Result<(), AllocError>
        ensures view { (s : ViewState) (packet : Result PacketView PacketError) → IsView self.old s →
            Gives packet_view read.now packet → OnOk result (IsView self.new (spec.after_read s packet)) }
        ensures found { (s : ViewState) (packet : Result PacketView PacketError) → IsView self.old s →
            Gives packet_view read.now packet →
            OnOk result (events.new.items ≡ events.old.items ++ spec.events_read s packet) }
    {
        match read {
            Err(error) => self.seen.refuse(cause_of(*error), events),
            Ok(packet) => {
                if packet.header.transport_error_indicator {
                    return self.seen.refuse(RefusalCause::TransportError, events);
                }
                self.count(packet, events)
            }
        }
    }

    // Takes the sections of tables in 188 bytes, which were read.
    #[tactic(auto, unfolding(crate::specs::Views::without_stream))]
    fn watch_tables<'a>(
        &mut self,
        bytes: &'a [u8; 188],
        read: &Result<Packet<'a>, PacketError>,
        events: &mut Vec<Event>,
    ) -> Result<(), AllocError>
        requires { Gives packet_view read.now (packet_at bytes.now) }
        ensures view { (s : ViewState) → IsView self.old s →
            OnOk result (IsView self.new (spec.with_tables s bytes.now)) }
        ensures found { (s : ViewState) → IsView self.old s → OnOk result (events.new.items
            ≡ events.old.items ++ spec.table_events_at s bytes.now) }
    {
        match read {
            Err(_) => self.seen.take_sections(bytes, read, events),
            Ok(packet) => {
                if self.table.has_stream(packet.header.pid) {
                    self.seen.pass_null();
                    Ok(())
                } else {
                    self.seen.take_sections(bytes, read, events)
                }
            }
        }
    }

    /// Takes the next packet, and appends the events that it settles.
    pub fn take(&mut self, bytes: &[u8; 188], events: &mut Vec<Event>) -> Result<(), AllocError>
        ensures view { (s : ViewState) → IsView self.old s →
            OnOk result (IsView self.new (spec.after_packet s bytes.now)) }
        ensures found { (s : ViewState) → IsView self.old s →
            OnOk result (events.new.items ≡ events.old.items ++ spec.events_at s bytes.now) }
    {
        let read = read_packet(bytes);
        self.note(&read, events)?;
        self.watch_tables(bytes, &read, events)?;
        self.seen.take_counter(bytes, &read, events)?;
        self.seen.name(bytes)
    }

    /// Takes the next packets.
    #[tactic(auto, unfolding(crate::specs::Views::after_all, crate::specs::Views::events_all))]
    pub fn take_all(
        &mut self,
        packets: &[[u8; 188]],
        events: &mut Vec<Event>,
    ) -> Result<(), AllocError>
        ensures view { (s : ViewState) → IsView self.old s →
            OnOk result (IsView self.new (spec.after_all s packets.now)) }
        ensures found { (s : ViewState) → IsView self.old s →
            OnOk result (events.new.items ≡ events.old.items ++ spec.events_all s packets.now) }
    {
        for packet in packets {
            self.take(packet, events)?;
        }
        Ok(())
    }

    /// Ends the stream, `left` bytes after its last whole packet, and appends the last events.
    pub fn end(&self, left: usize, events: &mut Vec<Event>) -> Result<(), AllocError>
        ensures { (s : ViewState) → IsView self.now s →
            OnOk result (events.new.items ≡ events.old.items ++ spec.end_events s left) }
    {
        let seen = &self.seen;
        let options = &seen.options;
        let window = seen.window.number();
        seen.push_window(events)?;
        self.table
            .push_end(events, options, self.seen.packets, window)?;
        push_systems(
            events,
            options,
            self.table.choice(),
            self.seen.packets,
            self.seen.systems.programs(),
        )?;
        self.seen.push_pid_ends(events)?;
        events.push(self.seen.end_event(left))?;
        Ok(())
    }

    /// Returns whether a stream has enough waiting units to stop the view.
    pub fn is_crowded(&self) -> bool
        ensures { result ≡ is_view_crowded self.now }
    {
        self.table.is_crowded()
    }

    /// Returns whether nothing is wrong in a stream that ends, `left` bytes after its last whole packet.
    pub fn is_good(&self, left: usize) -> bool
        ensures { (s : ViewState) → IsView self.now s → result ≡ spec.is_good s left }
    {
        self.seen.refused == 0
            && self.seen.errors == 0
            && self.seen.rules.holds_none()
            && self.seen.tables.is_good()
            && left == 0
            && all_fit(self.table.choice(), self.seen.systems.programs())
            && self.table.is_good()
    }
}
