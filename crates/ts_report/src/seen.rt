//! The state of a stream beside its buffers.
ghost use Rattle.std.specs.Prelude.{◌≡◌, [], ◌++◌, Some, IfOk, OnOk, Result};
ghost use Rattle.bit_fields.specs.Reading.{Gives};
ghost use Rattle.ts_packet.specs.Packets.{null_packet};
ghost use Rattle.ts_packet.specs.Reading.{packet_at};
ghost use Rattle.ts_packet.specs.Views.{PacketView, packet_view};
ghost use Rattle.ts_packet.specs.declared.packet.PacketError.{PacketError};
ghost use Rattle.tr101290.specs.Continuity.{error_at};
ghost use Rattle.ts_watch.specs.ClockEvents.{errors_in};
ghost use Rattle.ts_watch.specs.RuleEvents.{accuracy_count, accuracy_events};
ghost use Rattle.ts_report.specs.Seen as spec;
ghost use Rattle.ts_report.specs.Seen.{timing_of};

use crate::absent_tables::push_absent;
use crate::arrival_options::{unclocked, with_arrival};
use crate::counter_events::push_counter_if;
use crate::moments::{moment_at, reference_moment};
use crate::reference_events::{is_known, is_long, known_after, push_references};
use crate::stopped_clocks::push_stops;
use crate::stopped_pids::push_stopped_pids;
use crate::timings::{table_timing, timing_for, timing_of};
use arrival::Arrival;
use es_events::clocks::Clocks;
use es_events::view_options::ViewOptions;
use events::{Event, RefusalCause, RefusedPacket, ReportEnd, UnclockedPackets};
use packet_times::windows::ClockWindows;
use std::alloc::{AllocError, Global};
use std::marker::Model;
use system_tables::SystemTables;
use tr101290::{ContinuityWatch, PcrReport, PcrWatches, PidWindow, pcr_sample};
use ts_packet::{Packet, PacketError, has_pcr};
use ts_tables::{NamedStreams, ServiceNames};
use ts_watch::clock_events::{errors_in, push_clocks, push_report};
use ts_watch::rule_watch::{RuleWatch, place_at};
use ts_watch::system_events::push_excesses;
use ts_watch::table_watch::TableWatch;
use ts_watch::view_choice::ViewChoice;
use ts_watch::window_events::{push_pids, push_window, window_of};

/// The state of a stream beside its buffers: the number of packets, and of refused packets; the last packet of each
/// PID; the window of the last packet; the packets of each PID; the last clock reference of each, and the counts of all
/// of them, with the number of their errors, and by window; the sections of tables; time stamps and scrambled packets;
/// the buffers of programs' tables; the streams that are named; the names of their services; and the place of the packet
/// after the first tables.
#[derive(Drop)]
pub struct Seen {
    alloc: Global,
    pub options: ViewOptions,
    pub packets: u64,
    pub refused: u64,
    pub counters: ContinuityWatch<Global>,
    pub window: PidWindow<Global>,
    pub totals: PidWindow<Global>,
    pub clocks: Clocks,
    pub watches: PcrWatches<Global>,
    pub errors: u64,
    pub references: ClockWindows,
    pub rules: RuleWatch,
    pub tables: TableWatch,
    pub systems: SystemTables,
    pub named: NamedStreams,
    pub services: ServiceNames,
    pub known: Option<u64>,
}

impl Model for Seen {
    ghost use Rattle.ts_report.specs.Seen.{SeenState};

    ghost Value = { SeenState };

    ghost view = { λ s. record {
      options = s.options;
      packets = s.packets;
      refused = s.refused;
      counters = s.counters;
      window = s.window;
      totals = s.totals;
      clocks = s.clocks;
      watches = s.watches;
      errors = s.errors;
      references = s.references;
      rules = s.rules;
      tables = s.tables;
      systems = s.systems;
      named = s.named;
      services = s.services;
      known = s.known;
    } };
}

// Returns the rules of TR 101 290 before the first packet.
fn first_rules(alloc: Global, arrival: &Arrival) -> RuleWatch
    ensures { result ≡ spec.first_rules arrival.now }
{
    RuleWatch::new(alloc, table_timing(arrival))
}

impl Seen {
    /// Returns the state before the first packet; `stamps`: packets arrive by stamps.
    pub fn new(alloc: Global, options: ViewOptions, stamps: bool) -> Seen
        ensures { result ≡ spec.nothing_seen stamps options }
    {
        Seen {
            alloc,
            options,
            packets: 0,
            refused: 0,
            counters: ContinuityWatch::new(alloc),
            window: PidWindow::new(alloc),
            totals: PidWindow::new(alloc),
            clocks: Clocks::new(alloc),
            watches: PcrWatches::new(alloc, timing_for(&options.arrival, stamps)),
            errors: 0,
            references: ClockWindows::new(alloc),
            rules: first_rules(alloc, &options.arrival),
            tables: TableWatch::new(alloc, table_timing(&options.arrival)),
            systems: SystemTables::new(alloc),
            named: NamedStreams::new(alloc),
            services: ServiceNames::new(alloc),
            known: None,
        }
    }

    /// Says how the next `count` packets arrive; appends that they have no moment, if they have none.
    pub fn arrive(
        &mut self,
        arrival: Arrival,
        count: usize,
        events: &mut Vec<Event>,
    ) -> Result<(), AllocError>
        ensures seen { OnOk result (self.new ≡ spec.arriving self.old arrival count) }
        ensures found { OnOk result (events.new.items
            ≡ events.old.items ++ spec.arrival_events self.old arrival count) }
    {
        let options = with_arrival(&self.options, arrival);
        let unclocked = unclocked(&arrival, count);
        if unclocked {
            events.push(self.unclocked_event(count))?;
        }
        self.options = options;
        self.errors = self.errors.saturating_add(u64::from(unclocked));
        Ok(())
    }

    fn unclocked_event(&self, count: usize) -> Event
        ensures { result ≡ spec.unclocked_event self.now count }
    {
        Event::Unclocked(UnclockedPackets {
            packet: self.packets,
            packets: count as u64,
        })
    }

    /// Counts a packet that can't be read, or says that it is wrong, and appends the cause. A call of its own: few
    /// packets are refused.
    #[inline(never)]
    pub fn refuse(&mut self, cause: RefusalCause, events: &mut Vec<Event>) -> Result<(), AllocError>
        ensures seen { OnOk result (self.new ≡ spec.without self.old) }
        ensures found { OnOk result (events.new.items
            ≡ events.old.items ++ spec.refused_events self.old cause) }
    {
        events.push(Event::Refused(RefusedPacket {
            packet: self.packets,
            cause,
        }))?;
        self.packets = self.packets.saturating_add(1);
        self.refused = self.refused.saturating_add(1);
        Ok(())
    }

    // Takes the continuity_counter of a packet that is counted, and appends its error, if it has one.
    fn take_counted(
        &mut self,
        bytes: &[u8; 188],
        packet: &Packet<'_>,
        events: &mut Vec<Event>,
    ) -> Result<(), AllocError>
        ensures seen { OnOk result (self.new
            ≡ spec.with_counter self.old (spec.counted_entry self.old bytes.now (packet_view packet.now))) }
        ensures found { OnOk result (events.new.items ≡ events.old.items
            ++ spec.counter_events_by (error_at self.old.counters
            (spec.counted_entry self.old bytes.now (packet_view packet.now)))) }
    {
        let index = self.packets.saturating_sub(1);
        let error = self.counters.take(index, packet, bytes)?;
        push_counter_if(events, &error)?;
        self.errors = self.errors.saturating_add(u64::from(error.is_some()));
        Ok(())
    }

    /// Takes the continuity_counter of 188 bytes, which were read and counted, and appends its error, if it has one.
    #[tactic(auto, unfolding(crate::specs::Seen::with_counter_read, crate::specs::Seen::counter_events))]
    pub fn take_counter(
        &mut self,
        bytes: &[u8; 188],
        read: &Result<Packet<'_>, PacketError>,
        events: &mut Vec<Event>,
    ) -> Result<(), AllocError>
        ensures seen { (packet : Result PacketView PacketError) → Gives packet_view read.now packet →
            OnOk result (self.new ≡ spec.with_counter_read self.old bytes.now packet) }
        ensures found { (packet : Result PacketView PacketError) → Gives packet_view read.now packet →
            OnOk result (events.new.items ≡ events.old.items ++ spec.counter_events self.old bytes.now packet) }
    {
        match read {
            Err(_) => Ok(()),
            Ok(packet) => {
                if packet.header.transport_error_indicator {
                    Ok(())
                } else {
                    self.take_counted(bytes, packet, events)
                }
            }
        }
    }

    /// Takes the clock reference of a packet, if the packet has one, its time stamp, and whether it is scrambled, and
    /// appends their errors.
    pub fn take_clock(
        &mut self,
        packet: &Packet<'_>,
        events: &mut Vec<Event>,
    ) -> Result<(), AllocError>
        ensures seen { OnOk result (self.new ≡ spec.with_clock self.old (packet_view packet.now)) }
        ensures found { OnOk result (events.new.items
            ≡ events.old.items ++ spec.clock_errors self.old (packet_view packet.now)) }
    {
        self.clocks
            .take(&self.options.arrival, self.packets, packet)?;
        let (errors, inaccurate) = self.take_reference_if(packet, events)?;
        let index = self.packets;
        self.rules
            .take(&self.options.arrival, index, &self.named, packet, events)?;
        self.errors = self
            .errors
            .saturating_add(errors)
            .saturating_add(inaccurate);
        Ok(())
    }

    // Takes the clock reference of a packet, and appends its errors. Returns the number of errors, and of errors of
    // accuracy. A call of its own: few packets have a clock reference.
    #[inline(never)]
    fn take_reference(
        &mut self,
        packet: &Packet<'_>,
        events: &mut Vec<Event>,
    ) -> Result<(u64, u64), AllocError>
        ensures seen { OnOk result (self.new ≡ spec.with_reference self.old (packet_view packet.now)) }
        ensures found { OnOk result (events.new.items
            ≡ events.old.items ++ spec.reference_errors self.old (packet_view packet.now)) }
        ensures errors { IfOk result (λ n. n.0 ≡ errors_in (spec.report_on self.old (packet_view packet.now))) }
        ensures inaccurate { IfOk result (λ n. n.1 ≡ spec.inaccurate_on self.old (packet_view packet.now)) }
    {
        let report = self.watches.take(self.packets, packet)?;
        push_report(events, packet.header.pid, &report)?;
        let inaccurate = self.take_accuracy(packet.header.pid, &report, events)?;
        Ok((errors_in(&report), inaccurate))
    }

    // Returns the same, if the packet has a clock reference.
    #[tactic(auto, unfolding(tr101290::specs::PidWatches::taken_if, tr101290::specs::PidWatches::report_if, ts_watch::specs::ClockEvents::report_events_if, ts_watch::specs::ClockEvents::errors_in, ts_watch::specs::RuleEvents::judge_after, ts_watch::specs::RuleEvents::accuracy_events, ts_watch::specs::RuleEvents::accuracy_count, packet_times::specs::ClockWindows::taken))]
    fn take_reference_if(
        &mut self,
        packet: &Packet<'_>,
        events: &mut Vec<Event>,
    ) -> Result<(u64, u64), AllocError>
        ensures seen { OnOk result (self.new ≡ spec.with_reference self.old (packet_view packet.now)) }
        ensures found { OnOk result (events.new.items
            ≡ events.old.items ++ spec.reference_errors self.old (packet_view packet.now)) }
        ensures errors { IfOk result (λ n. n.0 ≡ errors_in (spec.report_on self.old (packet_view packet.now))) }
        ensures inaccurate { IfOk result (λ n. n.1 ≡ spec.inaccurate_on self.old (packet_view packet.now)) }
    {
        match pcr_sample(self.packets, packet) {
            None => Ok((0, 0)),
            Some(_) => self.take_reference(packet, events),
        }
    }

    // Takes the report on a reference into its window, and appends the errors of accuracy that count now. Returns their
    // number.
    fn take_accuracy(
        &mut self,
        pid: u16,
        report: &Option<PcrReport>,
        events: &mut Vec<Event>,
    ) -> Result<u64, AllocError>
        ensures seen { OnOk result (self.new ≡ spec.with_accuracy self.old pid report.now) }
        ensures found { OnOk result (events.new.items ≡ events.old.items
            ++ accuracy_events (timing_of self.old.options.arrival) self.old.rules.judge
            self.old.packets pid report.now) }
        ensures errors { IfOk result (λ n. n
            ≡ accuracy_count (timing_of self.old.options.arrival) self.old.rules.judge pid report.now) }
    {
        let timing = timing_of(&self.options.arrival);
        let window = self.next_window();
        let moment = reference_moment(&self.options, self.packets);
        self.references.take(window, pid, moment, report)?;
        self.rules
            .take_report(timing, self.packets, pid, report, events)
    }

    /// Returns the window where the next packet begins.
    #[inline(always)]
    pub fn next_window(&self) -> u64
        ensures { result ≡ spec.next_window self.now }
    {
        window_of(&self.options, self.packets)
    }

    /// Counts a packet that is not known to be wrong, in this window, takes it into the buffers of programs' tables,
    /// and appends the excesses that end with it, of programs that are viewed.
    pub fn count(
        &mut self,
        window: u64,
        choice: &ViewChoice,
        packet: &Packet<'_>,
        events: &mut Vec<Event>,
    ) -> Result<(), AllocError>
        requires { window ≡ spec.next_window self.old }
        ensures seen { OnOk result (self.new ≡ spec.counted self.old (packet_view packet.now)) }
        ensures found { OnOk result (events.new.items
            ≡ events.old.items ++ spec.system_excesses self.old choice.now (packet_view packet.now)) }
    {
        let pid = packet.header.pid;
        let pcr = has_pcr(packet);
        let mut excesses = Vec::new(self.alloc);
        self.systems.take(
            &self.options.arrival,
            self.packets,
            &self.named,
            pid,
            &mut excesses,
        )?;
        push_excesses(events, &self.options, choice, self.packets, &excesses)?;
        self.window.take(window, pid, pcr)?;
        self.totals.take(0, pid, pcr)?;
        self.packets = self.packets.saturating_add(1);
        Ok(())
    }

    /// Takes the sections of tables in 188 bytes, which were read, and appends the sections that begin too late.
    pub fn take_sections<'a>(
        &mut self,
        bytes: &'a [u8; 188],
        read: &Result<Packet<'a>, PacketError>,
        events: &mut Vec<Event>,
    ) -> Result<(), AllocError>
        requires { Gives packet_view read.now (packet_at bytes.now) }
        ensures seen { OnOk result (self.new ≡ spec.with_sections self.old bytes.now) }
        ensures found { OnOk result (events.new.items
            ≡ events.old.items ++ spec.section_events self.old bytes.now) }
    {
        self.tables.take(&self.options, bytes, read, events)
    }

    /// Takes the null packet, which has no section.
    pub fn pass_null(&mut self)
        ensures seen { self.new ≡ spec.with_sections self.old null_packet }
        ensures found { spec.section_events self.old null_packet ≡ [] }
    {
        self.tables.pass_null();
    }

    /// Notes what 188 bytes name, from the next packet on.
    pub fn name(&mut self, bytes: &[u8; 188]) -> Result<(), AllocError>
        ensures { OnOk result (self.new ≡ spec.with_named self.old bytes.now) }
    {
        let before = is_known(&self.named);
        let next = place_at(&self.options.arrival, self.packets);
        self.named.take(bytes)?;
        self.known = known_after(self.known, before, &self.named, next);
        self.services.take(&self.named, bytes)
    }

    /// Appends the events of each PID in the last packet's window, and of its clock references.
    pub fn push_window(&self, events: &mut Vec<Event>) -> Result<(), AllocError>
        ensures { OnOk result (events.new.items ≡ events.old.items ++ spec.window_ends self.now) }
    {
        push_window(
            self.alloc,
            events,
            &self.options,
            &self.named,
            &self.services,
            &self.window,
        )?;
        self.references.push(self.window.number(), events)
    }

    // Returns whether more than half of the packets were read.
    fn is_stream(&self) -> bool
        ensures { result ≡ spec.is_stream self.now }
    {
        self.packets != 0 && self.refused <= self.packets / 2
    }

    // Appends the accuracies that wait, and that packets are scrambled without a CAT, after PIDs that stop.
    fn push_last_rules(&self, events: &mut Vec<Event>) -> Result<(), AllocError>
        ensures { OnOk result (events.new.items ≡ events.old.items ++ spec.last_rules self.now) }
    {
        let gaps = self.rules.gaps();
        push_stopped_pids(
            self.alloc,
            events,
            &self.options,
            &self.named,
            self.tables.names(),
            gaps,
            self.packets,
        )?;
        let has_cat = self.tables.has_table(0x01, 0x01);
        self.rules.push_end(self.packets, has_cat, events)
    }

    // Appends tables that were never whole, tables, clock references and PIDs that stop, the accuracies that wait, and
    // that packets are scrambled without a CAT.
    #[tactic(auto, unfolding(crate::specs::Seen::rule_ends))]
    fn push_rule_ends(&self, events: &mut Vec<Event>) -> Result<(), AllocError>
        ensures { OnOk result (events.new.items ≡ events.old.items ++ spec.rule_ends self.now) }
    {
        let stream = self.is_stream();
        push_absent(self.alloc, events, stream, &self.named, &self.tables)?;
        push_stops(
            self.alloc,
            events,
            &self.options,
            &self.named,
            &self.tables,
            &self.clocks,
            self.packets,
        )?;
        self.push_last_rules(events)
    }

    // Returns whether the stream lasts for 5 s after its first tables.
    fn lasts(&self) -> bool
        ensures { result ≡ spec.lasts self.now }
    {
        let timing = self.tables.times().intervals().timing();
        is_long(
            timing,
            self.known,
            place_at(&self.options.arrival, self.packets),
        )
    }

    /// Appends the last events of clock references by PID, of tables, of all packets by PID, of PIDs that are not named
    /// or have no packet, and of rules.
    #[tactic(auto, unfolding(crate::specs::Seen::pid_ends))]
    pub fn push_pid_ends(&self, events: &mut Vec<Event>) -> Result<(), AllocError>
        ensures { OnOk result (events.new.items ≡ events.old.items ++ spec.pid_ends self.now) }
    {
        push_clocks(events, &self.watches)?;
        self.tables.push_end(events)?;
        push_pids(events, &self.totals)?;
        push_references(
            self.alloc,
            events,
            self.lasts(),
            &self.named,
            &self.tables,
            &self.totals,
        )?;
        self.push_rule_ends(events)
    }

    /// Returns the end of the stream, `left` bytes after its last whole packet; its length is the moment of the byte
    /// after that packet.
    pub fn end_event(&self, left: usize) -> Event
        ensures { result ≡ spec.end_event self.now left }
    {
        Event::End(ReportEnd {
            packets: self.packets,
            refused: self.refused,
            left: left as u64,
            length: moment_at(&self.options, self.packets),
        })
    }
}
