//! Time stamps, times without a packet of a PID, scrambled packets, and whether the rate is constant.
ghost use Rattle.std.specs.Prelude.{◌≡◌, ◌++◌, Some, IfOk, OnOk};
ghost use Rattle.ts_packet.specs.Views.{packet_view};
ghost use Rattle.ts_watch.specs.RuleEvents as spec;

use crate::clock_events::{push_inaccuracies, push_variable_if};
use crate::pid_labels::label_of;
use crate::stamp_pids::said;
use arrival::Arrival;
use es_events::clocks::first_byte;
use events::{ClockFault, Event, FaultKind, PidName, RuleEvent, ScrambledPacket};
use packet_times::{PidGaps, push_gap_if};
use std::alloc::{AllocError, Global};
use std::marker::Model;
use tr101290::{PcrReport, PcrTiming, PidError, PtsError, PtsWatch, RateJudge, TableTiming};
use ts_packet::Packet;
use ts_tables::NamedStreams;

/// The last PTS and the last packet of each PID, the judge of the rate, and the first scrambled packet.
#[derive(Drop)]
pub struct RuleWatch {
    alloc: Global,
    stamps: PtsWatch<Global>,
    gaps: PidGaps,
    judge: RateJudge,
    scrambled: Option<ScrambledPacket>,
}

impl Model for RuleWatch {
    ghost use Rattle.ts_watch.specs.RuleEvents.{RuleState};

    ghost Value = { RuleState };

    ghost view = { λ w. record {
      stamps = w.stamps;
      gaps = w.gaps;
      judge = w.judge;
      scrambled = w.scrambled;
    } };
}

/// Returns the place of a packet: its index at a constant rate, else its moment, if that is known.
#[tactic(auto, unfolding(crate::specs::RuleEvents::place_at))]
pub fn place_at(arrival: &Arrival, index: u64) -> Option<u64>
    ensures { result ≡ spec.place_at arrival.now index }
{
    match arrival {
        Arrival::Unknown => None,
        Arrival::AtRate(_) => Some(index),
        Arrival::OnLines(lines) => Some(lines.moment(first_byte(index))),
    }
}

// Appends a PTS that comes too late. A call of its own: few packets have one.
#[inline(never)]
#[tactic(auto, unfolding(crate::specs::RuleEvents::pts_events))]
fn push_pts(events: &mut Vec<Event>, error: &PtsError) -> Result<(), AllocError>
    ensures { OnOk result (events.new.items ≡ events.old.items ++ spec.pts_events (Some error.now)) }
{
    let fault = ClockFault {
        pid: error.pid,
        packet: error.packet,
        value: error.value,
        limit: error.limit,
    };
    events.push(Event::ClockFault(FaultKind::PtsRepetition, fault))?;
    Ok(())
}

#[tactic(auto, unfolding(crate::specs::RuleEvents::pts_events))]
fn push_pts_if(events: &mut Vec<Event>, error: &Option<PtsError>) -> Result<(), AllocError>
    ensures { OnOk result (events.new.items ≡ events.old.items ++ spec.pts_events error.now) }
{
    match error {
        None => Ok(()),
        Some(error) => push_pts(events, error),
    }
}

fn is_scrambled(packet: &Packet<'_>) -> bool
    ensures { result ≡ spec.is_scrambled (packet_view packet.now) }
{
    packet.header.transport_scrambling_control != 0
}

#[tactic(auto, unfolding(crate::specs::RuleEvents::is_map))]
fn is_map(coding: PidName) -> bool
    ensures { result ≡ spec.is_map coding }
{
    match coding {
        PidName::Pat | PidName::Pmt => true,
        _ => false,
    }
}

// Appends a scrambled packet of a PAT or of a PMT that the tables name. A call of its own: of many streams no packet is
// scrambled.
#[inline(never)]
fn push_scrambled(
    events: &mut Vec<Event>,
    index: u64,
    named: &NamedStreams,
    packet: &Packet<'_>,
) -> Result<(), AllocError>
    ensures { OnOk result (events.new.items
        ≡ events.old.items ++ spec.scrambled_events index named.now (packet_view packet.now)) }
{
    let pid = packet.header.pid;
    if is_scrambled(packet) && is_map(label_of(named, pid).coding) {
        events.push(Event::Rule(RuleEvent::ScrambledTable(ScrambledPacket {
            pid,
            packet: index,
        })))?;
    }
    Ok(())
}

// Appends the same, if the packet is scrambled.
fn push_scrambled_if(
    events: &mut Vec<Event>,
    index: u64,
    named: &NamedStreams,
    packet: &Packet<'_>,
) -> Result<(), AllocError>
    ensures { OnOk result (events.new.items
        ≡ events.old.items ++ spec.scrambled_events index named.now (packet_view packet.now)) }
{
    if !is_scrambled(packet) {
        return Ok(());
    }
    push_scrambled(events, index, named, packet)
}

#[tactic(auto, unfolding(crate::specs::RuleEvents::first_scrambled))]
fn first_scrambled(
    before: Option<ScrambledPacket>,
    index: u64,
    packet: &Packet<'_>,
) -> Option<ScrambledPacket>
    ensures { result ≡ spec.first_scrambled before index (packet_view packet.now) }
{
    match before {
        Some(first) => Some(first),
        None => {
            if is_scrambled(packet) {
                Some(ScrambledPacket {
                    pid: packet.header.pid,
                    packet: index,
                })
            } else {
                None
            }
        }
    }
}

impl RuleWatch {
    /// Returns the state before the first packet.
    pub fn new(alloc: Global, timing: TableTiming) -> RuleWatch
        ensures { result ≡ spec.no_rule timing }
    {
        let gaps = PidGaps::new(alloc, timing);
        let stamps = PtsWatch::new(alloc, gaps.timing());
        RuleWatch {
            alloc,
            stamps,
            gaps,
            judge: RateJudge::new(alloc),
            scrambled: None,
        }
    }

    // Takes the report on a reference by the references around it, and appends the accuracies that are decided.
    fn take_judged(
        &mut self,
        index: u64,
        pid: u16,
        report: &PcrReport,
        events: &mut Vec<Event>,
    ) -> Result<u64, AllocError>
        ensures watch { OnOk result (self.new
            ≡ spec.with_judge self.old (spec.judge_taken self.old.judge pid report.now)) }
        ensures found { OnOk result (events.new.items
            ≡ events.old.items ++ spec.judged_events self.old.judge index pid report.now) }
        ensures errors { IfOk result (λ n. n ≡ spec.judged_count self.old.judge pid report.now) }
    {
        let mut errors = Vec::new(self.alloc);
        let undecided = !self.judge.is_decided();
        self.judge.take(pid, report, &mut errors)?;
        push_inaccuracies(events, &errors)?;
        let varies = undecided && self.judge.is_decided() && self.judge.varies();
        push_variable_if(events, varies, index, &self.judge)?;
        Ok(errors.len() as u64)
    }

    /// Takes the report on the reference of a packet of a PID, if it has one, appends the errors of accuracy that count
    /// now, and returns their number.
    #[tactic(auto, unfolding(crate::specs::RuleEvents::judge_after, crate::specs::RuleEvents::accuracy_events, crate::specs::RuleEvents::accuracy_count))]
    pub fn take_report(
        &mut self,
        timing: PcrTiming,
        index: u64,
        pid: u16,
        report: &Option<PcrReport>,
        events: &mut Vec<Event>,
    ) -> Result<u64, AllocError>
        ensures watch { OnOk result (self.new
            ≡ spec.with_judge self.old (spec.judge_after timing self.old.judge pid report.now)) }
        ensures found { OnOk result (events.new.items
            ≡ events.old.items ++ spec.accuracy_events timing self.old.judge index pid report.now) }
        ensures errors { IfOk result (λ n. n ≡ spec.accuracy_count timing self.old.judge pid report.now) }
    {
        let Some(report) = report else {
            return Ok(0);
        };
        match timing {
            PcrTiming::References | PcrTiming::Stamps => self.take_judged(
                index, pid, report, events,
            ),
            PcrTiming::ConstantRate(_) => push_exact(events, pid, report),
        }
    }

    // Takes the PTS of the packet at an index and a place, if it has one, and appends its error. Only a packet in which
    // a PES packet begins has one.
    #[tactic(auto, unfolding(crate::specs::RuleEvents::stamps_by, crate::specs::RuleEvents::stamp_events, crate::specs::RuleEvents::pts_events))]
    fn take_placed(
        &mut self,
        index: u64,
        place: u64,
        named: &NamedStreams,
        packet: &Packet<'_>,
        events: &mut Vec<Event>,
    ) -> Result<(), AllocError>
        ensures watch { OnOk result (self.new ≡ spec.with_stamps self.old
            (spec.stamps_by self.old.stamps (Some place) named.now (packet_view packet.now))) }
        ensures found { OnOk result (events.new.items ≡ events.old.items
            ++ spec.stamp_events self.old.stamps index (Some place) named.now (packet_view packet.now)) }
    {
        if !packet.header.payload_unit_start_indicator {
            return Ok(());
        }
        let said = said(named, packet.header.pid);
        let error = self.stamps.take(index, place, said, packet)?;
        push_pts_if(events, &error)
    }

    // Takes the PTS of the packet at an index, if it has one, and appends its error.
    #[tactic(auto, unfolding(crate::specs::RuleEvents::stamps_by, crate::specs::RuleEvents::stamp_events))]
    fn take_stamp(
        &mut self,
        index: u64,
        place: Option<u64>,
        named: &NamedStreams,
        packet: &Packet<'_>,
        events: &mut Vec<Event>,
    ) -> Result<(), AllocError>
        ensures watch { OnOk result (self.new
            ≡ spec.with_stamps self.old (spec.stamps_by self.old.stamps place named.now (packet_view packet.now))) }
        ensures found { OnOk result (events.new.items
            ≡ events.old.items ++ spec.stamp_events self.old.stamps index place named.now (packet_view packet.now)) }
    {
        match place {
            None => Ok(()),
            Some(place) => self.take_placed(index, place, named, packet, events),
        }
    }

    // Takes the packet of a PID at an index, and appends that the PID has had no packet for too long.
    #[tactic(auto, unfolding(crate::specs::RuleEvents::gaps_by, crate::specs::RuleEvents::gap_events))]
    fn take_gap(
        &mut self,
        index: u64,
        place: Option<u64>,
        named: &NamedStreams,
        pid: u16,
        events: &mut Vec<Event>,
    ) -> Result<(), AllocError>
        ensures watch { OnOk result (self.new ≡ spec.with_gaps self.old (spec.gaps_by self.old.gaps place pid)) }
        ensures found { OnOk result (events.new.items
            ≡ events.old.items ++ spec.gap_events self.old.gaps index place named.now pid) }
    {
        match place {
            None => Ok(()),
            Some(place) => {
                let gap = self.gaps.take(pid, index, place)?;
                push_gap_if(events, named, gap)
            }
        }
    }

    /// Returns the last packet of each PID.
    pub fn gaps(&self) -> &PidGaps
        ensures { result.now ≡ self.now.gaps }
    {
        &self.gaps
    }

    /// Takes the packet at an index: appends the error of its PTS, that its PID has had no packet for too long, and that
    /// a packet of a PAT or of a PMT is scrambled.
    pub fn take(
        &mut self,
        arrival: &Arrival,
        index: u64,
        named: &NamedStreams,
        packet: &Packet<'_>,
        events: &mut Vec<Event>,
    ) -> Result<(), AllocError>
        ensures watch { OnOk result (self.new
            ≡ spec.taken self.old arrival.now index named.now (packet_view packet.now)) }
        ensures found { OnOk result (events.new.items
            ≡ events.old.items ++ spec.packet_events self.old arrival.now index named.now (packet_view packet.now)) }
    {
        let place = place_at(arrival, index);
        self.take_stamp(index, place, named, packet, events)?;
        self.take_gap(index, place, named, packet.header.pid, events)?;
        push_scrambled_if(events, index, named, packet)?;
        self.scrambled = first_scrambled(self.scrambled, index, packet);
        Ok(())
    }

    /// Returns whether no error of accuracy is held that counts at the end.
    pub fn holds_none(&self) -> bool
        ensures { result ≡ spec.holds_none self.now }
    {
        self.judge.varies() || self.judge.is_empty()
    }

    /// Appends, at the end of a stream, the accuracies that wait, and that packets are scrambled and there is no CAT.
    pub fn push_end(
        &self,
        packets: u64,
        has_cat: bool,
        events: &mut Vec<Event>,
    ) -> Result<(), AllocError>
        ensures { OnOk result (events.new.items ≡ events.old.items ++ spec.end_events self.now packets has_cat) }
    {
        let mut errors = Vec::new(self.alloc);
        self.judge.end(&mut errors)?;
        push_inaccuracies(events, &errors)?;
        let varies = !self.judge.is_decided() && self.judge.varies();
        push_variable_if(events, varies, packets, &self.judge)?;
        push_no_cat_if(events, self.scrambled, has_cat)
    }
}

// Appends the error of accuracy of a reference at a constant rate, if it has one, and returns how many there are.
#[tactic(auto, unfolding(tr101290::specs::RateJudges::error_list))]
fn push_exact(events: &mut Vec<Event>, pid: u16, report: &PcrReport) -> Result<u64, AllocError>
    ensures found { OnOk result (events.new.items ≡ events.old.items ++ spec.exact_events pid report.now) }
    ensures errors { IfOk result (λ n. n ≡ spec.exact_count pid report.now) }
{
    match report.accuracy_error() {
        None => Ok(0),
        Some(error) => {
            push_inaccuracies(events, &[PidError { pid, error }])?;
            Ok(1)
        }
    }
}

#[tactic(auto, unfolding(crate::specs::RuleEvents::cat_events))]
fn push_no_cat_if(
    events: &mut Vec<Event>,
    scrambled: Option<ScrambledPacket>,
    has_cat: bool,
) -> Result<(), AllocError>
    ensures { OnOk result (events.new.items ≡ events.old.items ++ spec.cat_events scrambled has_cat) }
{
    match scrambled {
        None => Ok(()),
        Some(packet) => {
            if !has_cat {
                events.push(Event::Rule(RuleEvent::NoCat(packet)))?;
            }
            Ok(())
        }
    }
}
