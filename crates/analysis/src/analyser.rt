//! A view of a stream, whose events get their times, and are counted by the checks that they fail.
ghost use Rattle.std.specs.Prelude.{◌≡◌, ◌++◌, ◌∷◌, ◌&&◌, [], IfOk, IfSome, OnOk, false};
ghost use Rattle.arrival.specs.Clock.{IsInRange};
ghost use Rattle.ts_report.specs.ClockedViews.{ClockedState, IsClocked};
ghost use Rattle.ts_report.specs.ClockedViews as views;
ghost use Rattle.analysis.specs.Analysis as spec;
ghost use Rattle.analysis.specs.Analysis.{AnalysisState, IsAnalysed};

use arrival::{LONGEST_INTERVAL, StampClock, StampStep};
use events::{Event, Fault, InputEvent, RuleEvent, StampJump, TimedEvent, fault_of};
use fault_summary::Summary;
use std::alloc::{AllocError, Global};
use ts_report::{ClockedView, ViewRequest, ViewSpan};

/// A stream so far, without its packets, and the summary of its events.
///
/// After an `AllocError` it describes no stream: drop it.
#[derive(Drop)]
pub struct Analyser {
    alloc: Global,
    pub view: ClockedView,
    pub summary: Summary,
    /// The part of the stream whose faults and windows the user requests, and the length of a window in ms.
    pub span: ViewSpan,
    pub window: u32,
    /// The clock of the stamps that time the arrival of the stream, if the caller asks for arrival by stamps.
    pub stamps: Option<StampClock>,
}

/// A millisecond in ticks of 27 MHz.
const TICKS: u128 = 27_000;

// Returns whether the moment `end` is at or after the first moment requested.
#[tactic(auto, unfolding(crate::specs::Analysis::ends_after))]
fn ends_after(from: Option<u64>, end: u128) -> bool
    ensures { result ≡ spec.ends_after from end }
{
    match from {
        None => true,
        Some(ms) => TICKS * u128::from(ms) <= end,
    }
}

// Returns whether the moment `begin` is at or before the last moment requested.
#[tactic(auto, unfolding(crate::specs::Analysis::begins_before))]
fn begins_before(to: Option<u64>, begin: u128) -> bool
    ensures { result ≡ spec.begins_before to begin }
{
    match to {
        None => true,
        Some(ms) => begin <= TICKS * u128::from(ms),
    }
}

fn overlaps(span: ViewSpan, begin: u128, end: u128) -> bool
    ensures { result ≡ spec.overlaps span begin end }
{
    ends_after(span.from, end) && begins_before(span.to, begin)
}

// Returns whether a fault reaches into the part requested.
#[tactic(auto, unfolding(crate::specs::Analysis::fault_in, crate::specs::Analysis::lasts_in))]
fn fault_in(span: ViewSpan, fault: &Option<Fault>) -> bool
    ensures { result ≡ spec.fault_in span fault.now }
{
    let Some(fault) = fault else {
        return true;
    };
    match (fault.from, fault.to) {
        (Some(begin), Some(end)) => overlaps(span, begin, end),
        _ => true,
    }
}

// Returns the number of the window that an event of a check is about.
#[tactic(auto, unfolding(crate::specs::Analysis::rule_window))]
fn rule_window(event: &RuleEvent) -> Option<u64>
    ensures { result ≡ spec.rule_window event.now }
{
    match event {
        RuleEvent::ClockWindow(clock) => Some(clock.number),
        _ => None,
    }
}

// Returns the number of the window that an event is about.
#[tactic(auto, unfolding(crate::specs::Analysis::window_of))]
fn window_of(event: &Event) -> Option<u64>
    ensures { result ≡ spec.window_of event.now }
{
    match event {
        Event::Window(window) => Some(window.number),
        Event::Held(held) => Some(held.number),
        Event::Units(units) => Some(units.number),
        Event::Rule(event) => rule_window(event),
        _ => None,
    }
}

// Returns whether a window reaches into the part requested.
#[tactic(auto, unfolding(crate::specs::Analysis::window_in))]
fn window_in(span: ViewSpan, window: u32, number: Option<u64>) -> bool
    ensures { result ≡ spec.window_in span window number }
{
    match number {
        None => true,
        Some(number) => {
            let length = TICKS * u128::from(window);
            let end = length * (u128::from(number) + 1);
            overlaps(span, length * u128::from(number), end.saturating_sub(1))
        }
    }
}

// Returns the moment of the packet of a fault.
#[tactic(auto, unfolding(crate::specs::Analysis::at_of))]
fn at_of(view: &ClockedView, fault: &Option<Fault>) -> Option<u128>
    ensures { (v : ClockedState) → IsClocked view.now v → result ≡ spec.at_of v fault.now }
{
    match fault {
        None => None,
        Some(fault) => view.moment(fault.packet),
    }
}

#[tactic(auto, unfolding(crate::specs::Analysis::jump_events))]
fn push_jump(step: &StampStep, events: &mut Vec<Event>) -> Result<(), AllocError>
    ensures { OnOk result (events.new.items ≡ events.old.items ++ spec.jump_events step.now.packet step.now.jump) }
{
    match step.jump {
        None => Ok(()),
        Some(value) => {
            events.push(Event::Input(InputEvent::StampJump(StampJump {
                packet: step.packet,
                value,
                limit: LONGEST_INTERVAL,
            })))?;
            Ok(())
        }
    }
}

// Appends that no packet has the stamps requested.
#[tactic(auto, unfolding(crate::specs::Analysis::missing_events))]
fn push_missing(stamps: &Option<StampClock>, events: &mut Vec<Event>) -> Result<(), AllocError>
    ensures { OnOk result (events.new.items ≡ events.old.items ++ spec.missing_events stamps.now) }
{
    match stamps {
        None => Ok(()),
        Some(clock) => {
            if clock.is_new() {
                events.push(Event::Input(InputEvent::NoStamps))?;
            }
            Ok(())
        }
    }
}

// Returns the clock of stamps before the first packet, if stamps are requested.
fn first_stamps(asked: bool) -> Option<StampClock>
    ensures { result ≡ spec.first_stamps asked }
{
    if asked { Some(StampClock::new()) } else { None }
}

impl Analyser {
    /// Returns the state before the first packet.
    pub fn new(alloc: Global, request: ViewRequest) -> Analyser
        ensures analysed { IsAnalysed result (spec.start request) }
        ensures calm { spec.is_crowded result ≡ false }
    {
        let span = request.span;
        let window = request.options.window;
        let stamped = request.stamps;
        let stamps = first_stamps(stamped);
        Analyser {
            alloc,
            view: ClockedView::new(alloc, request),
            summary: Summary::new(alloc, stamped),
            span,
            window,
            stamps,
        }
    }

    // Returns whether an event is about the part requested; `fault`: its fault, if it has one.
    fn is_kept(&self, event: &Event, fault: &Option<Fault>) -> bool
        ensures { result ≡ (spec.window_in self.now.span self.now.window (spec.window_of event.now)
            && spec.fault_in self.now.span fault.now) }
    {
        window_in(self.span, self.window, window_of(event)) && fault_in(self.span, fault)
    }

    /// Takes an event. Appends it with its fault if it is of the part requested, and otherwise drops it.
    pub fn take_event(
        &mut self,
        event: Event,
        events: &mut Vec<TimedEvent>,
    ) -> Result<(), AllocError>
        ensures analysed { (s : AnalysisState) → IsAnalysed self.old s →
            OnOk result (IsAnalysed self.new (spec.with_event s event)) }
        ensures found { (s : AnalysisState) → IsAnalysed self.old s →
            OnOk result (events.new.items ≡ events.old.items ++ spec.timed s event) }
    {
        let at = at_of(&self.view, &fault_of(&event, None));
        let fault = fault_of(&event, at);
        if !self.is_kept(&event, &fault) {
            return Ok(());
        }
        self.summary.take(&event, &fault)?;
        events.push(TimedEvent { event, fault })?;
        Ok(())
    }

    /// Takes events, and appends them with their faults.
    #[tactic(auto, unfolding(crate::specs::Analysis::with_events, crate::specs::Analysis::all_timed))]
    pub fn take_events(
        &mut self,
        found: Vec<Event>,
        events: &mut Vec<TimedEvent>,
    ) -> Result<(), AllocError>
        ensures analysed { (s : AnalysisState) → IsAnalysed self.old s →
            OnOk result (IsAnalysed self.new (spec.with_events s found.items)) }
        ensures found { (s : AnalysisState) → IsAnalysed self.old s →
            OnOk result (events.new.items ≡ events.old.items ++ spec.all_timed s found.items) }
    {
        for event in found {
            self.take_event(event, events)?;
        }
        Ok(())
    }

    /// Takes the next packet, and appends the events that it settles.
    pub fn take(
        &mut self,
        bytes: &[u8; 188],
        events: &mut Vec<TimedEvent>,
    ) -> Result<(), AllocError>
        ensures analysed { (s : AnalysisState) → IsAnalysed self.old s →
            OnOk result (IsAnalysed self.new (spec.after_packet s bytes.now)) }
        ensures found { (s : AnalysisState) → IsAnalysed self.old s →
            OnOk result (events.new.items ≡ events.old.items ++ spec.events_at s bytes.now) }
    {
        let mut found = Vec::new(self.alloc);
        self.view.take(bytes, &mut found)?;
        self.take_events(found, events)
    }

    // Takes the next packet by a stamp.
    fn take_by(
        &mut self,
        clock: StampClock,
        step: &StampStep,
        bytes: &[u8; 188],
        events: &mut Vec<TimedEvent>,
    ) -> Result<(), AllocError>
        requires { IfSome step.now.sample IsInRange }
        ensures analysed { (s : AnalysisState) → IsAnalysed self.old s → OnOk result (IsAnalysed self.new
            (spec.with_events (spec.viewed_by s clock step.now bytes.now) (spec.found_by s step.now bytes.now))) }
        ensures found { (s : AnalysisState) → IsAnalysed self.old s → OnOk result (events.new.items ≡ events.old.items
            ++ spec.all_timed (spec.viewed_by s clock step.now bytes.now) (spec.found_by s step.now bytes.now)) }
    {
        let mut found = Vec::new(self.alloc);
        self.view.take_sampled(step.sample, bytes, &mut found)?;
        push_jump(step, &mut found)?;
        self.stamps = Some(clock);
        self.take_events(found, events)
    }

    /// Takes the next packet and the number `head`, the four bytes before it: their stamp times the packet, if stamps
    /// are requested. Appends the events that the packet settles.
    #[tactic(auto, unfolding(crate::specs::Analysis::stamped_in, crate::specs::Analysis::stamped_events_in))]
    pub fn take_stamped(
        &mut self,
        head: u32,
        bytes: &[u8; 188],
        events: &mut Vec<TimedEvent>,
    ) -> Result<(), AllocError>
        ensures analysed { (s : AnalysisState) → IsAnalysed self.old s →
            OnOk result (IsAnalysed self.new (spec.after_stamped s head bytes.now)) }
        ensures found { (s : AnalysisState) → IsAnalysed self.old s →
            OnOk result (events.new.items ≡ events.old.items ++ spec.stamped_events s head bytes.now) }
    {
        match self.stamps {
            None => self.take(bytes, events),
            Some(stamps) => {
                let mut clock = stamps;
                let step = clock.take(head);
                self.take_by(clock, &step, bytes, events)
            }
        }
    }

    /// Takes the next packets, and appends the events that they settle.
    #[tactic(auto, unfolding(crate::specs::Analysis::after_all, crate::specs::Analysis::events_all))]
    pub fn take_all(
        &mut self,
        packets: &[[u8; 188]],
        events: &mut Vec<TimedEvent>,
    ) -> Result<(), AllocError>
        ensures analysed { (s : AnalysisState) → IsAnalysed self.old s →
            OnOk result (IsAnalysed self.new (spec.after_all s packets.now)) }
        ensures found { (s : AnalysisState) → IsAnalysed self.old s →
            OnOk result (events.new.items ≡ events.old.items ++ spec.events_all s packets.now) }
    {
        for packet in packets {
            self.take(packet, events)?;
        }
        Ok(())
    }

    /// Returns whether a stream has enough waiting units to stop the view.
    pub fn is_crowded(&self) -> bool
        ensures { result ≡ spec.is_crowded self.now }
    {
        self.view.is_crowded()
    }

    /// Ends the stream, `left` bytes after its last whole packet, and appends the last events. Returns whether nothing
    /// is wrong in the stream by its view.
    pub fn end(&mut self, left: usize, events: &mut Vec<TimedEvent>) -> Result<bool, AllocError>
        ensures analysed { (s : AnalysisState) → IsAnalysed self.old s →
            OnOk result (IsAnalysed self.new (spec.ended s left)) }
        ensures found { (s : AnalysisState) → IsAnalysed self.old s →
            OnOk result (events.new.items ≡ events.old.items ++ spec.last_events s left) }
        ensures good { (s : AnalysisState) → IsAnalysed self.old s → IfOk result (λ good. good ≡ spec.is_good s left) }
    {
        let mut found = Vec::new(self.alloc);
        push_missing(&self.stamps, &mut found)?;
        let good = self.view.end(left, &mut found)?;
        self.take_events(found, events)?;
        Ok(good)
    }

    /// Returns whether no event is a fault.
    pub fn is_faultless(&self) -> bool
        ensures { (s : AnalysisState) → IsAnalysed self.now s → result ≡ spec.is_faultless s }
    {
        self.summary.is_good()
    }

    /// Appends the row of each check, the faults by kind and stream, and the verdict: `good`: nothing is wrong.
    pub fn conclude(&self, good: bool, events: &mut Vec<TimedEvent>) -> Result<(), AllocError>
        ensures { (s : AnalysisState) → IsAnalysed self.now s →
            OnOk result (events.new.items ≡ events.old.items ++ spec.conclusion s good) }
    {
        let mut found = Vec::new(self.alloc);
        let clocked = self.view.is_clocked();
        self.summary
            .push_end(self.alloc, good, clocked, &mut found)?;
        push_untimed(found, events)
    }
}

// Appends events that are no faults.
fn push_untimed(found: Vec<Event>, events: &mut Vec<TimedEvent>) -> Result<(), AllocError>
    ensures { OnOk result (events.new.items ≡ events.old.items ++ spec.all_untimed found.items) }
{
    for event in found {
        events.push(TimedEvent { event, fault: None })?;
    }
    Ok(())
}
