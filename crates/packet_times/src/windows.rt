//! The clock references of each PID, by window.
ghost use Rattle.std.specs.Prelude.{◌≡◌, ◌++◌, OnOk};
ghost use Rattle.packet_times.specs.ClockWindows as spec;

use crate::drift::{ClockDrift, ahead_of, behind_of, drift_after};
use events::{ClockFigures, Event, RuleEvent};
use indexmap::IndexMap;
use std::alloc::{AllocError, Global};
use std::hash::{BuildHasherDefault, FoldHasher};
use std::marker::Model;
use tr101290::{PcrCounts, PcrReport};

/// Counts of references by PID, in the order of the first references of a window.
type CountEntries = IndexMap<u16, PcrCounts, BuildHasherDefault<FoldHasher>, Global>;

/// The drift of the program clock of each PID, in the order of the first references.
type DriftEntries = IndexMap<u16, Option<ClockDrift>, BuildHasherDefault<FoldHasher>, Global>;

/// The window of the last clock reference, the counts of the references of each PID in it, and the drift of the program
/// clock of each PID. Each PID has one entry, whatever the number of windows.
#[derive(Drop)]
pub struct ClockWindows {
    number: u64,
    counts: CountEntries,
    drifts: DriftEntries,
}

impl Model for ClockWindows {
    ghost use Rattle.packet_times.specs.ClockWindows.{ClocksState};

    ghost Value = { ClocksState };

    ghost view = { λ w. record { number = w.number; counts = w.counts.entries; drifts = w.drifts.entries } };
}

// Returns the counts of a PID.
#[tactic(auto, unfolding(crate::specs::ClockWindows::counts_or_none))]
fn counts_of(counts: &CountEntries, pid: u16) -> PcrCounts
    ensures { result ≡ spec.counts_of pid counts.now.entries }
{
    match counts.get(&pid) {
        None => PcrCounts::new(),
        Some(counts) => *counts,
    }
}

// Returns the drift of a PID.
#[tactic(auto, unfolding(crate::specs::ClockWindows::drift_or_none))]
fn drift_of(drifts: &DriftEntries, pid: u16) -> Option<ClockDrift>
    ensures { result ≡ spec.drift_of pid drifts.now.entries }
{
    match drifts.get(&pid) {
        None => None,
        Some(drift) => *drift,
    }
}

fn window_event(number: u64, pid: u16, counts: PcrCounts, drift: Option<ClockDrift>) -> Event
    ensures { result ≡ spec.figures number pid counts drift }
{
    Event::Rule(RuleEvent::ClockWindow(ClockFigures {
        number,
        pid,
        references: counts.references,
        interval: counts.interval,
        inaccuracy: counts.inaccuracy,
        ahead: ahead_of(drift),
        behind: behind_of(drift),
    }))
}

impl ClockWindows {
    /// Returns the state before the first reference.
    pub fn new(alloc: Global) -> ClockWindows
        ensures { result ≡ spec.no_reference }
    {
        ClockWindows {
            number: 0,
            counts: IndexMap::new(alloc),
            drifts: IndexMap::new(alloc),
        }
    }

    // Takes the report on a reference of a PID, which arrives at a moment in the last window.
    fn take_report(
        &mut self,
        pid: u16,
        moment: Option<u128>,
        report: &PcrReport,
    ) -> Result<(), AllocError>
        ensures { OnOk result (self.new ≡ spec.with_report self.old pid moment report.now) }
    {
        let counts = counts_of(&self.counts, pid).with(report);
        let drift = drift_after(drift_of(&self.drifts, pid), &report.step, moment);
        self.counts.insert(pid, counts)?;
        self.drifts.insert(pid, drift)?;
        Ok(())
    }

    // Begins a window, if it is another one than the last, and forgets the counts of the last.
    #[tactic(auto, unfolding(crate::specs::ClockWindows::counts_in))]
    fn enter(&mut self, window: u64)
        ensures { self.new ≡ spec.entered self.old window }
    {
        if self.number != window {
            self.number = window;
            self.counts.clear();
        }
    }

    /// Takes the report on the reference of a packet of a PID in a window, if the packet has one, and the moment at
    /// which the reference arrives. Windows are taken in their order.
    ///
    /// After an `AllocError` the state describes no stream: drop it.
    #[tactic(auto, unfolding(crate::specs::ClockWindows::taken))]
    pub fn take(
        &mut self,
        window: u64,
        pid: u16,
        moment: Option<u128>,
        report: &Option<PcrReport>,
    ) -> Result<(), AllocError>
        ensures { OnOk result (self.new ≡ spec.taken self.old window pid moment report.now) }
    {
        match report {
            None => Ok(()),
            Some(report) => {
                self.enter(window);
                self.take_report(pid, moment, report)
            }
        }
    }

    // Appends the figures of each PID with a reference in the last window.
    fn push_all(&self, events: &mut Vec<Event>) -> Result<(), AllocError>
        ensures { OnOk result (events.new.items ≡ events.old.items ++ spec.all_events self.now) }
    {
        for (pid, counts) in &self.counts {
            let drift = drift_of(&self.drifts, *pid);
            events.push(window_event(self.number, *pid, *counts, drift))?;
        }
        Ok(())
    }

    /// Appends the figures of each PID with a reference in a window that has ended.
    pub fn push(&self, window: u64, events: &mut Vec<Event>) -> Result<(), AllocError>
        ensures { OnOk result (events.new.items ≡ events.old.items ++ spec.window_events self.now window) }
    {
        if self.number != window {
            return Ok(());
        }
        self.push_all(events)
    }
}
