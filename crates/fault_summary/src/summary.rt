//! Totals of the events of a stream.
ghost use Rattle.std.specs.Prelude.{◌≡◌, ◌++◌, OnOk};
ghost use Rattle.fault_summary.specs.Summaries as spec;

use crate::buffer_figures::BufferFigures;
use crate::fault_rows::FaultRows;
use crate::sync_runs::{SyncRun, count_loss};
use crate::verdicts::{checks_of, push_verdict};
use events::{CheckCounts, Event, Fault, RuleEvent, StreamTime};
use std::alloc::{AllocError, Global};
use std::marker::Model;

/// The faults of a stream by check, and by kind and source; their number, which stops at 2^64 - 1; the last packets in a
/// row that do not begin with 0x47; what the stream's buffers held; and whether its rate varies.
#[derive(Drop)]
pub struct Summary {
    pub counts: CheckCounts,
    pub rows: FaultRows,
    pub faults: u64,
    pub run: SyncRun,
    pub figures: BufferFigures,
    pub varies: bool,
}

impl Model for Summary {
    ghost use Rattle.fault_summary.specs.Summaries.{SummaryState};

    ghost Value = { SummaryState };

    ghost view = { λ s.
        record { counts = s.counts; rows = s.rows; faults = s.faults; run = s.run; figures = s.figures; varies = s.varies } };
}

// Returns whether an event says that the rate varies.
#[tactic(auto, unfolding(crate::specs::Summaries::is_variable_rule))]
fn is_variable_rule(event: RuleEvent) -> bool
    ensures { result ≡ spec.is_variable_rule event }
{
    match event {
        RuleEvent::VariableRate(_) => true,
        _ => false,
    }
}

#[tactic(auto, unfolding(crate::specs::Summaries::is_variable))]
fn is_variable(event: &Event) -> bool
    ensures { result ≡ spec.is_variable event.now }
{
    match event {
        Event::Rule(event) => is_variable_rule(*event),
        _ => false,
    }
}

impl Summary {
    /// Returns the totals of no event; `varies` says whether the rate of the stream varies.
    pub fn new(alloc: Global, varies: bool) -> Summary
        ensures { result ≡ spec.nothing varies }
    {
        Summary {
            counts: CheckCounts::new(),
            rows: FaultRows::new(alloc),
            faults: 0,
            run: SyncRun::new(),
            figures: BufferFigures::new(),
            varies,
        }
    }

    // Takes a fault.
    fn take_fault(&mut self, fault: &Fault) -> Result<(), AllocError>
        ensures { OnOk result (self.new ≡ spec.with_fault self.old fault.now) }
    {
        count_loss(&mut self.counts, self.run, fault);
        self.run = self.run.after(fault);
        self.counts.take(fault);
        self.rows.take(fault)?;
        self.faults = self.faults.saturating_add(1);
        Ok(())
    }

    /// Takes an event, with the fault that it says there is.
    #[tactic(auto, unfolding(crate::specs::Summaries::with_fault_if))]
    pub fn take(&mut self, event: &Event, fault: &Option<Fault>) -> Result<(), AllocError>
        ensures { OnOk result (self.new ≡ spec.with_event self.old event.now fault.now) }
    {
        self.figures.take(event);
        self.varies = self.varies || is_variable(event);
        match fault {
            None => Ok(()),
            Some(fault) => self.take_fault(fault),
        }
    }

    /// Returns whether there is no fault.
    pub fn is_good(&self) -> bool
        ensures { result ≡ spec.is_good self.now }
    {
        self.rows.is_empty()
    }

    /// Appends the row of each check, the faults by kind and source, and the verdict: `good`: nothing is wrong;
    /// `clocked`: packets have moments.
    pub fn push_end(
        &self,
        alloc: Global,
        good: bool,
        clocked: bool,
        events: &mut Vec<Event>,
    ) -> Result<(), AllocError>
        ensures { OnOk result (events.new.items ≡ events.old.items ++ spec.end_events self.now good clocked) }
    {
        let time = StreamTime {
            clocked,
            varies: self.varies,
        };
        let mut rows = Vec::new(alloc);
        self.counts.push_rows(time, &mut rows)?;
        let checks = checks_of(&rows);
        events.append(&mut rows)?;
        self.rows.push_rows(events)?;
        push_verdict(events, good, self.faults, &self.figures, &self.rows, checks)
    }
}
