//! Faults by kind and stream.
ghost use Rattle.std.specs.Prelude.{◌≡◌, ◌<◌, ◌==◌, ◌++◌, OnOk, length};
ghost use Rattle.fault_summary.specs.FaultRows as spec;

use events::{Event, Fault, FaultKind, FaultSource, FaultTotals, SummaryEvent};
use indexmap::IndexMap;
use std::alloc::{AllocError, Global};
use std::hash::{BuildHasherDefault, FoldHasher};
use std::marker::Model;

/// The greatest number of a source, and one more.
const SOURCES: u64 = 1 << 24;

/// Totals by kind and source.
type RowEntries = IndexMap<u64, FaultTotals, BuildHasherDefault<FoldHasher>, Global>;

/// Totals of the faults of a stream, by kind and source, in the order of their first faults: one entry for each kind
/// and source that has a fault.
#[derive(Drop)]
pub struct FaultRows {
    rows: RowEntries,
}

impl Model for FaultRows {
    ghost use Rattle.fault_summary.specs.FaultRows.{RowEntries};

    ghost Value = { RowEntries };

    ghost view = { λ r. r.rows.entries };
}

#[tactic(auto, unfolding(crate::specs::FaultRows::number_of))]
fn number_of(source: FaultSource) -> u64
    ensures value { result ≡ spec.number_of source }
    ensures most { result < 16777216 }
{
    match source {
        FaultSource::Whole => 0,
        FaultSource::Stream(pid) => u64::from(pid),
        FaultSource::Program(number) => u64::from(number),
        FaultSource::Table(pid, table) => u64::from(pid) * 256 + u64::from(table),
    }
}

/// Returns the key of a kind and a source.
pub fn key_of(kind: FaultKind, source: FaultSource) -> u64
    ensures { result ≡ spec.key_of kind source }
{
    u64::from(kind.place()) * SOURCES + number_of(source)
}

#[tactic(auto, unfolding(crate::specs::FaultRows::totals_after))]
fn totals_after(before: &Option<FaultTotals>, fault: &Fault) -> FaultTotals
    ensures { result ≡ spec.totals_after before.now fault.now }
{
    match before {
        None => FaultTotals::of(fault),
        Some(totals) => totals.with(fault),
    }
}

impl FaultRows {
    /// Returns no rows.
    pub fn new(alloc: Global) -> FaultRows
        ensures { result ≡ spec.no_rows }
    {
        FaultRows {
            rows: IndexMap::new(alloc),
        }
    }

    /// Returns whether there is no fault.
    pub fn is_empty(&self) -> bool
        ensures { result ≡ (length self.now == 0) }
    {
        self.rows.is_empty()
    }

    /// Returns how many rows there are.
    pub fn count(&self) -> usize
        ensures { result ≡ length self.now }
    {
        self.rows.len()
    }

    /// Returns the totals of a kind at a source, if it has a fault.
    pub fn get(&self, kind: FaultKind, source: FaultSource) -> Option<FaultTotals>
        ensures { result ≡ spec.row_at self.now (spec.key_of kind source) }
    {
        match self.rows.get(&key_of(kind, source)) {
            None => None,
            Some(totals) => Some(*totals),
        }
    }

    /// Takes a fault.
    ///
    /// After an `AllocError` the rows describe no stream: drop them.
    pub fn take(&mut self, fault: &Fault) -> Result<(), AllocError>
        ensures { OnOk result (self.new ≡ spec.with_fault self.old fault.now) }
    {
        let before = self.get(fault.kind, fault.source);
        let totals = totals_after(&before, fault);
        self.rows.insert(key_of(fault.kind, fault.source), totals)?;
        Ok(())
    }

    /// Appends each row.
    pub fn push_rows(&self, events: &mut Vec<Event>) -> Result<(), AllocError>
        ensures { OnOk result (events.new.items ≡ events.old.items ++ spec.row_events self.now) }
    {
        for (key, totals) in &self.rows {
            events.push(Event::Summary(SummaryEvent::Faults(*totals)))?;
        }
        Ok(())
    }
}
