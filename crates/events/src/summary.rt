//! Totals of the faults of a stream, by kind and source, and a verdict for a person.
ghost use Rattle.std.specs.Prelude.{◌≡◌};
ghost use Rattle.events.specs.FaultTotals as spec;

use crate::check_counts::{CheckTotals, FaultCount, NO_FAULT, NoVerdict};
use crate::fault::{Fault, Measured};
use crate::fault_kind::{FaultKind, FaultSource};
use crate::rule_event::BufferKind;

/// All faults of a kind at one place: how many, the first and the last, and the worst value with its limit, if values
/// are measured.
#[derive(Clone, Copy)]
pub struct FaultTotals {
    pub kind: FaultKind,
    pub source: FaultSource,
    pub count: FaultCount,
    pub worst: Option<Measured>,
}

/// The buffer that is furthest over its size: the most bytes that it held, and the time from its first excess to its
/// last one.
#[derive(Clone, Copy)]
pub struct WorstBuffer {
    /// The PID of the stream, or the number of the program whose tables it holds.
    pub number: u16,
    pub buffer: BufferKind,
    pub most: u128,
    pub size: u64,
    pub from: Option<u128>,
    pub to: Option<u128>,
}

/// How many buffers there are, and how many of them held more than their size.
#[derive(Clone, Copy)]
pub struct BufferVerdict {
    pub buffers: u64,
    pub over: u64,
    pub worst: Option<WorstBuffer>,
}

/// How many units there are, and how many of them are late.
#[derive(Clone, Copy)]
pub struct UnitVerdict {
    pub units: u64,
    pub late: u64,
}

/// How many checks are made, how many of them fail, and the first of these; and why some are not made, if some are not.
#[derive(Clone, Copy)]
pub struct CheckVerdict {
    pub checks: u64,
    pub failed: u64,
    pub first: Option<CheckTotals>,
    pub unmade: Option<NoVerdict>,
}

/// How many faults there are, and how many by kind and stream.
#[derive(Clone, Copy)]
pub struct FaultVerdict {
    pub faults: u64,
    pub rows: u64,
}

/// A sentence of the verdict.
#[derive(Clone, Copy)]
pub enum Verdict {
    /// Nothing is wrong in the stream.
    NoFault,
    Faults(FaultVerdict),
    Buffers(BufferVerdict),
    Units(UnitVerdict),
    Checks(CheckVerdict),
}

/// A line of the summary of a stream.
#[derive(Clone, Copy)]
pub enum SummaryEvent {
    Faults(FaultTotals),
    Verdict(Verdict),
}

// Returns whether a value is worse than another: the greater, except for times that are too short.
#[tactic(auto, unfolding(crate::specs::FaultTotals::is_worse))]
fn is_worse(kind: FaultKind, value: u128, than: u128) -> bool
    ensures { result ≡ spec.is_worse kind value than }
{
    match kind {
        FaultKind::SectionDistance => value < than,
        _ => value > than,
    }
}

#[tactic(auto, unfolding(crate::specs::FaultTotals::worst_of))]
fn worst_of(kind: FaultKind, before: Option<Measured>, next: Option<Measured>) -> Option<Measured>
    ensures { result ≡ spec.worst_of kind before next }
{
    match (before, next) {
        (None, next) => next,
        (Some(before), None) => Some(before),
        (Some(before), Some(next)) => {
            if is_worse(kind, next.value, before.value) {
                Some(next)
            } else {
                Some(before)
            }
        }
    }
}

impl FaultTotals {
    /// Returns the totals of one fault.
    pub fn of(fault: &Fault) -> FaultTotals
        ensures { result ≡ spec.totals_of fault.now }
    {
        FaultTotals {
            kind: fault.kind,
            source: fault.source,
            count: NO_FAULT.with(fault),
            worst: fault.measured,
        }
    }

    /// Returns the totals with one fault more.
    pub fn with(self, fault: &Fault) -> FaultTotals
        ensures { result ≡ spec.with_fault self fault.now }
    {
        FaultTotals {
            kind: self.kind,
            source: self.source,
            count: self.count.with(fault),
            worst: worst_of(self.kind, self.worst, fault.measured),
        }
    }
}
