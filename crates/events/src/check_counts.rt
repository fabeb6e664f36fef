//! How often each check of ETSI TR 101 290 fails, by the faults of a stream.
ghost use Rattle.std.specs.Prelude.{◌≡◌, ◌++◌, OnOk, map};
ghost use Rattle.events.specs.CheckCounts as spec;

use crate::check::Check;
use crate::event::Event;
use crate::fault::Fault;
use crate::fault_kind::{check_of, is_si_repetition};
use std::alloc::AllocError;

/// How often something failed, and where it did first and last.
#[derive(Clone, Copy)]
pub struct FaultCount {
    /// The faults, up to 2^64 - 1.
    pub faults: u64,
    /// The packet of the first fault; 0 if there is none.
    pub first: u64,
    /// The packet of the last fault; 0 if there is none.
    pub last: u64,
    /// The moment at which the first fault begins, and the moment at which the last fault ends, in ticks, if they are
    /// known.
    pub from: Option<u128>,
    pub to: Option<u128>,
}

/// Why a check can't be made of a stream.
#[derive(Clone, Copy)]
pub enum NoVerdict {
    /// No packet has a moment.
    NoClock,
    /// The rate of the stream varies.
    VariableRate,
}

/// What a check came to: the row of a report. If the check can't be made, the count says nothing.
#[derive(Clone, Copy)]
pub struct CheckTotals {
    pub check: Check,
    pub count: FaultCount,
    pub no_verdict: Option<NoVerdict>,
}

/// A check and its faults.
#[derive(Clone, Copy)]
pub struct CheckCount {
    pub check: Check,
    pub count: FaultCount,
}

/// The faults of each check, in the order of their numbers.
#[derive(Clone, Copy)]
pub struct CheckCounts {
    pub rows: [CheckCount; 26],
}

/// Whether a packet of a stream has a moment, and whether the rate of the stream varies.
#[derive(Clone, Copy)]
pub struct StreamTime {
    pub clocked: bool,
    pub varies: bool,
}

/// The count of no fault.
pub const NO_FAULT: FaultCount = FaultCount {
    faults: 0,
    first: 0,
    last: 0,
    from: None,
    to: None,
};

const NO_FAULTS: [CheckCount; 26] = [
    CheckCount {
        check: Check::SyncLoss,
        count: NO_FAULT,
    },
    CheckCount {
        check: Check::SyncByte,
        count: NO_FAULT,
    },
    CheckCount {
        check: Check::Pat,
        count: NO_FAULT,
    },
    CheckCount {
        check: Check::Continuity,
        count: NO_FAULT,
    },
    CheckCount {
        check: Check::Pmt,
        count: NO_FAULT,
    },
    CheckCount {
        check: Check::Pid,
        count: NO_FAULT,
    },
    CheckCount {
        check: Check::Transport,
        count: NO_FAULT,
    },
    CheckCount {
        check: Check::Crc,
        count: NO_FAULT,
    },
    CheckCount {
        check: Check::PcrRepetition,
        count: NO_FAULT,
    },
    CheckCount {
        check: Check::PcrDiscontinuity,
        count: NO_FAULT,
    },
    CheckCount {
        check: Check::PcrAccuracy,
        count: NO_FAULT,
    },
    CheckCount {
        check: Check::Pts,
        count: NO_FAULT,
    },
    CheckCount {
        check: Check::Cat,
        count: NO_FAULT,
    },
    CheckCount {
        check: Check::NitActual,
        count: NO_FAULT,
    },
    CheckCount {
        check: Check::NitOther,
        count: NO_FAULT,
    },
    CheckCount {
        check: Check::SiRepetition,
        count: NO_FAULT,
    },
    CheckCount {
        check: Check::Buffer,
        count: NO_FAULT,
    },
    CheckCount {
        check: Check::Unreferenced,
        count: NO_FAULT,
    },
    CheckCount {
        check: Check::SdtActual,
        count: NO_FAULT,
    },
    CheckCount {
        check: Check::SdtOther,
        count: NO_FAULT,
    },
    CheckCount {
        check: Check::EitActual,
        count: NO_FAULT,
    },
    CheckCount {
        check: Check::EitOther,
        count: NO_FAULT,
    },
    CheckCount {
        check: Check::Rst,
        count: NO_FAULT,
    },
    CheckCount {
        check: Check::Tdt,
        count: NO_FAULT,
    },
    CheckCount {
        check: Check::EmptyBuffer,
        count: NO_FAULT,
    },
    CheckCount {
        check: Check::DataDelay,
        count: NO_FAULT,
    },
];

impl FaultCount {
    /// Returns the count with one fault more.
    pub fn with(self, fault: &Fault) -> FaultCount
        ensures { result ≡ spec.with_fault self fault.now }
    {
        let none = self.faults == 0;
        FaultCount {
            faults: self.faults.saturating_add(1),
            first: if none { fault.packet } else { self.first },
            last: fault.packet,
            from: if none { fault.from } else { self.from },
            to: fault.to,
        }
    }
}

#[tactic(auto, unfolding(crate::specs::CheckCounts::is_check))]
fn is_check(found: Option<Check>, check: Check) -> bool
    ensures { result ≡ spec.is_check found check }
{
    match found {
        None => false,
        Some(found) => found.place() == check.place(),
    }
}

/// Returns whether a fault fails a check.
pub fn fails(check: Check, fault: &Fault) -> bool
    ensures { result ≡ spec.fails check fault.now }
{
    is_check(check_of(fault.kind, fault.source), check)
        || (is_si_repetition(fault.kind, fault.source)
            && check.place() == Check::SiRepetition.place())
}

fn row_with(row: CheckCount, fault: &Fault) -> CheckCount
    ensures { result ≡ spec.row_with fault.now row }
{
    if fails(row.check, fault) {
        CheckCount {
            check: row.check,
            count: row.count.with(fault),
        }
    } else {
        row
    }
}

fn add_to(rows: &mut [CheckCount], fault: &Fault)
    ensures { rows.new ≡ map (spec.row_with fault.now) rows.old }
{
    for row in rows.iter_mut() {
        *row = row_with(*row, fault);
    }
}

// Returns whether a check is about times.
#[tactic(auto, unfolding(crate::specs::CheckCounts::is_timed))]
fn is_timed(check: Check) -> bool
    ensures { result ≡ spec.is_timed check }
{
    match check {
        Check::SyncLoss
        | Check::SyncByte
        | Check::Continuity
        | Check::Pid
        | Check::Transport
        | Check::Crc
        | Check::PcrDiscontinuity
        | Check::Cat
        | Check::Unreferenced => false,
        _ => true,
    }
}

// Returns why a check can't be made, if it can't be.
fn no_verdict_of(check: Check, time: StreamTime) -> Option<NoVerdict>
    ensures { result ≡ spec.no_verdict_of check time }
{
    if !time.clocked && is_timed(check) {
        Some(NoVerdict::NoClock)
    } else if time.varies && check.place() == Check::PcrAccuracy.place() {
        Some(NoVerdict::VariableRate)
    } else {
        None
    }
}

fn totals_of(row: CheckCount, time: StreamTime) -> CheckTotals
    ensures { result ≡ spec.totals_of time row }
{
    CheckTotals {
        check: row.check,
        count: row.count,
        no_verdict: no_verdict_of(row.check, time),
    }
}

fn push_all(
    rows: &[CheckCount],
    time: StreamTime,
    events: &mut Vec<Event>,
) -> Result<(), AllocError>
    ensures { OnOk result (events.new.items ≡ events.old.items ++ spec.events_of time rows.now) }
{
    for row in rows {
        events.push(Event::Check(totals_of(*row, time)))?;
    }
    Ok(())
}

impl CheckCounts {
    /// Returns the counts before the first fault.
    pub fn new() -> CheckCounts
        ensures { result ≡ spec.no_faults }
    {
        CheckCounts { rows: NO_FAULTS }
    }

    /// Counts a fault in each check that it fails.
    pub fn take(&mut self, fault: &Fault)
        ensures { self.new ≡ spec.with_counted self.old fault.now }
    {
        add_to(&mut self.rows, fault);
    }

    /// Appends the row of each check, in the order of their numbers.
    pub fn push_rows(&self, time: StreamTime, events: &mut Vec<Event>) -> Result<(), AllocError>
        ensures { OnOk result (events.new.items ≡ events.old.items ++ spec.rows time self.now) }
    {
        push_all(&self.rows, time, events)
    }
}
