//! Events of a transport stream, as plain data.
//!
//! - [`Event`]: an event at a packet, in a window, or at the end of the stream (docs/VIEW.md has the lines and their
//!   fields).
//! - [`TimedEvent`]: an event with its fault.
//! - [`PidName`]: what the packets of a PID carry: a table by its PID, the map of a program, or a stream of a coding.
//! - [`Fault`]: the fault of an event ([`fault_of`]), where and when.
//! - [`CheckCounts`]: how often each check of ETSI TR 101 290 ([`Check`]) fails, and where first and last.
//! - [`FaultTotals`], [`Verdict`]: totals of the faults, by kind and stream.
#![tactic(auto)]

mod check;
mod check_counts;
mod event;
mod fault;
mod fault_kind;
mod input_event;
mod mark_event;
mod packet_fault;
mod pid_name;
mod rule_event;
mod summary;
mod timed_event;
mod video_event;

pub use check::Check;
pub use check_counts::{
    CheckCount, CheckCounts, CheckTotals, FaultCount, NO_FAULT, NoVerdict, StreamTime, fails,
};
pub use event::{
    BufferExcess, BufferTotals, ClockFault, ClockTotals, Event, FarAhead, HeldFigures, LateUnit,
    PidTotals, ReportEnd, StreamBegin, SystemTotals, TableFault, TableTotals, UnclockedPackets,
    UnitFigures, WindowFigures,
};
pub use fault::{Fault, Measured, fault_of};
pub use fault_kind::{FaultKind, FaultSource};
pub use input_event::{InputEvent, OtherRate, RestBytes, SlippedBytes, StampJump};
pub use mark_event::MarkTotals;
pub use packet_fault::{CheckWordFault, CounterFault, RefusalCause, RefusedPacket};
pub use pid_name::PidName;
pub use rule_event::{
    AbsentTable, BufferKind, BufferStay, ClockFigures, OtherTable, RuleEvent, ScrambledPacket,
    TracePoint, VariableRate,
};
pub use summary::{
    BufferVerdict, CheckVerdict, FaultTotals, FaultVerdict, SummaryEvent, UnitVerdict, Verdict,
    WorstBuffer,
};
pub use timed_event::TimedEvent;
pub use video_event::{ElementaryLate, LateCause};
