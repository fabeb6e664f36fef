//! The fault that an event says there is.
ghost use Rattle.std.specs.Prelude.{◌≡◌};
ghost use Rattle.events.specs.Faults as spec;

use crate::event::{BufferExcess, ClockFault, Event, TableFault};
use crate::fault_kind::{FaultKind, FaultSource};
use crate::input_event::{InputEvent, StampJump};
use crate::packet_fault::RefusalCause;
use crate::rule_event::{BufferStay, RuleEvent};

/// A value that is measured, and its limit.
#[derive(Clone, Copy)]
pub struct Measured {
    pub value: u128,
    pub limit: u64,
}

/// A fault: its kind and place, its packet, its first and last moment, and how far beyond its limit a value was.
#[derive(Clone, Copy)]
pub struct Fault {
    pub kind: FaultKind,
    pub source: FaultSource,
    pub packet: u64,
    pub from: Option<u128>,
    pub to: Option<u128>,
    pub measured: Option<Measured>,
}

// Returns a fault of a kind at a packet, at its moment.
fn point(kind: FaultKind, source: FaultSource, packet: u64, at: Option<u128>) -> Fault
    ensures { result ≡ spec.point kind source packet at }
{
    Fault {
        kind,
        source,
        packet,
        from: at,
        to: at,
        measured: None,
    }
}

// Returns a fault of a kind over a time.
fn span(
    kind: FaultKind,
    source: FaultSource,
    packet: u64,
    from: u128,
    to: u128,
    measured: Measured,
) -> Fault
    ensures { result ≡ spec.span kind source packet from to measured }
{
    Fault {
        kind,
        source,
        packet,
        from: Some(from),
        to: Some(to),
        measured: Some(measured),
    }
}

fn excess_fault(e: &BufferExcess) -> Fault
    ensures { result ≡ spec.excess_fault e.now }
{
    let measured = Measured {
        value: e.peak,
        limit: e.size,
    };
    let source = e.buffer.owner(e.number);
    span(
        e.buffer.excess(),
        source,
        e.packet,
        e.begin,
        e.end,
        measured,
    )
}

// Returns the fault of a late unit, by its DTS and the moment of its last byte.
fn late_fault(kind: FaultKind, pid: u16, packet: u64, due: u128, left: u128, by: u128) -> Fault
    ensures { result ≡ spec.late_fault kind pid packet due left by }
{
    let measured = Measured {
        value: by,
        limit: 0,
    };
    span(kind, FaultSource::Stream(pid), packet, due, left, measured)
}

// Returns a fault at a packet, with a value beyond its limit.
fn measured_fault(
    kind: FaultKind,
    source: FaultSource,
    packet: u64,
    at: Option<u128>,
    measured: Measured,
) -> Fault
    ensures { result ≡ spec.measured_fault kind source packet at measured }
{
    Fault {
        kind,
        source,
        packet,
        from: at,
        to: at,
        measured: Some(measured),
    }
}

// Returns a fault of the stream of a PID, at a packet.
fn stream_fault(kind: FaultKind, pid: u16, packet: u64, at: Option<u128>) -> Fault
    ensures { result ≡ spec.point kind (spec.stream pid) packet at }
{
    point(kind, FaultSource::Stream(pid), packet, at)
}

fn clock_fault(kind: FaultKind, e: &ClockFault, at: Option<u128>) -> Fault
    ensures { result ≡ spec.clock_fault kind e.now at }
{
    let measured = Measured {
        value: e.value,
        limit: e.limit,
    };
    measured_fault(kind, FaultSource::Stream(e.pid), e.packet, at, measured)
}

fn table_fault(kind: FaultKind, e: &TableFault, at: Option<u128>) -> Fault
    ensures { result ≡ spec.table_fault kind e.now at }
{
    let measured = Measured {
        value: e.value,
        limit: e.limit,
    };
    let source = FaultSource::Table(e.pid, e.table);
    measured_fault(kind, source, e.packet, at, measured)
}

fn stay_fault(kind: FaultKind, e: &BufferStay) -> Fault
    ensures { result ≡ spec.stay_fault kind e.now }
{
    let measured = Measured {
        value: e.end.saturating_sub(e.begin),
        limit: e.limit,
    };
    let source = e.buffer.owner(e.number);
    span(kind, source, e.packet, e.begin, e.end, measured)
}

#[tactic(auto, unfolding(crate::specs::Faults::kind_of_cause))]
fn kind_of_cause(cause: RefusalCause) -> FaultKind
    ensures { result ≡ spec.kind_of_cause cause }
{
    match cause {
        RefusalCause::SyncByte => FaultKind::SyncByte,
        RefusalCause::Header => FaultKind::Header,
        RefusalCause::TransportError => FaultKind::TransportError,
    }
}

fn jump_fault(e: &StampJump, at: Option<u128>) -> Fault
    ensures { result ≡ spec.jump_fault e.now at }
{
    Fault {
        kind: FaultKind::StampJump,
        source: FaultSource::Whole,
        packet: e.packet,
        from: at,
        to: at,
        measured: Some(Measured {
            value: u128::from(e.value),
            limit: e.limit,
        }),
    }
}

#[tactic(auto, unfolding(crate::specs::Faults::input_fault))]
fn input_fault(event: InputEvent, at: Option<u128>) -> Option<Fault>
    ensures { result ≡ spec.input_fault event at }
{
    match event {
        InputEvent::Slip(e) => Some(point(FaultKind::Slip, FaultSource::Whole, e.packet, at)),
        InputEvent::PacketSize(_) => None,
        InputEvent::Empty => Some(point(FaultKind::Empty, FaultSource::Whole, 0, None)),
        InputEvent::NoStream(_) => Some(point(FaultKind::NoStream, FaultSource::Whole, 0, None)),
        InputEvent::OtherRate(e) => Some(point(
            FaultKind::OtherRate,
            FaultSource::Stream(e.pid),
            0,
            None,
        )),
        InputEvent::Rest(e) => Some(point(FaultKind::Rest, FaultSource::Whole, e.packet, at)),
        InputEvent::NoStamps => Some(point(FaultKind::NoStamps, FaultSource::Whole, 0, None)),
        InputEvent::StampJump(e) => Some(jump_fault(&e, at)),
    }
}

#[tactic(auto, unfolding(crate::specs::Faults::rule_fault))]
fn rule_fault(event: RuleEvent, at: Option<u128>) -> Option<Fault>
    ensures { result ≡ spec.rule_fault event at }
{
    match event {
        RuleEvent::OtherTable(e) => Some(point(
            FaultKind::OtherTable,
            FaultSource::Table(e.pid, e.table),
            e.packet,
            at,
        )),
        RuleEvent::ScrambledTable(e) => Some(point(
            FaultKind::ScrambledTable,
            FaultSource::Stream(e.pid),
            e.packet,
            at,
        )),
        RuleEvent::NoCat(e) => Some(point(
            FaultKind::NoCat,
            FaultSource::Stream(e.pid),
            e.packet,
            at,
        )),
        RuleEvent::NoTable(e) => Some(point(
            FaultKind::NoTable,
            FaultSource::Table(e.pid, e.table),
            0,
            None,
        )),
        RuleEvent::NotEmpty(e) => Some(stay_fault(FaultKind::NotEmpty, &e)),
        RuleEvent::Delayed(e) => Some(stay_fault(FaultKind::Delayed, &e)),
        RuleEvent::VariableRate(_) => None,
        RuleEvent::ClockWindow(_) => None,
        RuleEvent::FaultTrace(_) => None,
    }
}

// Returns the fault of a buffer or of a unit.
#[tactic(auto, unfolding(crate::specs::Faults::buffer_fault))]
fn buffer_fault(event: &Event, at: Option<u128>) -> Option<Fault>
    ensures { result ≡ spec.buffer_fault event.now at }
{
    match event {
        Event::Excess(e) => Some(excess_fault(e)),
        Event::Late(e) => Some(late_fault(FaultKind::Late, e.pid, e.packet, e.due, e.left, e.by)),
        Event::ElementaryLate(e) => Some(late_fault(
            FaultKind::ElementaryLate,
            e.pid,
            e.packet,
            e.due,
            e.left,
            e.by,
        )),
        Event::Ahead(e) => {
            let measured = Measured {
                value: u128::from(e.by),
                limit: e.limit,
            };
            let source = FaultSource::Stream(e.pid);
            Some(measured_fault(FaultKind::Ahead, source, e.packet, at, measured))
        }
        _ => None,
    }
}

/// Returns the fault that an event says there is, if it says so; `at`: the moment of its packet, if it is known.
#[tactic(auto, unfolding(crate::specs::Faults::fault_of))]
pub fn fault_of(event: &Event, at: Option<u128>) -> Option<Fault>
    ensures { result ≡ spec.fault_of event.now at }
{
    match event {
        Event::Input(e) => input_fault(*e, at),
        Event::Rule(e) => rule_fault(*e, at),
        Event::ClockFault(kind, e) => Some(clock_fault(*kind, e, at)),
        Event::TableFault(kind, e) => Some(table_fault(*kind, e, at)),
        Event::Unclocked(e) => Some(point(
            FaultKind::Unclocked,
            FaultSource::Whole,
            e.packet,
            None,
        )),
        Event::Refused(e) => Some(point(kind_of_cause(e.cause), FaultSource::Whole, e.packet, at)),
        Event::Continuity(e) => Some(stream_fault(FaultKind::Continuity, e.pid, e.packet, at)),
        Event::CheckWord(e) => Some(stream_fault(FaultKind::CheckWord, e.pid, e.packet, at)),
        Event::Unreferenced(pid) => Some(stream_fault(FaultKind::Unreferenced, *pid, 0, None)),
        Event::Missing(pid) => Some(stream_fault(FaultKind::Missing, *pid, 0, None)),
        _ => buffer_fault(event, at),
    }
}
