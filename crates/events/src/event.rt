//! Events of a transport stream, as plain data.
//!
//! Times are in ticks of 27 MHz, moments from the stream's first byte on; numbers of packets and of windows begin with
//! 0; sizes and fullness are in bytes, rates in bits a second.
use crate::check_counts::CheckTotals;
use crate::fault_kind::FaultKind;
use crate::input_event::InputEvent;
use crate::mark_event::MarkTotals;
use crate::packet_fault::{CheckWordFault, CounterFault, RefusedPacket};
use crate::pid_name::PidName;
use crate::rule_event::{BufferKind, RuleEvent};
use crate::summary::SummaryEvent;
use crate::video_event::ElementaryLate;
use std::marker::Model;

/// The buffers of a stream that the tables name begin with a packet.
#[derive(Clone, Copy)]
pub struct StreamBegin {
    pub pid: u16,
    pub program: u16,
    /// The stream_type of its entry in the map.
    pub stream_type: u8,
    pub coding: PidName,
    /// The rate at which its transport buffer is drained.
    pub rx: u32,
    /// The size of its main buffer.
    pub main: u32,
    pub packet: u64,
}

/// What came of a PID in a window.
#[derive(Drop)]
pub struct WindowFigures {
    /// The number of the window.
    pub number: u64,
    pub pid: u16,
    pub packets: u64,
    /// Packets with a clock reference.
    pub pcrs: u64,
    pub rate: u128,
    /// The program of the PID, the coding of what it carries, and the name of the program's service, as far as they are
    /// known.
    pub program: Option<u16>,
    pub coding: PidName,
    pub service: Option<String>,
}

impl Model for WindowFigures {
    ghost use Rattle.std.specs.Prelude.{option_map, string_bytes};
    ghost use Rattle.events.specs.Windows.{WindowView};

    ghost Value = { WindowView };

    ghost view = { λ w. record {
      number = w.number;
      pid = w.pid;
      packets = w.packets;
      pcrs = w.pcrs;
      rate = w.rate;
      program = w.program;
      coding = w.coding;
      service = option_map string_bytes w.service;
    } };
}

/// What the buffers of a stream held in a window.
#[derive(Clone, Copy)]
pub struct HeldFigures {
    /// The number of the window.
    pub number: u64,
    pub pid: u16,
    /// The most bytes that were in the transport buffer, and in the main buffer; and the least that a byte found in
    /// that.
    pub transport: u128,
    pub main: u64,
    pub main_least: u64,
}

/// The units of a stream that ended in a window.
#[derive(Clone, Copy)]
pub struct UnitFigures {
    /// The number of the window.
    pub number: u64,
    pub pid: u16,
    pub units: u64,
    pub late: u64,
    /// The least time of one from its last byte to its DTS.
    pub slack: u128,
}

/// A buffer held more than its size.
#[derive(Clone, Copy)]
pub struct BufferExcess {
    /// The PID of the stream, or the number of the program whose tables the buffer holds.
    pub number: u16,
    pub buffer: BufferKind,
    pub packet: u64,
    pub begin: u128,
    pub end: u128,
    pub peak: u128,
    pub size: u64,
}

/// A unit is not whole in the main buffer when it is decoded.
#[derive(Clone, Copy)]
pub struct LateUnit {
    pub pid: u16,
    pub packet: u64,
    /// Its DTS.
    pub due: u128,
    /// When its last byte leaves the transport buffer, and how much later that is.
    pub left: u128,
    pub by: u128,
    pub bytes: u64,
}

/// A unit is due too long after the clock.
#[derive(Clone, Copy)]
pub struct FarAhead {
    pub pid: u16,
    pub packet: u64,
    pub by: u64,
    pub limit: u64,
}

/// A clock reference in error, or a PTS or a packet that comes too long after the one before it of its PID: times in
/// ticks, an inaccuracy in nanoseconds.
#[derive(Clone, Copy)]
pub struct ClockFault {
    pub pid: u16,
    pub packet: u64,
    pub value: u128,
    pub limit: u64,
}

/// A section that begins too late or too soon after the one before it.
#[derive(Clone, Copy)]
pub struct TableFault {
    pub pid: u16,
    /// Its table_id.
    pub table: u8,
    pub packet: u64,
    pub value: u128,
    pub limit: u64,
}

/// Packets that have no moment: the first of them, and their number.
#[derive(Clone, Copy)]
pub struct UnclockedPackets {
    pub packet: u64,
    pub packets: u64,
}

/// What a buffer of a stream held over all moments.
#[derive(Clone, Copy)]
pub struct BufferTotals {
    pub pid: u16,
    pub buffer: BufferKind,
    pub most: u128,
    pub size: u64,
    pub excesses: u128,
    /// The units of the stream, and how many of them are late, for a buffer from which units are decoded.
    pub units: Option<u64>,
    pub late: Option<u64>,
    /// PES packets whose header is wrong, or not whole in its first packet, for a main buffer.
    pub unread: Option<u64>,
}

/// What the transport buffer and the system buffer of a program's tables held over all moments.
#[derive(Clone, Copy)]
pub struct SystemTotals {
    pub program: u16,
    pub transport: u128,
    pub transport_size: u64,
    pub transport_excesses: u128,
    pub main: u128,
    pub main_size: u64,
    pub main_excesses: u128,
}

/// What the clock references of a PID came to.
#[derive(Clone, Copy)]
pub struct ClockTotals {
    pub pid: u16,
    pub references: u64,
    /// References that restart the clock by their discontinuity_indicator.
    pub announced: u64,
    pub rate: u128,
    /// The greatest time between two.
    pub interval: u128,
    /// The greatest inaccuracy in nanoseconds.
    pub inaccuracy: u128,
}

/// What the sections of a table came to.
#[derive(Clone, Copy)]
pub struct TableTotals {
    pub pid: u16,
    /// Its table_id.
    pub table: u8,
    pub sections: u64,
    /// The greatest time from one section to the next, and the packet of the second of these.
    pub interval: u128,
    pub packet: u64,
    /// The limit of that time, 0 of a table that has none.
    pub limit: u64,
}

/// All packets of a PID.
#[derive(Clone, Copy)]
pub struct PidTotals {
    /// The PID.
    pub number: u16,
    pub packets: u64,
    /// Packets with a clock reference.
    pub pcrs: u64,
}

/// The end of a stream: all its packets, the refused packets, the bytes left after the last whole packet, and how long
/// the stream takes to arrive, in ticks, if packets have moments.
#[derive(Clone, Copy)]
pub struct ReportEnd {
    pub packets: u64,
    pub refused: u64,
    pub left: u64,
    pub length: Option<u128>,
}

/// An event of a stream, by the word of its line.
#[derive(Drop)]
pub enum Event {
    Input(InputEvent),
    Stream(StreamBegin),
    Window(WindowFigures),
    Held(HeldFigures),
    Units(UnitFigures),
    Excess(BufferExcess),
    Late(LateUnit),
    ElementaryLate(ElementaryLate),
    Ahead(FarAhead),
    /// A fault of a clock reference (2.3, 2.4), of a PTS (2.5), or of a PID whose packets stop (1.6), by its kind.
    ClockFault(FaultKind, ClockFault),
    /// A section that begins too late or too soon (1.3 to 3.8), by its kind.
    TableFault(FaultKind, TableFault),
    Unclocked(UnclockedPackets),
    Refused(RefusedPacket),
    Continuity(CounterFault),
    CheckWord(CheckWordFault),
    Buffer(BufferTotals),
    Marks(MarkTotals),
    System(SystemTotals),
    Clock(ClockTotals),
    Table(TableTotals),
    Pid(PidTotals),
    /// A PID with packets that no table names.
    Unreferenced(u16),
    /// A PID that a table names, and that has no packet.
    Missing(u16),
    Check(CheckTotals),
    End(ReportEnd),
    Rule(RuleEvent),
    Summary(SummaryEvent),
}
