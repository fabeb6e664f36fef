//! Faults by checks of ETSI TR 101 290 that no other event has, as plain data.
ghost use Rattle.std.specs.Prelude.{◌≡◌};
ghost use Rattle.events.specs.BufferKinds as spec;

use crate::fault_kind::{FaultKind, FaultSource};

/// A buffer of the decoder model (ISO/IEC 13818-1, 2.4.2.3): TB, MB, EB and B of a stream, and both buffers of a
/// program's tables.
#[derive(Clone, Copy)]
pub enum BufferKind {
    Transport,
    Multiplexing,
    Elementary,
    Main,
    TableTransport,
    System,
}

/// Bytes stay in a buffer for longer than they may: from when to when, and for how long they may, in ticks.
#[derive(Clone, Copy)]
pub struct BufferStay {
    /// The PID of the stream, or the number of the program whose tables they are.
    pub number: u16,
    pub buffer: BufferKind,
    pub packet: u64,
    pub begin: u128,
    pub end: u128,
    pub limit: u64,
}

/// A section of a table that does not belong on its PID.
#[derive(Clone, Copy)]
pub struct OtherTable {
    pub pid: u16,
    /// Its table_id.
    pub table: u8,
    pub packet: u64,
}

/// A PAT that is never whole, or a PMT that is never whole of a program that the PAT names.
#[derive(Clone, Copy)]
pub struct AbsentTable {
    pub pid: u16,
    /// Its table_id.
    pub table: u8,
}

/// A packet whose transport_scrambling_control is not 00.
#[derive(Clone, Copy)]
pub struct ScrambledPacket {
    pub pid: u16,
    pub packet: u64,
}

/// The clock references of a stream give no constant rate: where that is decided.
#[derive(Clone, Copy)]
pub struct VariableRate {
    pub packet: u64,
    /// Two rates in a row that the references give, and how many of them are apart.
    pub pairs: u64,
    pub apart: u64,
}

/// The clock references of a PID in a window: their number, the greatest time from one to the next in ticks, the
/// greatest inaccuracy in nanoseconds, and by how many ticks the program clock is ahead of the arrival, or behind it,
/// at the last of them; 0 if no reference has one.
#[derive(Clone, Copy)]
pub struct ClockFigures {
    /// The number of the window.
    pub number: u64,
    pub pid: u16,
    pub references: u64,
    pub interval: u128,
    pub inaccuracy: u128,
    pub ahead: u128,
    pub behind: u128,
}

/// What a packet of a stream, or a part of it, found in a buffer, near the greatest excess of that buffer.
#[derive(Clone, Copy)]
pub struct TracePoint {
    pub pid: u16,
    pub buffer: BufferKind,
    pub packet: u64,
    /// When the last of its bytes leaves the transport buffer, in ticks.
    pub left: u128,
    /// The least that any of its bytes found in the main buffer; `None` for the transport buffer.
    pub least: Option<u64>,
    /// The most bytes in the buffer when any of its bytes entered, that byte included.
    pub most: u128,
    /// The size of the buffer in bytes, and the most bytes that it held.
    pub size: u64,
    pub peak: u128,
    /// Whether a unit begins with it that is not the first.
    pub begins: bool,
}

/// A fault by a check of ETSI TR 101 290, a check that can't be made, the clock references of a window, or what a
/// buffer held near its greatest excess, by the word of its line.
#[derive(Clone, Copy)]
pub enum RuleEvent {
    OtherTable(OtherTable),
    /// A packet of a PAT or of a PMT is scrambled (1.3.a, 1.5.a).
    ScrambledTable(ScrambledPacket),
    /// A stream has scrambled packets and no CAT (2.6).
    NoCat(ScrambledPacket),
    /// A stream has no whole PAT (1.3.a), or no whole PMT of a program that its PAT names (1.5.a).
    NoTable(AbsentTable),
    /// A transport buffer or a multiplexing buffer is not empty for too long (3.9).
    NotEmpty(BufferStay),
    /// Bytes stay in the buffers of a stream for too long (3.10).
    Delayed(BufferStay),
    /// The accuracy of clock references (2.4) says nothing.
    VariableRate(VariableRate),
    /// The clock references of a PID in a window.
    ClockWindow(ClockFigures),
    /// What a buffer held near its greatest excess.
    FaultTrace(TracePoint),
}

impl BufferKind {
    /// Returns the word of a buffer.
    #[tactic(auto, unfolding(crate::specs::BufferKinds::word_of))]
    pub fn word(self) -> &'static str
        ensures { result.now ≡ spec.word_of self }
    {
        match self {
            BufferKind::Transport => "transport",
            BufferKind::Multiplexing => "multiplexing",
            BufferKind::Elementary => "elementary",
            BufferKind::Main => "main",
            BufferKind::TableTransport => "table_transport",
            BufferKind::System => "system",
        }
    }

    /// Returns the word of the number of its owner: the PID of a stream, or the number of a program.
    #[tactic(auto, unfolding(crate::specs::BufferKinds::owner_word))]
    pub fn owner_word(self) -> &'static str
        ensures { result.now ≡ spec.owner_word self }
    {
        match self {
            BufferKind::TableTransport | BufferKind::System => "program",
            _ => "pid",
        }
    }

    /// Returns the owner of a buffer: the stream of a PID, or the tables of a program.
    #[tactic(auto, unfolding(crate::specs::BufferKinds::owner_of))]
    pub fn owner(self, number: u16) -> FaultSource
        ensures { result ≡ spec.owner_of self number }
    {
        match self {
            BufferKind::TableTransport | BufferKind::System => FaultSource::Program(number),
            _ => FaultSource::Stream(number),
        }
    }

    /// Returns the kind of the excesses of a buffer.
    #[tactic(auto, unfolding(crate::specs::BufferKinds::excess_kind))]
    pub fn excess(self) -> FaultKind
        ensures { result ≡ spec.excess_kind self }
    {
        match self {
            BufferKind::Transport => FaultKind::Excess,
            BufferKind::Multiplexing => FaultKind::MultiplexingExcess,
            BufferKind::Elementary => FaultKind::ElementaryExcess,
            BufferKind::Main => FaultKind::MainExcess,
            BufferKind::TableTransport => FaultKind::SystemExcess,
            BufferKind::System => FaultKind::SystemMainExcess,
        }
    }
}
