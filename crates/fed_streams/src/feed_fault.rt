//! Reports on a stream in place of a unit.

use es_moments::StampFault;

/// Packets of a PID that are lost.
#[derive(Clone, Copy)]
pub struct Loss {
    /// The packet before which they are lost.
    pub packet: u64,
    /// The continuity_counter that was to come.
    pub expected: u8,
    /// The counter that the packet has.
    pub found: u8,
}

/// Why the units of a PID do not go on to the start of the next one.
#[derive(Clone, Copy)]
pub enum CutCause {
    /// A packet whose payload is scrambled.
    Scrambled,
    /// A PES packet or a section that is cut short.
    Truncated,
    /// A section, or bytes in its place that are no section.
    Section,
    /// A PES packet whose header is refused.
    BadPes,
    /// A PES packet without a PTS that continues no unit: the unit has another stream_id, or has ended.
    NoPts,
}

/// The units of a PID are cut: the current unit is left out, and so is everything before the next unit starts.
#[derive(Clone, Copy)]
pub struct CutUnits {
    /// The packet of the first byte of what cuts them.
    pub packet: u64,
    /// What it is.
    pub cause: CutCause,
}

/// A map of a program that is of another version than the one before it.
#[derive(Clone, Copy)]
pub struct NewMap {
    /// program_number.
    pub program: u16,
    /// The packet at which it is whole.
    pub packet: u64,
    /// The version_number before.
    pub before: u8,
    /// The version that the new map has.
    pub version: u8,
}

/// A stream of a description that the first map of its program does not name.
#[derive(Clone, Copy)]
pub struct OtherStream {
    /// program_number.
    pub program: u16,
    /// The packet at which the map is whole.
    pub packet: u64,
    pub pid: u16,
    /// The type that the description says.
    pub stream_type: u8,
}

/// A clock reference that does not go on from the one before it on its program's clock.
#[derive(Clone, Copy)]
pub struct ClockJump {
    /// Its PID.
    pub pid: u16,
    /// The packet that has it.
    pub packet: u64,
    /// What the clock showed before, in units of 90 kHz.
    pub before: u64,
    /// What it shows, in units of 90 kHz.
    pub after: u64,
}

/// Bytes of a stream that are in no packet that can be read.
#[derive(Clone, Copy)]
pub enum PacketFault {
    /// A packet of this index is none: it has no sync byte, or its adaptation field is refused.
    Bad(u64),
    /// A packet of this index has transport_error_indicator.
    Errored(u64),
    /// This number of bytes is left at the end of the stream.
    Rest(usize),
}

/// Bytes that are in no packet: the packets after them are in another step than the packets before.
#[derive(Clone, Copy)]
pub struct SlippedBytes {
    /// The number of packets before them.
    pub packet: usize,
    /// How many they are.
    pub size: usize,
}

/// Stamps that fall without a clock, and go on from there.
#[derive(Clone, Copy)]
pub struct Restart {
    /// The packet where the unit begins that shows it: the units that begin in it or later go on from there.
    pub packet: u64,
    /// Its DTS as its header has it, modulo 2^33.
    pub stamp: u64,
    /// The moment at which this stamp is taken to come: the greatest DTS so far.
    pub moment: u64,
}

/// A report in place of a unit.
#[derive(Clone, Copy)]
pub enum FeedFault {
    /// A unit can't have a moment.
    Stamp(StampFault),
    /// A unit is due this long after the greatest DTS so far, in units of 90 kHz, which is over 10 s.
    Ahead(u64),
    /// Packets of its PID are lost.
    Lost(Loss),
    /// Its units are cut by something else than lost packets.
    Cut(CutUnits),
    /// The payload of this packet, the first of some, is in no PES packet.
    Stray(u64),
    /// A program's map changes.
    Map(NewMap),
    /// The clock jumps.
    Clock(ClockJump),
    /// A packet is not read.
    Packet(PacketFault),
    /// The description is of another stream.
    Other(OtherStream),
    /// Bytes are in no packet.
    Slipped(SlippedBytes),
    /// An encoder restarts, and no clock is known.
    Restarted(Restart),
    /// No stream has a unit that is due within 10 s after this DTS, by the clock.
    Silent(u64),
}
