//! Events of the input, as plain data: which packets it holds, and whether it is a transport stream.

use packet_sync::FileForm;

/// Bytes that are in no packet: the packets after them are in another step than the packets before.
#[derive(Clone, Copy)]
pub struct SlippedBytes {
    /// The number of packets before them.
    pub packet: u64,
    /// Where they begin: the bytes of the input before them.
    pub place: u64,
    /// How many they are.
    pub bytes: u64,
}

/// Bytes after the last whole packet.
#[derive(Clone, Copy)]
pub struct RestBytes {
    /// The number of packets before them.
    pub packet: u64,
    /// How many they are.
    pub bytes: u64,
}

/// The rate that is given, and the different rate by the clock references of a PID, in bits a second.
#[derive(Clone, Copy)]
pub struct OtherRate {
    pub pid: u16,
    pub given: u64,
    pub references: u128,
}

/// An arrival time stamp that does not continue the stamps before it.
#[derive(Clone, Copy)]
pub struct StampJump {
    /// The number of packets before its packet.
    pub packet: u64,
    /// The ticks from the stamp before, and the most that there may be.
    pub value: u64,
    pub limit: u64,
}

/// An event of the input, by the word of its line.
#[derive(Clone, Copy)]
pub enum InputEvent {
    Slip(SlippedBytes),
    /// The bytes from one packet to the next, where they are not 188.
    PacketSize(u64),
    /// The input has no byte.
    Empty,
    /// The input is no transport stream.
    NoStream(FileForm),
    OtherRate(OtherRate),
    Rest(RestBytes),
    /// Arrival time stamps are asked for, and the packets have none.
    NoStamps,
    StampJump(StampJump),
}
