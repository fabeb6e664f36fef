//! The figures of an output.

/// Streams of sound that leave their main buffers in units with several frames.
#[derive(Clone, Copy)]
pub struct UnkeptFrames {
    /// The PID of the first.
    pub pid: u16,
    /// The number of the others.
    pub others: usize,
}

/// The figures of an output.
#[derive(Clone, Copy)]
pub struct Figures {
    /// Its rate, in bits a second.
    pub rate: u64,
    /// The number of its packets.
    pub packets: u64,
    /// Its streams of sound that leave their main buffers in units with several frames.
    pub unkept: Option<UnkeptFrames>,
}

/// What became of streams.
#[derive(Clone, Copy)]
pub enum Remuxed {
    /// All packets of their job are written; the status is the status of the job.
    Whole { figures: Figures, status: u8 },
    /// There is no job, or not all its packets are written.
    Ended { status: u8 },
}
