//! Why there is no job.

ghost use Rattle.std.specs.Prelude.{◌≡◌};
ghost use Rattle.job_programs.specs.declared.refusal.JobError.TheVariants.{Memory, Refused};

use crate::named_stream::StreamKind;
use description_keys::DescFault;
use es_moments::{DtsFault, StampFault};
use std::alloc::{AllocError, AllocFailed};

/// Buffers that `--buffers` can give a stream: the rate out of its transport buffer in bits a second, and its main
/// buffer in bytes.
#[derive(Clone, Copy)]
pub struct GreaterBuffers {
    pub rx: u32,
    pub main: u32,
}

/// Programs that a transport stream names: the numbers of the first four, and how many there are.
#[derive(Clone, Copy)]
pub struct NamedNumbers {
    pub first: Option<u16>,
    pub second: Option<u16>,
    pub third: Option<u16>,
    pub fourth: Option<u16>,
    pub count: usize,
}

/// Why the only picture or the only sound of a program can't be carried, as a refusal of the stream says it.
#[derive(Clone, Copy)]
pub enum LeftOutCause {
    Scrambled,
    StreamId {
        packet: u64,
        id: u8,
    },
    NoStamps,
    OtherStreamId {
        packet: u64,
        id: u8,
        first: u8,
    },
    Stamps {
        packet: u64,
        fault: StampFault,
        mended: bool,
    },
    Dts(DtsFault),
    Units(usize),
    Size(usize),
    Buffers {
        size: u32,
        rx: u32,
        main: u32,
        way_out: Option<GreaterBuffers>,
    },
}

/// Why a transport stream is refused: then nothing is written; or why a stream of it is left out.
#[derive(Clone, Copy)]
pub enum JobRefusal {
    /// More than half of its packets of 188 bytes are no packets.
    NoPackets,
    /// No program association section in force is found.
    NoAssociation,
    /// No selected program has a program map section in force with a stream of PES packets; the transport stream names
    /// these programs.
    NoProgram(NamedNumbers),
    /// No stream can be carried.
    NoStream,
    /// The packets of a PID are scrambled, so that no unit of it can be read.
    Scrambled(u16),
    /// No stream can be carried, since the units of a PID have a stream_id that no unit may have.
    StreamId {
        packet: u64,
        pid: u16,
        id: u8,
    },
    /// A description has at most 64 programs.
    Programs(usize),
    /// A description has at most 254 streams.
    Streams(usize),
    /// The PES packets of a PID have no PTS.
    NoStamps(u16),
    /// The units of a PID have two stream_ids.
    OtherStreamId {
        packet: u64,
        pid: u16,
        id: u8,
        first: u8,
    },
    /// The stamps of a unit, which begins in this packet, can't be moments of a run; `mended` if they can with DTS that
    /// are made from the PTS.
    Stamps {
        packet: u64,
        pid: u16,
        fault: StampFault,
        mended: bool,
    },
    /// No DTS can be made from the PTS of the units of a PID.
    Dts {
        pid: u16,
        fault: DtsFault,
    },
    /// A stream has at most 1,048,576 units.
    Units {
        pid: u16,
        count: usize,
    },
    /// A unit is larger than a PES packet of its stream may be.
    Size {
        pid: u16,
        size: usize,
    },
    /// No lead lets units of up to `size` bytes into these buffers, by groups or by pace; `way_out` has greater buffers
    /// that take them, if the sizes tried do.
    Buffers {
        pid: u16,
        size: u32,
        rx: u32,
        main: u32,
        way_out: Option<GreaterBuffers>,
    },
    /// A program would be written without a picture, or without sound: the stream of this PID is its first picture, or
    /// sound, that can't be carried, and no other of its kind is carried.
    Lacking {
        program: u16,
        pid: u16,
        kind: StreamKind,
        cause: LeftOutCause,
    },
    /// There is no PID left for the clock references or the program map table of a program.
    Pids,
    /// The description that was written is refused.
    Description(DescFault),
    /// No plan is found. The rate, in bits a second, is the rate of the options; or the least at which every item has
    /// slots, if plans fail there and at the next rates tried; or the greatest possible rate, if not even that is
    /// enough.
    Plan(u64),
    /// The description that was written does not declare what the units of this PID need.
    Declaration(u16),
}

/// Why a call fails.
#[derive(Clone, Copy)]
pub enum JobError {
    /// No memory was left.
    Memory,
    /// The stream is refused.
    Refused(JobRefusal),
}

impl From<AllocError> for JobError {
    ghost from_gives = { λ _ e. e ≡ Memory };

    fn from(_error: AllocError) -> JobError {
        JobError::Memory
    }
}

impl<T: Drop> From<AllocFailed<T>> for JobError {
    ghost from_gives = { λ _ e. e ≡ Memory };

    fn from(_error: AllocFailed<T>) -> JobError {
        JobError::Memory
    }
}

impl From<JobRefusal> for JobError {
    ghost from_gives = { λ refusal e. e ≡ Refused refusal };

    fn from(refusal: JobRefusal) -> JobError {
        JobError::Refused(refusal)
    }
}
