//! Warnings about a stream that gives a job.

ghost use Rattle.std.specs.Prelude.{◌≡◌};
ghost use Rattle.job_programs.specs.Warnings as spec;

use crate::named_stream::NamedStream;
use crate::refusal::{JobRefusal, NamedNumbers};
use es_units::UnitWarning;
use program_tables::MapPart;
use service_information::InformationWarning;
use stream_programs::TableOmission;

/// A warning about a packet, or about the section that ends in it.
#[derive(Clone, Copy)]
pub enum PacketWarning {
    /// 188 bytes that are no packet.
    Bad,
    /// It has transport_error_indicator.
    Errored,
    /// A PAT section that differs from the first PAT; the first PAT is used.
    AssociationChanges,
    /// A PAT section that names a program, or a PID of its PMTs, that the first PAT does not name: these PMTs are not
    /// read.
    ProgramLoss,
    /// A NIT section (actual network) that is not carried unchanged: not in force, not readable, of another network, or
    /// with other descriptors or more transport streams than `[network]` has.
    NetworkSurplus,
}

/// A warning about a program.
#[derive(Clone, Copy)]
pub enum ProgramWarning {
    /// The options select the program, but the transport stream has only these programs.
    Missing(NamedNumbers),
    /// No stream of it has a unit.
    NoStream,
}

/// A warning: a part of a stream that is not taken unchanged.
#[derive(Clone, Copy)]
pub enum Warning {
    /// About a packet.
    Packet {
        packet: u64,
        what: PacketWarning,
    },
    /// This number of bytes follows the last whole packet.
    TrailingBytes {
        size: usize,
    },
    /// An earlier PMT section, ending in this packet, differs in `part` from the last PMT, which is used.
    Map {
        program: u16,
        packet: u64,
        part: MapPart,
    },
    /// Something is left out of the tables.
    Table(TableOmission),
    /// This number of PES packets on a PID that no program lists.
    StrayPes {
        pid: u16,
        count: usize,
    },
    /// About a program.
    Program {
        program: u16,
        what: ProgramWarning,
    },
    /// An option names a PID that no stream has.
    NoSuchStream {
        pid: u16,
    },
    /// A warning about the units of a PID.
    Units {
        pid: u16,
        warning: UnitWarning,
    },
    /// The stream of this PID has no unit.
    NoUnit {
        program: u16,
        pid: u16,
    },
    /// The units of a stream have a stream_id that cannot be written; the first unit begins in this packet.
    StreamId {
        stream: NamedStream,
        packet: u64,
        id: u8,
    },
    /// Service information is not taken unchanged.
    Information(InformationWarning),
    /// The program map table of this program is on another PID.
    MapMoved {
        program: u16,
        from: u16,
        to: u16,
    },
    /// A stream's own headers give a buffer size that does not hold this unit; another size is declared.
    HeaderBuffer {
        pid: u16,
        said: u32,
        unit: usize,
        counted: u32,
    },
    /// The packets of a stream ask for this rate, and with the leak of its multiplexing buffer nothing serves it: the
    /// buffer is not declared. Both are in bits/s.
    Leak {
        pid: u16,
        rate: u64,
        leak: u32,
    },
    /// A stream is left out: with it there would be no job, for this reason.
    LeftOut {
        stream: NamedStream,
        why: JobRefusal,
    },
    /// The units of a stream have up to this number of frames of sound, which its main buffer of this size is not known
    /// to hold if they leave it one by one, as up to so many bytes then wait: a unit leaves it whole.
    Frames {
        pid: u16,
        frames: u8,
        main: u32,
        bytes: u64,
    },
    /// Frames of sound begin in one unit of a stream and end in the next: a unit leaves its main buffer of this size
    /// whole.
    CrossingFrames {
        pid: u16,
        main: u32,
    },
    /// The DTS of a stream do not rise: they are made from its PTS.
    MadeDts {
        pid: u16,
    },
}

impl PacketWarning {
    // Returns whether the warning reports a loss.
    fn is_damage(self) -> bool
        ensures { result ≡ spec.is_packet_damage self }
    {
        match self {
            PacketWarning::Bad
            | PacketWarning::Errored
            | PacketWarning::ProgramLoss
            | PacketWarning::NetworkSurplus => true,
            PacketWarning::AssociationChanges => false,
        }
    }
}

impl ProgramWarning {
    // Returns whether the warning reports a loss.
    fn is_damage(self) -> bool
        ensures { result ≡ spec.is_program_damage self }
    {
        match self {
            ProgramWarning::Missing(_) => true,
            ProgramWarning::NoStream => false,
        }
    }
}

impl Warning {
    /// Returns whether it reports a loss: the stream is damaged, a part of it or of the selection is left out, or a
    /// receiver's buffer may be over its size.
    #[tactic(auto, unfolding(crate::specs::Warnings::is_damage))]
    pub fn is_damage(self) -> bool
        ensures { result ≡ spec.is_damage self }
    {
        match self {
            Warning::Packet { what, .. } => what.is_damage(),
            Warning::TrailingBytes { .. } => true,
            Warning::Map { .. } => true,
            Warning::Table(omission) => omission.is_loss(),
            Warning::StrayPes { .. } => true,
            Warning::Program { what, .. } => what.is_damage(),
            Warning::NoSuchStream { .. } => true,
            Warning::Units { warning, .. } => warning.cause.is_damage(),
            Warning::NoUnit { .. } => false,
            Warning::StreamId { .. } => true,
            Warning::Information(_) => true,
            Warning::MapMoved { .. } => false,
            Warning::HeaderBuffer { .. } => false,
            Warning::Leak { .. } => false,
            Warning::LeftOut { .. } => true,
            Warning::Frames { .. } => true,
            Warning::CrossingFrames { .. } => true,
            Warning::MadeDts { .. } => false,
        }
    }
}
