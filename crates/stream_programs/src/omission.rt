//! Omissions from the tables of a stream.

ghost use Rattle.std.specs.Prelude.{◌≡◌};
ghost use Rattle.stream_programs.specs.Omissions.{is_loss};

/// A part of a stream's tables that is left out.
#[derive(Clone, Copy)]
pub enum TableOmission {
    /// The program has no program map table.
    NoMap {
        program: u16,
    },
    /// The program has CA descriptors: they are left out.
    ConditionalAccess {
        program: u16,
    },
    /// The program has descriptors that speak of the multiplex it comes from: they are left out.
    Multiplex {
        program: u16,
    },
    /// The stream of this PID has sections, and no PES packets.
    NoPes {
        program: u16,
        pid: u16,
        stream_type: u8,
    },
    /// No elementary stream may have the PID.
    Reserved {
        program: u16,
        pid: u16,
    },
    /// A stream of the program `holder` (perhaps the same program) already has the PID, and can't be shared.
    Taken {
        program: u16,
        pid: u16,
        holder: u16,
    },
    /// The program `holder` shares the stream of this PID, but this program's map gives it another stream_type or other
    /// descriptors.
    SharedOtherwise {
        program: u16,
        pid: u16,
        holder: u16,
    },
    /// The program has no stream that is kept.
    NoStream {
        program: u16,
    },
}

impl TableOmission {
    /// Returns whether a receiver loses something by it: a stream of the input. A program without a map or without
    /// streams has no stream, clear streams need no conditional access, and rates and buffers of the input's multiplex
    /// are not true of another.
    pub fn is_loss(self) -> bool
        ensures { result ≡ is_loss self }
    {
        match self {
            TableOmission::NoPes { .. } => true,
            TableOmission::Reserved { .. } => true,
            TableOmission::Taken { .. } => true,
            TableOmission::SharedOtherwise { .. } => true,
            _ => false,
        }
    }
}
