//! Options of a job, its programs, services and network; refusals and warnings.
//!
//! `JobOptions` has the options (`specs/JobOptions`, `specs/GivenNames`). The programs that they select have clocks
//! (`specs/JobPrograms`, `specs/ProgramClocks`, `specs/ClockBases`), `JobStream` is an elementary stream of a program
//! (`specs/JobStreams`), and `JobInformation` describes the transport stream as a whole (`specs/Information`,
//! `specs/Events`, `specs/GivenLoops`, `specs/OtherStreams`). `JobRefusal` says why there is no job, `Warning` what is not taken
//! unchanged (`specs/Packets`, `specs/LaterPrograms`, `specs/Warnings`). `specs/FoundUnits` says which units of a PID are found, and
//! `specs/JobTables` which sections are carried.
#![tactic(auto)]

// What options ask for.
mod given_names;
pub mod job_options;

// Refusals and warnings.
mod later_programs;
pub mod named_numbers;
mod named_stream;
pub mod option_warnings;
pub mod packets;
mod refusal;
mod warning;
pub mod warnings;

// Programs, their clocks, and their streams.
pub mod clock_base;
pub mod job_programs;
pub mod job_stream;
pub mod program_clock;

// The information of a transport stream as a whole.
mod given_loops;
pub mod information;
pub mod job_events;
pub mod job_network;
pub mod named_service;
mod other_streams;

pub use information::JobInformation;
pub use job_events::JobEvent;
pub use job_network::JobNetwork;
pub use job_options::JobOptions;
pub use job_programs::JobProgram;
pub use job_stream::{JobStream, StreamMoments, TimedStream, WireStream};
pub use named_service::NamedService;
pub use named_stream::{NamedStream, StreamKind};
pub use program_clock::ProgramClock;
pub use refusal::{GreaterBuffers, JobError, JobRefusal, LeftOutCause, NamedNumbers};
pub use warning::{PacketWarning, ProgramWarning, Warning};
