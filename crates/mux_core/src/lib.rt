//! The multiplexer: units of each stream in, the packets of a checked plan out, and what the finished bytes keep.
//!
//! `specs/Histories` says what each slot carries, from the units that were accepted and the schedule alone,
//! `specs/TextChanges` how the texts of the tables change in between and `specs/TextLaws` what that leaves as it is,
//! `specs/LineUps` how another description and its plan take the place of those on air,
//! `specs/MuxStates` which history a multiplexer represents, `specs/Headline` the promises about the finished bytes,
//! `specs/MeasuredRuns` what measuring them finds, `specs/DecodedRuns` what a decoder gets of them, in the words of
//! `specs/Decoder`, and `specs/SlotSteps` one slot and one unit of the state. `specs/WholeJobs` says what a whole job
//! answers and writes, where all units are fed first, and `specs/Events` what units and slots in any order leave.
//!
//! `carry` makes the packets of one PID of records of one stream, back to back, without a plan: `specs/Refusals` says
//! which unit it refuses, `specs/PidPackets` which packets a unit has, `specs/RecordRuns` what an input of records becomes.
//!
//! Packets go to a writer in large parts (`PacketOutput`), as their bytes or as lines of hexadecimal digits:
//! `specs/Formats` says how a packet leaves, and `specs/Buffer` how much of an output the writer has and how much
//! waits, or what it took before it failed.
//!
//! The modules in reading order: the plans that fill slots, where a run ends, the room for units, how a multiplexer
//! is made, its calls, the packet of a slot of each kind, a whole job, events in any order; the laws. Records of units
//! are a crate of their own, whose call is exported here too.
#![tactic(auto)]

pub mod carry_laws;
mod carrying;
mod checked_schedule;
mod coming;
mod described_sections;
mod done;
mod driving;
mod exchanges;
pub mod laws;
mod line_up;
mod line_up_parts;
mod making;
mod multiplexer;
mod multiplexing;
mod output;
mod pid_packets;
mod refusals;
mod room;
mod slot_packets;
mod texts_in_force;

pub use carrying::{CarryError, carry};
pub use changed_texts::TextFault;
pub use done::{Done, NewError};
pub use line_up::TakeOverError;
pub use multiplexer::Mux;
pub use multiplexing::{MuxError, multiplex, multiplex_as, multiplex_switch, multiplex_switch_as};
pub use output::{OutputFault, PacketOutput};
pub use pes_packet::{Marks, PesFlags, Unit};
pub use room::Room;
pub use unit_queue::FeedError;
pub use unit_records::{UnitFileError, read_unit};
