//! The units of one stream on their way into transport packets (ISO/IEC 13818-1, 2.4.3.3 and 2.4.3.6).
//!
//! A stream has slots of its own, which the caller names one by one. A unit waits in a queue until the slot of its
//! release, DTS less lead, and then takes own slots one after another: its PES packet, 184 bytes a slot. A queue takes
//! its memory once; feeding a unit and sending a packet take none.
//!
//! Definitions are in `specs/`: `OwnedStreams` is a stream with its own slots, `Places` says which own slot carries
//! which piece of a unit, `Causes` why a unit is refused, `Queues` what the state of a queue represents, `Tallies`
//! what it counts of the accepted units, `Payloads` what the finished bytes then hold. Only `QueueSteps` speaks of the
//! queue's fields. The modules in reading order: a stream's declaration, why a unit is refused, the pieces of a PES
//! packet, a waiting unit, the counts of accepted units, the queue, the laws.
#![tactic(auto)]

mod causes;
pub mod laws;
mod parameters;
mod pieces;
mod queue;
mod queued;
mod refusal;
mod tally;

pub use causes::{own_cause, time_cause};
pub use parameters::StreamParameters;
pub use pieces::write_piece;
pub use queue::UnitQueue;
pub use refusal::FeedError;
