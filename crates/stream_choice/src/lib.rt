//! Chooses what a stream declares besides the counts of its units: the most packets of units in a row, by groups or by
//! pace, and the lead; and the least rate of its multiplex.
//!
//! A stream's share is the number of packets that it asks for in a unit of 90 kHz (`specs/Shares`): the packets of its
//! groups, one after another, and of a few units in a row, which must leave the transport buffer by their decoding
//! times; or the packets of a pace, which must deliver a burst by then. If the stream has a multiplexing buffer, they
//! must leave it too, so its leak rate is the drain. A longer lead asks for a smaller share and for a greater main
//! buffer (`specs/Buffers`). Among the groups and leads that it tries (`specs/Leads`) it chooses the least share that
//! the stream's buffers hold (`specs/Choices`). It finds a pace by halving the range of paces (`specs/Paces`);
//! `PacedUnits` answers how many packets the units have over a pace. It prefers groups to a pace if groups ask for
//! little more. The shares of all streams, PCRs and tables give the least rate of an output that has slots enough for
//! them (`specs/Rates`). It can also check that the main buffer holds the bytes that wait if the access units of a unit
//! leave one by one (`specs/Frames`), and choose a group and a lead with which it does (`specs/FramedChoices`). A law
//! says that own slots of a share, even enough, keep the conditions on packets in the long run and on units in a row
//! (`specs/ShareLaws`).
//!
//! Everything is in plain numbers, and nothing here takes memory.
#![tactic(auto)]

mod buffers;
mod choice;
mod frame_counts;
mod framed_selection;
mod frames;
pub mod laws;
mod leads;
mod needs;
mod pace_selection;
mod ranges;
mod rates;
mod recurring;
mod selection;
mod shares;

pub use choice::{Choice, preferred};
pub use frame_counts::FrameCounts;
pub use framed_selection::choose_framed;
pub use frames::{framed_lead, is_framing, keeps_framing, most_waiting};
pub use needs::Needs;
pub use pace_selection::{PacedUnits, choose_pace};
pub use ranges::are_max_packets;
pub use rates::least_rate;
pub use recurring::Recurring;
pub use selection::choose_groups;
pub use shares::{delay_before, leaking_needs, least_share};
