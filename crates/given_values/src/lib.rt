//! Types of the values that the options of a job have: names, clocks, and by what packets are declared.
//!
//! `ServiceName` and `NetworkName` are names in place of a stream's own names (`specs/GivenNames`), `ClockBase` is what
//! the system clock shows as a run begins, `ClockSharing` which programs share a clock, `DeclareBy` by what the packets
//! of units are declared.
#![tactic(auto)]

mod clock_base;
mod clock_sharing;
mod declare_by;
mod given_names;

pub use clock_base::ClockBase;
pub use clock_sharing::ClockSharing;
pub use declare_by::DeclareBy;
pub use given_names::{NetworkName, ServiceName};
