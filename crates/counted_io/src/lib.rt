//! Readers and writers whose failed calls are counted.
//!
//! `Source` is a reader and `Sink` a writer that counts the calls that failed; `Counted` puts such a count beside any
//! reader or writer, and `Failing` fails after a number of calls or bytes, for tests. `read_part` fills a
//! part and `write_part` writes one whole; the first call that fails ends either. No call takes memory.
//!
//! Definitions are in `specs/`: `Device` says what a caller knows of a reader or writer before a call and after it,
//! `Counters` and `Limits` what the two types show of themselves.
#![tactic(auto)]

mod counting;
mod failing;
mod fault;
mod reading;
mod writing;

pub use counting::Counted;
pub use failing::Failing;
pub use fault::DeviceFault;
pub use reading::{Source, read_part};
pub use writing::{Sink, write_part};
