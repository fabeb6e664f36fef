//! A monitor of transport streams: fifteen rules of the kind of ETSI TR 101 290 over any stream, packet by packet.
//!
//! `report` gives the counts of each PID and the faults of a whole stream; `Monitor` takes a stream as it comes and
//! keeps a state for each PID, and no body of a PES packet.
#![tactic(auto)]

// The report and its faults.
mod fault;
mod report_lines;
mod report_output;
mod reports;

// Tables that must recur within a time.
mod program_maps;
mod recurrence;
mod table_watch;

// State about packets, and about the findings in them.
mod counts;
mod finding_watch;
mod packet_watch;

// The stream.
mod monitor;

// How the definitions hang together.
mod laws;

pub use fault::{Rule, StreamFault};
pub use laws::{gaps_of_each_pid, packet_by_packet, report_without_state};
pub use monitor::{Monitor, report};
pub use report_output::ReportWriteError;
pub use reports::{PidCounts, Report, ReportError};
