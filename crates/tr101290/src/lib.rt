//! What an analyst asks of clock references, tables and PIDs (ETSI TR 101 290, 5.2), in constant memory.
//!
//! Clock references (2.3a, 2.3b and 2.4; ISO/IEC 13818-1, 2.4.3.5 and 2.7.2), reference by reference:
//!
//! - [`pcr_sample`]: the reference of a packet.
//! - [`PcrWatches`]: takes the packets of a stream, and gives a report on each reference: one [`PcrWatch`] a PID is
//!   kept.
//! - [`PcrReport`]: where the clock continues or restarts, the rate that two references give, the time between them,
//!   how far a reference is from its exact value; and the errors among them. [`PcrCounts`]: reports counted, with their
//!   greatest values.
//! - [`RateJudge`]: whether the references say that the rate is constant; without it their accuracy says nothing.
//! - [`pcr_laws`]: there is an error exactly where the exact value is beyond its limit.
//!
//! Tables (also ETSI TR 101 211, 4.4): the greatest time from one section of a table_id on a PID to the next, and which
//! of these times are too long:
//!
//! - [`TableIntervals`]: takes where sections begin ([`section_begin`]); keeps an entry for each PID and table_id, and
//!   for each part of a table whose parts have to recur by themselves ([`has_parts`]), whatever the length of the
//!   stream.
//! - [`limit_of`]: the time within which a table has to recur.
//! - [`push_stopped`]: the tables that have not come for longer than that at the end of a stream.
//! - [`SectionDistances`]: takes whole sections ([`whole_section`]), and finds sections that begin within 25 ms after
//!   the section before.
//! - [`belongs`]: which tables may be on a PID.
//! - [`interval_laws`]: an entry describes all sections of its PID and table_id.
//!
//! PIDs that the tables of a stream name, beside the PIDs that have packets:
//!
//! - [`referenced_pids`]: the PIDs that the first program association and program map tables name.
//! - [`unreferenced_pids`]: PIDs with packets that no table names (3.4, Unreferenced_PID).
//! - [`missing_pids`]: PIDs that are named and have no packet (1.6, PID_error).
//! - [`reference_laws`]: which PIDs are in these lists. The PIDs 0 to 31 carry the tables themselves (ISO/IEC 13818-1,
//!   table 2-3; ETSI EN 300 468, table 1), and 8,191 null packets: no table has to name them. PIDs that CA descriptors
//!   or the CAT alone name are not counted as named.
//!
//! The packets of each PID by window of time; which packets lie in one window, the caller says, by a number that does
//! not fall:
//!
//! - [`PidWindow`]: the window of the last packet, with its packets of each PID, and how many of them have a program
//!   clock reference.
//! - [`window_laws`]: these are all packets of the window.
//!
//! Presentation time stamps (2.5): [`PtsWatch`] finds a PTS more than 700 ms after the PTS before.
//!
//! Times are ticks of 27 MHz, of tables also packets (a packet lasts 40,608,000,000 / R ticks at R bits a second),
//! inaccuracies nanoseconds. They are rounded up, so that a value is beyond a whole limit exactly where the exact
//! value is; a rate is rounded down.
#![tactic(auto)]

mod continuity;
mod counts;
mod distances;
mod homes;
pub mod interval_laws;
mod intervals;
mod limits;
mod measures;
mod packets;
mod parts;
pub mod pcr_laws;
mod pid_windows;
mod rate_judge;
pub mod reference_laws;
mod references;
mod report;
mod sample;
mod sections;
mod stamps;
mod stopped_tables;
mod watch;
mod watches;
pub mod window_laws;

pub use continuity::{ContinuityError, ContinuityWatch};
pub use counts::PcrCounts;
pub use distances::{LEAST_DISTANCE, SectionDistances, WholeSection, time_within};
pub use homes::belongs;
pub use intervals::{
    SectionBegin, SectionPlaces, TableEntries, TableError, TableIntervals, TableTiming, key_of,
    pid_of, table_id_of, time_between,
};
pub use limits::limit_of;
pub use packets::{missing_pids, unreferenced_pids};
pub use parts::has_parts;
pub use pid_windows::{PidCounts, PidEntries, PidWindow};
pub use rate_judge::{PAIRS, PidError, RateJudge};
pub use references::referenced_pids;
pub use report::{GREATEST_INACCURACY, GREATEST_INTERVAL, Inaccuracy, PcrError, PcrReport};
pub use sample::pcr_sample;
pub use sections::{section_begin, whole_section};
pub use stamps::{GREATEST_PTS_INTERVAL, PtsError, PtsWatch};
pub use stopped_tables::push_stopped;
pub use watch::{PcrTiming, PcrWatch};
pub use watches::{PcrEntries, PcrWatches};
