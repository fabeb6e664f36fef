//! What the reports of `tsview` and `tsmux monitor` on a stream say is so of all its packets: laws, no code.
//!
//! Each function here does nothing: its contract is the law, over the definitions of `ts_report`, `tstd` and
//! `mux_core`. Definitions in `specs/`:
//! - `StreamPackets`: which packets are a stream's, and how its buffers see them; `StreamUnits`: which units they
//!   carry.
//! - `WholeStreams`: what a stream's last lines say of all its packets at a constant rate; `TimedStreams`: whichever
//!   way they arrive.
//! - `WindowLows`, `HeldWindows`: the least that a window's line says of a main buffer; `ClockedWindows`: the same by
//!   clock references.
//! - `WindowHighs`, `TransportHighs`: the greatest of the main and transport buffer; `FirstHighs`: both in the window
//!   where they begin.
//! - `MainExcesses`: when a main buffer has no excess; `MeasuredStreams`: what measuring the same bytes finds.
//! - `MuxedStreams`, `ViewedRuns`: a multiplexer's output, with no late unit and no main buffer too full, and when its
//!   tables come first.
//! - `ViewedReferences`: a multiplexer's output, with no clock reference late or inaccurate.
//! - `VideoExcesses`: a multiplexer's output, with neither buffer of video too full.
//! - `FrameExcesses`: a multiplexer's output, with no main buffer of sound too full that is viewed by access units.
//! - `ViewedCounters`, `ViewedSections`, `ViewedTables`: a view's events of counters, check words and late tables;
//!   `ViewedVerdicts`, `LeftFaults`: what decides its verdict.
//! - `MuxedTables`, `HomeTables`: a multiplexer's tables, never late, and on their PIDs.
//! - `CarriedStreams`: which packets carry units, and their clock references; `AsMeasured`: when the figures equal the
//!   measured numbers.
//! - `WorkedView`: two small streams, viewed.
//!
//! - [`laws`]: the last lines of a stream are about all packets of its PID and say no more than the measured numbers,
//!   and the same numbers if units are carried so; a multiplexer's output has no excess of a transport buffer, no late
//!   unit, and no excess of a main buffer; nor a break of a counter, a wrong check word, a late table that is not
//!   ready-made, or an error of a clock reference.
//!
//! Which rows are kept around a greatest excess (`KeptRows`: the ring, and the rows kept of a buffer after any rows),
//! and when the bytes of a stream arrive (ISO/IEC 13818-1, 2.4.2.2): `Times` has the arrival time of each byte,
//! whatever each packet's timing source, and `TimedPackets` how each packet arrives by clock references, once it no
//! longer waits for its line; `Leads` is about packets within which another line begins, `Between` about the bytes
//! between two references.
//!
//! - [`trace_laws`]: a ring holds the last 64 rows in order; the rows kept of a buffer are the last 64 up to 32 rows
//!   after its first greatest excess.
//! - [`arrival_laws`]: by clock references no byte arrives before an earlier one, also from one line to the next and
//!   where the clock restarts; the bytes between two references lie on the line through both, if the clock continues.
//!
//! Rules of `tsmux monitor` and `tsview`, with one meaning (ETSI TR 101 290): `FaultsByRule` takes the faults of a rule
//! from the report of the monitor. `PacketFaults`, `CounterFaults`, `TableFaults` and `References` say which packets it
//! reports by each rule. `SharedRules` says that the events of `tsview` name the same; `Continuity` and `Tables`, that
//! they are the errors that `tr101290` finds. `Limits` is the table of the limits of both.
//!
//! - [`monitor_laws`]: the packets of each rule, errors that both find, and the limits.
//! - [`histories`]: sections that come too soon, and time stamps that come too late, by all that came before them.
#![tactic(auto)]

pub mod arrival_laws;
pub mod histories;
pub mod laws;
pub mod monitor_laws;
pub mod trace_laws;
