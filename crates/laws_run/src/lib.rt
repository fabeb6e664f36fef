//! The round trip of a run: the finished bytes of a multiplexer, demultiplexed, are the units and sections that went in
//! (ISO/IEC 13818-1, 2.4.3 and 2.4.4).
//!
//! Each function in [`laws`] is a law: it does nothing, and its contract states a fact about the definitions of
//! `mux_core` (what each slot carries) and `demux` (the findings of bytes), for one plan and for two
//! in turn.
//!
//! Definitions in `specs/`: `Placed` says which slots carry which unit and section, `Distinguishable` which ready-made
//! sections are taken for something else, `GivenBack` the findings of all, `Clean` the findings that never occur;
//! `Jobs` has the same for a job, `CarriedBack` for `carry`; `Monitored` says what a monitor never reports, `Reported`
//! and `PtsSpacing` which rules may have faults; `FollowedTables` what a decoder learns from PAT and PMT, `TablesFirst`
//! when; `WorkedService`, `WorkedBytes` and `WorkedRun` are a run that meets all premises, `WorkedVideo` and
//! `WorkedSwitch` one of two plans with video and sound.
//!
//! The same of one PID: of what the slots of an output carry on it, what a demultiplexer finds. Slot s carries a
//! payload, a clock reference or nothing (`slot_contents/specs/Contents`), and is packet number s of the bytes. A PID
//! carries the payloads of access units or sections in order, in any slots: `specs/Sent` says which packets carry which
//! PES packet or section, `Units` and `Sections` the findings of each, `CleanPids` which findings never occur,
//! `PidLaws` the laws of any PID, `Rounds` of tables and streams in own slots. `specs/ReasonNumbers` defines when a
//! reason why no plan serves goes at a number.
//!
//! - [`pid_laws`]: a PID that carries units, sections, or no payload; and that nothing is found outside a PID.
//! - [`carried`]: the same for the packets of `unit_queue` and `table_rounds`.
//! - [`plan_laws`]: each reason goes if its number is in the description, and stays with each number that is less.
#![tactic(auto)]

pub mod carried;
pub mod laws;
pub mod pid_laws;
pub mod plan_laws;
