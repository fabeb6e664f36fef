//! The round trip of a job: of any stream, and multiplexed.
//!
//! A demultiplexer finds the units of any stream; a job made of them and multiplexed gives them back. Each function of
//! [`laws`] is a law: it does nothing, and its contract states a fact about the definitions of `stream_jobs` (ISO/IEC
//! 13818-1, 2.4.3), `mux_core` and `laws_run`.
//!
//! Definitions in `specs/`: `Laws` has the units accepted, carried and found again, `DeclaredBuffers` the buffers kept,
//! `JoinedLaws` jobs of several streams, `FirstUnits` when the first units are due and the tables before them;
//! `LeftOut`, `JobLines` and `FoundOrNamed` account for everything found, `StrayPayload` says which payload is stray, and
//! `WorkedJob` has a stream and its job.
#![tactic(auto)]

pub mod laws;
