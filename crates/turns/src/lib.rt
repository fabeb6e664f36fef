//! One line-up after another on air: what each slot carries, and what the finished bytes keep over all of them. Laws, no
//! code.
//!
//! `specs/Turns` says what each slot carries, and which line-up may follow those before it, `specs/LineUpRuns` what is
//! promised of the bytes, and `specs/TakenOver` that a line-up which takes over follows.
//!
//! - [`laws`]: the promises at every moment, the bytes in parts, what goes, and how a turn goes on.
#![tactic(auto)]

pub mod laws;
