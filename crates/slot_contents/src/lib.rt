//! The content of a slot: what each packet of an output carries, and its finished bytes
//! (ISO/IEC 13818-1, 2.4.3).
//!
//! Slot s is packet number s of the bytes. It carries a payload, a program clock reference, or nothing. The definitions
//! are in `specs/`: `Contents` has the content of a slot, its packet, the bytes of a run of slots and the payloads of
//! a PID in them, `RunLaws` what the laws say. Each function of [`run_laws`] is a law: it does nothing, and its
//! contract states a fact about the definitions.
#![tactic(auto)]

pub mod run_laws;
