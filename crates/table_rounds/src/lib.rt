//! The sections of one table on their way into transport packets (ISO/IEC 13818-1, 2.4.4; ETSI EN 300 468, 5.1).
//!
//! A table has slots of its own, which the caller names one by one. Its sections take them one after another,
//! each in as many packets as its greatest length needs; together they are a round, and the rounds follow each other. A
//! section begins in its first packet after pointer_field 0, bytes 0xFF fill its last packet, and packets that it does
//! not need are null packets. All sections of a round are the sections at the moment when its first slot begins. A
//! section's bytes are asked for once, when its first packet is sent. No call takes memory.
//!
//! Definitions are in `specs/`: `Parts` cuts a section into payloads, `Tables` says what each own slot carries by its
//! number alone, `Carousels` what the state between two slots represents. The functions of `laws` say how these are
//! related.
#![tactic(auto)]

// The source of a table's sections.
mod section_source;

// A section in packets.
mod parts;

// A table from slot to slot.
mod carousel;

// How the definitions hang together.
pub mod laws;

pub use carousel::TableCarousel;
pub use section_source::SectionSource;
