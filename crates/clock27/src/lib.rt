//! The clocks of a constant-rate transport stream, in whole numbers: the rate, the time of a byte
//! in ticks of 27 MHz, program clock references, 33-bit stamps and the slot that releases a unit of
//! data (ISO/IEC 13818-1, 2.4.2 and 2.4.3.5).
//!
//! At `R` bits a second byte `i` arrives at `8 * i / R` seconds. A slot is one packet of 188 bytes:
//! slot `s` has the bytes `188 * s` to `188 * s + 187` and begins at `135,360,000 * s / R` units of
//! 90 kHz.
//!
//! - [`rate`]: the rate of the output.
//! - [`rate_search`]: the least rate at which an output has slots enough for what it carries.
//! - [`pcr`]: the time of a byte, and program clock references.
//! - [`stamp`]: stamps of 33 bits.
//! - [`release`]: the slot that releases a unit.
//! - [`units`]: how long a byte and a slot last at 1 bit a second, in whole numbers.
//! - [`laws`]: laws of the times of bytes. The definitions in `specs/` say when bytes arrive at a
//!   buffer, when they leave it, its fullness, and how often something recurs.
#![tactic(auto)]

pub mod laws;
pub mod pcr;
pub mod rate;
pub mod rate_search;
pub mod release;
pub mod stamp;
pub mod units;

pub use pcr::{Pcr, byte_ticks};
pub use rate::{GREATEST_RATE, LEAST_RATE, Rate, RateError};
pub use release::release_slot;
pub use stamp::{STAMP_MODULUS, Stamp33};
pub use units::{BYTE_UNITS_AT_1BPS, SLOT_MS_AT_1BPS, SLOT_SECONDS_AT_1BPS, SLOT_UNITS_AT_1BPS};
