//! How long a byte and a slot of 188 bytes last at 1 bit a second, in whole numbers of a unit of time.
//! At `R` bits a second they last one `R`-th of it.

/// A byte in ticks of 27 MHz.
pub const BYTE_TICKS_AT_1BPS: u128 = 216_000_000;

/// A byte in units of 90 kHz.
pub const BYTE_UNITS_AT_1BPS: u128 = 720_000;

/// A slot in units of 90 kHz.
pub const SLOT_UNITS_AT_1BPS: u128 = 135_360_000;

/// A slot in milliseconds.
pub const SLOT_MS_AT_1BPS: u128 = 1_504_000;

/// A slot in seconds.
pub const SLOT_SECONDS_AT_1BPS: u64 = 1_504;
