//! Stamps as a PES packet carries them (ISO/IEC 13818-1, 2.4.3.7).
ghost use Rattle.std.specs.Prelude.{◌≡◌, ℕ, ◌%◌, ◌^◌, ◌<◌};

use std::marker::Model;

/// The number of stamps: a time in units of 90 kHz is counted modulo this.
pub const STAMP_MODULUS: u64 = 1 << 33;

/// A time in units of 90 kHz, counted in 33 bits.
#[derive(Clone, Copy, Debug, PartialEq, Eq)]
pub struct Stamp33 {
    units: u64,
}

impl Model for Stamp33 {
    ghost Value = { ℕ };

    ghost view = { λ s. s.units };

    ghost invariant = { λ s. s.units < 2 ^ 33 };

    ghost inverse = { λ n. record { units = n } };
}

impl Stamp33 {
    /// Returns the stamp of a time in units of 90 kHz.
    pub fn of(time: u64) -> Stamp33
        ensures { result ≡ time % 2 ^ 33 }
    {
        Stamp33 {
            units: time % STAMP_MODULUS,
        }
    }

    /// Returns the units of 90 kHz.
    pub fn units(self) -> u64
        ensures value { result ≡ self }
        ensures within { result < 2 ^ 33 }
    {
        self.units
    }
}
