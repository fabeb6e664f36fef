//! Program clock references (ISO/IEC 13818-1, 2.4.3.5).
ghost use Rattle.std.specs.Prelude.{◌≡◌, ◌+◌, ◌*◌, ◌/◌, ◌^◌, ◌<◌};
ghost use Rattle.clock27.specs.Reference.{Reference, ticks_of, pcr_ticks, pcr_at};
ghost use Rattle.clock27.specs.Units.{byte_ticks_at_1bps};

use crate::rate::Rate;
use crate::stamp::STAMP_MODULUS;
use crate::units::BYTE_TICKS_AT_1BPS;
use std::marker::Model;

/// Returns the time of byte `i` of an output of this rate, in whole ticks of 27 MHz.
pub fn byte_ticks(rate: Rate, i: u64) -> u128
    ensures { result ≡ byte_ticks_at_1bps * i / rate }
{
    BYTE_TICKS_AT_1BPS * u128::from(i) / u128::from(rate.bits_per_second())
}

/// A program clock reference: its base counts units of 90 kHz in 33 bits, its extension ticks of
/// 27 MHz in 9 bits. A written reference has an extension below 300; a reference that was read has any.
#[derive(Clone, Copy, Debug, PartialEq, Eq)]
pub struct Pcr {
    base: u64,
    extension: u16,
}

impl Model for Pcr {
    ghost Value = { Reference };

    ghost view = { λ p. record { base = p.base; extension = p.extension } };

    ghost invariant = { λ p. (p.base < 2 ^ 33) × (p.extension < 2 ^ 9) };

    ghost inverse = { λ r. record { base = r.base; extension = r.extension } };
}

impl Pcr {
    /// Returns the reference of these two fields.
    pub fn new(base: u64, extension: u16) -> Pcr
        requires base { base < 2 ^ 33 }
        requires extension { extension < 2 ^ 9 }
        ensures { result ≡ record { base = base; extension = extension } }
    {
        Pcr { base, extension }
    }

    /// Returns the reference in whose packet the clock's byte is byte `i` of an output of this rate,
    /// if the clock showed `base0` units of 90 kHz at byte 0.
    pub fn at(rate: Rate, base0: u64, i: u64) -> Pcr
        ensures exact { result ≡ pcr_at rate base0 i }
        ensures ticks { ticks_of result ≡ pcr_ticks rate base0 i }
    {
        let first = 300 * u128::from(base0);
        let ticks = (byte_ticks(rate, i) + first) % (300 * u128::from(STAMP_MODULUS));
        Pcr {
            base: (ticks / 300) as u64,
            extension: (ticks % 300) as u16,
        }
    }

    /// Returns the units of 90 kHz.
    pub fn base(self) -> u64
        ensures value { result ≡ self.base }
        ensures within { result < 2 ^ 33 }
    {
        self.base
    }

    /// Returns the ticks of 27 MHz beyond the base.
    pub fn extension(self) -> u16
        ensures value { result ≡ self.extension }
        ensures within { result < 2 ^ 9 }
    {
        self.extension
    }

    /// Returns the reference's value, in ticks of 27 MHz.
    pub fn ticks(self) -> u64
        ensures { result ≡ ticks_of self }
    {
        300 * self.base + u64::from(self.extension)
    }
}
