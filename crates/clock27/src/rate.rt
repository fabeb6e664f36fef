//! The rate of the output.
ghost use Rattle.std.specs.Prelude.{◌≡◌, ℕ, ◌≤◌, ◌<◌, ◌⊎◌, ◌↔◌, Ok, Err, IfOk, IsErrOf};
ghost use Rattle.clock27.specs.declared.rate.TheConstants.{LEAST_RATE, GREATEST_RATE};

use std::marker::Model;
use thiserror::Error;

/// The least rate, in bits a second.
pub const LEAST_RATE: u64 = 100_000;

/// The greatest rate, in bits a second.
pub const GREATEST_RATE: u64 = 100_000_000;

/// The rate of a transport stream, 100,000 to 100,000,000 bits a second.
#[derive(Clone, Copy, Debug, PartialEq, Eq)]
pub struct Rate {
    bits: u64,
}

impl Model for Rate {
    ghost Value = { ℕ };

    ghost view = { λ r. r.bits };

    ghost invariant = { λ r. (LEAST_RATE ≤ r.bits) × (r.bits ≤ GREATEST_RATE) };

    ghost inverse = { λ n. record { bits = n } };
}

/// Why a number is no rate.
#[derive(Clone, Copy, Debug, PartialEq, Eq, Error)]
pub enum RateError {
    #[error("the rate is not within 100000 to 100000000 bits a second")]
    Range,
}

impl RateError {
    /// Returns the error's number.
    pub fn code(self) -> u8
        ensures { result ≡ 1 }
    {
        match self {
            RateError::Range => 1,
        }
    }
}

impl Rate {
    /// Returns the rate of this number of bits a second.
    pub fn new(bits_per_second: u64) -> Result<Rate, RateError>
        ensures value { IfOk result (λ rate. rate ≡ bits_per_second) }
        ensures range { IsErrOf result RateError.Range
            ↔ ((bits_per_second < LEAST_RATE) ⊎ (GREATEST_RATE < bits_per_second)) }
    {
        if bits_per_second < LEAST_RATE || bits_per_second > GREATEST_RATE {
            return Err(RateError::Range);
        }
        Ok(Rate {
            bits: bits_per_second,
        })
    }

    /// Returns the bits a second.
    pub fn bits_per_second(self) -> u64
        ensures value { result ≡ self }
        ensures least { LEAST_RATE ≤ self }
        ensures greatest { self ≤ GREATEST_RATE }
    {
        self.bits
    }
}
