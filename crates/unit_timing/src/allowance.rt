//! A stream's declaration of the number of its packets.

ghost use Rattle.std.specs.Prelude.{◌≡◌};
ghost use Rattle.unit_timing.specs.Allowances.{allowance_rows};

/// The most transport packets of access units in a row: by the number of the units, or by the time between the decoding
/// time stamps of the first and the last of them.
#[derive(Clone, Copy, Debug, PartialEq, Eq)]
pub enum Allowance {
    /// Any `units` units in a row have at most `packets` packets.
    Groups { units: u8, packets: u32 },
    /// Units in a row have at most `burst` packets and, in whole packets of 188 bytes, the packets that `pace` bits a
    /// second carry in the time between their stamps (a leaky bucket).
    Pace { burst: u32, pace: u32 },
}

impl Allowance {
    /// Returns the numbers of units in a row, from one on, for which the lead has to pay: up to a group; by pace one
    /// alone.
    pub fn rows(self) -> u8
        ensures { result ≡ allowance_rows self }
    {
        match self {
            Allowance::Groups { units, .. } => units,
            Allowance::Pace { .. } => 1,
        }
    }
}
