//! The least rate at which an output has slots enough for what it carries.
ghost use Rattle.std.specs.Prelude.{◌≡◌, ◌≤◌, ◌+◌, ℕ, Bool, IfSome, IsNone};
ghost use Rattle.clock27.specs.LeastRate.{IsMonotone, IsLeastRate, HasNoRate};
ghost use Rattle.clock27.specs.declared.rate.TheConstants.{LEAST_RATE, GREATEST_RATE};

use crate::rate::GREATEST_RATE;

/// What an output carries: whether it has slots enough for it, at any rate.
pub trait Load {
    ghost enough: { Self → ℕ → Bool };

    /// Returns whether an output of that rate, in bits a second, has slots enough.
    fn has_slots(&self, rate: u64) -> bool
        requires low { LEAST_RATE ≤ rate }
        requires high { rate ≤ GREATEST_RATE }
        ensures { result ≡ enough self.now rate };
}

/// Returns the least rate, of `from` to the greatest, at which an output has slots enough, found by
/// halving the range; none if it has at no rate.
pub fn least_rate<L: Load>(load: &L, from: u64) -> Option<u64>
    requires low { LEAST_RATE ≤ from }
    requires high { from ≤ GREATEST_RATE + 1 }
    requires monotone { IsMonotone (L.enough load.now) }
    ensures least { IfSome result (IsLeastRate (L.enough load.now) from) }
    ensures refused { IsNone result → HasNoRate (L.enough load.now) from }
{
    let mut low = from;
    let mut high = GREATEST_RATE + 1;
    while low < high {
        let middle = low + (high - low) / 2;
        if load.has_slots(middle) {
            high = middle;
        } else {
            low = middle + 1;
        }
    }
    if low > GREATEST_RATE { None } else { Some(low) }
}
