//! The least and the greatest of values.
ghost use Rattle.std.specs.Prelude.{◌≡◌};
ghost use Rattle.page_curves.specs.Bounds as spec;

/// The number of values, which stops at 2^64 - 1, the least value and the greatest.
#[derive(Clone, Copy)]
pub struct Bounds {
    pub count: u64,
    pub least: u64,
    pub greatest: u64,
}

impl Bounds {
    /// Returns the bounds of a single value.
    pub fn of(value: u64) -> Bounds
        ensures { result ≡ spec.one_value value }
    {
        Bounds {
            count: 1,
            least: value,
            greatest: value,
        }
    }

    // Returns the bounds of all values of two sets.
    fn with(self, other: Bounds) -> Bounds
        ensures { result ≡ spec.both self other }
    {
        Bounds {
            count: self.count.saturating_add(other.count),
            least: self.least.min(other.least),
            greatest: self.greatest.max(other.greatest),
        }
    }
}

/// Returns the bounds of all values of both; `None` if neither has a value.
#[tactic(auto, unfolding(crate::specs::Bounds::joined))]
pub fn joined(a: Option<Bounds>, b: Option<Bounds>) -> Option<Bounds>
    ensures { result ≡ spec.joined a b }
{
    match (a, b) {
        (None, b) => b,
        (Some(a), None) => Some(a),
        (Some(a), Some(b)) => Some(a.with(b)),
    }
}
