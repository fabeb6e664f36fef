//! The choice for a stream.

ghost use Rattle.std.specs.Prelude.{◌≡◌, ◌<◌};
ghost use Rattle.stream_choice.specs.Choices as spec;

use unit_timing::allowance::Allowance;

/// The declaration of the packets of units in a row, a lead, and the share of an output that they ask for.
#[derive(Clone, Copy)]
pub struct Choice {
    /// The most packets of units in a row.
    pub allowance: Allowance,
    /// How long before its DTS a unit may be sent, in units of 90 kHz.
    pub lead: u32,
    /// Packets in a unit of 90 kHz, in parts of 2^40 of a packet, rounded up.
    pub share: u64,
}

/// Returns the rank of a choice; a better choice has a lower rank.
fn rank(choice: Choice) -> u128
    ensures { result ≡ spec.rank choice }
{
    (u128::from(choice.share) * (1 << 17) + u128::from(choice.lead)) * (1 << 7)
        + u128::from(choice.allowance.rows())
}

/// Returns the first of two choices, unless the second is better.
pub fn better(one: Option<Choice>, other: Option<Choice>) -> Option<Choice>
    ensures { result ≡ spec.better one other }
{
    match (one, other) {
        (Some(first), Some(second)) if rank(second) < rank(first) => Some(second),
        (Some(first), _) => Some(first),
        (None, second) => second,
    }
}

/// Returns the choice by groups if it asks for at most a 64th more than the choice by pace, otherwise the choice by
/// pace.
pub fn preferred(groups: Option<Choice>, pace: Option<Choice>) -> Option<Choice>
    ensures { result ≡ spec.preferred groups pace }
{
    match (groups, pace) {
        (Some(first), Some(second))
            if u128::from(second.share) * 65 < u128::from(first.share) * 64 => Some(second),
        (Some(first), _) => Some(first),
        (None, second) => second,
    }
}
