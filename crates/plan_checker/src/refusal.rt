//! Why a plan is refused.

use slot_plan::{Condition, Relation};
use thiserror::Error;

/// The first condition that a plan does not keep, with the two numbers that do not compare as they have to.
#[derive(Clone, Copy, Debug, PartialEq, Eq, Error)]
#[error("condition {condition:?}, part {part}, item {item}: {left} is not within {right}")]
pub struct Refusal {
    pub condition: Condition,
    /// The part of the condition, 0 where it has one part only.
    pub part: u8,
    /// The number of the item that it is about.
    pub item: u32,
    /// How the two numbers should have compared.
    pub relation: Relation,
    pub left: u128,
    pub right: u128,
}

impl Default for Refusal {
    /// Returns a refusal of no plan, which fills unused places.
    fn default() -> Refusal {
        Refusal {
            condition: Condition::Shape,
            part: 0,
            item: 0,
            relation: Relation::AtMost,
            left: 0,
            right: 0,
        }
    }
}
