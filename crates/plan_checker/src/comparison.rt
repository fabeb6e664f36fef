//! One condition: its two numbers compared.

ghost use Rattle.std.specs.Prelude.{◌≡◌, ◌∷◌, []};
ghost use Rattle.slot_plan.specs.Entries.{at_most, equal_counts};
ghost use Rattle.plan_checker.specs.Failing.{after, search_of};

use crate::failure_search::FailureSearch;
use crate::refusal::Refusal;
use slot_plan::{Condition, Relation};

/// Returns a condition that holds if `left` is at most `right`.
pub fn at_most(
    condition: Condition,
    part: u8,
    item: u32,
    left: u128,
    right: u128,
    search: &mut FailureSearch,
)
    ensures { search_of search.new ≡ after (search_of search.old) (at_most condition part item left right ∷ []) }
{
    if left > right {
        search.pass(Refusal {
            condition,
            part,
            item,
            relation: Relation::AtMost,
            left,
            right,
        });
    }
}

/// Returns a condition that holds if the two numbers are equal.
pub fn equal_counts(
    condition: Condition,
    part: u8,
    item: u32,
    left: u128,
    right: u128,
    search: &mut FailureSearch,
)
    ensures { search_of search.new ≡ after (search_of search.old) (equal_counts condition part item left right ∷ []) }
{
    if left != right {
        search.pass(Refusal {
            condition,
            part,
            item,
            relation: Relation::Equal,
            left,
            right,
        });
    }
}
