//! Conditions on the items of one kind, one item after another.

ghost use Rattle.std.specs.Prelude.{◌≡◌, ◌<◌, ℕ, List, Some, length, slice_get};
ghost use Rattle.slot_plan.specs.Numbered.{numbered};
ghost use Rattle.slot_plan.specs.Entries.{Entry};
ghost use Rattle.plan_checker.specs.Failing.{after, search_of};

use crate::failure_search::FailureSearch;

/// A condition on each item of one kind, as on each stream, where `P` are the plans.
pub trait ItemCondition<P> {
    type Item;

    ghost items: { P → List Self.Item };

    ghost entries: { P → ℕ → Self.Item → List Entry };

    /// Returns the number of items.
    fn count(plans: &P) -> usize
        ensures { result ≡ length (items plans.now) };

    /// Checks item number `i`.
    fn check_item(plans: &P, i: usize, search: &mut FailureSearch)
        requires { i < length (items plans.now) }
        ensures { (x : Self.Item) → slice_get (items plans.now) i ≡ Some x
            → search_of search.new ≡ after (search_of search.old) (entries plans.now i x) };
}

/// Checks all items, in their order.
pub fn check_each<C: ItemCondition<P>, P>(plans: &P, search: &mut FailureSearch)
    ensures { search_of search.new
        ≡ after (search_of search.old) (numbered (C.entries plans.now) 0 (C.items plans.now)) }
{
    for i in 0..C::count(plans) {
        if search.is_done() {
            return;
        }
        C::check_item(plans, i, search);
    }
}
