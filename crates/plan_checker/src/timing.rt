//! The conditions of a plan of good shape, in their order.

ghost use Rattle.std.specs.Prelude.{◌≡◌};
ghost use Rattle.slot_plan.specs.Conditions.{timing_entries};
ghost use Rattle.slot_plan.specs.Shape.{IsShaped};
ghost use Rattle.plan_checker.specs.Failing.{after, search_of};

use crate::buffers::{MultiplexingBuffers, StreamBuffers, SystemBuffers, TransportBuffers};
use crate::conditions::check_each;
use crate::failure_search::FailureSearch;
use crate::leads::{ElementaryLeads, StreamLeads};
use crate::main_buffers::MainBuffers;
use crate::plans::ShapedPlan;
use crate::recurrence::{PcrGaps, TableGaps};
use crate::section_distances::SectionDistances;
use crate::stream_slots::{Spreads, StreamRates};
use slot_plan::{Description, Plan};
use std::alloc::Allocator;

/// Codes 2 to 11, and code 18.
pub fn timing<A: Allocator>(description: &Description, plan: &Plan<A>, search: &mut FailureSearch)
    requires shaped { IsShaped description.now plan.now }
    ensures { search_of search.new ≡ after (search_of search.old) (timing_entries description.now plan.now) }
{
    let plans = &ShapedPlan { description, plan };
    check_each::<PcrGaps, _>(plans, search);
    check_each::<TableGaps, _>(plans, search);
    check_each::<Spreads, _>(plans, search);
    check_each::<StreamRates, _>(plans, search);
    check_each::<StreamBuffers, _>(plans, search);
    check_each::<TransportBuffers, _>(plans, search);
    check_each::<StreamLeads, _>(plans, search);
    check_each::<MainBuffers, _>(plans, search);
    check_each::<SystemBuffers, _>(plans, search);
    check_each::<MultiplexingBuffers, _>(plans, search);
    check_each::<ElementaryLeads, _>(plans, search);
    check_each::<SectionDistances, _>(plans, search);
}
