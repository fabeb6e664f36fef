//! Whether a second plan may follow a first one.

ghost use Rattle.std.specs.Prelude.{◌≡◌, None, IfOk, IfErr, option_map};
ghost use Rattle.slot_plan.specs.Entries.{first_failing};
ghost use Rattle.slot_plan.specs.Shape.{IsShaped};
ghost use Rattle.slot_plan.specs.Conditions.{IsServing, stream_leads};
ghost use Rattle.slot_plan.specs.SwitchConditions.{joint_entries, switch_entries};
ghost use Rattle.plan_checker.specs.Refusals.{entry_of, refusal_of};

use crate::checked_switch::CheckedSwitch;
use crate::leads::{ElementarySwitches, LeadSwitches};
use crate::main_buffers::MainSwitches;
use crate::plan_pair::PlanPair;
use crate::recurrence::{PcrSwitches, TableSwitches};
use crate::section_switches::SectionSwitches;
use crate::work::{MultiplexingWorks, StreamWorks, SystemWorks, TransportWorks};
use plan_checker::checking::first_failing;
use plan_checker::conditions::check_each;
use plan_checker::failure_search::FailureSearch;
use plan_checker::{CheckedPlan, Refusal};
use slot_plan::{Description, Plan};
use std::alloc::Allocator;

/// Returns the first of the conditions of two plans together, codes 12 to 17, and code 18 after 13, that they do not
/// keep.
fn joint<A: Allocator>(
    description: &Description,
    first: &Plan<A>,
    second: &Plan<A>,
) -> Option<Refusal>
    requires shaped { IsShaped description.now first.now }
    requires next_shaped { IsShaped description.now second.now }
    requires led { first_failing (stream_leads description.now first.now) ≡ None }
    requires next_led { first_failing (stream_leads description.now second.now) ≡ None }
    ensures { option_map entry_of result ≡ first_failing (joint_entries description.now first.now second.now) }
{
    let plans = &PlanPair {
        description,
        first,
        second,
    };
    let mut search = FailureSearch::new(0, 1);
    check_each::<PcrSwitches, _>(plans, &mut search);
    check_each::<TableSwitches, _>(plans, &mut search);
    check_each::<SectionSwitches, _>(plans, &mut search);
    check_each::<StreamWorks, _>(plans, &mut search);
    check_each::<TransportWorks, _>(plans, &mut search);
    check_each::<SystemWorks, _>(plans, &mut search);
    check_each::<MultiplexingWorks, _>(plans, &mut search);
    check_each::<LeadSwitches, _>(plans, &mut search);
    check_each::<MainSwitches, _>(plans, &mut search);
    check_each::<ElementarySwitches, _>(plans, &mut search);
    search.first()
}

/// Returns the first condition that a second plan after a first plan does not keep: its own conditions first, then
/// the joint conditions.
fn switch_conditions<A: Allocator>(
    description: &Description,
    first: &Plan<A>,
    second: &Plan<A>,
) -> Option<Refusal>
    requires serving { IsServing description.now first.now }
    ensures { option_map entry_of result ≡ first_failing (switch_entries description.now first.now second.now) }
{
    match first_failing(description, second) {
        None => joint(description, first, second),
        Some(refusal) => Some(refusal),
    }
}

/// Returns the two plans as a checked switch, if the second may follow the first at the end of any of its periods: the
/// second serves the first's description and the two keep every condition together. Otherwise returns the first broken
/// condition (conditions of the second plan in the order of [`check`](plan_checker::check), then joint conditions by
/// number, item and part) with its two numbers, and hands both plans back.
pub fn check_switch<A: Allocator>(
    first: CheckedPlan<A>,
    second: Plan<A>,
) -> Result<CheckedSwitch<A>, (Refusal, CheckedPlan<A>, Plan<A>)>
    ensures refusal { refusal_of result ≡ first_failing (switch_entries first.description first.plan second) }
    ensures checked { IfOk result (λ c. c ≡ record { first = first; second = second }) }
    ensures handed_back { IfErr result (λ e. (e.1 ≡ first) × (e.2 ≡ second)) }
{
    match switch_conditions(first.description(), first.plan(), &second) {
        None => Ok(CheckedSwitch { first, second }),
        Some(refusal) => Err((refusal, first, second)),
    }
}
