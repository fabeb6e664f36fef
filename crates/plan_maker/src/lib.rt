//! Plans made for a service description, and the reasons why no plan can serve one.
//!
//! - [`make`]: a plan that the plan checker accepts, or that none was found.
//! - [`period_plan`]: a plan of a period of a given length, by the earliest deadline first. Whether it serves the
//!   description is for the plan checker to say.
//! - [`plain_plan`]: the plan with the slots of each item evenly spaced (`specs/PlainPlan`).
//! - [`reasons`]: numbers of the description that no plan can keep (`specs/Reasons`); [`no_plan_serves`] is the law.
//! - [`demands`], [`tasks_of`], [`next_slot`], [`first_open`], [`add_slots`], [`plan_of`]: the steps of the search, which
//!   `kept_plans` takes around slots that are given.
//!
//! The certificate of either plan is the least that its slots can claim (`specs/Certificates`).
#![tactic(auto)]

mod certificates;
mod clocks;
mod free_slots;
mod item_order;
mod making;
mod plain;
mod reason;
mod search;
mod spacing;

pub use certificates::plan_of;
pub use making::{MakeError, make};
pub use plain::plain_plan;
pub use reason::{Reason, no_plan_serves, reasons};
pub use search::demand::{Demand, demands};
pub use search::placement::{PlacementTask, first_open, next_slot};
pub use search::{add_slots, period_plan, tasks_of};
