//! The lines for the conditions that a plan does not keep.

ghost use Rattle.std.specs.Prelude.{◌≡◌, ◌++◌, OnOk, map, string_bytes};
ghost use Rattle.std.specs.List.{flat_map};
ghost use Rattle.plan_checker.specs.Refusals.{entry_of};
ghost use Rattle.plan_diagnosis.specs.ConditionLines as spec;

use crate::buffer_conditions::{write_lead, write_multiplexing, write_system, write_transport};
use crate::item_names::write_stream_name;
use crate::shape_conditions::write_shape;
use crate::slot_conditions::{
    write_claim, write_pcr_gap, write_section_distance, write_stream_rate, write_table_gap,
};
use crate::stream_numbers::{StreamNumber, write_stream};
use description::Description;
use plan_checker::{Condition, Refusal, failing};
use slot_plan::Plan;
use std::alloc::{AllocError, Global};
use std::fmt::Write;

// Appends the line of a claim of spread.
fn write_spread(
    description: &Description,
    refusal: Refusal,
    text: &mut String,
) -> Result<(), AllocError>
    ensures { OnOk result (string_bytes text.new
        ≡ string_bytes text.old ++ spec.spread_line description.now (entry_of refusal)) }
{
    write_stream_name(description, refusal.item as usize, text)?;
    write_claim("spread", refusal.right, refusal.left, text)
}

/// Appends the line of a condition on two plans.
pub fn write_switch(refusal: Refusal, text: &mut String) -> Result<(), AllocError>
    ensures { OnOk result (string_bytes text.new ≡ string_bytes text.old ++ spec.switch_line (entry_of refusal)) }
{
    let Refusal {
        condition,
        part,
        item,
        left,
        right,
        ..
    } = refusal;
    let code = condition.code();
    write!(
        text,
        "condition {code} part {part} item {item}: {left}, at most {right}\n"
    )
}

// Appends the line of a condition.
#[tactic(auto, unfolding(crate::specs::ConditionLines::line_for))]
fn write_condition(
    description: &Description,
    refusal: Refusal,
    text: &mut String,
) -> Result<(), AllocError>
    ensures { OnOk result (string_bytes text.new
        ≡ string_bytes text.old ++ spec.condition_line description.now (entry_of refusal)) }
{
    let item = refusal.item as usize;
    let (programs, streams) = (description.programs(), description.streams());
    match refusal.condition {
        Condition::Shape => write_shape(description, refusal, text),
        Condition::PcrGap => {
            write_pcr_gap(description.rate(), refusal, programs.get(item), text)
        }
        Condition::TableGap => write_table_gap(description, refusal, text),
        Condition::Spread => write_spread(description, refusal, text),
        Condition::StreamRate => {
            write_stream_rate(description.rate(), refusal, streams.get(item), text)
        }
        Condition::TransportBuffer => write_transport(description, refusal, text),
        Condition::StreamLead | Condition::ElementaryLead => {
            write_lead(refusal, streams.get(item), text)
        }
        Condition::MainBuffer => {
            write_stream(
                StreamNumber::Main,
                item,
                refusal.left,
                streams.get(item),
                text,
            )
        }
        Condition::SystemBuffer => write_system(description, refusal, text),
        Condition::MultiplexingBuffer => write_multiplexing(description, refusal, text),
        Condition::SectionDistance => write_section_distance(description, refusal, text),
        Condition::PcrSwitch
        | Condition::TableSwitch
        | Condition::WorkSwitch
        | Condition::LeadSwitch
        | Condition::MainSwitch
        | Condition::ElementarySwitch => write_switch(refusal, text),
    }
}

// Appends a line for each condition.
fn write_each(
    description: &Description,
    refusals: &[Refusal],
    text: &mut String,
) -> Result<(), AllocError>
    ensures { OnOk result (string_bytes text.new ≡ string_bytes text.old
        ++ flat_map (spec.condition_line description.now) (map entry_of refusals.now)) }
{
    for refusal in refusals {
        write_condition(description, *refusal, text)?;
    }
    Ok(())
}

/// Appends a line for each condition that a plan does not keep.
pub fn write_conditions(
    alloc: Global,
    description: &Description,
    plan: &Plan,
    text: &mut String,
) -> Result<(), AllocError>
    ensures { OnOk result (string_bytes text.new
        ≡ string_bytes text.old ++ spec.condition_lines description.now plan.now) }
{
    let refusals = failing(alloc, description, plan)?;
    write_each(description, &refusals, text)
}
