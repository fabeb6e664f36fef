//! The lines for the faults of a plan's shape.

ghost use Rattle.std.specs.Prelude.{◌≡◌, ◌++◌, OnOk, string_bytes};
ghost use Rattle.plan_checker.specs.Refusals.{entry_of};
ghost use Rattle.plan_diagnosis.specs.ConditionLines as spec;

use crate::item_names::{write_program_name, write_stream_name, write_table_name};
use description::Description;
use plan_checker::Refusal;
use std::alloc::AllocError;
use std::fmt::Write;

// Appends the name of an item: streams, programs and tables have one row of numbers.
fn write_counted_name(
    description: &Description,
    item: usize,
    text: &mut String,
) -> Result<(), AllocError>
    ensures { OnOk result (string_bytes text.new
        ≡ string_bytes text.old ++ spec.counted_name description.now item) }
{
    let (streams, programs) = (description.streams().len(), description.programs().len());
    if item < streams {
        write_stream_name(description, item, text)
    } else if item - streams < programs {
        write_program_name(description, item - streams, text)
    } else {
        write_table_name(description, item - streams - programs, text)
    }
}

// Appends the line of an item that has no slot.
fn write_owner(
    description: &Description,
    refusal: Refusal,
    text: &mut String,
) -> Result<(), AllocError>
    ensures { OnOk result (string_bytes text.new
        ≡ string_bytes text.old ++ spec.owner_line description.now (entry_of refusal)) }
{
    write_counted_name(description, refusal.item as usize, text)?;
    text.push_str(" has no slot\n")
}

// Appends the line of a period that is too long.
fn write_length(refusal: Refusal, text: &mut String) -> Result<(), AllocError>
    ensures { OnOk result (string_bytes text.new ≡ string_bytes text.old ++ spec.length_line (entry_of refusal)) }
{
    let Refusal { left, right, .. } = refusal;
    write!(text, "plan has {left} slots, more than {right}\n")
}

// Appends the line of a slot that names no item.
fn write_slot(refusal: Refusal, text: &mut String) -> Result<(), AllocError>
    ensures { OnOk result (string_bytes text.new ≡ string_bytes text.old ++ spec.slot_line (entry_of refusal)) }
{
    let Refusal {
        item,
        left,
        right,
        ..
    } = refusal;
    write!(
        text,
        "slot {item} names one of {left}, and there are {right}\n"
    )
}

// Appends the line of a certificate with too many or too few streams.
fn write_stream_claims(refusal: Refusal, text: &mut String) -> Result<(), AllocError>
    ensures { OnOk result (string_bytes text.new
        ≡ string_bytes text.old ++ spec.stream_claims_line (entry_of refusal)) }
{
    let Refusal { left, right, .. } = refusal;
    write!(
        text,
        "plan has {left} stream lines, and there are {right}\n"
    )
}

// Appends the line of a certificate with too many or too few programs.
fn write_program_claims(refusal: Refusal, text: &mut String) -> Result<(), AllocError>
    ensures { OnOk result (string_bytes text.new
        ≡ string_bytes text.old ++ spec.program_claims_line (entry_of refusal)) }
{
    let Refusal { left, right, .. } = refusal;
    write!(
        text,
        "plan has {left} program lines, and there are {right}\n"
    )
}

/// Appends the line of a shape's fault.
#[tactic(auto, unfolding(crate::specs::ConditionLines::shape_line))]
pub fn write_shape(
    description: &Description,
    refusal: Refusal,
    text: &mut String,
) -> Result<(), AllocError>
    ensures { OnOk result (string_bytes text.new
        ≡ string_bytes text.old ++ spec.shape_line description.now (entry_of refusal)) }
{
    match refusal.part {
        1 => text.push_str("plan has no slot\n"),
        2 => write_length(refusal, text),
        3 => write_slot(refusal, text),
        4 => write_owner(description, refusal, text),
        5 => write_stream_claims(refusal, text),
        _ => write_program_claims(refusal, text),
    }
}
