//! The slots of each item as numbers.
ghost use Rattle.std.specs.Prelude.{◌≡◌, ◌++◌, OnOk, string_bytes};
ghost use Rattle.plan_page.specs.SlotLists as spec;

use crate::lanes::write_label;
use crate::owners::Owner;
use crate::plan_items::PlanItem;
use slot_plan::Slot;
use std::alloc::AllocError;
use std::fmt::Write;

// The number of a slot, if it is the owner's.
fn write_number(
    text: &mut String,
    owner: Owner,
    number: usize,
    slot: Slot,
) -> Result<(), AllocError>
    ensures { OnOk result (string_bytes text.new ≡ string_bytes text.old ++ spec.number_text owner number slot) }
{
    if owner.owns(slot) {
        write!(text, " {number}")
    } else {
        Ok(())
    }
}

#[tactic(auto, unfolding(crate::specs::SlotLists::numbers))]
fn write_numbers(text: &mut String, owner: Owner, slots: &[Slot]) -> Result<(), AllocError>
    ensures { OnOk result (string_bytes text.new
        ≡ string_bytes text.old ++ spec.numbers owner slots.now) }
{
    for (number, slot) in slots.iter().enumerate() {
        write_number(text, owner, number, *slot)?;
    }
    Ok(())
}

// The row of an item.
#[tactic(auto, unfolding(crate::specs::SlotLists::slot_row))]
fn write_row(text: &mut String, slots: &[Slot], item: PlanItem) -> Result<(), AllocError>
    ensures { OnOk result (string_bytes text.new ≡ string_bytes text.old ++ spec.slot_row slots.now item) }
{
    write_label(text, item)?;
    text.push_str("<td class=\"list\">")?;
    write_numbers(text, item.owner, slots)?;
    text.push_str("\n")
}

#[tactic(auto, unfolding(crate::specs::SlotLists::slot_rows))]
fn write_rows(text: &mut String, slots: &[Slot], items: &[PlanItem]) -> Result<(), AllocError>
    ensures { OnOk result (string_bytes text.new
        ≡ string_bytes text.old ++ spec.slot_rows slots.now items.now) }
{
    for item in items {
        write_row(text, slots, *item)?;
    }
    Ok(())
}

/// Appends the slots of all items: a table that opens.
#[tactic(auto, unfolding(crate::specs::SlotLists::slot_lists))]
pub(crate) fn write_slot_lists(
    text: &mut String,
    slots: &[Slot],
    items: &[PlanItem],
) -> Result<(), AllocError>
    ensures { OnOk result (string_bytes text.new
        ≡ string_bytes text.old ++ spec.slot_lists slots.now items.now) }
{
    text.push_str(
        "<details><summary>These numbers</summary><table><tr><th>PID<th class=\"word\">item<th class=\"word\">its slots\n",
    )?;
    write_rows(text, slots, items)?;
    text.push_str("</table></details>\n")
}
