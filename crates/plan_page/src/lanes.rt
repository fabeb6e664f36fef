//! Which slots each item owns: a line for each, in a row of its own.
ghost use Rattle.std.specs.Prelude.{◌≡◌, ◌++◌, ◌<◌, OnOk, string_bytes};
ghost use Rattle.plan_page.specs.Lanes as spec;

use crate::owners::Owner;
use crate::plan_items::PlanItem;
use page_curves::write_tenths;
use slot_plan::{Item, Slot};
use std::alloc::AllocError;
use std::fmt::Write;

// The scale is divided into quarters.
const QUARTERS: [u64; 4] = [0, 1, 2, 3];

/// Returns a number of slots as a time in units of 90 kHz, rounded down; numbers stop at 2^64 - 1.
pub(crate) fn time_of(slots: u64, rate: u64) -> u64
    requires { 0 < rate }
    ensures { result ≡ spec.time_of slots rate }
{
    slots.saturating_mul(135_360_000) / rate
}

/// Appends a time of units of 90 kHz in ms.
#[tactic(auto, unfolding(crate::specs::Lanes::millis))]
pub(crate) fn write_millis(text: &mut String, time: u64) -> Result<(), AllocError>
    ensures { OnOk result (string_bytes text.new ≡ string_bytes text.old ++ spec.millis time) }
{
    write_tenths(text, time, 90)
}

#[tactic(auto, unfolding(crate::specs::Lanes::row_head))]
fn write_row_head(text: &mut String, pid: u16, name: &str) -> Result<(), AllocError>
    ensures { OnOk result (string_bytes text.new ≡ string_bytes text.old ++ spec.row_head pid name.now) }
{
    write!(text, "<tr><td>{pid}<td class=\"word\">{name}")
}

/// Appends how the row of an item begins: its PID and its name.
pub(crate) fn write_label(text: &mut String, item: PlanItem) -> Result<(), AllocError>
    ensures { OnOk result (string_bytes text.new ≡ string_bytes text.old ++ spec.label item) }
{
    write_row_head(text, item.pid, item.name.word())
}

// A line in the middle of a slot, if it is the owner's.
fn write_tick(text: &mut String, owner: Owner, number: usize, slot: Slot) -> Result<(), AllocError>
    ensures { OnOk result (string_bytes text.new ≡ string_bytes text.old ++ spec.tick owner number slot) }
{
    if owner.owns(slot) {
        write!(text, "M{number}.5 0V1")
    } else {
        Ok(())
    }
}

#[tactic(auto, unfolding(crate::specs::Lanes::ticks))]
fn write_ticks(text: &mut String, owner: Owner, slots: &[Slot]) -> Result<(), AllocError>
    ensures { OnOk result (string_bytes text.new ≡ string_bytes text.old ++ spec.ticks owner slots.now) }
{
    for (number, slot) in slots.iter().enumerate() {
        write_tick(text, owner, number, *slot)?;
    }
    Ok(())
}

// The class of an owner's lines.
#[tactic(auto, unfolding(crate::specs::Lanes::lane_class))]
fn lane_class(owner: Owner) -> &'static str
    ensures { result.now ≡ spec.lane_class owner }
{
    match owner {
        Owner::Item(Item::Stream(_)) => "stream",
        Owner::Item(Item::Pcr(_)) => "clock",
        Owner::Item(_) => "table",
        Owner::Null => "null",
    }
}

// How the picture of an item's slots begins; a slot is a unit wide.
#[tactic(auto, unfolding(crate::specs::Lanes::lane_head))]
fn write_lane_head(text: &mut String, class: &str, count: usize) -> Result<(), AllocError>
    ensures { OnOk result (string_bytes text.new ≡ string_bytes text.old ++ spec.lane_head class.now count) }
{
    write!(
        text,
        "<td class=\"slots\"><svg class=\"lane\" viewBox=\"0 0 {count} 1\" preserveAspectRatio=\"none\" role=\"img\"><path class=\"{class}\" d=\""
    )
}

// The row of an item.
#[tactic(auto, unfolding(crate::specs::Lanes::lane))]
fn write_lane(text: &mut String, slots: &[Slot], item: PlanItem) -> Result<(), AllocError>
    ensures { OnOk result (string_bytes text.new ≡ string_bytes text.old ++ spec.lane slots.now item) }
{
    write_label(text, item)?;
    write_lane_head(text, lane_class(item.owner), slots.len())?;
    write_ticks(text, item.owner, slots)?;
    text.push_str("\"/></svg>\n")
}

#[tactic(auto, unfolding(crate::specs::Lanes::each_lane))]
fn write_each_lane(text: &mut String, slots: &[Slot], items: &[PlanItem]) -> Result<(), AllocError>
    ensures { OnOk result (string_bytes text.new
        ≡ string_bytes text.old ++ spec.each_lane slots.now items.now) }
{
    for item in items {
        write_lane(text, slots, *item)?;
    }
    Ok(())
}

// A quarter of the scale: the slot that begins there, and its moment.
#[tactic(auto, unfolding(crate::specs::Lanes::quarter))]
fn write_quarter(text: &mut String, rate: u64, count: u64, quarter: u64) -> Result<(), AllocError>
    requires some { 0 < rate }
    ensures { OnOk result (string_bytes text.new ≡ string_bytes text.old ++ spec.quarter rate count quarter) }
{
    let slot = count.saturating_mul(quarter) / 4;
    write!(text, "<span>{slot}<br>")?;
    write_millis(text, time_of(slot, rate))?;
    text.push_str(" ms</span>")
}

// Some quarters of the scale.
#[tactic(auto, unfolding(crate::specs::Lanes::scale))]
fn write_quarters(
    text: &mut String,
    rate: u64,
    count: u64,
    quarters: &[u64],
) -> Result<(), AllocError>
    requires some { 0 < rate }
    ensures { OnOk result (string_bytes text.new
        ≡ string_bytes text.old ++ spec.scale rate count quarters.now) }
{
    for quarter in quarters {
        write_quarter(text, rate, count, *quarter)?;
    }
    Ok(())
}

/// Appends the rows of all items, and their scale.
#[tactic(auto, unfolding(crate::specs::Lanes::lanes))]
pub(crate) fn write_lanes(
    text: &mut String,
    rate: u64,
    slots: &[Slot],
    items: &[PlanItem],
) -> Result<(), AllocError>
    requires some { 0 < rate }
    ensures { OnOk result (string_bytes text.new
        ≡ string_bytes text.old ++ spec.lanes rate slots.now items.now) }
{
    text.push_str(
        "<div class=\"wide\"><table class=\"lanes\"><tr><th>PID<th class=\"word\">item<th>\n",
    )?;
    write_each_lane(text, slots, items)?;
    text.push_str("<tr><td><td class=\"word\">slot<td class=\"slots\"><div class=\"scale\">")?;
    write_quarters(text, rate, slots.len() as u64, &QUARTERS)?;
    text.push_str("</div>\n</table></div>\n")
}
