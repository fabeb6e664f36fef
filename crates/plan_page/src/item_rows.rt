//! What each item has of the slots: its share, and its greatest gap beside its limit.
ghost use Rattle.std.specs.Prelude.{◌≡◌, ◌++◌, ◌<◌, ◌≤◌, OnOk, length, string_bytes};
ghost use Rattle.plan_page.specs.ItemRows as spec;

use crate::lanes::{time_of, write_label, write_millis};
use crate::owners::gap_in;
use crate::plan_items::PlanItem;
use page_curves::{write_grouped, write_tenths};
use slot_plan::Slot;
use std::alloc::AllocError;
use std::fmt::Write;

// The program of an item, if it has one.
fn write_program(text: &mut String, program: u16) -> Result<(), AllocError>
    ensures { OnOk result (string_bytes text.new ≡ string_bytes text.old ++ spec.program_text program) }
{
    if program > 0 {
        write!(text, "{program}")
    } else {
        Ok(())
    }
}

/// Appends the share of `count` of all slots in per cent.
#[tactic(auto, unfolding(crate::specs::ItemRows::share))]
pub(crate) fn write_share(text: &mut String, count: u64, all: u64) -> Result<(), AllocError>
    requires some { 0 < all }
    requires short { all ≤ 65536 }
    requires part { count ≤ all }
    ensures { OnOk result (string_bytes text.new ≡ string_bytes text.old ++ spec.share count all) }
{
    write_tenths(text, count * 100, all)
}

// The slots of an item: their number, their share, and their bit rate.
#[tactic(auto, unfolding(crate::specs::ItemRows::share_cells))]
fn write_share_cells(text: &mut String, rate: u64, count: u64, all: u64) -> Result<(), AllocError>
    requires fast { rate ≤ 100000000 }
    requires some { 0 < all }
    requires short { all ≤ 65536 }
    requires part { count ≤ all }
    ensures { OnOk result (string_bytes text.new ≡ string_bytes text.old ++ spec.share_cells rate count all) }
{
    let bits = rate * count / all;
    write!(text, "<td>{count}<td>")?;
    write_share(text, count, all)?;
    text.push_str("<td>")?;
    write_grouped(text, bits)
}

// A time beside a limit, as a bar that ends where the limit lies.
#[tactic(auto, unfolding(crate::specs::ItemRows::bar))]
fn write_bar(text: &mut String, time: u64, limit: u32) -> Result<(), AllocError>
    ensures { OnOk result (string_bytes text.new ≡ string_bytes text.old ++ spec.bar time limit) }
{
    write!(
        text,
        "<td><svg class=\"bar\" viewBox=\"0 0 {limit} 1\" preserveAspectRatio=\"none\" role=\"img\"><path d=\"M0 .5H{time}\"/></svg>"
    )
}

#[tactic(auto, unfolding(crate::specs::ItemRows::word_cell))]
fn write_word(text: &mut String, word: &str) -> Result<(), AllocError>
    ensures { OnOk result (string_bytes text.new ≡ string_bytes text.old ++ spec.word_cell word.now) }
{
    write!(text, "<td class=\"word\">{word}")
}

// The limit of an item's gaps.
#[tactic(auto, unfolding(crate::specs::ItemRows::limit_cells))]
fn write_limit(text: &mut String, item: PlanItem) -> Result<(), AllocError>
    ensures { OnOk result (string_bytes text.new ≡ string_bytes text.old ++ spec.limit_cells item) }
{
    text.push_str("<td>")?;
    write_millis(text, u64::from(item.limit))?;
    write_word(text, item.limit_name.word())
}

// Over how many slots in a row a gap is, and its slots.
#[tactic(auto, unfolding(crate::specs::ItemRows::gap_head))]
fn write_gap_head(text: &mut String, row: u16, gap: u64) -> Result<(), AllocError>
    ensures { OnOk result (string_bytes text.new ≡ string_bytes text.old ++ spec.gap_head row gap) }
{
    write!(text, "<td>{row}<td>{gap}<td>")
}

// The greatest gap of an item, and its limit.
#[tactic(auto, unfolding(crate::specs::ItemRows::gap_cells))]
fn write_gap(text: &mut String, rate: u64, item: PlanItem, gap: u64) -> Result<(), AllocError>
    requires some { 0 < rate }
    ensures { OnOk result (string_bytes text.new ≡ string_bytes text.old ++ spec.gap_cells rate item gap) }
{
    let time = time_of(gap, rate);
    write_gap_head(text, item.row, gap)?;
    write_millis(text, time)?;
    write_limit(text, item)?;
    write_bar(text, time, item.limit)
}

// The same; cells without a text where there is no gap.
#[tactic(auto, unfolding(crate::specs::ItemRows::gap_cells_if))]
fn write_gap_if(
    text: &mut String,
    rate: u64,
    item: PlanItem,
    gap: Option<u64>,
) -> Result<(), AllocError>
    requires some { 0 < rate }
    ensures { OnOk result (string_bytes text.new ≡ string_bytes text.old ++ spec.gap_cells_if rate item gap) }
{
    match gap {
        None => text.push_str("<td colspan=\"6\">"),
        Some(gap) => write_gap(text, rate, item, gap),
    }
}

// The row of an item.
#[tactic(auto, unfolding(crate::specs::ItemRows::item_row))]
fn write_row(text: &mut String, rate: u64, slots: &[Slot], item: PlanItem) -> Result<(), AllocError>
    requires some_rate { 0 < rate }
    requires fast { rate ≤ 100000000 }
    requires some { 0 < length slots.now }
    requires short { length slots.now ≤ 65536 }
    ensures { OnOk result (string_bytes text.new ≡ string_bytes text.old ++ spec.item_row rate slots.now item) }
{
    write_label(text, item)?;
    text.push_str("<td>")?;
    write_program(text, item.program)?;
    write_share_cells(text, rate, item.owner.count_in(slots), slots.len() as u64)?;
    write_gap_if(
        text,
        rate,
        item,
        gap_in(item.owner, slots, u64::from(item.row)),
    )?;
    text.push_str("\n")
}

/// Appends the rows of all items.
#[tactic(auto, unfolding(crate::specs::ItemRows::item_rows))]
pub(crate) fn write_item_rows(
    text: &mut String,
    rate: u64,
    slots: &[Slot],
    items: &[PlanItem],
) -> Result<(), AllocError>
    requires some_rate { 0 < rate }
    requires fast { rate ≤ 100000000 }
    requires some { 0 < length slots.now }
    requires short { length slots.now ≤ 65536 }
    ensures { OnOk result (string_bytes text.new
        ≡ string_bytes text.old ++ spec.item_rows rate slots.now items.now) }
{
    for item in items {
        write_row(text, rate, slots, *item)?;
    }
    Ok(())
}
