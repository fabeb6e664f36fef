//! The tables of a description as items of a plan.
ghost use Rattle.std.specs.Prelude.{◌≡◌, ◌++◌, ◌∷◌, ◌<◌, ◌≤◌, [], OnOk};
ghost use Rattle.description_parts.specs.Ranges.{IsInRange};
ghost use Rattle.description_parts.specs.Tables.{table_count, table_kinds};
ghost use Rattle.slot_plan.specs.Numbered.{numbered};
ghost use Rattle.plan_page.specs.PlanItems as spec;

use crate::owners::Owner;
use crate::plan_items::{ItemName, LimitName, PlanItem};
use events::PidName;
use slot_plan::{Description, Item, PrivateTable, TableKind};
use std::alloc::AllocError;

// What a table is called.
#[tactic(auto, unfolding(crate::specs::PlanItems::table_name))]
fn table_name(kind: Option<TableKind>) -> ItemName
    ensures { result ≡ spec.table_name kind }
{
    match kind {
        Some(TableKind::Pat) => ItemName::Carried(PidName::Pat),
        Some(TableKind::Pmt(_)) => ItemName::Pmt,
        Some(TableKind::Nit) => ItemName::Carried(PidName::Nit),
        Some(TableKind::Sdt) => ItemName::Carried(PidName::Sdt),
        Some(TableKind::Eit) => ItemName::Carried(PidName::Eit),
        Some(TableKind::Tdt) => ItemName::Carried(PidName::Tdt),
        Some(TableKind::Private(_)) => ItemName::Private,
        None => ItemName::Carried(PidName::Other),
    }
}

// Returns the number of the program of a place; 0 if there is no program.
#[tactic(auto, unfolding(crate::specs::PlanItems::number_at))]
fn number_at(description: &Description, place: usize) -> u16
    ensures { result ≡ spec.number_at description.now place }
{
    match description.programs().get(place) {
        None => 0,
        Some(program) => program.number(),
    }
}

// The number of the program whose map names a private table, 0 where none does.
#[tactic(auto, unfolding(crate::specs::PlanItems::entry_number))]
fn entry_number(table: &PrivateTable) -> u16
    ensures { result ≡ spec.entry_number table.now.entry }
{
    match table.entry() {
        None => 0,
        Some(entry) => entry.program,
    }
}

#[tactic(auto, unfolding(crate::specs::PlanItems::number_naming))]
fn number_naming(description: &Description, place: usize) -> u16
    ensures { result ≡ spec.number_naming description.now place }
{
    match description.private_tables().get(place) {
        None => 0,
        Some(table) => entry_number(table),
    }
}

// The program of a table: its own, if it is a program map; otherwise the program whose map names it.
#[tactic(auto, unfolding(crate::specs::PlanItems::table_program))]
fn table_program(description: &Description, kind: Option<TableKind>) -> u16
    ensures { result ≡ spec.table_program description.now kind }
{
    match kind {
        Some(TableKind::Pmt(place)) => number_at(description, place),
        Some(TableKind::Private(place)) => number_naming(description, place),
        _ => 0,
    }
}

// A table: its sections recur, each after a round of all of them.
fn table_item(description: &Description, table: usize) -> PlanItem
    requires there { table < table_count description.now }
    requires few { table_count description.now ≤ 256 }
    requires ranges { IsInRange description.now }
    ensures { result ≡ spec.table_item description.now table }
{
    let kind = description.kind(table);
    PlanItem {
        owner: Owner::Item(Item::Table(table as u8)),
        name: table_name(kind),
        program: table_program(description, kind),
        pid: description.table_pid(table),
        row: description.round_packets(table) as u16,
        limit: u32::from(description.table_limit(table)) * 90,
        limit_name: LimitName::TableLimit,
    }
}

/// Appends the tables of a description.
pub(crate) fn push_tables(
    items: &mut Vec<PlanItem>,
    description: &Description,
) -> Result<(), AllocError>
    requires few { table_count description.now ≤ 256 }
    requires ranges { IsInRange description.now }
    ensures { OnOk result (items.new.items ≡ items.old.items
        ++ numbered (λ t _. spec.table_item description.now t ∷ []) 0 (table_kinds description.now)) }
{
    for table in 0..description.tables() {
        items.push(table_item(description, table))?;
    }
    Ok(())
}
