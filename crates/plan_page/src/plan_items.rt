//! The items of a description, with the limits of their gaps.
ghost use Rattle.std.specs.Prelude.{◌≡◌, ◌++◌, ◌∷◌, ◌<◌, ◌≤◌, [], IfOk, OnOk, length};
ghost use Rattle.slot_plan.specs.Numbered.{numbered};
ghost use Rattle.plan_page.specs.PlanItems as spec;

use crate::owners::Owner;
use crate::table_items::push_tables;
use events::PidName;
use plan_checker::clock_item;
use slot_plan::{Description, Item, ProgramDescription, StreamDescription};
use std::alloc::{AllocError, Global};
use stream_coding::coding_of;

/// What an item is called: what its PID carries, clock references, a program map, or a private table.
#[derive(Clone, Copy)]
pub enum ItemName {
    Carried(PidName),
    Pcr,
    Pmt,
    Private,
}

/// What a limit is of: a stream's lead, a program's clock references, or the sections of a table.
#[derive(Clone, Copy)]
pub enum LimitName {
    Lead,
    PcrLimit,
    TableLimit,
    Nothing,
}

/// What owns slots: its name, its program (0: none), its PID; and the limit, in units of 90 kHz, of its gaps over a
/// number of own slots in a row.
#[derive(Clone, Copy)]
pub struct PlanItem {
    pub owner: Owner,
    pub name: ItemName,
    pub program: u16,
    pub pid: u16,
    pub row: u16,
    pub limit: u32,
    pub limit_name: LimitName,
}

impl ItemName {
    /// Returns its word.
    #[tactic(auto, unfolding(crate::specs::PlanItems::word))]
    pub(crate) fn word(self) -> &'static str
        ensures { result.now ≡ spec.word self }
    {
        match self {
            ItemName::Carried(name) => name.word(),
            ItemName::Pcr => "PCR",
            ItemName::Pmt => "PMT",
            ItemName::Private => "private table",
        }
    }
}

impl LimitName {
    /// Returns its word.
    #[tactic(auto, unfolding(crate::specs::PlanItems::limit_word))]
    pub(crate) fn word(self) -> &'static str
        ensures { result.now ≡ spec.limit_word self }
    {
        match self {
            LimitName::Lead => "lead",
            LimitName::PcrLimit => "pcr_limit",
            LimitName::TableLimit => "table",
            LimitName::Nothing => "",
        }
    }
}

// A stream: between two of its slots there is less than its lead.
fn stream_item(number: usize, stream: &StreamDescription) -> PlanItem
    requires { number < 256 }
    ensures { result ≡ spec.stream_item number stream.now }
{
    let coding = coding_of(stream.stream_type, stream.descriptors.as_bytes(), &[]);
    PlanItem {
        owner: Owner::Item(Item::Stream(number as u8)),
        name: ItemName::Carried(PidName::of_coding(coding)),
        program: stream.program,
        pid: stream.pid,
        row: 1,
        limit: stream.lead,
        limit_name: LimitName::Lead,
    }
}

// The clock references of a program (ISO/IEC 13818-1, 2.7.2), in slots of the program that has its clock.
fn pcr_item(description: &Description, number: usize, program: &ProgramDescription) -> PlanItem
    requires { number < length description.now.programs }
    ensures { result ≡ spec.pcr_item description.now number program.now }
{
    PlanItem {
        owner: Owner::Item(clock_item(description, number)),
        name: ItemName::Pcr,
        program: program.number(),
        pid: program.pcr_pid(),
        row: 1,
        limit: u32::from(program.pcr_limit()) * 90,
        limit_name: LimitName::PcrLimit,
    }
}

// Null packets.
fn null_item() -> PlanItem
    ensures { result ≡ spec.null_item }
{
    PlanItem {
        owner: Owner::Null,
        name: ItemName::Carried(PidName::Null),
        program: 0,
        pid: 8_191,
        row: 0,
        limit: 0,
        limit_name: LimitName::Nothing,
    }
}

fn push_streams(items: &mut Vec<PlanItem>, streams: &[StreamDescription]) -> Result<(), AllocError>
    requires few { length streams.now ≤ 256 }
    ensures { OnOk result (items.new.items
        ≡ items.old.items ++ numbered (λ i s. spec.stream_item i s ∷ []) 0 streams.now) }
{
    for (number, stream) in streams.iter().enumerate() {
        items.push(stream_item(number, stream))?;
    }
    Ok(())
}

fn push_programs(items: &mut Vec<PlanItem>, description: &Description) -> Result<(), AllocError>
    ensures { OnOk result (items.new.items ≡ items.old.items
        ++ numbered (λ i p. spec.pcr_item description.now i p ∷ []) 0 description.now.programs) }
{
    for (number, program) in description.programs().iter().enumerate() {
        items.push(pcr_item(description, number, program))?;
    }
    Ok(())
}

/// Returns all that slots can be for: the streams, the clock references and the tables of a description, each in the
/// order of their numbers, and null packets.
pub(crate) fn plan_items(
    alloc: Global,
    description: &Description,
) -> Result<Vec<PlanItem>, AllocError>
    ensures { IfOk result (λ items. items.items ≡ spec.plan_items description.now) }
{
    description.keeps_ranges();
    let mut items = Vec::new(alloc);
    push_streams(&mut items, description.streams())?;
    push_programs(&mut items, description)?;
    push_tables(&mut items, description)?;
    items.push(null_item())?;
    Ok(items)
}
