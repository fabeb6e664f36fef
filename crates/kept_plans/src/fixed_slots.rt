//! The slots that what stays on air keeps.

ghost use Rattle.std.specs.Prelude.{◌≡◌, IfOk, slice_get, slice_index_or};
ghost use Rattle.description_parts.specs.Tables.{table_kind};
ghost use Rattle.line_ups.specs.Kept as kept;
ghost use Rattle.slot_plan.specs.Schedule.{repeated};
ghost use Rattle.kept_plans.specs.Kept as spec;

use line_ups::{slot_by, slot_pids};
use plan_checker::CheckedPlan;
use slot_plan::serving_plans::serving_plan;
use slot_plan::{Description, Slot, TableKind};
use std::alloc::{AllocError, Allocator};

// Returns whether a stream is of the program of this number.
fn is_of_number(description: &Description, number: u16, stream: usize) -> bool
    ensures { result ≡ spec.is_of_number number (slice_get description.now.streams stream) }
{
    match description.streams().get(stream) {
        None => false,
        Some(stream) => stream.program == number,
    }
}

// Returns whether a table is the PMT of the program at this place.
fn is_map_of(description: &Description, place: usize, table: usize) -> bool
    ensures { result ≡ spec.is_map_of place (table_kind description.now table) }
{
    match description.kind(table) {
        Some(TableKind::Pmt(program)) => place == program,
        _ => false,
    }
}

/// Returns whether a slot carries a packet of the program at this place: of its streams, its clock references, its PMT.
pub fn carries(description: &Description, place: usize, slot: Slot) -> bool
    ensures { result ≡ spec.carries description.now place (slice_get description.now.programs place) slot }
{
    let Some(program) = description.programs().get(place) else {
        return false;
    };
    match slot {
        Slot::Stream(number) => is_of_number(description, program.number(), number as usize),
        Slot::Pcr(number) => place == number as usize,
        Slot::Table(number) => is_map_of(description, place, number as usize),
        Slot::Null => false,
    }
}

/// Returns whether a slot may be given up.
pub fn is_given_up(description: &Description, given: Option<usize>, slot: Slot) -> bool
    ensures { result ≡ spec.is_given_up description.now given slot }
{
    match given {
        None => false,
        Some(place) => carries(description, place, slot),
    }
}

// Returns what a description keeps in a slot of the line-up on air; null packets if it has nothing on the PID.
fn fixed_slot<A: Allocator>(
    old: &CheckedPlan<A>,
    description: &Description,
    pids: &[Option<u16>],
    given: Option<usize>,
    at: usize,
) -> Slot
    requires { pids.now ≡ kept.slot_pids description.now }
    ensures { result ≡ spec.fixed_slot old.now description.now given at }
{
    serving_plan();
    let slots = old.plan().slots();
    let slot = slot_by(
        description,
        pids,
        old.description(),
        slots[at % slots.len()],
    );
    if is_given_up(description, given, slot) {
        Slot::Null
    } else {
        slot
    }
}

/// Returns the slots of a period that what stays keeps, by the numbers of the new description; null packets elsewhere.
pub fn fixed_slots<A: Allocator, B: Allocator>(
    alloc: A,
    old: &CheckedPlan<B>,
    description: &Description,
    given: Option<usize>,
    period: usize,
) -> Result<Vec<Slot, A>, AllocError>
    ensures { IfOk result (λ slots. slots.items ≡ spec.fixed_slots old.now description.now given period) }
{
    let listed = slot_pids(description);
    let pids = listed.as_slice();
    (0..period)
        .map(|at| fixed_slot(old, description, pids, given, at))
        .collect(alloc)
}

fn has_content(fixed: Slot, slot: Slot) -> bool
    ensures { result ≡ spec.has_content fixed slot }
{
    match (fixed, slot) {
        (Slot::Null, _) => true,
        (Slot::Stream(own), Slot::Stream(number)) => own == number,
        (Slot::Pcr(own), Slot::Pcr(number)) => own == number,
        (Slot::Table(own), Slot::Table(number)) => own == number,
        _ => false,
    }
}

// Returns the slot of a place; null packets after the last one.
fn slot_at(slots: &[Slot], at: usize) -> Slot
    ensures { result ≡ slice_index_or slots.now at Slot.Null }
{
    match slots.get(at) {
        None => Slot::Null,
        Some(slot) => *slot,
    }
}

/// Returns whether each fixed slot has its content.
pub fn has_contents(fixed: &[Slot], slots: &[Slot]) -> bool
    ensures { result ≡ spec.has_contents fixed.now slots.now }
{
    (0..fixed.len()).all(|at| has_content(slot_at(fixed, at), slot_at(slots, at)))
}
