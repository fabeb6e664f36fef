//! What two descriptions have on the same PIDs.

ghost use Rattle.std.specs.Prelude.{◌≡◌, ◌<◌, ◌≤◌, map, position, slice_get};
ghost use Rattle.std.specs.List.{range_with_len};
ghost use Rattle.slot_plan.specs.SlotPids as pids;
ghost use Rattle.description.specs.Pids as description_pids;
ghost use Rattle.description_parts.specs.Tables.{table_count};
ghost use Rattle.line_ups.specs.Kept as spec;
ghost use Rattle.line_ups.specs.Faults as faults;

use arrayvec::ArrayVec;
use slot_plan::{Description, Slot};

// Returns the PID of a program's clock references, if its slots carry them.
fn references_pid(description: &Description, program: usize) -> Option<u16>
    ensures { result ≡ description_pids.references_pid description.now program }
{
    if !description.has_references(program) {
        return None;
    }
    match description.programs().get(program) {
        None => None,
        Some(program) => Some(program.pcr_pid()),
    }
}

// Returns the PID of a table, if the description has it.
#[tactic(auto, unfolding(slot_plan::specs::SlotPids::slot_pid))]
fn listed_pid(description: &Description, table: u8) -> Option<u16>
    ensures { result ≡ pids.slot_pid description.now (Slot.Table table) }
{
    let number = table as usize;
    match description.kind(number) {
        None => None,
        Some(_) => Some(description.table_pid(number)),
    }
}

/// Returns the PID of what a slot names, if the description has it.
#[tactic(auto, unfolding(slot_plan::specs::SlotPids::slot_pid))]
pub fn slot_pid(description: &Description, slot: Slot) -> Option<u16>
    ensures { result ≡ pids.slot_pid description.now slot }
{
    match slot {
        Slot::Stream(number) => match description.streams().get(number as usize) {
            None => None,
            Some(stream) => Some(stream.pid),
        },
        Slot::Pcr(number) => references_pid(description, number as usize),
        Slot::Table(number) => listed_pid(description, number),
        Slot::Null => None,
    }
}

/// Returns the PID of a slot, that of null packets if it has none.
pub fn pid_of(description: &Description, slot: Slot) -> u16
    ensures { result ≡ faults.pid_of description.now slot }
{
    slot_pid(description, slot).unwrap_or(8191)
}

/// Returns how many tables, programs and streams there are: 133, 64 and 254 at most.
#[tactic(auto, using(plan_checker::proofs::Counts::few_tables))]
pub fn slot_count(description: &Description) -> usize
    ensures value { result ≡ spec.slot_count description.now }
    ensures few { result ≤ 451 }
{
    description.keeps_ranges();
    description.tables() + description.programs().len() + description.streams().len()
}

/// Returns the slot of a number: the tables, the programs' clock references, the streams.
#[tactic(auto, using(plan_checker::proofs::Counts::few_tables))]
pub fn numbered_slot(description: &Description, number: usize) -> Slot
    requires { number < spec.slot_count description.now }
    ensures { result ≡ spec.numbered_slot description.now number }
{
    description.keeps_ranges();
    let tables = description.tables();
    let clocks = tables + description.programs().len();
    if number < tables {
        Slot::Table(number as u8)
    } else if number < clocks {
        Slot::Pcr((number - tables) as u8)
    } else {
        Slot::Stream((number - clocks) as u8)
    }
}

/// Returns the PIDs of the tables, of the programs' clock references and of the streams.
#[tactic(auto, using(changed_texts::proofs::NextTexts::one_more))]
pub fn slot_pids(description: &Description) -> ArrayVec<Option<u16>, 451>
    ensures { result.items ≡ spec.slot_pids description.now }
{
    let mut pids = ArrayVec::new();
    for number in 0..slot_count(description) {
        pids.push(slot_pid(description, numbered_slot(description, number)));
    }
    pids
}

fn is_pid(pid: u16, other: Option<u16>) -> bool
    ensures { result ≡ spec.is_pid pid other }
{
    match other {
        None => false,
        Some(other) => pid == other,
    }
}

/// Returns the number of the slot of a PID, if a description that has these PIDs has it.
pub fn number_with(pids: &[Option<u16>], pid: u16) -> Option<usize>
    ensures { result ≡ position (spec.is_pid pid) pids.now }
{
    pids.iter().position(|other| is_pid(pid, *other))
}

/// Returns what a description that has these PIDs has on one; null packets if it has nothing there.
pub fn slot_with(description: &Description, pids: &[Option<u16>], pid: u16) -> Slot
    requires { pids.now ≡ spec.slot_pids description.now }
    ensures { result ≡ spec.slot_with description.now pid }
{
    match number_with(pids, pid) {
        None => Slot::Null,
        Some(number) => numbered_slot(description, number),
    }
}

/// Returns what the other description, which has these PIDs, has on the PID of a slot.
pub fn slot_by(
    other: &Description,
    pids: &[Option<u16>],
    description: &Description,
    slot: Slot,
) -> Slot
    requires { pids.now ≡ spec.slot_pids other.now }
    ensures { result ≡ spec.slot_in other.now description.now slot }
{
    match slot_pid(description, slot) {
        None => Slot::Null,
        Some(pid) => slot_with(other, pids, pid),
    }
}

/// Returns what the other description has on the PID of a slot.
pub fn slot_in(other: &Description, description: &Description, slot: Slot) -> Slot
    ensures { result ≡ spec.slot_in other.now description.now slot }
{
    slot_by(other, slot_pids(other).as_slice(), description, slot)
}
