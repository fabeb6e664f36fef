//! Whether each PID that both line-ups have is of one thing.

ghost use Rattle.std.specs.Prelude.{◌≡◌, slice_get, find};
ghost use Rattle.std.specs.List.{range_with_len};
ghost use Rattle.changed_texts.specs.Fixed.{is_same_option, is_same_program, is_same_stream, is_same_table};
ghost use Rattle.line_ups.specs.Kept as spec;
ghost use Rattle.line_ups.specs.Faults as faults;

use crate::fault::LineUpFault;
use crate::names::{numbered_slot, pid_of, slot_by, slot_count, slot_pids};
use changed_texts::{is_same_program, is_same_stream, is_same_table};
use slot_plan::{Description, Slot, TableKind};

fn is_same_map(old: &Description, new: &Description, i: usize, j: usize) -> bool
    ensures { result ≡ is_same_option is_same_program (slice_get old.now.programs i) (slice_get new.now.programs j) }
{
    match (old.programs().get(i), new.programs().get(j)) {
        (None, None) => true,
        (Some(one), Some(other)) => is_same_program(one, other),
        _ => false,
    }
}

fn is_same_private(old: &Description, new: &Description, i: usize, j: usize) -> bool
    ensures { result ≡ is_same_option is_same_table (slice_get old.now.tables i) (slice_get new.now.tables j) }
{
    match (old.private_tables().get(i), new.private_tables().get(j)) {
        (None, None) => true,
        (Some(one), Some(other)) => is_same_table(one, other),
        _ => false,
    }
}

// Returns whether two tables are of one kind: PMTs of one program, private tables with one limit.
fn is_same_kind(old: &Description, new: &Description, one: TableKind, other: TableKind) -> bool
    ensures { result ≡ spec.is_same_kind old.now new.now one other }
{
    match (one, other) {
        (TableKind::Pmt(i), TableKind::Pmt(j)) => is_same_map(old, new, i, j),
        (TableKind::Private(i), TableKind::Private(j)) => is_same_private(old, new, i, j),
        (TableKind::Pat, TableKind::Pat) => true,
        (TableKind::Nit, TableKind::Nit) => true,
        (TableKind::Sdt, TableKind::Sdt) => true,
        (TableKind::Eit, TableKind::Eit) => true,
        (TableKind::Tdt, TableKind::Tdt) => true,
        _ => false,
    }
}

fn is_same_declared(old: &Description, new: &Description, i: u8, j: u8) -> bool
    ensures { result ≡ is_same_option is_same_stream (slice_get old.now.streams i) (slice_get new.now.streams j) }
{
    match (old.streams().get(i as usize), new.streams().get(j as usize)) {
        (None, None) => true,
        (Some(one), Some(other)) => is_same_stream(one, other),
        _ => false,
    }
}

fn are_same_tables(old: &Description, new: &Description, t: u8, u: u8) -> bool
    ensures { result ≡ spec.is_same_slot old.now new.now (Slot.Table t) (Slot.Table u) }
{
    match (old.kind(t as usize), new.kind(u as usize)) {
        (None, None) => true,
        (Some(one), Some(other)) => is_same_kind(old, new, one, other),
        _ => false,
    }
}

// Returns whether two slots are of one thing: tables of a kind, clock references, streams with one declaration.
fn is_same_slot(old: &Description, new: &Description, one: Slot, other: Slot) -> bool
    ensures { result ≡ spec.is_same_slot old.now new.now one other }
{
    match (one, other) {
        (Slot::Table(t), Slot::Table(u)) => are_same_tables(old, new, t, u),
        (Slot::Pcr(_), Slot::Pcr(_)) => true,
        (Slot::Stream(i), Slot::Stream(j)) => is_same_declared(old, new, i, j),
        _ => false,
    }
}

fn is_other(old: &Description, new: &Description, before: Slot, slot: Slot) -> bool
    ensures { result ≡ faults.is_other old.now new.now before slot }
{
    match before {
        Slot::Null => false,
        _ => !is_same_slot(old, new, before, slot),
    }
}

// Returns whether the old description, which has these PIDs, has something else on the PID of the new one's slot of a
// number.
#[tactic(auto, using(crate::proofs::Numbers::none_beyond))]
fn is_reused(old: &Description, pids: &[Option<u16>], new: &Description, number: usize) -> bool
    requires { pids.now ≡ spec.slot_pids old.now }
    ensures { result ≡ faults.is_reused old.now new.now number }
{
    if number >= slot_count(new) {
        return false;
    }
    let slot = numbered_slot(new, number);
    is_other(old, new, slot_by(old, pids, new, slot), slot)
}

// Returns the first such number.
fn first_reused(old: &Description, pids: &[Option<u16>], new: &Description) -> Option<usize>
    requires { pids.now ≡ spec.slot_pids old.now }
    ensures { result ≡ find (faults.is_reused old.now new.now) (range_with_len 0 (spec.slot_count new.now)) }
{
    (0..slot_count(new)).find(|number| is_reused(old, pids, new, *number))
}

/// Returns the first PID of the new description on which the old one has something else.
#[tactic(auto, using(crate::proofs::Numbers::found_within))]
pub fn pid_fault(old: &Description, new: &Description) -> Option<LineUpFault>
    ensures { result ≡ faults.pid_fault old.now new.now }
{
    match first_reused(old, slot_pids(old).as_slice(), new) {
        None => None,
        Some(number) => Some(LineUpFault::Pid(pid_of(new, numbered_slot(new, number)))),
    }
}
