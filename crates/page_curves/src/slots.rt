//! The slots of a curve.
ghost use Rattle.std.specs.Prelude.{◌≡◌, ℕ, ◌+◌, ◌*◌, ◌≤◌, vec_len};
ghost use Rattle.page_curves.specs.Bounds as bounds;
ghost use Rattle.page_curves.specs.Slots as spec;

use crate::bounds::{Bounds, joined};

/// The greatest number of slots of a curve.
pub const MOST_SLOTS: usize = 512;

/// Returns the values of a slot; a slot past the last one has no values.
pub fn slot_at(slots: &[Option<Bounds>], slot: usize) -> Option<Bounds>
    ensures { result ≡ spec.slot_at slots.now slot }
{
    match slots.get(slot) {
        None => None,
        Some(bounds) => *bounds,
    }
}

/// Joins each slot of an even place with the slot after it, so that half as many slots are left.
pub(crate) fn join_neighbours(slots: &mut Vec<Option<Bounds>>)
    requires { vec_len slots.old ≤ 512 }
    ensures joined { (slot : ℕ) → spec.slot_at slots.new.items slot
        ≡ bounds.joined (spec.slot_at slots.old.items (2 * slot)) (spec.slot_at slots.old.items (2 * slot + 1)) }
    ensures few { vec_len slots.new ≤ 512 }
{
    let count = slots.len().div_ceil(2);
    for slot in 0..count {
        let bounds = joined(slot_at(slots, 2 * slot), slot_at(slots, 2 * slot + 1));
        slots[slot] = bounds;
    }
    slots.truncate(count);
}

/// Returns the greatest value of all slots, 0 if no slot has a value.
pub(crate) fn greatest_of(slots: &[Option<Bounds>]) -> u64
    ensures { result ≡ spec.greatest_of slots.now }
{
    let mut greatest: u64 = 0;
    for bounds in slots {
        greatest = greatest.max(greatest_in(*bounds));
    }
    greatest
}

// Returns the greatest value of a slot, 0 if it has no value.
#[tactic(auto, unfolding(crate::specs::Slots::greatest_in))]
fn greatest_in(bounds: Option<Bounds>) -> u64
    ensures { result ≡ spec.greatest_in bounds }
{
    match bounds {
        None => 0,
        Some(bounds) => bounds.greatest,
    }
}
