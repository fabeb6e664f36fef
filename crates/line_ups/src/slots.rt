//! Whether what stays has its own slots in both plans.

ghost use Rattle.std.specs.Prelude.{◌≡◌};
ghost use Rattle.line_ups.specs.Kept as kept;
ghost use Rattle.line_ups.specs.Faults as spec;

use crate::fault::LineUpFault;
use crate::names::{number_with, slot_pid, slot_pids};
use plan_checker::CheckedPlan;
use slot_plan::serving_plans::serving_plan;
use std::alloc::Allocator;

// Returns the PID on which a line-up has a packet in a slot of the run.
fn carried<A: Allocator>(line_up: &CheckedPlan<A>, slot: usize) -> Option<u16>
    ensures { result ≡ kept.carried line_up.now slot }
{
    serving_plan();
    let slots = line_up.plan().slots();
    slot_pid(line_up.description(), slots[slot % slots.len()])
}

// Returns whether these PIDs have this one among them.
fn has_listed(pids: &[Option<u16>], pid: Option<u16>) -> bool
    ensures { result ≡ kept.has_listed pids.now pid }
{
    match pid {
        None => false,
        Some(pid) => number_with(pids, pid).is_some(),
    }
}

fn is_same_pid(one: Option<u16>, other: Option<u16>) -> bool
    ensures { result ≡ spec.is_same_pid one other }
{
    match (one, other) {
        (None, None) => true,
        (Some(one), Some(other)) => one == other,
        _ => false,
    }
}

fn divides(one: usize, other: usize) -> bool
    ensures { result ≡ spec.divides one other }
{
    one > 0 && other > 0 && (one % other == 0 || other % one == 0)
}

// Two line-ups with their PIDs.
#[derive(Drop)]
struct LineUps<'a, A: Allocator> {
    old: &'a CheckedPlan<A>,
    new: &'a CheckedPlan<A>,
    old_pids: &'a [Option<u16>],
    new_pids: &'a [Option<u16>],
    ghost old_has: { old_pids.now ≡ kept.slot_pids old.now.description },
    ghost new_has: { new_pids.now ≡ kept.slot_pids new.now.description },
}

impl<'a, A: Allocator> LineUps<'a, A> {
    ghost use Rattle.std.specs.Prelude.{◌≡◌, find};
    ghost use Rattle.std.specs.List.{range_with_len};
    ghost use Rattle.line_ups.specs.Faults as spec;

    // Returns whether one line-up carries a PID that both have in a slot where the other one does not carry it.
    fn differs_at(&self, at: usize) -> bool
        ensures { result ≡ spec.differs_at self.now.old.now self.now.new.now at }
    {
        let (one, other) = (carried(self.old, at), carried(self.new, at));
        !is_same_pid(one, other)
            && (has_listed(self.old_pids, other) || has_listed(self.new_pids, one))
    }

    // Returns the PID that has other slots there.
    fn moved_pid(&self, at: usize) -> u16
        ensures { result ≡ spec.moved_pid self.now.old.now self.now.new.now at }
    {
        let other = carried(self.new, at);
        if has_listed(self.old_pids, other) {
            other.unwrap_or(8191)
        } else {
            carried(self.old, at).unwrap_or(8191)
        }
    }

    // Returns the first slot in which they differ.
    fn first_difference(&self) -> Option<usize>
        ensures { result ≡ find (spec.differs_at self.now.old.now self.now.new.now)
            (range_with_len 0 (spec.longer_period self.now.old.now self.now.new.now)) }
    {
        let longer = self
            .old
            .plan()
            .slots()
            .len()
            .max(self.new.plan().slots().len());
        (0..longer).find(|at| self.differs_at(*at))
    }
}

// Returns the PID of what stays and has, in the first such slot, other slots.
fn moved_fault<A: Allocator>(old: &CheckedPlan<A>, new: &CheckedPlan<A>) -> Option<LineUpFault>
    ensures { result ≡ spec.moved_fault old.now new.now }
{
    let old_pids = slot_pids(old.description());
    let new_pids = slot_pids(new.description());
    let both = LineUps {
        old,
        new,
        old_pids: old_pids.as_slice(),
        new_pids: new_pids.as_slice(),
    };
    match both.first_difference() {
        None => None,
        Some(at) => Some(LineUpFault::Moved(both.moved_pid(at))),
    }
}

/// Returns the PID of what stays and has, in the first such slot, other slots; or that no period is the other one a
/// whole number of times.
pub fn slots_fault<A: Allocator>(old: &CheckedPlan<A>, new: &CheckedPlan<A>) -> Option<LineUpFault>
    ensures { result ≡ spec.slots_fault old.now new.now }
{
    if divides(old.plan().slots().len(), new.plan().slots().len()) {
        moved_fault(old, new)
    } else {
        Some(LineUpFault::Period)
    }
}
