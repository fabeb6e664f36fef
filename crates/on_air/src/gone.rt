//! PIDs that have gone: an earlier line-up had them, and the line-up in force does not.

ghost use Rattle.std.specs.Prelude.{◌≡◌, ◌++◌, IfOk, find, option_map};
ghost use Rattle.on_air.specs.LineUps as spec;

use description::Description;
use line_ups::{number_with, slot_pids};
use std::alloc::{AllocError, Allocator};

// Returns whether a PID is one of these.
fn is_among(pids: &[u16], pid: Option<u16>) -> bool
    ensures { result ≡ spec.is_among pids.now pid }
{
    match pid {
        None => false,
        Some(pid) => pids.contains(&pid),
    }
}

// Returns the first of some PIDs that has gone.
fn first_gone<'a>(gone: &[u16], pids: &'a [Option<u16>]) -> Option<&'a Option<u16>>
    ensures { option_map (λ pid. pid.now) result ≡ find (spec.is_among gone.now) pids.entry.now }
{
    pids.iter().find(|pid| is_among(gone, **pid))
}

/// Returns the first PID of a description that has gone.
pub(crate) fn returned_pid(gone: &[u16], description: &Description) -> Option<u16>
    ensures { result ≡ spec.returned_pid gone.now description.now }
{
    let pids = slot_pids(description);
    match first_gone(gone, pids.as_slice()) {
        None => None,
        Some(pid) => *pid,
    }
}

// Returns a PID that is not one of these.
fn unless_listed(pids: &[Option<u16>], pid: Option<u16>) -> Option<u16>
    ensures { result ≡ spec.unless_listed pids.now pid }
{
    match pid {
        None => None,
        Some(number) => match number_with(pids, number) {
            None => pid,
            Some(_) => None,
        },
    }
}

/// Returns the PIDs that have gone, with those of the old description that the new one does not have.
pub(crate) fn gone_after<A: Allocator>(
    alloc: A,
    gone: &[u16],
    old: &Description,
    new: &Description,
) -> Result<Vec<u16, A>, AllocError>
    ensures { IfOk result (λ pids. pids.items ≡ gone.now ++ spec.pids_gone old.now new.now) }
{
    let mut pids = Vec::new(alloc);
    pids.extend_from_slice(gone)?;
    let listed = slot_pids(new);
    for pid in slot_pids(old).as_slice() {
        if let Some(number) = unless_listed(listed.as_slice(), *pid) {
            pids.push(number)?;
        }
    }
    Ok(pids)
}
